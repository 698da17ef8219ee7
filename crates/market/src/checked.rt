// An edition together with the verdict on it: the types, and in `lookups` what is looked up.
mod lookups;

ghost use Rattle.std.specs.Prelude.{◌≡◌, true, false, MatchOption, Decides};
ghost use Rattle.std.specs.List.{ContainsAt as Has};
ghost use Rattle.market.specs.Faults.{is_lawful};
ghost use Rattle.market.specs.Lists.{lists_of};

use crate::ascents::Ascending;
use crate::edition::{Combination, Configuration, Edition};

// The flag stands beside the edition, since clauses speak of the lists of one that is not lawful too.
#[derive(Clone, Copy)]
pub struct CheckedEdition<'a> {
    edition: Edition<'a>,
    lawful: bool,
    ghost verdict: { lawful ≡ is_lawful (lists_of edition) },
}

// An edition in which things may be looked up.
#[derive(Clone, Copy)]
struct LawfulEdition<'a> {
    edition: Edition<'a>,
    ghost lawful: { is_lawful (lists_of edition) ≡ true },
}

impl<'a> CheckedEdition<'a> {
    fn if_lawful(&self) -> Option<LawfulEdition<'a>>
        ensures { MatchOption result (is_lawful (lists_of self.now.edition) ≡ false) (λ lawful. lawful.edition ≡ self.now.edition) }
    {
        if self.lawful {
            Some(LawfulEdition {
                edition: self.edition,
            })
        } else {
            None
        }
    }
}

impl<'a> LawfulEdition<'a> {
    fn has_supplier(&self, id: u16) -> bool
        ensures { Decides result (Has self.now.edition.suppliers.now id) }
    {
        self.suppliers().find(id).is_some()
    }

    fn suppliers(&self) -> Ascending<'a, u16>
        ensures { result.entries ≡ self.now.edition.suppliers }
    {
        Ascending {
            entries: self.edition.suppliers,
        }
    }

    fn configurations(&self) -> Ascending<'a, Configuration<'a>>
        ensures { result.entries ≡ self.now.edition.configurations }
    {
        Ascending {
            entries: self.edition.configurations,
        }
    }

    fn combinations(&self) -> Ascending<'a, Combination>
        ensures { result.entries ≡ self.now.edition.combinations }
    {
        Ascending {
            entries: self.edition.combinations,
        }
    }
}
