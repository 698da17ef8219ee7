// What is looked up in an edition. If it is not lawful, nothing is found.
ghost use Rattle.std.specs.Prelude.{◌≡◌, Decides};
ghost use Rattle.std.specs.Option.{option_map};
ghost use Rattle.market.specs.Faults.{is_lawful};
ghost use Rattle.market.specs.Lawful.{Lawful};
ghost use Rattle.market.specs.Lists.{lists_of};
ghost use Rattle.market.specs.Lookups.{lists_in, HasSupplier, regimes_of, combinations_of, default_on};

use crate::checked::CheckedEdition;
use crate::edition::{Combination, Edition};
use crate::keys::Key;

impl<'a> Edition<'a> {
    // The edition with the verdict on it, to look things up in.
    pub fn checked(self) -> CheckedEdition<'a>
        ensures { lists_in result ≡ lists_of self.entry }
    {
        let lawful = self.is_lawful();
        CheckedEdition {
            edition: self,
            lawful,
        }
    }
}

impl<'a> CheckedEdition<'a> {
    pub fn is_lawful(&self) -> bool
        ensures value { result ≡ is_lawful (lists_in self.now) }
        ensures law { Decides result (Lawful (lists_in self.now)) }
    {
        self.lawful
    }

    // Whether the supplier is listed.
    pub fn has_supplier(&self, id: u16) -> bool
        ensures { Decides result (HasSupplier (lists_in self.now) id) }
    {
        self.if_lawful()
            .is_some_and(|edition| edition.has_supplier(id))
    }

    // The time pattern regimes of a configuration, if it is listed.
    pub fn regimes(&self, configuration: u16) -> Option<&'a [u16]>
        ensures { option_map (λ regimes. regimes.now) result ≡ regimes_of (lists_in self.now) configuration }
    {
        let found = self.if_lawful()?.configurations().find(configuration)?;
        Some(found.regimes)
    }

    // The combinations of a configuration: the part of the list where they stand.
    pub fn combinations(&self, configuration: u16) -> &'a [Combination]
        ensures { result.now ≡ combinations_of (lists_in self.now) configuration }
    {
        match self.if_lawful() {
            Some(edition) => edition.combinations().of_configuration(configuration),
            None => &[],
        }
    }

    // The default of the combination that is listed for the three on the day.
    pub fn default_on(&self, configuration: u16, class: u8, group: char, day: u16) -> Option<i32>
        ensures { result ≡ default_on (lists_in self.now) configuration class group day }
    {
        let key = Key {
            configuration,
            class,
            group,
        };
        let found = self.if_lawful()?.combinations().find(key)?;
        found.is_on(day).then_some(found.default)
    }
}
