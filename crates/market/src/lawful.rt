// Whether an edition is lawful, and if not, why.
ghost use Rattle.std.specs.Prelude.{◌≡◌, not, is_some, IfSome, Decides};
ghost use Rattle.std.specs.Result.{result_err};
ghost use Rattle.market.specs.Faults.{Breaks, first_fault, is_lawful};
ghost use Rattle.market.specs.Lawful.{Lawful};
ghost use Rattle.market.specs.Lists.{lists_of};

use crate::edition::Edition;
use crate::faults::EditionFault;
use crate::rules::{check_combinations, check_configurations, check_suppliers};

impl<'a> Edition<'a> {
    // The lists one after another, up to the first fault.
    fn check(&self) -> Result<(), EditionFault>
        ensures { result_err result ≡ first_fault (lists_of self.now) }
    {
        check_suppliers(self.suppliers)?;
        let configurations = check_configurations(self.configurations)?;
        check_combinations(&configurations, self.combinations)
    }

    // What is wrong with the edition, at the first place of the first list that has a fault: none if it is
    // lawful. An Option, since it is a question; `check` refuses by a Result.
    pub fn fault(&self) -> Option<EditionFault>
        ensures value { result ≡ first_fault (lists_of self.now) }
        ensures lawful { Decides (not (is_some result)) (Lawful (lists_of self.now)) }
        ensures broken { IfSome result (λ fault. Breaks fault (lists_of self.now)) }
    {
        self.check().err()
    }

    pub fn is_lawful(&self) -> bool
        ensures value { result ≡ is_lawful (lists_of self.now) }
        ensures law { Decides result (Lawful (lists_of self.now)) }
    {
        self.fault().is_none()
    }
}
