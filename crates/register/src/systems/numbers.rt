// From a number to a metering system and back.
ghost use Rattle.std.specs.Prelude.{◌≡◌, ◌/◌, ◌≤◌, MatchOption};
ghost use Rattle.register.specs.Folders.{with_view};
ghost use Rattle.register.specs.Systems.{Numbered};

use crate::pairs::Pair;
use crate::systems::MeteringSystem;

impl MeteringSystem {
    pub const LAST: u64 = 9_999_999_999_999;

    // How many numbers each distributor has.
    const PER_DISTRIBUTOR: u64 = 100_000_000_000;

    // The system of a number, if it is one.
    pub fn new(number: u64) -> Option<MeteringSystem>
        ensures { MatchOption result (Numbered number → ⊥) (λ s. s.number ≡ number) }
    {
        if number >= 1 && number <= Self::LAST {
            Some(MeteringSystem { number })
        } else {
            None
        }
    }

    pub fn number(self) -> u64
        ensures { (result ≡ self.number) × (Numbered result) }
    {
        self.number
    }

    // A view of it.
    pub fn with_view(self, view: u16) -> Pair
        ensures { result ≡ with_view self view }
    {
        Pair {
            system: self.number,
            view,
        }
    }

    // The distributor whose lines it is connected to, by which agents share systems out.
    pub fn distributor(self) -> u64
        ensures { (result ≡ self.number / 100_000_000_000) × (result ≤ 99) }
    {
        Self::number(self) / Self::PER_DISTRIBUTOR
    }
}
