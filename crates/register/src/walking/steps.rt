// The next pair of a walk.
ghost use Rattle.std.specs.Prelude.{◌≡◌, ℕ, map, length};
ghost use Rattle.register.specs.Walks.{pairs_of, above, taken};
ghost use Rattle.std.specs.Iterator.{at_most};

use crate::pairs::Pair;
use crate::registers::Register;
use crate::walking::Pairs;

impl<'a, R: Register> Pairs<'a, R> {
    // Every folder once, in order: a walk begins below every metering system.
    pub fn of(register: &'a R) -> Pairs<'a, R>
        ensures all { pairs_of (above result.last (R.Register.folders result.register.now)) ≡ pairs_of (R.Register.folders register.now) }
    {
        let last = Pair { system: 0, view: 0 };
        Pairs { register, last }
    }
}

impl<'a, R: Register> Iterator for Pairs<'a, R> {
    type Item = Pair;

    ghost next_gives = { λ s r t. pairs_of (above s.last (R.Register.folders s.register.now)) ≡ taken r (pairs_of (above t.last (R.Register.folders t.register.now))) };

    ghost remaining = { λ s. at_most (length (above s.last (R.Register.folders s.register.now))) };

    fn next(&mut self) -> Option<Pair> {
        let pair = self.register.next(self.last)?;
        self.last = pair;
        Some(pair)
    }
}
