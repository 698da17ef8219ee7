// How a consumption set is put together and read.
ghost use Rattle.std.specs.Prelude.{◌≡◌, ℕ, ◌<◌, nat_lt};
ghost use Rattle.fields.specs.Sets.{regimes_of, values_of, empty_set, pushed};

use crate::consumption::ConsumptionSet;

impl ConsumptionSet {
    // How many regimes a set has at most.
    pub const MAXIMUM: usize = 4;

    // The set of no regime.
    pub fn empty() -> ConsumptionSet
        ensures { result ≡ empty_set }
    {
        ConsumptionSet {
            count: 0,
            regimes: [0; 4],
            values: [0; 4],
        }
    }

    // How many regimes it has.
    pub fn count(&self) -> usize
        ensures { result ≡ self.now.count }
    {
        self.count
    }

    // Its regimes, in the order in which they were put in.
    pub fn regimes(&self) -> &[u16]
        ensures { result.now ≡ regimes_of self.now }
    {
        &self.regimes[0..self.count]
    }

    // Their values, in the same order.
    pub fn values(&self) -> &[i32]
        ensures { result.now ≡ values_of self.now }
    {
        &self.values[0..self.count]
    }

    // One regime more with its value; a set of four stays as it is, which the answer says.
    pub fn push(&mut self, regime: u16, value: i32) -> bool
        ensures answer { result ≡ nat_lt self.old.count 4 }
        ensures after { self.new ≡ pushed self.old regime value }
    {
        let count = self.count;
        if count >= Self::MAXIMUM {
            return false;
        }
        let mut regimes = self.regimes;
        let mut values = self.values;
        regimes[count] = regime;
        values[count] = value;
        *self = ConsumptionSet {
            count: count + 1,
            regimes,
            values,
        };
        true
    }
}
