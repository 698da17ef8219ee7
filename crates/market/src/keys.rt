// What entries are listed by.
ghost use Rattle.std.specs.Prelude.{◌≡◌};
ghost use Rattle.market.specs.Lawful.{key_of};

use crate::edition::{Combination, Configuration};

// A configuration with a profile class in a GSP group: combinations come in this order.
#[derive(Clone, Copy, PartialEq, Eq, PartialOrd, Ord)]
pub(crate) struct Key {
    pub(crate) configuration: u16,
    pub(crate) class: u8,
    pub(crate) group: char,
}

// An entry that is listed by its key.
pub(crate) trait Keyed {
    type Key: Ord + Copy;

    ghost key_of: { Self → Self.Key };

    fn key(&self) -> Self::Key
        ensures { result ≡ key_of self.now };
}

impl Keyed for u16 {
    type Key = u16;

    ghost key_of = { λ id. id };

    fn key(&self) -> u16 {
        *self
    }
}

impl Keyed for Configuration<'_> {
    type Key = u16;

    ghost key_of = { λ configuration. configuration.id };

    fn key(&self) -> u16 {
        self.id
    }
}

impl Keyed for Combination {
    type Key = Key;

    ghost key_of = { key_of };

    fn key(&self) -> Key {
        Key {
            configuration: self.configuration,
            class: self.class,
            group: self.group,
        }
    }
}
