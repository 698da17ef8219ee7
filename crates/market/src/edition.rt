// What an edition lists. It is lent for reading, and may hold anything: whether it is lawful is asked of it.
ghost use Rattle.std.specs.Prelude.{◌≡◌};
ghost use Rattle.market.specs.Keys.{is_on};

// A settlement configuration, and the time pattern regimes that it is metered in.
#[derive(Clone, Copy)]
pub struct Configuration<'a> {
    pub id: u16,
    pub regimes: &'a [u16],
}

// A settlement configuration that is used with a profile class in a GSP group, from its first day to its
// last, and the consumption in a year, in tenths of a kWh, that is taken where nothing better is known.
#[derive(Clone, Copy)]
pub struct Combination {
    pub configuration: u16,
    pub class: u8,
    pub group: char,
    pub first: u16,
    pub last: u16,
    pub default: i32,
}

impl Combination {
    // Whether a day is one of its days.
    pub(crate) fn is_on(&self, day: u16) -> bool
        ensures { result ≡ is_on day self.now }
    {
        (self.first..=self.last).contains(&day)
    }
}

#[derive(Clone, Copy)]
pub struct Edition<'a> {
    pub suppliers: &'a [u16],
    pub configurations: &'a [Configuration<'a>],
    pub combinations: &'a [Combination],
}
