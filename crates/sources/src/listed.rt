// A source as an opening lists it.
ghost use Rattle.std.specs.Prelude.{◌≡◌, Decides};
ghost use Rattle.sources.specs.Listings.{id_of, InRange, Clash};

#[derive(Clone, Copy, Debug, PartialEq, Eq)]
pub enum Listed {
    // a registration agent with the one distributor that it serves
    Agent { id: u16, distributor: u8 },
    // a data collector
    Collector { id: u16 },
}

impl Listed {
    pub const LAST_DISTRIBUTOR: u8 = 99;

    pub fn id(&self) -> u16
        ensures { result ≡ id_of self.now }
    {
        match self {
            Listed::Agent { id, .. } | Listed::Collector { id } => *id,
        }
    }

    // Whether its id and its distributor are in range.
    pub fn is_in_range(&self) -> bool
        ensures { Decides result (InRange self.now) }
    {
        match self {
            Listed::Agent { id, distributor } => {
                *id >= 1 && *distributor <= Self::LAST_DISTRIBUTOR
            }
            Listed::Collector { id } => *id >= 1,
        }
    }

    // Whether two sources cannot be listed together.
    pub fn clashes(&self, other: &Listed) -> bool
        ensures { Decides result (Clash self.now other.now) }
    {
        match (*self, *other) {
            (
                Listed::Agent { id, distributor },
                Listed::Agent {
                    id: also,
                    distributor: served,
                },
            ) => { id == also || distributor == served }
            (Listed::Collector { id }, Listed::Collector { id: also }) => id == also,
            _ => false,
        }
    }
}
