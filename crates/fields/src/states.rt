// What state rows say: numbers that name a supplier, a collector, a profile or a line loss class.

// The supplier that a metering system is registered to.
#[derive(Clone, Copy, Debug, PartialEq, Eq)]
pub struct Supplier {
    pub id: u16,
}

// The data collector that is appointed to a metering system.
#[derive(Clone, Copy, Debug, PartialEq, Eq)]
pub struct Collector {
    pub id: u16,
}

// How a metering system's consumption is spread over the year: its profile class, and the
// standard settlement configuration that says which time pattern regimes it is metered in.
#[derive(Clone, Copy, Debug, PartialEq, Eq)]
pub struct Profile {
    pub class: u8,
    pub configuration: u16,
}

// The class by which losses on the lines to a metering system are reckoned.
#[derive(Clone, Copy, Debug, PartialEq, Eq)]
pub struct LineLossClass {
    pub number: u16,
}
