// What can be wrong with an edition: the rule that is broken, and the place of the entry that breaks it.

// A list of ids ascends, and none of them is 0.
#[derive(Clone, Copy, Debug, PartialEq, Eq)]
pub enum IdRule {
    Range,
    // it is above the one before it
    Order,
}

#[derive(Clone, Copy, Debug, PartialEq, Eq)]
pub enum ConfigurationRule {
    Id(IdRule),
    // it has one to four regimes
    RegimeCount,
    // what the regime at this place of its list breaks
    Regime(IdRule, usize),
}

#[derive(Clone, Copy, Debug, PartialEq, Eq)]
pub enum CombinationRule {
    ConfigurationRange,
    ClassRange,
    GroupRange,
    FirstDayRange,
    LastDayRange,
    DefaultRange,
    // it does not begin after its last day
    DayOrder,
    // its configuration is listed
    Listing,
    // it comes after the one before it, by configuration, class and group
    Order,
}

#[derive(Clone, Copy, Debug, PartialEq, Eq)]
pub enum EditionFault {
    Supplier(IdRule, usize),
    Configuration(ConfigurationRule, usize),
    Combination(CombinationRule, usize),
}
