// What is kept of a metering system: dated rows of ten kinds, and the few things
// that are done with them on every layer above.
#![tactic(auto)]

pub mod dated;
pub mod kept;
pub mod kinds;
pub mod row;
