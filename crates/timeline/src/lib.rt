// What is asked of a list of dated rows of one kind, in the order of their starts, written once for
// every kind.
#![tactic(auto)]

pub mod finding;
pub mod spans;
