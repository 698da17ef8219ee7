// The rows of one kind of one metering system, held by value.
#![tactic(auto)]

pub mod window;
