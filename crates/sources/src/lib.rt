// The sources that a book is opened with: registration agents and data collectors.
#![tactic(auto)]

pub mod listed;
pub mod lookups;
pub mod opening;
