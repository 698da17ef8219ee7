// The register that keeps the rows of all folders in one lent slice, in order.
#![tactic(auto)]

pub mod capacity;
pub mod entries;
mod finding;
mod placing;
pub mod registers;
mod shifting;
