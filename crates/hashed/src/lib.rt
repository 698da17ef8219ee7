// The register that finds a folder's block by hashing its pair, in lent memory.
#![tactic(auto)]

mod changes;
pub mod hashing;
mod orders;
