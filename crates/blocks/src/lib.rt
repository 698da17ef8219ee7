// A folder in one block of memory: its pair, a link to another block, and its rows by kind.
#![tactic(auto)]

pub mod block;
mod contents;
mod wrapping;
