// The commands that instruction files are made of: what the bytes of one say, or what is wrong
// with it.
#![tactic(auto)]

pub mod causes;
pub mod command;
pub mod reading;
mod records;
pub mod source;
mod words;
