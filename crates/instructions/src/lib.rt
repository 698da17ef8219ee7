// The instruction files that registration agents and data collectors send: what their bytes
// say, or the cause and the place of the first fault in them.
//
// Reading goes by three layers: one command (the crate `commands`; `reader` knows its place), one
// instruction (`instruction`), the whole file (`file`). What a well-formed file says is then
// walked again (`walking`).
#![tactic(auto)]

pub mod faults;
pub mod file;
mod instruction;
mod reader;
pub mod walking;
