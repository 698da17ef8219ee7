// What a well-formed file says, walked without a fault: its instructions, and the records of each.
mod steps;

use commands::command::Heading;

// What is left of a file, command by command.
#[derive(Clone, Copy)]
pub(crate) struct Walk<'a> {
    pub(crate) rest: &'a [u8],
}

// The records of an instruction that are still to come.
#[derive(Clone, Copy)]
pub struct Records<'a> {
    walk: Walk<'a>,
}

// The instructions of a file that are still to come.
#[derive(Clone, Copy)]
pub struct Instructions<'a> {
    walk: Walk<'a>,
}

// A change to what is kept of one metering system: what it opens with, and its records.
#[derive(Clone, Copy)]
pub struct Change<'a> {
    pub heading: Heading,
    pub records: Records<'a>,
}

// An instruction. There is one sort of it so far.
#[derive(Clone, Copy)]
pub enum Instruction<'a> {
    Change(Change<'a>),
}
