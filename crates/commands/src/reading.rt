// One command at the front of what is left of a file.
ghost use Rattle.std.specs.Prelude.{◌≡◌, ◌≤◌, length, IfOk};
ghost use Rattle.commands.specs.Commands.{command_in, behind, record_of, width_of};

use crate::causes::Cause;
use crate::command::{Command, Letter};
use crate::records::{
    read_advance, read_appointment, read_estimate, read_header, read_heading, read_state,
};
use rows::kinds::Kind;
use rows::row::Row;

// A record of a kind.
fn read_record(kind: Kind, operands: &[u8]) -> Result<Row, Cause>
    ensures { result ≡ record_of kind operands.now }
{
    match kind {
        Kind::Registration => read_state(operands).map(Row::Registration),
        Kind::Appointment => read_appointment(operands).map(Row::Appointment),
        Kind::Collector => read_state(operands).map(Row::Collector),
        Kind::Profile => read_state(operands).map(Row::Profile),
        Kind::Measurement => read_state(operands).map(Row::Measurement),
        Kind::Energisation => read_state(operands).map(Row::Energisation),
        Kind::LineLoss => read_state(operands).map(Row::LineLoss),
        Kind::Group => read_state(operands).map(Row::Group),
        Kind::Advance => read_advance(operands).map(Row::Advance),
        Kind::Estimate => read_estimate(operands).map(Row::Estimate),
    }
}

// The command that a letter announces.
fn read_behind(letter: Letter, operands: &[u8]) -> Result<Command, Cause>
    ensures { result ≡ behind letter operands.now }
{
    match letter {
        Letter::Header => read_header(operands).map(Command::Header),
        Letter::Instruction => read_heading(operands).map(Command::Instruction),
        Letter::Record(kind) => read_record(kind, operands).map(Command::Record),
        Letter::InstructionEnd => Ok(Command::InstructionEnd),
        Letter::FileEnd => Ok(Command::FileEnd),
    }
}

// The command at the front of what is left; its cause where there is none.
pub fn read_command(rest: &[u8]) -> Result<Command, Cause>
    ensures value { result ≡ command_in rest.now }
    ensures within { IfOk result (λ c. width_of c ≤ length rest.now) }
{
    let [letter, operands @ ..] = rest else {
        return Err(Cause::CutShort);
    };
    read_behind(Letter::try_from(char::from(*letter))?, operands)
}
