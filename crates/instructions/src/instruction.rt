// Reading one instruction, behind what it opens with: its records in their order, and its end.
ghost use Rattle.std.specs.Prelude.{◌≡◌, ℕ, ◌≤◌, ◌&&◌, Some, None, MatchResult};
ghost use Rattle.instructions.specs.Faults.{in_file};
ghost use Rattle.instructions.specs.Files.{onward};
ghost use Rattle.instructions.specs.Stages.{follows, order_of, regimes_ascend, within, between};

use crate::faults::InstructionFault;
use crate::reader::Reader;
use commands::causes::Cause;
use commands::command::Command;
use fields::ascent::ascends;
use rows::dated::Dated;
use rows::kinds::Kind;
use rows::row::Row;

// Whether the regimes of a row's consumption set ascend.
fn regimes_ascend(row: &Row) -> bool
    ensures { result ≡ regimes_ascend row.now }
{
    match row {
        Row::Advance(row) => ascends(row.set.regimes()),
        Row::Estimate(row) => ascends(row.set.regimes()),
        _ => true,
    }
}

// Whether a record may stand here: records ascend by kind, and in a kind by start.
fn is_in_place(before: Option<(Kind, u16)>, row: &Row) -> bool
    ensures { result ≡ (follows before (order_of row.now) && regimes_ascend row.now) }
{
    before < Some((row.kind(), row.start())) && regimes_ascend(row)
}

// Reads the records of an instruction, up to and with its end.
pub(crate) fn read_instruction(reader: &mut Reader<'_>) -> Result<(), InstructionFault>
    ensures value { (left : ℕ) → MatchResult result (λ _. onward reader.old.bytes.now reader.old.at (within left None) ≡ onward reader.old.bytes.now reader.new.at (between left)) (λ fault. onward reader.old.bytes.now reader.old.at (within left None) ≡ Some (in_file fault)) }
    ensures bytes { reader.new.bytes.now ≡ reader.old.bytes.now }
    ensures ahead { reader.old.at ≤ reader.new.at }
{
    let mut before = None;
    loop {
        let misplaced = InstructionFault {
            cause: Cause::OutOfPlace,
            place: reader.at,
        };
        match reader.command()? {
            Command::Record(row) => {
                if !is_in_place(before, &row) {
                    return Err(misplaced);
                }
                before = Some((row.kind(), row.start()));
            }
            Command::InstructionEnd => return Ok(()),
            _ => return Err(misplaced),
        }
    }
}
