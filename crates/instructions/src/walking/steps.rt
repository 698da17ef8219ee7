// The next record, and the next instruction.
ghost use Rattle.std.specs.Prelude.{◌≡◌, ℕ, [], length, MatchOption};
ghost use Rattle.instructions.specs.Files.{commands_in, instructions_of, taken};
ghost use Rattle.instructions.specs.Walks.{Split, records_left, instructions_left, meant_option};
ghost use Rattle.std.specs.Iterator.{at_most};

use crate::walking::{Change, Instruction, Instructions, Records, Walk};
use commands::command::Command;
use commands::reading::read_command;
use rows::row::Row;

impl Walk<'_> {
    // The command at the front, which is then behind; none where none can be read.
    fn command(&mut self) -> Option<Command>
        ensures { MatchOption result (commands_in self.old.rest.now ≡ []) (λ c. Split self.old.rest.now c self.new.rest.now) }
    {
        let command = read_command(self.rest).ok()?;
        self.rest = &self.rest[command.width()..];
        Some(command)
    }
}

impl<'a> Instructions<'a> {
    pub(crate) fn over(bytes: &'a [u8]) -> Instructions<'a>
        ensures { instructions_left result ≡ instructions_of (commands_in bytes.now) }
    {
        Instructions {
            walk: Walk { rest: bytes },
        }
    }
}

impl Records<'_> {
    // How many bytes of the file stand behind the place where the walk is.
    pub fn left(&self) -> usize
        ensures { result ≡ length self.now.walk.rest.now }
    {
        self.walk.rest.len()
    }
}

impl<'a> Iterator for Records<'a> {
    type Item = Row;

    ghost next_gives = { λ s r t. records_left s ≡ taken r (records_left t) };

    ghost remaining = { λ s. at_most (length s.walk.rest.now) };

    fn next(&mut self) -> Option<Row> {
        self.walk.command()?.record()
    }
}

impl<'a> Iterator for Instructions<'a> {
    type Item = Instruction<'a>;

    ghost next_gives = { λ s r t. instructions_left s ≡ taken (meant_option r) (instructions_left t) };

    ghost remaining = { λ s. at_most (length s.walk.rest.now) };

    fn next(&mut self) -> Option<Instruction<'a>> {
        while let Some(command) = self.walk.command() {
            if let Some(heading) = command.heading() {
                let records = Records { walk: self.walk };
                return Some(Instruction::Change(Change { heading, records }));
            }
        }
        None
    }
}
