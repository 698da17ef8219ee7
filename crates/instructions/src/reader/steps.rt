// Reading the next command.
ghost use Rattle.std.specs.Prelude.{◌≡◌, drop};
ghost use Rattle.commands.specs.Commands.{command_in};
ghost use Rattle.instructions.specs.Places.{located, moved};

use crate::faults::ReaderFault;
use crate::reader::Reader;
use commands::command::Command;
use commands::reading::read_command;

impl<'a> Reader<'a> {
    pub(crate) fn new(bytes: &'a [u8]) -> Reader<'a>
        ensures bytes { result.bytes.now ≡ bytes.now }
        ensures at { result.at ≡ 0 }
    {
        Reader { bytes, at: 0 }
    }

    // The next command, which is then behind the reader; a fault leaves it where it is.
    pub(crate) fn command(&mut self) -> Result<Command, ReaderFault>
        ensures value { result ≡ located self.old.at (command_in (drop self.old.at self.old.bytes.now)) }
        ensures bytes { self.new.bytes.now ≡ self.old.bytes.now }
        ensures at { self.new.at ≡ moved self.old.at result }
    {
        let place = self.at;
        let command = read_command(&self.bytes[place..]).map_err(|cause| ReaderFault {
            cause,
            place,
        })?;
        self.at = place + command.width();
        Ok(command)
    }
}
