// Reading a whole file: its header, as many instructions as that says, its end, and nothing behind.
ghost use Rattle.std.specs.Prelude.{◌≡◌, ℕ, length, drop, IfOk, Some, None, Ok, MatchResult};
ghost use Rattle.commands.specs.Commands.{command_in};
ghost use Rattle.instructions.specs.Files.{onward, read_file, header_of, commands_in};
ghost use Rattle.instructions.specs.Meanings.{meant_file, said};
ghost use Rattle.instructions.specs.Walks.{instructions_left};
ghost use Rattle.instructions.specs.Stages.{opening, between, closed};
ghost use Rattle.commands.specs.declared.command.Command.TheVariants.{Header as IsHeader};

use crate::faults::FileFault;
use crate::file::InstructionFile;
use crate::instruction::read_instruction;
use crate::reader::Reader;
use crate::walking::Instructions;
use commands::command::{Command, Header};

// The header that the file opens with.
fn read_opening(reader: &mut Reader<'_>) -> Result<Header, FileFault>
    ensures value { MatchResult result (λ header. onward reader.old.bytes.now reader.old.at opening ≡ onward reader.old.bytes.now reader.new.at (between header.count)) (λ fault. onward reader.old.bytes.now reader.old.at opening ≡ Some fault) }
    ensures header { IfOk result (λ header. command_in (drop reader.old.at reader.old.bytes.now) ≡ Ok (IsHeader header)) }
    ensures bytes { reader.new.bytes.now ≡ reader.old.bytes.now }
{
    let misplaced = FileFault::out_of_place(reader.at);
    match reader.command()? {
        Command::Header(header) => Ok(header),
        _ => Err(misplaced),
    }
}

// As many instructions as the header says.
fn read_instructions(reader: &mut Reader<'_>, count: u16) -> Result<(), FileFault>
    ensures value { MatchResult result (λ _. onward reader.old.bytes.now reader.old.at (between count) ≡ onward reader.old.bytes.now reader.new.at (between 0)) (λ fault. onward reader.old.bytes.now reader.old.at (between count) ≡ Some fault) }
    ensures bytes { reader.new.bytes.now ≡ reader.old.bytes.now }
{
    for _ in 0..count {
        let misplaced = FileFault::out_of_place(reader.at);
        match reader.command()? {
            Command::Instruction(_) => read_instruction(reader)?,
            _ => return Err(misplaced),
        }
    }
    Ok(())
}

// The end of the file, behind its instructions.
fn read_end(reader: &mut Reader<'_>) -> Result<(), FileFault>
    ensures value { MatchResult result (λ _. onward reader.old.bytes.now reader.old.at (between 0) ≡ onward reader.old.bytes.now reader.new.at closed) (λ fault. onward reader.old.bytes.now reader.old.at (between 0) ≡ Some fault) }
    ensures bytes { reader.new.bytes.now ≡ reader.old.bytes.now }
{
    let misplaced = FileFault::out_of_place(reader.at);
    match reader.command()? {
        Command::FileEnd => Ok(()),
        _ => Err(misplaced),
    }
}

// Nothing may stand behind the end of the file; what does is told as a command like any other.
fn read_nothing(reader: &mut Reader<'_>) -> Result<(), FileFault>
    ensures value { MatchResult result (λ _. onward reader.old.bytes.now reader.old.at closed ≡ None) (λ fault. onward reader.old.bytes.now reader.old.at closed ≡ Some fault) }
{
    let misplaced = FileFault::out_of_place(reader.at);
    if reader.at >= reader.bytes.len() {
        return Ok(());
    }
    reader.command()?;
    Err(misplaced)
}

impl<'a> InstructionFile<'a> {
    // Reads a file whole: it is well formed, or this is its first fault.
    pub fn read(bytes: &'a [u8]) -> Result<InstructionFile<'a>, FileFault>
        ensures value { said result ≡ read_file bytes.now }
        ensures kept { IfOk result (λ file. (file.bytes.now ≡ bytes.now) × (file.header ≡ header_of (commands_in bytes.now))) }
    {
        let mut reader = Reader::new(bytes);
        let header = read_opening(&mut reader)?;
        read_instructions(&mut reader, header.count)?;
        read_end(&mut reader)?;
        read_nothing(&mut reader)?;
        Ok(InstructionFile { bytes, header })
    }

    // What the file opens with.
    pub fn header(&self) -> Header
        ensures { result ≡ self.now.header }
    {
        self.header
    }

    // Its instructions, from the first on.
    pub fn instructions(&self) -> Instructions<'a>
        ensures { instructions_left result ≡ (meant_file self.now).instructions }
    {
        Instructions::over(self.bytes)
    }

    // How many bytes the file has.
    pub fn len(&self) -> usize
        ensures { result ≡ length self.now.bytes.now }
    {
        self.bytes.len()
    }
}
