// The commands of an instruction file.
ghost use Rattle.std.specs.Prelude.{◌≡◌, ◌≤◌};
ghost use Rattle.std.specs.Option.{ok_or};
ghost use Rattle.commands.specs.declared.causes.Cause.TheVariants.{UnknownLetter};
ghost use Rattle.commands.specs.Commands.{letter_of, fixed_size, set_size, width_of, header_in, heading_in, record_in};

use crate::causes::Cause;
use rows::kinds::Kind;
use rows::row::Row;

// Who sends instruction files, by an id from 1 to 65,535.
#[derive(Clone, Copy, PartialEq, Eq)]
pub enum Source {
    // a registration agent, letter S
    Agent(u16),
    // a data collector, letter C
    Collector(u16),
}

// What a file opens with: its source, the file's number among those of that source, and how
// many instructions follow.
#[derive(Clone, Copy, PartialEq, Eq)]
pub struct Header {
    pub source: Source,
    pub number: u32,
    pub count: u16,
}

// What an instruction opens with: the metering system that it is for, its number among those
// of its source, and the significant day, which decides with its records from when on stored
// rows give way to them.
#[derive(Clone, Copy, PartialEq, Eq)]
pub struct Heading {
    pub system: u64,
    pub number: u32,
    pub day: u16,
}

// One command with its operands.
#[derive(Clone, Copy)]
pub enum Command {
    // H
    Header(Header),
    // I
    Instruction(Heading),
    // a record, by the letter of its kind
    Record(Row),
    // Z
    InstructionEnd,
    // X
    FileEnd,
}

impl Command {
    // How many bytes the command takes, its letter among them.
    pub fn width(&self) -> usize
        ensures { result ≡ width_of self.now }
    {
        match self {
            Command::Header(_) => 10,
            Command::Instruction(_) => 15,
            Command::Record(row) => 1 + fixed_size(row.kind()) + set_size(row),
            Command::InstructionEnd => 1,
            Command::FileEnd => 1,
        }
    }

    // The header that the command is, if it is one.
    pub fn header(&self) -> Option<Header>
        ensures { result ≡ header_in self.now }
    {
        match self {
            Command::Header(header) => Some(*header),
            _ => None,
        }
    }

    // What the command opens an instruction with, if it opens one.
    pub fn heading(&self) -> Option<Heading>
        ensures { result ≡ heading_in self.now }
    {
        match self {
            Command::Instruction(heading) => Some(*heading),
            _ => None,
        }
    }

    // The record that the command is, if it is one.
    pub fn record(&self) -> Option<Row>
        ensures { result ≡ record_in self.now }
    {
        match self {
            Command::Record(row) => Some(*row),
            _ => None,
        }
    }
}

// How many bytes the operands of a record take, up to and with the n of a consumption set.
fn fixed_size(kind: Kind) -> usize
    ensures { result ≡ fixed_size kind }
{
    match kind {
        Kind::Registration | Kind::Appointment | Kind::Collector | Kind::LineLoss => 4,
        Kind::Profile | Kind::Advance => 5,
        Kind::Measurement | Kind::Energisation | Kind::Group | Kind::Estimate => 3,
    }
}

// How many bytes a row's regimes take.
fn set_size(row: &Row) -> usize
    ensures { (result ≡ set_size row.now) × (result ≤ 24) }
{
    match row {
        Row::Advance(row) => 6 * row.set.count(),
        Row::Estimate(row) => 6 * row.set.count(),
        _ => 0,
    }
}

// What the letter of a command announces.
#[derive(Clone, Copy)]
pub enum Letter {
    Header,
    Instruction,
    Record(Kind),
    InstructionEnd,
    FileEnd,
}

impl TryFrom<char> for Letter {
    type Error = Cause;

    ghost try_from_gives = { λ letter r. r ≡ ok_or (letter_of letter) UnknownLetter };

    fn try_from(letter: char) -> Result<Letter, Cause> {
        match letter {
            'H' => Ok(Letter::Header),
            'I' => Ok(Letter::Instruction),
            'Z' => Ok(Letter::InstructionEnd),
            'X' => Ok(Letter::FileEnd),
            _ => Kind::try_from(letter)
                .map(Letter::Record)
                .map_err(|_| Cause::UnknownLetter),
        }
    }
}
