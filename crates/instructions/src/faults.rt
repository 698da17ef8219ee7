// Why a file cannot be read, and where. Each layer of reading has a fault of its own; a fault
// that comes from below keeps its cause and its place.
// Kept as three structs: one generic over its layer takes a type and a field for each, and the same `From`
// impls.
ghost use Rattle.std.specs.Prelude.{◌≡◌, Some};
ghost use Rattle.instructions.specs.Faults.{in_instruction, in_file, out_of_place, fault_words};

use commands::causes::Cause;
use std::fmt;

// A command by itself cannot be read.
#[derive(Clone, Copy, PartialEq, Eq)]
pub struct ReaderFault {
    pub cause: Cause,
    // the offset of the command's letter
    pub place: usize,
}

// An instruction cannot be read.
#[derive(Clone, Copy, PartialEq, Eq)]
pub struct InstructionFault {
    pub cause: Cause,
    pub place: usize,
}

// A file cannot be read.
#[derive(Clone, Copy, PartialEq, Eq)]
pub struct FileFault {
    pub cause: Cause,
    pub place: usize,
}

impl From<ReaderFault> for InstructionFault {
    ghost from_gives = { λ fault r. r ≡ in_instruction fault };

    fn from(reader: ReaderFault) -> InstructionFault {
        InstructionFault {
            cause: reader.cause,
            place: reader.place,
        }
    }
}

impl From<InstructionFault> for FileFault {
    ghost from_gives = { λ fault r. r ≡ in_file fault };

    fn from(instruction: InstructionFault) -> FileFault {
        FileFault {
            cause: instruction.cause,
            place: instruction.place,
        }
    }
}

impl From<ReaderFault> for FileFault {
    ghost from_gives = { λ fault r. r ≡ in_file (in_instruction fault) };

    fn from(command: ReaderFault) -> FileFault {
        FileFault::from(InstructionFault::from(command))
    }
}

impl FileFault {
    // A command may not come where it stands.
    pub(crate) fn out_of_place(place: usize) -> FileFault
        ensures { result ≡ out_of_place place }
    {
        FileFault {
            cause: Cause::OutOfPlace,
            place,
        }
    }
}

impl fmt::Display for FileFault {
    ghost output = { λ fault. Some (fault_words fault) };

    fn fmt<W: fmt::Write>(&self, f: &mut fmt::Formatter<W>) -> fmt::Result {
        let FileFault { cause, place } = *self;
        write!(f, "{cause}, at offset {place}")
    }
}
