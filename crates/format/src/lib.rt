// Instruction files, read by the law of their format: what is accepted, and what a fault says, in
// terms of well-formed files and how they are written, and not of how they are read.
#![tactic(auto)]

ghost use Rattle.std.specs.Prelude.{◌≡◌, IfOk};
ghost use Rattle.instructions.specs.Files.{read_file, header_of, commands_in};
ghost use Rattle.instructions.specs.Meanings.{said};
ghost use Rattle.format.specs.Format.{Accepts, Blames, Lawful, Found};

use instructions::faults::FileFault;
use instructions::file::InstructionFile;

// Reads a file whole. A file is accepted exactly if it is the writing of a well-formed file, and
// that file is answered. What stands before the place of a fault is the front of a well-formed
// file, and the command there has the cause that is told, and none that is tried before it.
pub fn read_file(bytes: &[u8]) -> Result<InstructionFile<'_>, FileFault>
    ensures value { said result ≡ read_file bytes.now }
    ensures kept { IfOk result (λ file. (file.bytes.now ≡ bytes.now) × (file.header ≡ header_of (commands_in bytes.now))) }
    ensures lawful { Lawful bytes.now (said result) }
    ensures found { Found bytes.now (said result) }
{
    InstructionFile::read(bytes)
}

// The law by itself, for every byte string.
pub fn format_stands()
    ensures accepts { Accepts }
    ensures blames { Blames }
{}
