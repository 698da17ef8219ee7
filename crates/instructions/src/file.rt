// A whole instruction file.
mod checks;

use commands::command::Header;

// The bytes of a file that has been read to its end and found well formed, with the header
// that it opens with. What it says can be walked again with no fault to come.
#[derive(Clone, Copy)]
pub struct InstructionFile<'a> {
    bytes: &'a [u8],
    header: Header,
}
