// Which source a file belongs to.
ghost use Rattle.std.specs.Prelude.{◌≡◌};
ghost use Rattle.commands.specs.Sources.{source_of_file};

use crate::command::Source;
use crate::reading::read_command;

// The source that the first command names, whatever follows; none where that is no header.
pub fn source_of(bytes: &[u8]) -> Option<Source>
    ensures { result ≡ source_of_file bytes.now }
{
    let command = read_command(bytes).ok()?;
    command.header().map(|header| header.source)
}
