// The rows of the block at a place, changed.
ghost use Rattle.std.specs.Prelude.{◌≡◌, ◌<◌, length, if◌then◌else◌, slice_set};
ghost use Rattle.blocks.specs.Block.{with_rows};
ghost use Rattle.blocks.specs.Holding.{cut_rows, added_rows, takes_row};
ghost use Rattle.hashed.specs.Table.{folders_of, links_of, folder_at};

use blocks::block::Block;
use rows::kinds::Kind;
use rows::row::Row;

// Keeps the rows of a kind that start before a day, in the block at a place.
pub(crate) fn cut_at(blocks: &mut [Block], at: usize, kind: Kind, day: u16)
    requires { at < length blocks.old }
    ensures folders { folders_of blocks.new ≡ slice_set (folders_of blocks.old) at (with_rows (cut_rows kind day) (folder_at (folders_of blocks.old) at)) }
    ensures links { links_of blocks.new ≡ links_of blocks.old }
{
    blocks[at].cut(kind, day);
}

// Adds a row in the block at a place, if it takes the row.
pub(crate) fn add_at(blocks: &mut [Block], at: usize, row: Row) -> bool
    requires { at < length blocks.old }
    ensures answer { result ≡ takes_row (folder_at (folders_of blocks.old) at).rows row }
    ensures folders { folders_of blocks.new ≡ (if result then slice_set (folders_of blocks.old) at (with_rows (added_rows row) (folder_at (folders_of blocks.old) at)) else folders_of blocks.old) }
    ensures links { links_of blocks.new ≡ links_of blocks.old }
{
    blocks[at].add(row)
}
