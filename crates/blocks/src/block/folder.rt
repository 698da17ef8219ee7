// The folder in a block.
ghost use Rattle.std.specs.Prelude.{◌≡◌, length, if◌then◌else◌};
ghost use Rattle.std.specs.List.{slice_get};
ghost use Rattle.register.specs.Folders.{lowest};
ghost use Rattle.blocks.specs.Block.{folder_of, empty_folder, with_rows};
ghost use Rattle.blocks.specs.Holding.{cut_rows, added_rows, takes_row};

use crate::block::Block;
use crate::contents::Contents;
use register::pairs::Pair;
use rows::kinds::Kind;
use rows::row::Row;

impl Block {
    // An empty folder.
    pub fn new(pair: Pair, link: Option<u32>) -> Block
        ensures folder { folder_of result ≡ empty_folder pair }
        ensures link { result.link ≡ link }
    {
        Block {
            pair,
            link,
            contents: Contents::empty(),
        }
    }

    // What fills a place that has no folder yet.
    pub fn blank() -> Block
        ensures { folder_of result ≡ empty_folder lowest }
    {
        Block::new(Pair { system: 0, view: 0 }, None)
    }

    // How many rows of a kind the folder has.
    pub fn count(&self, kind: Kind) -> usize
        ensures { result ≡ length ((folder_of self.now).rows kind) }
    {
        self.contents.count(kind)
    }

    // The row at a place of a kind.
    pub fn read(&self, kind: Kind, place: usize) -> Option<Row>
        ensures { result ≡ slice_get ((folder_of self.now).rows kind) place }
    {
        self.contents.read(kind, place)
    }

    // Keeps the rows of a kind that start before a day.
    pub fn cut(&mut self, kind: Kind, day: u16)
        ensures folder { folder_of self.new ≡ with_rows (cut_rows kind day) (folder_of self.old) }
        ensures link { self.new.link ≡ self.old.link }
    {
        self.contents.cut(kind, day);
    }

    // Adds a row behind the others of its kind, if there is a place and it starts after the last.
    pub fn add(&mut self, row: Row) -> bool
        ensures answer { result ≡ takes_row (folder_of self.old).rows row }
        ensures folder { folder_of self.new ≡ (if result then with_rows (added_rows row) (folder_of self.old) else folder_of self.old) }
        ensures link { self.new.link ≡ self.old.link }
    {
        self.contents.add(row)
    }
}
