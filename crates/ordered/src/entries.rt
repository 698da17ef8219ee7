// Entries: a folder of its own, or one of its rows.
ghost use Rattle.std.specs.Prelude.{◌≡◌, suc, Some, None};
ghost use Rattle.rows.specs.Kinds.{rank_of};
ghost use Rattle.register.specs.Folders.{lowest};
ghost use Rattle.ordered.specs.Keys.{key_of, lower};

use register::pairs::Pair;
use rows::dated::Dated;
use rows::kinds::Kind;
use rows::row::Row;

// A folder, or a row of one.
#[derive(Clone, Copy)]
pub struct Entry {
    pub(crate) pair: Pair,
    // none in the folder's own entry, which stands before those of its rows
    pub(crate) row: Option<Row>,
}

// Where an entry stands among the others.
#[derive(Clone, Copy, PartialEq, Eq, PartialOrd, Ord)]
pub(crate) struct Key {
    pub(crate) pair: Pair,
    // 0 for the folder, then the kinds; a number, since one past the last kind ends its rows
    pub(crate) level: usize,
    pub(crate) start: u16,
}

impl Entry {
    // Fills memory that is lent to a register.
    pub fn blank() -> Entry
        ensures { result ≡ record { pair = lowest; row = None } }
    {
        Entry::folder(Pair { system: 0, view: 0 })
    }

    // The folder itself.
    pub(crate) fn folder(pair: Pair) -> Entry
        ensures { result ≡ record { pair = pair; row = None } }
    {
        Entry { pair, row: None }
    }

    // A row of it.
    pub(crate) fn of_row(pair: Pair, row: Row) -> Entry
        ensures { result ≡ record { pair = pair; row = Some row } }
    {
        Entry {
            pair,
            row: Some(row),
        }
    }

    pub(crate) fn key(&self) -> Key
        ensures { result ≡ key_of self.now }
    {
        let (level, start) = match self.row {
            None => (0, 0),
            Some(row) => (Key::level(row.kind()), row.start()),
        };
        Key {
            pair: self.pair,
            level,
            start,
        }
    }

    // Whether it stands before another: by their keys, which derive their order, since rows have none.
    pub(crate) fn is_before(&self, other: &Entry) -> bool
        ensures { result ≡ lower (key_of self.now) (key_of other.now) }
    {
        self.key() < other.key()
    }
}

impl Key {
    // The level of a kind's rows.
    pub(crate) fn level(kind: Kind) -> usize
        ensures { result ≡ suc (rank_of kind) }
    {
        kind.rank() + 1
    }
}
