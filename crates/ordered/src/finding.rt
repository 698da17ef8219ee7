// Entries in order, and what stands where among them.
ghost use Rattle.std.specs.Prelude.{◌≡◌, ◌-◌, ◌≤◌, true, length};
ghost use Rattle.std.specs.List.{slice_get};
ghost use Rattle.register.specs.Folders.{rows_of, next_pair};
ghost use Rattle.ordered.specs.Entries.{in_order, folders_of, Part};

use crate::entries::{Entry, Key};
use register::pairs::Pair;
use rows::kinds::Kind;
use rows::row::Row;
use std::ops::Range;

// Entries that strictly ascend, every row behind its folder.
#[derive(Clone, Copy)]
pub(crate) struct Sorted<'a> {
    pub(crate) entries: &'a [Entry],
    ghost order: { in_order entries.now ≡ true },
}

impl<'a> Sorted<'a> {
    // Where the rows of a pair and a kind stand that start on or after a day.
    pub(crate) fn part(&self, pair: Pair, kind: Kind, day: u16) -> Range<usize>
        ensures part { Part pair kind day self.now.entries.now result.start (result.end - result.start) }
        ensures ends { result.start ≤ result.end }
    {
        let level = Key::level(kind);
        let first = Key {
            pair,
            level,
            start: day,
        };
        let next = Key {
            pair,
            level: level + 1,
            start: 0,
        };
        let from = self.entries.partition_point(|entry| entry.key() < first);
        let behind = &self.entries[from..];
        let count = behind.partition_point(|entry| entry.key() < next);
        from..from + count
    }

    // How many rows of a kind a folder has.
    pub(crate) fn count(&self, pair: Pair, kind: Kind) -> usize
        ensures { result ≡ length (rows_of pair (folders_of self.now.entries.now) kind) }
    {
        self.part(pair, kind, 0).len()
    }

    // The row at a place of a kind.
    pub(crate) fn read(&self, pair: Pair, kind: Kind, place: usize) -> Option<Row>
        ensures { result ≡ slice_get (rows_of pair (folders_of self.now.entries.now) kind) place }
    {
        let rows = self.part(pair, kind, 0);
        self.entries[rows].get(place)?.row
    }

    // The pair of the first folder above a pair: the first entry that is behind all of the pair's.
    pub(crate) fn next(&self, pair: Pair) -> Option<Pair>
        ensures { result ≡ next_pair pair (folders_of self.now.entries.now) }
    {
        let at = self.entries.partition_point(|entry| entry.pair <= pair);
        Some(self.entries.get(at)?.pair)
    }
}
