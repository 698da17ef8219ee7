// Where a folder or a row is put in.
ghost use Rattle.std.specs.Prelude.{◌≡◌, true, false, Some, None, MatchOption};
ghost use Rattle.register.specs.Folders.{holds, made, addable, added_folders};
ghost use Rattle.ordered.specs.Entries.{folders_of, Put};

use crate::entries::Entry;
use crate::finding::Sorted;
use register::pairs::Pair;
use rows::row::Row;

impl<'a> Sorted<'a> {
    // The place of a folder that is not there yet: the first entry that is not before it.
    pub(crate) fn folder_place(&self, pair: Pair) -> Option<usize>
        ensures { MatchOption result (holds pair (folders_of self.now.entries.now) ≡ true) (λ at. (holds pair (folders_of self.now.entries.now) ≡ false) × Put (record { pair = pair; row = None }) self.now.entries.now at (made pair (folders_of self.now.entries.now))) }
    {
        let at = self.entries.partition_point(|entry| entry.pair < pair);
        match self.entries.get(at) {
            Some(entry) if entry.pair == pair => None,
            _ => Some(at),
        }
    }

    // The place of a row that can be added: behind those of its kind.
    pub(crate) fn row_place(&self, pair: Pair, row: Row) -> Option<usize>
        ensures { MatchOption result (addable pair row (folders_of self.now.entries.now) ≡ false) (λ at. (addable pair row (folders_of self.now.entries.now) ≡ true) × Put (record { pair = pair; row = Some row }) self.now.entries.now at (added_folders pair row (folders_of self.now.entries.now))) }
    {
        let kind = row.kind();
        let rows = self.part(pair, kind, 0);
        let at = rows.end;
        let last = self.entries[..at].last()?;
        if pair != last.pair {
            return None;
        }
        if rows.len() >= kind.maximum() {
            return None;
        }
        if last.is_before(&Entry::of_row(pair, row)) {
            Some(at)
        } else {
            None
        }
    }
}
