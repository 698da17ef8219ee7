// Entries put in among the used ones, or taken out, in place.
ghost use Rattle.std.specs.Prelude.{◌≡◌, ◌+◌, ◌-◌, ◌<◌, ◌≤◌, ◌++◌, length, take, drop};
ghost use Rattle.std.specs.List.{insert};

use crate::entries::Entry;
use std::ops::Range;

// Puts an entry at a place, and the used entries from there on one place up. The hashed register has the
// same two lines for its order: shared, they would be public, and so have to refuse.
pub(crate) fn put(entries: &mut [Entry], used: usize, at: usize, entry: Entry)
    requires room { used < length entries.old }
    requires place { at ≤ used }
    ensures { take (used + 1) entries.new ≡ insert (take used entries.old) at entry }
{
    entries.copy_within(at..used, at + 1);
    entries[at] = entry;
}

// Takes out the entries at some places; the used entries behind them come down. Where none is taken
// out, nothing is moved.
pub(crate) fn take_out(entries: &mut [Entry], used: usize, gone: Range<usize>)
    requires within { used ≤ length entries.old }
    requires ends { gone.start ≤ gone.end }
    requires place { gone.end ≤ used }
    ensures { take (used - (gone.end - gone.start)) entries.new ≡ take gone.start (take used entries.old) ++ drop gone.end (take used entries.old) }
{
    if gone.start < gone.end {
        entries.copy_within(gone.end..used, gone.start);
    }
}
