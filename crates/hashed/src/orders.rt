// The order of the blocks by pair: the places of blocks, ascending by what they hold.
ghost use Rattle.std.specs.Prelude.{◌≡◌, ◌+◌, ◌<◌, ◌≤◌, length, take};
ghost use Rattle.std.specs.List.{insert};

// Puts an entry at a place, and the used entries from there on one place up. The ordered register has the
// same two lines for its entries: shared, they would be public, and so have to refuse.
pub(crate) fn insert(order: &mut [u32], used: usize, at: usize, entry: u32)
    requires within { used < length order.old }
    requires place { at ≤ used }
    ensures { take (used + 1) order.new ≡ insert (take used order.old) at entry }
{
    order.copy_within(at..used, at + 1);
    order[at] = entry;
}
