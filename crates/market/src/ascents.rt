// Lists that ascend by their keys: what is sought in one is found by halving.
ghost use Rattle.std.specs.Prelude.{◌≡◌, true, filter, nat_eq};
ghost use Rattle.std.specs.Option.{option_map};
ghost use Rattle.std.specs.Ordering.{is_lt};
ghost use Rattle.market.specs.Orders.{Ordered, first};

use crate::edition::Combination;
use crate::keys::Keyed;

#[derive(Drop)]
pub(crate) struct Ascending<'a, X: Keyed> {
    pub(crate) entries: &'a [X],
    ghost ascend: { Ordered (λ x y. is_lt (X.Key.cmp (X.key_of x) (X.key_of y)) ≡ true) entries.now },
}

impl<'a, X: Keyed> Ascending<'a, X> {
    // The entry that is listed by the key.
    pub(crate) fn find(&self, key: X::Key) -> Option<&'a X>
        ensures { option_map (λ x. x.now) result ≡ first (λ x. X.Key.eq (X.key_of x) key) self.now.entries.now }
    {
        let place = self
            .entries
            .binary_search_by_key(&key, |entry| entry.key())
            .ok()?;
        Some(&self.entries[place])
    }
}

impl<'a> Ascending<'a, Combination> {
    // The combinations of a configuration: they stand side by side.
    pub(crate) fn of_configuration(&self, id: u16) -> &'a [Combination]
        ensures { result.now ≡ filter (λ c. nat_eq c.configuration id) self.now.entries.now }
    {
        let start = self
            .entries
            .partition_point(|entry| entry.configuration < id);
        let end = self
            .entries
            .partition_point(|entry| entry.configuration <= id);
        &self.entries[start..end]
    }
}
