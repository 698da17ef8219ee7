// Consumption by time pattern regime: the type, and in `sets` what is done with it.
mod sets;

ghost use Rattle.std.specs.Prelude.{◌≤◌, pos};
ghost use Rattle.fields.specs.Padding.{Padded};

// What a metering system consumes in a year, in tenths of a kWh, for each of at most four
// time pattern regimes. Entries behind the first `count` are zero, always: nothing of a
// longer set is left behind a shorter one. Fixed arrays with a count, since nothing here allocates;
// two of them, and not one of pairs, since the regimes are lent as a slice.
#[derive(Clone, Copy, Debug, PartialEq, Eq)]
pub struct ConsumptionSet {
    count: usize,
    regimes: [u16; 4],
    values: [i32; 4],
    ghost few: { count ≤ 4 },
    ghost regimes_padded: { Padded 0 count regimes },
    ghost values_padded: { Padded (pos 0) count values },
}
