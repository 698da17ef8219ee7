// Metering systems by their number.
mod numbers;

ghost use Rattle.std.specs.Prelude.{◌≤◌};

// A metering system: a number from 1 to 9,999,999,999,999.
#[derive(Clone, Copy)]
pub struct MeteringSystem {
    number: u64,
    ghost low: { 1 ≤ number },
    ghost high: { number ≤ 9_999_999_999_999 },
}
