// Lists of time pattern regimes.
ghost use Rattle.std.specs.Prelude.{◌≡◌, Decides};

// Whether two lists of regimes are the same, in the same order.
pub fn same_regimes(a: &[u16], b: &[u16]) -> bool
    ensures { Decides result (a.now ≡ b.now) }
{
    a == b
}
