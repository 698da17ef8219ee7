// Lists of numbers that strictly ascend, as regimes do.
ghost use Rattle.std.specs.Prelude.{◌≡◌, Decides};
ghost use Rattle.fields.specs.Ascent.{ascending, Ascending};

// Whether each number is above the one before it.
pub fn ascends(numbers: &[u16]) -> bool
    ensures value { result ≡ ascending numbers.now }
    ensures law { Decides result (Ascending numbers.now) }
{
    numbers.is_sorted_by(|before, number| before < number)
}
