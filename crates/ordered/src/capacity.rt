// How much memory a folder takes.
ghost use Rattle.std.specs.Prelude.{◌≡◌, ◌^◌, ◌<◌, sum_by};
ghost use Rattle.rows.specs.Kinds.{maximum_of};
ghost use Rattle.ordered.specs.Entries.{per_folder};

use rows::kinds::Kind;

// How many rows there may be of these kinds together.
fn most_of(kinds: &[Kind]) -> usize
    requires { sum_by maximum_of kinds.now < 2 ^ 64 }
    ensures { result ≡ sum_by maximum_of kinds.now }
{
    kinds.iter().map(|kind| kind.maximum()).sum()
}

// How many entries a full folder has: its own, and of each kind as many rows as there may be.
pub fn entries_per_folder() -> usize
    ensures { result ≡ per_folder }
{
    1 + most_of(&[
        Kind::Registration,
        Kind::Appointment,
        Kind::Collector,
        Kind::Profile,
        Kind::Measurement,
        Kind::Energisation,
        Kind::LineLoss,
        Kind::Group,
        Kind::Advance,
        Kind::Estimate,
    ])
}
