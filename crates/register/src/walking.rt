// A walk over the folders of any register, pair by pair. In `steps`, how it goes on.
mod steps;

ghost use Rattle.std.specs.Prelude.{◌≡◌, length};

use crate::pairs::Pair;
use crate::registers::Register;

// The pairs of folders that are still to come: those above the pair that was handed out last.
#[derive(Drop)]
pub struct Pairs<'a, R> {
    register: &'a R,
    last: Pair,
}

// How many folders a walk by `next` comes to: as many as are held. The contract says the number,
// not the pairs.
pub fn walk<R: Register>(register: &R) -> usize
    ensures { result ≡ length (R.Register.folders register.now) }
{
    // the count cannot pass this, so it cannot overflow
    let _most = register.held();
    Pairs::of(register).count()
}
