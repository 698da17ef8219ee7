// What can be wrong with a command.
ghost use Rattle.std.specs.Prelude.{◌≡◌};
ghost use Rattle.commands.specs.Causes.{cause_number};

// What is wrong with a command, in the order in which it is looked at. The first three are of
// the command by itself; that it is out of place shows only beside what stands before it.
#[derive(Clone, Copy, PartialEq, Eq)]
pub enum Cause {
    UnknownLetter = 1,
    CutShort = 2,
    OutOfRange = 3,
    OutOfPlace = 4,
}

impl From<Cause> for u8 {
    ghost from_gives = { λ cause r. r ≡ cause_number cause };

    fn from(cause: Cause) -> u8 {
        cause as u8
    }
}
