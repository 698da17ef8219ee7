// Settlement days: plain numbers from 1 to 60,000.
ghost use Rattle.std.specs.Prelude.{◌≡◌};
ghost use Rattle.fields.specs.Days.{last_day, is_day};

pub const FIRST_DAY: u16 = 1;

pub const LAST_DAY: u16 = 60_000;

// Whether a number is a settlement day.
pub fn is_day(number: u16) -> bool
    ensures { result ≡ is_day number }
{
    (FIRST_DAY..=LAST_DAY).contains(&number)
}

// The last day of a span that was sent with this end: an end of 0 means no end.
pub fn last_day(end: u16) -> u16
    ensures { result ≡ last_day end }
{
    if end == 0 { LAST_DAY } else { end }
}
