// Which row is in effect on a day, which rows a cut keeps, and how a row is added: for rows of any kind.
ghost use Rattle.std.specs.Prelude.{◌≡◌, ◌<◌, ◌≤◌, map, length, take, IfSome, if◌then◌else◌, Decides, slice_set};
ghost use Rattle.timeline.specs.Finding.{latest_on, Latest, term, in_effect, ByStarted, before, StartedBefore, Follows};

use rows::dated::Dated;

// The place of the last row that starts on or before the day.
pub fn latest<T: Dated>(rows: &[T], day: u16) -> Option<usize>
    ensures value { result ≡ latest_on day (map T.start_of rows.now) }
    ensures law { Latest day (map T.start_of rows.now) result }
{
    rows.iter().rposition(|row| row.start() <= day)
}

// The place of the row in effect on the day: of the latest, unless the day is past its last.
pub fn in_effect<T: Dated>(rows: &[T], day: u16) -> Option<usize>
    ensures value { result ≡ in_effect day (map (term T.start_of T.last_of) rows.now) }
    ensures within { IfSome result (λ i. i < length rows.now) }
    ensures started { ByStarted T.start_of T.last_of day rows.now result }
{
    let place = latest(rows, day)?;
    (day <= rows[place].last()).then_some(place)
}

// How many rows stand before the first that starts on or after the cut day.
pub fn kept<T: Dated>(rows: &[T], cut: u16) -> usize
    ensures value { result ≡ before cut (map T.start_of rows.now) }
    ensures within { result ≤ length rows.now }
    ensures law { StartedBefore T.start_of cut rows.now result }
{
    rows.iter().take_while(|row| row.start() < cut).count()
}

// The rows that stand before the first that starts on or after the cut day.
pub fn cut<T: Dated>(rows: &[T], day: u16) -> &[T]
    ensures { result.now ≡ take (before day (map T.start_of rows.now)) rows.now }
{
    &rows[0..kept(rows, day)]
}

// Whether a row can stand behind the first `count`: a place is left, and it starts after the one before it.
pub fn follows<T: Dated>(rows: &[T], count: usize, row: &T) -> bool
    ensures { Decides result (Follows T.start_of row.now count rows.now) }
{
    count < rows.len() && (count == 0 || rows[count - 1].start() < row.start())
}

// Writes the row behind the first `count`, if it can stand there; else nothing changes.
pub fn add<T: Dated + Copy>(rows: &mut [T], count: usize, row: T) -> bool
    ensures answer { Decides result (Follows T.Dated.start_of row count rows.old) }
    ensures after { rows.new ≡ (if result then slice_set rows.old count row else rows.old) }
{
    if !follows(rows, count, &row) {
        return false;
    }
    rows[count] = row;
    true
}
