// Which spans straddle a day, and whether any overlap.
ghost use Rattle.std.specs.Prelude.{map, Decides};
ghost use Rattle.timeline.specs.Spans.{span_term, Straddles, Somewhere, Meet, Overlap};

use rows::dated::Span;

// Whether a span starts before the day and ends on or after it.
pub fn straddles<T: Span>(row: &T, day: u16) -> bool
    ensures { Decides result (Straddles day (span_term T.Dated.start_of T.end_of row.now)) }
{
    row.start() < day && day <= row.last()
}

// Whether a span of the rows straddles the day.
pub fn any_straddles<T: Span>(rows: &[T], day: u16) -> bool
    ensures { Decides result (Somewhere (Straddles day) (map (span_term T.Dated.start_of T.end_of) rows.now)) }
{
    rows.iter().any(|row| straddles(row, day))
}

// Whether a day lies in both spans.
fn meets<T: Span>(a: &T, b: &T) -> bool
    ensures { Decides result (Meet (span_term T.Dated.start_of T.end_of a.now) (span_term T.Dated.start_of T.end_of b.now)) }
{
    let last = a.last().min(b.last());
    a.start() <= last && b.start() <= last
}

// Whether the span has a day in common with one of the others.
fn meets_any<T: Span>(row: &T, others: &[T]) -> bool
    ensures { Decides result (Somewhere (Meet (span_term T.Dated.start_of T.end_of row.now)) (map (span_term T.Dated.start_of T.end_of) others.now)) }
{
    others.iter().any(|other| meets(row, other))
}

// Whether a day lies in two of the spans.
pub fn overlaps<T: Span>(rows: &[T]) -> bool
    ensures { Decides result (Overlap (map (span_term T.Dated.start_of T.end_of) rows.now)) }
{
    for (i, row) in rows.iter().enumerate() {
        if meets_any(row, &rows[i + 1..]) {
            return true;
        }
    }
    false
}
