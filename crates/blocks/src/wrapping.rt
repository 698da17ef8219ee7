// The rows of a window, as rows of any kind.
ghost use Rattle.std.specs.Prelude.{◌≡◌, ◌&&◌, [], ◌∷◌, ◌++◌, length, if◌then◌else◌, nat_lt};
ghost use Rattle.std.specs.List.{slice_get};
ghost use Rattle.register.specs.Folders.{kept_rows, starts_after};
ghost use Rattle.blocks.specs.Wrapping.{wrapped};

use rows::kept::Kept;
use rows::row::Row;
use windows::window::Window;

// How many rows a window has.
pub(crate) fn count<T: Kept, const MAX: usize>(window: &Window<T, MAX>) -> usize
    ensures { result ≡ length (wrapped T.Kept.row window.now) }
{
    window.count()
}

// The row at a place.
pub(crate) fn read<T: Kept, const MAX: usize>(window: &Window<T, MAX>, place: usize) -> Option<Row>
    ensures { result ≡ slice_get (wrapped T.Kept.row window.now) place }
{
    window.rows().get(place).map(|row| row.into_row())
}

// Keeps the rows that start before a day.
pub(crate) fn cut<T: Kept, const MAX: usize>(window: &mut Window<T, MAX>, day: u16)
    ensures { wrapped T.Kept.row window.new ≡ kept_rows day (wrapped T.Kept.row window.old) }
{
    window.cut(day);
}

// Adds a row behind the others, if there is a place and it starts after the last.
pub(crate) fn add<T: Kept, const MAX: usize>(window: &mut Window<T, MAX>, row: T) -> bool
    ensures answer { result ≡ (nat_lt (length (wrapped T.Kept.row window.old)) MAX && starts_after (wrapped T.Kept.row window.old) (T.Kept.row row)) }
    ensures after { wrapped T.Kept.row window.new ≡ (if result then wrapped T.Kept.row window.old ++ T.Kept.row row ∷ [] else wrapped T.Kept.row window.old) }
{
    window.add(row)
}
