// How a window is filled, cut and read.
ghost use Rattle.std.specs.Prelude.{◌≡◌, ◌<◌, [], ◌∷◌, ◌++◌, map, length, take, IfSome, if◌then◌else◌, Decides};
ghost use Rattle.fields.specs.Ascent.{Ascending};
ghost use Rattle.timeline.specs.Finding.{term, in_effect, before};
ghost use Rattle.windows.specs.Windows.{rows_of, Addable};

use crate::window::Window;
use rows::kept::Kept;
use timeline::finding;

impl<T: Kept, const MAX: usize> Window<T, MAX> {
    // No row.
    pub fn empty() -> Window<T, MAX>
        ensures { rows_of result ≡ [] }
    {
        Window {
            count: 0,
            rows: [T::blank(); MAX],
        }
    }

    // How many rows there are.
    pub fn count(&self) -> usize
        ensures { result ≡ length (rows_of self.now) }
    {
        self.rows().len()
    }

    // The rows, in the order in which they were added.
    pub fn rows(&self) -> &[T]
        ensures { result.now ≡ rows_of self.now }
    {
        let places = &self.rows[..];
        &places[0..self.count]
    }

    // Adds a row behind the others. Refuses, and changes nothing, if there are as many as are kept
    // at most or the row does not start after the last.
    pub fn add(&mut self, row: T) -> bool
        ensures answer { Decides result (Addable T.Dated.start_of MAX row (rows_of self.old)) }
        ensures after { rows_of self.new ≡ (if result then rows_of self.old ++ row ∷ [] else rows_of self.old) }
        ensures ascends { Ascending (map T.Dated.start_of (rows_of self.old)) → Ascending (map T.Dated.start_of (rows_of self.new)) }
    {
        let count = self.count;
        if !finding::follows(&self.rows[..], count, &row) {
            return false;
        }
        self.rows[count] = row;
        self.count = count + 1;
        true
    }

    // Keeps the rows that stand before the first that starts on or after the cut day.
    pub fn cut(&mut self, day: u16)
        ensures after { rows_of self.new ≡ take (before day (map T.Dated.start_of (rows_of self.old))) (rows_of self.old) }
        ensures ascends { Ascending (map T.Dated.start_of (rows_of self.old)) → Ascending (map T.Dated.start_of (rows_of self.new)) }
    {
        let count = finding::kept(self.rows(), day);
        self.count = count;
    }

    // The place of the row in effect on the day.
    pub fn in_effect(&self, day: u16) -> Option<usize>
        ensures value { result ≡ in_effect day (map (term T.Dated.start_of T.Dated.last_of) (rows_of self.now)) }
        ensures within { IfSome result (λ i. i < length (rows_of self.now)) }
    {
        finding::in_effect(self.rows(), day)
    }
}
