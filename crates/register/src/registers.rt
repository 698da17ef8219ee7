// The register: what every one of them promises, by what it means.
ghost use Rattle.std.specs.Prelude.{◌≡◌, ℕ, List, [], length, if◌then◌else◌};
ghost use Rattle.std.specs.List.{slice_get};
ghost use Rattle.register.specs.Folders.{Folder, InForm, with_view, rows_of, next_pair, made, makeable, cut_folders, added_folders, addable};

use crate::pairs::Pair;
use crate::systems::MeteringSystem;
use rows::kinds::Kind;
use rows::row::Row;

pub trait Register {
    // how many folders there may be
    ghost places: { Self → ℕ };

    // the folders that are held, ascending by pair
    ghost folders: { Self → List Folder };

    // what holds of every register, at all times
    ghost in_form: { (s : Self) → InForm (places s) (folders s) };

    fn places(&self) -> usize
        ensures { result ≡ places self.now };

    // How many folders are held.
    fn held(&self) -> usize
        ensures { result ≡ length (folders self.now) };

    // The smallest held pair above a given one, system first.
    fn next(&self, pair: Pair) -> Option<Pair>
        ensures { result ≡ next_pair pair (folders self.now) };

    // How many rows of a kind a folder has; a folder that is not held has none.
    fn count(&self, pair: Pair, kind: Kind) -> usize
        ensures { result ≡ length (rows_of pair (folders self.now) kind) };

    // The row at a place of a kind, exactly as it was added, in the place that is lent; past the
    // count none.
    fn read(&self, pair: Pair, kind: Kind, place: usize, row: &mut Option<Row>)
        ensures { row.new ≡ slice_get (rows_of pair (folders self.now) kind) place };

    // An empty folder, if there is a place; a pair that is held changes nothing.
    fn make(&mut self, system: MeteringSystem, view: u16) -> bool
        ensures answer { result ≡ makeable (places self.old) (with_view system view) (folders self.old) }
        ensures after { folders self.new ≡ (if result then made (with_view system view) (folders self.old) else folders self.old) }
        ensures places { places self.new ≡ places self.old };

    // Drops the rows of one kind in one folder that start on or after a day.
    fn cut(&mut self, system: MeteringSystem, view: u16, kind: Kind, day: u16)
        ensures after { folders self.new ≡ cut_folders (with_view system view) kind day (folders self.old) }
        ensures places { places self.new ≡ places self.old };

    // Appends a row to its kind.
    fn add(&mut self, system: MeteringSystem, view: u16, row: Row) -> bool
        ensures answer { result ≡ addable (with_view system view) row (folders self.old) }
        ensures after { folders self.new ≡ (if result then added_folders (with_view system view) row (folders self.old) else folders self.old) }
        ensures places { places self.new ≡ places self.old };

    // Forgets all folders.
    fn clear(&mut self)
        ensures after { folders self.new ≡ [] }
        ensures places { places self.new ≡ places self.old };
}
