// The register that keeps the rows of all folders in one lent slice, in order.
ghost use Rattle.std.specs.Prelude.{◌≡◌, ◌*◌, ◌/◌, ◌≤◌, min, true, [], length, take};
ghost use Rattle.register.specs.Folders.{Systems};
ghost use Rattle.ordered.specs.Entries.{in_order, Few, per_folder, folders_in};
ghost use Rattle.ordered.specs.Form.{in_form_lem, held_within};

use crate::capacity::entries_per_folder;
use crate::entries::Entry;
use crate::finding::Sorted;
use crate::shifting::{put, take_out};
use register::pairs::Pair;
use register::registers::Register;
use register::systems::MeteringSystem;
use rows::kinds::Kind;
use rows::row::Row;

// Folders in lent memory. The used entries stand first; they are in order, and the folders among
// them are counted. There is memory for as many full folders as there are places, so a row that may
// be added always finds room. Counts stand beside the entries, since they are lent and nothing allocates.
#[derive(Drop)]
pub struct Ordered<'a> {
    entries: &'a mut [Entry],
    used: usize,
    held: usize,
    places: usize,
    ghost within: { used ≤ length entries.now },
    ghost order: { in_order (take used entries.now) ≡ true },
    ghost few: { Few (take used entries.now) },
    ghost systems: { Systems (folders_in entries.now used) },
    ghost counted: { held ≡ length (folders_in entries.now used) },
    ghost room: { held ≤ places },
    ghost enough: { per_folder * places ≤ length entries.now },
}

impl<'a> Ordered<'a> {
    // A register of no folder over lent entries, whatever they hold. It has as many places as there
    // is memory for, were every folder full, and at most so many.
    pub fn over(entries: &'a mut [Entry], most: usize) -> Ordered<'a>
        ensures empty { folders_in result.entries.now result.used ≡ [] }
        ensures places { result.places ≡ min most (length entries.old / per_folder) }
    {
        let places = most.min(entries.len() / entries_per_folder());
        Ordered {
            entries,
            used: 0,
            held: 0,
            places,
        }
    }

    // The used entries.
    fn sorted(&self) -> Sorted
        ensures { result.entries.now ≡ take self.now.used self.now.entries.now }
    {
        Sorted {
            entries: &self.entries[..self.used],
        }
    }
}

impl<'a> Register for Ordered<'a> {
    ghost places = { λ s. s.places };

    ghost folders = { λ s. folders_in s.entries.now s.used };

    ghost in_form = { λ s. in_form_lem s.places (take s.used s.entries.now) s.order s.systems s.few (held_within s.counted s.room) };

    fn places(&self) -> usize {
        self.places
    }

    fn held(&self) -> usize {
        self.held
    }

    fn next(&self, pair: Pair) -> Option<Pair> {
        self.sorted().next(pair)
    }

    fn count(&self, pair: Pair, kind: Kind) -> usize {
        self.sorted().count(pair, kind)
    }

    fn read(&self, pair: Pair, kind: Kind, place: usize, row: &mut Option<Row>) {
        *row = self.sorted().read(pair, kind, place);
    }

    fn make(&mut self, system: MeteringSystem, view: u16) -> bool {
        let pair = system.with_view(view);
        match self.sorted().folder_place(pair) {
            Some(at) if self.held < self.places => {
                put(self.entries, self.used, at, Entry::folder(pair));
                self.used += 1;
                self.held += 1;
                true
            }
            Some(_) => false,
            None => true,
        }
    }

    fn cut(&mut self, system: MeteringSystem, view: u16, kind: Kind, day: u16) {
        let pair = system.with_view(view);
        let gone = self.sorted().part(pair, kind, day);
        let count = gone.len();
        take_out(self.entries, self.used, gone);
        self.used -= count;
    }

    fn add(&mut self, system: MeteringSystem, view: u16, row: Row) -> bool {
        let pair = system.with_view(view);
        let Some(at) = self.sorted().row_place(pair, row) else {
            return false;
        };
        put(self.entries, self.used, at, Entry::of_row(pair, row));
        self.used += 1;
        true
    }

    fn clear(&mut self) {
        self.used = 0;
        self.held = 0;
    }
}
