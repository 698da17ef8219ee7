// The rows of a folder, by kind. Each window is of a type of its own, so each method names all ten:
// one that chose a window by its kind would have to hand out a dyn value.
ghost use Rattle.std.specs.Prelude.{◌≡◌, length, if◌then◌else◌};
ghost use Rattle.std.specs.List.{slice_get};
ghost use Rattle.register.specs.Folders.{no_rows};
ghost use Rattle.blocks.specs.Holding.{kind_rows, cut_rows, added_rows, takes_row};

use crate::contents::Contents;
use crate::wrapping;
use rows::kinds::Kind;
use rows::row::Row;
use windows::window::Window;

impl Contents {
    // No row of any kind.
    pub(crate) fn empty() -> Contents
        ensures { kind_rows result ≡ no_rows }
    {
        Contents {
            registrations: Window::empty(),
            appointments: Window::empty(),
            collectors: Window::empty(),
            profiles: Window::empty(),
            measurements: Window::empty(),
            energisations: Window::empty(),
            line_losses: Window::empty(),
            groups: Window::empty(),
            advances: Window::empty(),
            estimates: Window::empty(),
        }
    }

    // How many rows of a kind there are.
    pub(crate) fn count(&self, kind: Kind) -> usize
        ensures { result ≡ length (kind_rows self.now kind) }
    {
        match kind {
            Kind::Registration => wrapping::count(&self.registrations),
            Kind::Appointment => wrapping::count(&self.appointments),
            Kind::Collector => wrapping::count(&self.collectors),
            Kind::Profile => wrapping::count(&self.profiles),
            Kind::Measurement => wrapping::count(&self.measurements),
            Kind::Energisation => wrapping::count(&self.energisations),
            Kind::LineLoss => wrapping::count(&self.line_losses),
            Kind::Group => wrapping::count(&self.groups),
            Kind::Advance => wrapping::count(&self.advances),
            Kind::Estimate => wrapping::count(&self.estimates),
        }
    }

    // The row at a place of a kind.
    pub(crate) fn read(&self, kind: Kind, place: usize) -> Option<Row>
        ensures { result ≡ slice_get (kind_rows self.now kind) place }
    {
        match kind {
            Kind::Registration => wrapping::read(&self.registrations, place),
            Kind::Appointment => wrapping::read(&self.appointments, place),
            Kind::Collector => wrapping::read(&self.collectors, place),
            Kind::Profile => wrapping::read(&self.profiles, place),
            Kind::Measurement => wrapping::read(&self.measurements, place),
            Kind::Energisation => wrapping::read(&self.energisations, place),
            Kind::LineLoss => wrapping::read(&self.line_losses, place),
            Kind::Group => wrapping::read(&self.groups, place),
            Kind::Advance => wrapping::read(&self.advances, place),
            Kind::Estimate => wrapping::read(&self.estimates, place),
        }
    }

    // Keeps the rows of a kind that start before a day.
    pub(crate) fn cut(&mut self, kind: Kind, day: u16)
        ensures { kind_rows self.new ≡ cut_rows kind day (kind_rows self.old) }
    {
        match kind {
            Kind::Registration => wrapping::cut(&mut self.registrations, day),
            Kind::Appointment => wrapping::cut(&mut self.appointments, day),
            Kind::Collector => wrapping::cut(&mut self.collectors, day),
            Kind::Profile => wrapping::cut(&mut self.profiles, day),
            Kind::Measurement => wrapping::cut(&mut self.measurements, day),
            Kind::Energisation => wrapping::cut(&mut self.energisations, day),
            Kind::LineLoss => wrapping::cut(&mut self.line_losses, day),
            Kind::Group => wrapping::cut(&mut self.groups, day),
            Kind::Advance => wrapping::cut(&mut self.advances, day),
            Kind::Estimate => wrapping::cut(&mut self.estimates, day),
        }
    }

    // Adds a row behind the others of its kind, if there is a place and it starts after the last.
    pub(crate) fn add(&mut self, row: Row) -> bool
        ensures answer { result ≡ takes_row (kind_rows self.old) row }
        ensures after { kind_rows self.new ≡ (if result then added_rows row (kind_rows self.old) else kind_rows self.old) }
    {
        match row {
            Row::Registration(row) => wrapping::add(&mut self.registrations, row),
            Row::Appointment(row) => wrapping::add(&mut self.appointments, row),
            Row::Collector(row) => wrapping::add(&mut self.collectors, row),
            Row::Profile(row) => wrapping::add(&mut self.profiles, row),
            Row::Measurement(row) => wrapping::add(&mut self.measurements, row),
            Row::Energisation(row) => wrapping::add(&mut self.energisations, row),
            Row::LineLoss(row) => wrapping::add(&mut self.line_losses, row),
            Row::Group(row) => wrapping::add(&mut self.groups, row),
            Row::Advance(row) => wrapping::add(&mut self.advances, row),
            Row::Estimate(row) => wrapping::add(&mut self.estimates, row),
        }
    }
}
