// What is kept of a metering system, kind by kind: how many rows at most, and what fills the places that no row has yet.
ghost use Rattle.std.specs.Prelude.{◌≡◌, ℕ};
ghost use Rattle.rows.specs.Kinds.{state_maximum, maximum_of};
ghost use Rattle.rows.specs.Rows.{Stands};
ghost use Rattle.fields.specs.Sets.{empty_set};
ghost use Rattle.rows.specs.declared.kinds.Kind.{Kind};
ghost use Rattle.rows.specs.declared.kinds.Kind.TheVariants as kinds;
ghost use Rattle.rows.specs.declared.row.Row.{Row};
ghost use Rattle.rows.specs.declared.row.Row.TheVariants as rows;
ghost use Rattle.rows.specs.declared.row.State.{State};
ghost use Rattle.fields.specs.declared.letters.Group.TheVariants as groups;
ghost use Rattle.fields.specs.declared.letters.MeasurementClass.TheVariants as classes;
ghost use Rattle.fields.specs.declared.letters.Status.TheVariants as statuses;
ghost use Rattle.std.proofs.Common.{rules};

use crate::dated::Dated;
use crate::kinds::Kind;
use crate::row::{Advance, Appointment, Estimate, Row, State};
use fields::consumption::ConsumptionSet;
use fields::letters::{Group, MeasurementClass, Status};
use fields::states::{Collector, LineLossClass, Profile, Supplier};

// A kind of row as a type.
pub trait Kept: Dated + Copy {
    const KIND: Kind;

    ghost KIND: { Kind };

    // How many rows of the kind are kept for a metering system at most.
    const MAXIMUM: usize;

    ghost MAXIMUM: { ℕ };

    // fills the places behind the rows that are kept
    ghost blank: { Self };

    // the row among those of any kind
    ghost row: { Self → Row };

    fn blank() -> Self
        ensures { result ≡ blank };

    fn into_row(self) -> Row
        ensures { result ≡ row self };

    ghost most: { MAXIMUM ≡ maximum_of KIND };

    // it starts on day 0, which is no day, so it cannot be taken for a row
    ghost undated: { Self.Dated.start_of blank ≡ 0 };

    ghost stands: { (r : Self) → Stands KIND (Self.Dated.start_of r) (Self.Dated.last_of r) (row r) };
}

// How many rows of each kind of state are kept for a metering system at most.
pub const STATE_MAXIMUM: usize = 8;

// What a state row can say.
pub trait StateValue: Copy {
    const KIND: Kind;

    ghost KIND: { Kind };

    ghost blank: { Self };

    ghost row: { State Self → Row };

    // Stands in rows that are blank; it says nothing.
    fn blank() -> Self
        ensures { result ≡ blank };

    fn into_row(state: State<Self>) -> Row
        ensures { result ≡ row state };

    ghost most: { maximum_of KIND ≡ state_maximum };

    ghost stands: { (s : State Self) → Stands KIND s.start 60000 (row s) };
}

impl StateValue for Supplier {
    const KIND: Kind = Kind::Registration;

    ghost KIND = { kinds.Registration };

    ghost blank = { record { id = 0 } };

    ghost row = { rows.Registration };

    ghost most = { Prim.search rules };

    ghost stands = { Prim.search rules };

    fn blank() -> Supplier {
        Supplier { id: 0 }
    }

    fn into_row(state: State<Supplier>) -> Row
        ensures { result ≡ rows.Registration state }
    {
        Row::Registration(state)
    }
}

impl StateValue for Collector {
    const KIND: Kind = Kind::Collector;

    ghost KIND = { kinds.Collector };

    ghost blank = { record { id = 0 } };

    ghost row = { rows.Collector };

    ghost most = { Prim.search rules };

    ghost stands = { Prim.search rules };

    fn blank() -> Collector {
        Collector { id: 0 }
    }

    fn into_row(state: State<Collector>) -> Row
        ensures { result ≡ rows.Collector state }
    {
        Row::Collector(state)
    }
}

impl StateValue for Profile {
    const KIND: Kind = Kind::Profile;

    ghost KIND = { kinds.Profile };

    ghost blank = { record { class = 0; configuration = 0 } };

    ghost row = { rows.Profile };

    ghost most = { Prim.search rules };

    ghost stands = { Prim.search rules };

    fn blank() -> Profile {
        Profile {
            class: 0,
            configuration: 0,
        }
    }

    fn into_row(state: State<Profile>) -> Row
        ensures { result ≡ rows.Profile state }
    {
        Row::Profile(state)
    }
}

impl StateValue for MeasurementClass {
    const KIND: Kind = Kind::Measurement;

    ghost KIND = { kinds.Measurement };

    ghost blank = { classes.A };

    ghost row = { rows.Measurement };

    ghost most = { Prim.search rules };

    ghost stands = { Prim.search rules };

    fn blank() -> MeasurementClass {
        MeasurementClass::A
    }

    fn into_row(state: State<MeasurementClass>) -> Row
        ensures { result ≡ rows.Measurement state }
    {
        Row::Measurement(state)
    }
}

impl StateValue for Status {
    const KIND: Kind = Kind::Energisation;

    ghost KIND = { kinds.Energisation };

    ghost blank = { statuses.DeEnergised };

    ghost row = { rows.Energisation };

    ghost most = { Prim.search rules };

    ghost stands = { Prim.search rules };

    fn blank() -> Status {
        Status::DeEnergised
    }

    fn into_row(state: State<Status>) -> Row
        ensures { result ≡ rows.Energisation state }
    {
        Row::Energisation(state)
    }
}

impl StateValue for LineLossClass {
    const KIND: Kind = Kind::LineLoss;

    ghost KIND = { kinds.LineLoss };

    ghost blank = { record { number = 0 } };

    ghost row = { rows.LineLoss };

    ghost most = { Prim.search rules };

    ghost stands = { Prim.search rules };

    fn blank() -> LineLossClass {
        LineLossClass { number: 0 }
    }

    fn into_row(state: State<LineLossClass>) -> Row
        ensures { result ≡ rows.LineLoss state }
    {
        Row::LineLoss(state)
    }
}

impl StateValue for Group {
    const KIND: Kind = Kind::Group;

    ghost KIND = { kinds.Group };

    ghost blank = { groups.A };

    ghost row = { rows.Group };

    ghost most = { Prim.search rules };

    ghost stands = { Prim.search rules };

    fn blank() -> Group {
        Group::A
    }

    fn into_row(state: State<Group>) -> Row
        ensures { result ≡ rows.Group state }
    {
        Row::Group(state)
    }
}

impl<V: StateValue> Kept for State<V> {
    const KIND: Kind = V::KIND;

    ghost KIND = { V.StateValue.KIND };

    const MAXIMUM: usize = STATE_MAXIMUM;

    ghost MAXIMUM = { state_maximum };

    ghost blank = { record { start = 0; value = V.StateValue.blank } };

    ghost row = { V.StateValue.row };

    ghost most = { Prim.search rules };

    ghost undated = { Prim.search rules };

    ghost stands = { V.StateValue.stands };

    fn blank() -> State<V> {
        State {
            start: 0,
            value: V::blank(),
        }
    }

    fn into_row(self) -> Row {
        V::into_row(self)
    }
}

impl Kept for Appointment {
    const KIND: Kind = Kind::Appointment;

    ghost KIND = { kinds.Appointment };

    const MAXIMUM: usize = 8;

    ghost MAXIMUM = { 8 };

    ghost blank = { record { start = 0; end = 0 } };

    ghost row = { rows.Appointment };

    ghost most = { Prim.search rules };

    ghost undated = { Prim.search rules };

    ghost stands = { Prim.search rules };

    fn blank() -> Appointment {
        Appointment { start: 0, end: 0 }
    }

    fn into_row(self) -> Row {
        Row::Appointment(self)
    }
}

impl Kept for Advance {
    const KIND: Kind = Kind::Advance;

    ghost KIND = { kinds.Advance };

    const MAXIMUM: usize = 16;

    ghost MAXIMUM = { 16 };

    ghost blank = { record { start = 0; end = 0; set = empty_set } };

    ghost row = { rows.Advance };

    ghost most = { Prim.search rules };

    ghost undated = { Prim.search rules };

    ghost stands = { Prim.search rules };

    fn blank() -> Advance {
        Advance {
            start: 0,
            end: 0,
            set: ConsumptionSet::empty(),
        }
    }

    fn into_row(self) -> Row {
        Row::Advance(self)
    }
}

impl Kept for Estimate {
    const KIND: Kind = Kind::Estimate;

    ghost KIND = { kinds.Estimate };

    const MAXIMUM: usize = 16;

    ghost MAXIMUM = { 16 };

    ghost blank = { record { start = 0; set = empty_set } };

    ghost row = { rows.Estimate };

    ghost most = { Prim.search rules };

    ghost undated = { Prim.search rules };

    ghost stands = { Prim.search rules };

    fn blank() -> Estimate {
        Estimate {
            start: 0,
            set: ConsumptionSet::empty(),
        }
    }

    fn into_row(self) -> Row {
        Row::Estimate(self)
    }
}

impl Kind {
    // How many rows of this kind are kept for a metering system at most, as the kind's type says.
    pub fn maximum(self) -> usize
        ensures { result ≡ maximum_of self }
    {
        match self {
            Kind::Registration => State::<Supplier>::MAXIMUM,
            Kind::Appointment => Appointment::MAXIMUM,
            Kind::Collector => State::<Collector>::MAXIMUM,
            Kind::Profile => State::<Profile>::MAXIMUM,
            Kind::Measurement => State::<MeasurementClass>::MAXIMUM,
            Kind::Energisation => State::<Status>::MAXIMUM,
            Kind::LineLoss => State::<LineLossClass>::MAXIMUM,
            Kind::Group => State::<Group>::MAXIMUM,
            Kind::Advance => Advance::MAXIMUM,
            Kind::Estimate => Estimate::MAXIMUM,
        }
    }
}
