// The rows themselves: state rows, appointments, advances and estimates.
ghost use Rattle.std.specs.Prelude.{◌≡◌};
ghost use Rattle.fields.specs.Days.{last_day};
ghost use Rattle.rows.specs.Rows.{kind_of_row, start_of_row, last_of_row};
ghost use Rattle.std.proofs.Common.{rules};

use crate::dated::{Dated, Span};
use crate::kinds::Kind;
use fields::consumption::ConsumptionSet;
use fields::days::{LAST_DAY, last_day};
use fields::letters::{Group, MeasurementClass, Status};
use fields::states::{Collector, LineLossClass, Profile, Supplier};

// A row that says one thing of a metering system from its start on.
#[derive(Clone, Copy, Debug, PartialEq, Eq)]
pub struct State<V> {
    pub start: u16,
    pub value: V,
}

impl<V> Dated for State<V> {
    ghost start_of = { λ row. row.start };

    ghost last_of = { λ row. 60000 };

    fn start(&self) -> u16 {
        self.start
    }

    fn last(&self) -> u16 {
        LAST_DAY
    }
}

// Our own appointment to aggregate a metering system.
#[derive(Clone, Copy, Debug, PartialEq, Eq)]
pub struct Appointment {
    pub start: u16,
    pub end: u16,
}

// Spans say their days alike, each of its own fields: no shorter form reads the fields of both.
impl Dated for Appointment {
    ghost start_of = { λ row. row.start };

    ghost last_of = { λ row. last_day row.end };

    fn start(&self) -> u16 {
        self.start
    }

    fn last(&self) -> u16 {
        last_day(self.end)
    }
}

impl Span for Appointment {
    ghost end_of = { λ row. row.end };

    ghost ends = { Prim.search rules };

    fn end(&self) -> u16 {
        self.end
    }
}

// A meter advance: what was metered between two days, as consumption in a year.
#[derive(Clone, Copy, Debug, PartialEq, Eq)]
pub struct Advance {
    pub start: u16,
    pub end: u16,
    pub set: ConsumptionSet,
}

impl Dated for Advance {
    ghost start_of = { λ row. row.start };

    ghost last_of = { λ row. last_day row.end };

    fn start(&self) -> u16 {
        self.start
    }

    fn last(&self) -> u16 {
        last_day(self.end)
    }
}

impl Span for Advance {
    ghost end_of = { λ row. row.end };

    ghost ends = { Prim.search rules };

    fn end(&self) -> u16 {
        self.end
    }
}

// An estimate of annual consumption, used where no advance is in effect.
#[derive(Clone, Copy, Debug, PartialEq, Eq)]
pub struct Estimate {
    pub start: u16,
    pub set: ConsumptionSet,
}

impl Dated for Estimate {
    ghost start_of = { λ row. row.start };

    ghost last_of = { λ row. 60000 };

    fn start(&self) -> u16 {
        self.start
    }

    fn last(&self) -> u16 {
        LAST_DAY
    }
}

// A row of any kind.
#[derive(Clone, Copy, Debug, PartialEq, Eq)]
pub enum Row {
    Registration(State<Supplier>),
    Appointment(Appointment),
    Collector(State<Collector>),
    Profile(State<Profile>),
    Measurement(State<MeasurementClass>),
    Energisation(State<Status>),
    LineLoss(State<LineLossClass>),
    Group(State<Group>),
    Advance(Advance),
    Estimate(Estimate),
}

impl Row {
    pub fn kind(&self) -> Kind
        ensures { result ≡ kind_of_row self.now }
    {
        match self {
            Row::Registration(_) => Kind::Registration,
            Row::Appointment(_) => Kind::Appointment,
            Row::Collector(_) => Kind::Collector,
            Row::Profile(_) => Kind::Profile,
            Row::Measurement(_) => Kind::Measurement,
            Row::Energisation(_) => Kind::Energisation,
            Row::LineLoss(_) => Kind::LineLoss,
            Row::Group(_) => Kind::Group,
            Row::Advance(_) => Kind::Advance,
            Row::Estimate(_) => Kind::Estimate,
        }
    }
}

impl Dated for Row {
    ghost start_of = { start_of_row };

    ghost last_of = { last_of_row };

    fn start(&self) -> u16 {
        match self {
            Row::Registration(row) => row.start,
            Row::Appointment(row) => row.start,
            Row::Collector(row) => row.start,
            Row::Profile(row) => row.start,
            Row::Measurement(row) => row.start,
            Row::Energisation(row) => row.start,
            Row::LineLoss(row) => row.start,
            Row::Group(row) => row.start,
            Row::Advance(row) => row.start,
            Row::Estimate(row) => row.start,
        }
    }

    fn last(&self) -> u16 {
        match self {
            Row::Appointment(row) => row.last(),
            Row::Advance(row) => row.last(),
            _ => LAST_DAY,
        }
    }
}
