// What records are in words, by types around the row, its set and its end, whose crates have no words yet.
use fields::consumption::ConsumptionSet;
use fields::letters::Status;
use rows::row::Row;
use std::fmt;

// The last day of a span as it was sent.
#[derive(Clone, Copy)]
struct EndWords(u16);

impl fmt::Display for EndWords {
    fn fmt<W: fmt::Write>(&self, f: &mut fmt::Formatter<W>) -> fmt::Result {
        let end = self.0;
        if end == 0 {
            write!(f, "without end")
        } else {
            write!(f, "to day {end}")
        }
    }
}

// The regimes of a set with their values, in kWh a year with one decimal.
#[derive(Clone, Copy)]
struct SetWords(ConsumptionSet);

impl fmt::Display for SetWords {
    fn fmt<W: fmt::Write>(&self, f: &mut fmt::Formatter<W>) -> fmt::Result {
        let set = self.0;
        for (regime, value) in set.regimes().iter().zip(set.values().iter()) {
            let sign = if *value < 0 { "-" } else { "" };
            let tenths = value.unsigned_abs();
            let whole = tenths / 10;
            let tenth = tenths % 10;
            write!(f, ", regime {regime}: {sign}{whole}.{tenth} kWh a year")?;
        }
        Ok(())
    }
}

// A record: what it says, and from when on.
#[derive(Clone, Copy)]
pub struct RowWords(pub Row);

impl fmt::Display for RowWords {
    fn fmt<W: fmt::Write>(&self, f: &mut fmt::Formatter<W>) -> fmt::Result {
        match self.0 {
            Row::Registration(row) => {
                let id = row.value.id;
                let start = row.start;
                write!(f, "supplier {id} from day {start}")
            }
            Row::Appointment(row) => {
                let start = row.start;
                let end = EndWords(row.end);
                write!(f, "our appointment from day {start} {end}")
            }
            Row::Collector(row) => {
                let id = row.value.id;
                let start = row.start;
                write!(f, "data collector {id} from day {start}")
            }
            Row::Profile(row) => {
                let class = row.value.class;
                let configuration = row.value.configuration;
                let start = row.start;
                write!(
                    f,
                    "profile class {class}, configuration {configuration} from day {start}"
                )
            }
            Row::Measurement(row) => {
                let class = char::from(row.value);
                let start = row.start;
                write!(f, "measurement class {class} from day {start}")
            }
            Row::Energisation(row) => {
                let status = match row.value {
                    Status::DeEnergised => "de-energised",
                    Status::Energised => "energised",
                };
                let start = row.start;
                write!(f, "{status} from day {start}")
            }
            Row::LineLoss(row) => {
                let number = row.value.number;
                let start = row.start;
                write!(f, "line loss class {number} from day {start}")
            }
            Row::Group(row) => {
                let group = char::from(row.value);
                let start = row.start;
                write!(f, "GSP group {group} from day {start}")
            }
            Row::Advance(row) => {
                let start = row.start;
                let end = EndWords(row.end);
                let set = SetWords(row.set);
                write!(f, "meter advance from day {start} {end}{set}")
            }
            Row::Estimate(row) => {
                let start = row.start;
                let set = SetWords(row.set);
                write!(f, "estimate from day {start}{set}")
            }
        }
    }
}
