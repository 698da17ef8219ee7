// What the operands behind a command's letter say, if they are there and each is in its range.
ghost use Rattle.std.specs.Prelude.{◌≡◌, ℕ, ◌≤◌, List, Ok, Option};
ghost use Rattle.std.specs.Bool.{then_some};
ghost use Rattle.std.proofs.Common.{arith};
ghost use Rattle.commands.specs.Commands.{whole, ranged, sought, listed};
ghost use Rattle.commands.specs.Numbers.{byte, word, signed};
ghost use Rattle.commands.specs.Ranges.{is_id, is_reading};
ghost use Rattle.commands.specs.Records.{header, heading, supplier, collector, profile, measurement, energisation, line_loss, group, state, appointment, source_of, sets, advance, estimate};

use crate::causes::Cause;
use crate::command::{Header, Heading, Source};
use fields::consumption::ConsumptionSet;
use fields::days::{LAST_DAY, is_day};
use fields::letters::{Group, MeasurementClass, Status};
use fields::states::{Collector, LineLossClass, Profile, Supplier};
use rows::row::{Advance, Appointment, Estimate, State};

const MOST_INSTRUCTIONS: u16 = 256;

const LAST_SYSTEM: u64 = 9_999_999_999_999;

const LAST_PROFILE_CLASS: u8 = 16;

const LAST_LINE_LOSS_CLASS: u16 = 999;

const LARGEST_VALUE: u32 = 2_000_000_000;

// The source that a header names by its letter and id, if the letter names one: the caller tells the cause.
fn source(letter: char, id: u16) -> Option<Source>
    ensures { result ≡ source_of letter id }
{
    match letter {
        'S' => Some(Source::Agent(id)),
        'C' => Some(Source::Collector(id)),
        _ => None,
    }
}

pub(crate) fn read_header(operands: &[u8]) -> Result<Header, Cause>
    ensures { result ≡ whole 9 operands.now (ranged (header operands.now)) }
{
    let [letter, i0, i1, n0, n1, n2, n3, c0, c1, ..] = *operands else {
        return Err(Cause::CutShort);
    };
    let id = u16::from_be_bytes([i0, i1]);
    let number = u32::from_be_bytes([n0, n1, n2, n3]);
    let count = u16::from_be_bytes([c0, c1]);
    let source = source(char::from(letter), id).ok_or(Cause::OutOfRange)?;
    if id >= 1 && number >= 1 && (1..=MOST_INSTRUCTIONS).contains(&count) {
        Ok(Header {
            source,
            number,
            count,
        })
    } else {
        Err(Cause::OutOfRange)
    }
}

pub(crate) fn read_heading(operands: &[u8]) -> Result<Heading, Cause>
    ensures { result ≡ whole 14 operands.now (ranged (heading operands.now)) }
{
    let [s0, s1, s2, s3, s4, s5, s6, s7, n0, n1, n2, n3, d0, d1, ..] = *operands else {
        return Err(Cause::CutShort);
    };
    let system = u64::from_be_bytes([s0, s1, s2, s3, s4, s5, s6, s7]);
    let number = u32::from_be_bytes([n0, n1, n2, n3]);
    let day = u16::from_be_bytes([d0, d1]);
    if (1..=LAST_SYSTEM).contains(&system) && number >= 1 && is_day(day) {
        Ok(Heading {
            system,
            number,
            day,
        })
    } else {
        Err(Cause::OutOfRange)
    }
}

// What a state row says from its start on.
pub(crate) trait Stated: Copy {
    // how many bytes the row's operands take
    ghost size: { ℕ };

    // what they say behind the start, if that is in range
    ghost said: { List ℕ → Option Self };

    fn read(operands: &[u8]) -> Result<Self, Cause>
        ensures { result ≡ whole size operands.now (ranged (said operands.now)) };

    ghost behind_start: { 2 ≤ size };
}

// An id behind a start.
fn read_id(operands: &[u8]) -> Result<u16, Cause>
    ensures { result ≡ whole 4 operands.now (ranged (then_some (is_id (word operands.now 2)) (word operands.now 2))) }
{
    let [_, _, i0, i1, ..] = *operands else {
        return Err(Cause::CutShort);
    };
    let id = u16::from_be_bytes([i0, i1]);
    if id >= 1 {
        Ok(id)
    } else {
        Err(Cause::OutOfRange)
    }
}

// A letter behind a start.
fn read_letter(operands: &[u8]) -> Result<char, Cause>
    ensures { result ≡ whole 3 operands.now (Ok (byte operands.now 2)) }
{
    let [_, _, letter, ..] = *operands else {
        return Err(Cause::CutShort);
    };
    Ok(char::from(letter))
}

impl Stated for Supplier {
    ghost size = { 4 };

    ghost said = { supplier };

    ghost behind_start = { Prim.omega arith };

    fn read(operands: &[u8]) -> Result<Supplier, Cause> {
        read_id(operands).map(|id| Supplier { id })
    }
}

impl Stated for Collector {
    ghost size = { 4 };

    ghost said = { collector };

    ghost behind_start = { Prim.omega arith };

    fn read(operands: &[u8]) -> Result<Collector, Cause> {
        read_id(operands).map(|id| Collector { id })
    }
}

impl Stated for Profile {
    ghost size = { 5 };

    ghost said = { profile };

    ghost behind_start = { Prim.omega arith };

    fn read(operands: &[u8]) -> Result<Profile, Cause> {
        let [_, _, class, c0, c1, ..] = *operands else {
            return Err(Cause::CutShort);
        };
        let configuration = u16::from_be_bytes([c0, c1]);
        if (1..=LAST_PROFILE_CLASS).contains(&class) && configuration >= 1 {
            Ok(Profile {
                class,
                configuration,
            })
        } else {
            Err(Cause::OutOfRange)
        }
    }
}

impl Stated for MeasurementClass {
    ghost size = { 3 };

    ghost said = { measurement };

    ghost behind_start = { Prim.omega arith };

    fn read(operands: &[u8]) -> Result<MeasurementClass, Cause> {
        MeasurementClass::try_from(read_letter(operands)?).map_err(|_| Cause::OutOfRange)
    }
}

impl Stated for Status {
    ghost size = { 3 };

    ghost said = { energisation };

    ghost behind_start = { Prim.omega arith };

    fn read(operands: &[u8]) -> Result<Status, Cause> {
        Status::try_from(read_letter(operands)?).map_err(|_| Cause::OutOfRange)
    }
}

impl Stated for LineLossClass {
    ghost size = { 4 };

    ghost said = { line_loss };

    ghost behind_start = { Prim.omega arith };

    fn read(operands: &[u8]) -> Result<LineLossClass, Cause> {
        let [_, _, n0, n1, ..] = *operands else {
            return Err(Cause::CutShort);
        };
        let number = u16::from_be_bytes([n0, n1]);
        if number <= LAST_LINE_LOSS_CLASS {
            Ok(LineLossClass { number })
        } else {
            Err(Cause::OutOfRange)
        }
    }
}

impl Stated for Group {
    ghost size = { 3 };

    ghost said = { group };

    ghost behind_start = { Prim.omega arith };

    fn read(operands: &[u8]) -> Result<Group, Cause> {
        Group::try_from(read_letter(operands)?).map_err(|_| Cause::OutOfRange)
    }
}

// A state row: its start, and what holds from it on.
pub(crate) fn read_state<V: Stated>(operands: &[u8]) -> Result<State<V>, Cause>
    ensures { result ≡ whole V.size operands.now (ranged (state V.said operands.now)) }
{
    let [s0, s1, ..] = *operands else {
        return Err(Cause::CutShort);
    };
    let start = u16::from_be_bytes([s0, s1]);
    let value = V::read(operands)?;
    if is_day(start) {
        Ok(State { start, value })
    } else {
        Err(Cause::OutOfRange)
    }
}

pub(crate) fn read_appointment(operands: &[u8]) -> Result<Appointment, Cause>
    ensures { result ≡ whole 4 operands.now (ranged (appointment operands.now)) }
{
    let [s0, s1, e0, e1, ..] = *operands else {
        return Err(Cause::CutShort);
    };
    let start = u16::from_be_bytes([s0, s1]);
    let end = u16::from_be_bytes([e0, e1]);
    if is_day(start) && end <= LAST_DAY {
        Ok(Appointment { start, end })
    } else {
        Err(Cause::OutOfRange)
    }
}

// A regime with its value.
fn read_regime(operands: &[u8; 6]) -> Result<(u16, i32), Cause>
    ensures { result ≡ ranged (then_some (is_reading (word operands.now 0) (signed operands.now 2)) (word operands.now 0, signed operands.now 2)) }
{
    let [r0, r1, v0, v1, v2, v3] = *operands;
    let regime = u16::from_be_bytes([r0, r1]);
    let value = i32::from_be_bytes([v0, v1, v2, v3]);
    if regime >= 1 && value.unsigned_abs() <= LARGEST_VALUE {
        Ok((regime, value))
    } else {
        Err(Cause::OutOfRange)
    }
}

// The regimes of a set, n of them at the front of what is left: an n out of range is told
// before any regime is sought.
fn read_set(n: u8, rest: &[u8]) -> Result<ConsumptionSet, Cause>
    ensures { result ≡ listed (sought n 0 rest.now) (sets n rest.now 0) }
{
    let count = usize::from(n);
    if !(1..=ConsumptionSet::MAXIMUM).contains(&count) {
        return Err(Cause::OutOfRange);
    }
    let (regimes, _) = rest.as_chunks::<6>();
    let mut set = ConsumptionSet::empty();
    for operands in regimes.get(..count).ok_or(Cause::CutShort)? {
        let (regime, value) = read_regime(operands)?;
        set.push(regime, value);
    }
    Ok(set)
}

pub(crate) fn read_advance(operands: &[u8]) -> Result<Advance, Cause>
    ensures { result ≡ whole 5 operands.now (listed (sought (byte operands.now 4) 5 operands.now) (advance operands.now)) }
{
    let [s0, s1, e0, e1, n, rest @ ..] = operands else {
        return Err(Cause::CutShort);
    };
    let start = u16::from_be_bytes([*s0, *s1]);
    let end = u16::from_be_bytes([*e0, *e1]);
    let set = read_set(*n, rest)?;
    if is_day(start) && end <= LAST_DAY {
        Ok(Advance { start, end, set })
    } else {
        Err(Cause::OutOfRange)
    }
}

pub(crate) fn read_estimate(operands: &[u8]) -> Result<Estimate, Cause>
    ensures { result ≡ whole 3 operands.now (listed (sought (byte operands.now 2) 3 operands.now) (estimate operands.now)) }
{
    let [s0, s1, n, rest @ ..] = operands else {
        return Err(Cause::CutShort);
    };
    let start = u16::from_be_bytes([*s0, *s1]);
    let set = read_set(*n, rest)?;
    if is_day(start) {
        Ok(Estimate { start, set })
    } else {
        Err(Cause::OutOfRange)
    }
}
