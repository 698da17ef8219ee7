// The two registers side by side: calls from a table, with the answers that both must give.
#[cfg(test)]
mod tests {
    use blocks::block::Block;
    use fields::consumption::ConsumptionSet;
    use fields::letters::{Group, MeasurementClass, Status};
    use fields::states::{Collector, LineLossClass, Profile, Supplier};
    use hashed::hashing::Hashed;
    use ordered::capacity::entries_per_folder;
    use ordered::entries::Entry;
    use ordered::registers::Ordered;
    use register::pairs::Pair;
    use register::registers::Register;
    use register::systems::MeteringSystem;
    use register::walking::{Pairs, walk};
    use rows::dated::Dated;
    use rows::kinds::Kind;
    use rows::row::{Advance, Appointment, Estimate, Row, State};
    use std::process::Abort;

    // A call of a register. A row that is added is known by its kind and its start.
    #[derive(Clone, Copy)]
    enum Call {
        Held,
        Next(u64, u16),
        Count(u64, u16, Kind),
        Read(u64, u16, Kind, usize),
        Make(u64, u16),
        Cut(u64, u16, Kind, u16),
        Add(u64, u16, Kind, u16),
        Clear,
    }

    #[derive(Clone, Copy, PartialEq, Debug)]
    enum Answer {
        // whether it was done; what cannot be refused is
        Done(bool),
        Number(usize),
        Pair(u64, u16),
        // the row of that start
        Row(u16),
        Nothing,
        // what no register may answer: a row other than the one that was added
        Wrong,
    }

    // A set of one to four regimes, by the start.
    fn set_of(start: u16) -> ConsumptionSet {
        let mut set = ConsumptionSet::empty();
        for i in 0..start % 4 + 1 {
            let _ = set.push(i + 1, i32::from(start) - 250);
        }
        set
    }

    // The end of a span that starts then; every other one has none.
    fn end_of(start: u16) -> u16 {
        if start % 2 == 0 { 0 } else { start }
    }

    fn row_of(kind: Kind, start: u16) -> Row {
        match kind {
            Kind::Registration => Row::Registration(State {
                start,
                value: Supplier { id: start },
            }),
            Kind::Appointment => Row::Appointment(Appointment {
                start,
                end: end_of(start),
            }),
            Kind::Collector => Row::Collector(State {
                start,
                value: Collector { id: start },
            }),
            Kind::Profile => Row::Profile(State {
                start,
                value: Profile {
                    class: 1,
                    configuration: start,
                },
            }),
            Kind::Measurement => Row::Measurement(State {
                start,
                value: MeasurementClass::C,
            }),
            Kind::Energisation => Row::Energisation(State {
                start,
                value: Status::DeEnergised,
            }),
            Kind::LineLoss => Row::LineLoss(State {
                start,
                value: LineLossClass { number: start },
            }),
            Kind::Group => Row::Group(State {
                start,
                value: Group::P,
            }),
            Kind::Advance => Row::Advance(Advance {
                start,
                end: end_of(start),
                set: set_of(start),
            }),
            Kind::Estimate => Row::Estimate(Estimate {
                start,
                set: set_of(start),
            }),
        }
    }

    // The answer to a read: a row exactly as it was added, or none.
    fn answer_of(row: Option<Row>, kind: Kind) -> Answer {
        let Some(row) = row else {
            return Answer::Nothing;
        };
        let start = row.start();
        if row == row_of(kind, start) {
            Answer::Row(start)
        } else {
            Answer::Wrong
        }
    }

    fn answer_to<R: Register>(register: &mut R, call: Call) -> Answer {
        match call {
            Call::Held => Answer::Number(register.held()),
            Call::Next(system, view) => match register.next(Pair { system, view }) {
                Some(Pair { system, view }) => Answer::Pair(system, view),
                None => Answer::Nothing,
            },
            Call::Count(system, view, kind) => {
                Answer::Number(register.count(Pair { system, view }, kind))
            }
            Call::Read(system, view, kind, place) => {
                // what a register leaves in the place that is lent must not be this
                let mut row = Some(row_of(Kind::Group, 1));
                register.read(Pair { system, view }, kind, place, &mut row);
                answer_of(row, kind)
            }
            Call::Clear => {
                register.clear();
                Answer::Done(true)
            }
            Call::Make(system, _) | Call::Cut(system, _, _, _) | Call::Add(system, _, _, _) => {
                match MeteringSystem::new(system) {
                    Some(system) => change(register, system, call),
                    None => Answer::Wrong,
                }
            }
        }
    }

    fn change<R: Register>(register: &mut R, system: MeteringSystem, call: Call) -> Answer {
        match call {
            Call::Make(_, view) => Answer::Done(register.make(system, view)),
            Call::Cut(_, view, kind, day) => {
                register.cut(system, view, kind, day);
                Answer::Done(true)
            }
            Call::Add(_, view, kind, start) => Answer::Done(register.add(
                system,
                view,
                row_of(kind, start),
            )),
            _ => Answer::Wrong,
        }
    }

    // Every call on both registers, whose answers are the same and, if asked, those of the table.
    fn side_by_side<R: Register, S: Register>(
        rt: &impl Abort,
        one: &mut R,
        other: &mut S,
        by_table: bool,
    ) {
        for (call, expected) in &STEPS {
            let told = answer_to(one, *call);
            assert_eq!(rt; answer_to(other, *call), told);
            assert!(rt; told == *expected || !by_table);
            assert!(rt; one.held() <= one.places());
        }
    }

    // The walks over two registers come to the same pairs, as many as are held.
    fn walk_both<R: Register, S: Register>(rt: &impl Abort, one: &R, other: &S) {
        let mut last = Pair { system: 0, view: 0 };
        for pair in Pairs::of(one) {
            assert_eq!(rt; other.next(last), Some(pair));
            last = pair;
        }
        assert_eq!(rt; other.next(last), None);
        assert_eq!(rt; walk(one), one.held());
        assert_eq!(rt; walk(other), one.held());
    }

    // Both registers over memory for so many folders, worked through the table.
    fn with_places(rt: &impl Abort, places: usize, by_table: bool) {
        let mut entries = [Entry::blank(); 4 * 97];
        let mut heads = [Some(7); 5];
        let mut blocks = [Block::blank(); 4];
        let mut order = [9; 4];
        let mut ordered = Ordered::over(&mut entries, places);
        let mut hashed = Hashed::over(&mut heads, &mut blocks, &mut order, places);
        assert_eq!(rt; ordered.places(), places);
        assert_eq!(rt; hashed.places(), places);
        side_by_side(rt, &mut ordered, &mut hashed, by_table);
        walk_both(rt, &ordered, &hashed);
    }

    #[test]
    fn table_of_calls(rt: HostRuntime) {
        with_places(&rt, 4, true);
    }

    #[test]
    fn no_place(rt: HostRuntime) {
        with_places(&rt, 0, false);
    }

    #[test]
    fn one_place(rt: HostRuntime) {
        with_places(&rt, 1, false);
    }

    #[test]
    fn three_places(rt: HostRuntime) {
        with_places(&rt, 3, false);
    }

    fn ordered_places(entries: &mut [Entry]) -> usize {
        Ordered::over(entries, 30_000).places()
    }

    fn hashed_places(heads: &mut [Option<u32>], blocks: &mut [Block], order: &mut [u32]) -> usize {
        Hashed::over(heads, blocks, order, 30_000).places()
    }

    // Places follow from the memory: an entry less than four full folders take is three folders.
    #[test]
    fn places_by_memory(rt: HostRuntime) {
        assert_eq!(rt; entries_per_folder(), 97);
        assert_eq!(rt; ordered_places(&mut [Entry::blank(); 388]), 4);
        assert_eq!(rt; ordered_places(&mut [Entry::blank(); 387]), 3);
        assert_eq!(rt; ordered_places(&mut [Entry::blank(); 96]), 0);
        assert_eq!(rt; ordered_places(&mut []), 0);
        let mut blocks = [Block::blank(); 3];
        assert_eq!(rt;
            hashed_places(&mut [Some(0); 1], &mut blocks, &mut [0; 4]),
            3
        );
        assert_eq!(rt;
            hashed_places(&mut [Some(0); 1], &mut blocks, &mut [0; 2]),
            2
        );
        assert_eq!(rt; hashed_places(&mut [], &mut blocks, &mut [0; 4]), 0);
        assert_eq!(rt; hashed_places(&mut [Some(0); 1], &mut [], &mut [0; 4]), 0);
    }

    static STEPS: [(Call, Answer); 360] = [
        (Call::Held, Answer::Number(0)),
        (Call::Next(0, 0), Answer::Nothing),
        (
            Call::Add(1, 0, Kind::Energisation, 200),
            Answer::Done(false),
        ),
        (Call::Count(1, 0, Kind::Energisation), Answer::Number(0)),
        (Call::Read(1, 0, Kind::Energisation, 0), Answer::Nothing),
        (Call::Make(1000000000017, 0), Answer::Done(true)),
        (Call::Make(1000000000017, 0), Answer::Done(true)),
        (Call::Held, Answer::Number(1)),
        (
            Call::Add(1000000000017, 0, Kind::Energisation, 200),
            Answer::Done(true),
        ),
        (
            Call::Add(1000000000017, 0, Kind::Energisation, 201),
            Answer::Done(true),
        ),
        (
            Call::Add(1000000000017, 0, Kind::Energisation, 202),
            Answer::Done(true),
        ),
        (
            Call::Add(1000000000017, 0, Kind::Energisation, 203),
            Answer::Done(true),
        ),
        (
            Call::Add(1000000000017, 0, Kind::Energisation, 204),
            Answer::Done(true),
        ),
        (
            Call::Add(1000000000017, 0, Kind::Energisation, 205),
            Answer::Done(true),
        ),
        (
            Call::Add(1000000000017, 0, Kind::Energisation, 206),
            Answer::Done(true),
        ),
        (
            Call::Add(1000000000017, 0, Kind::Energisation, 207),
            Answer::Done(true),
        ),
        (
            Call::Add(1000000000017, 0, Kind::Energisation, 208),
            Answer::Done(false),
        ),
        (
            Call::Add(1000000000017, 0, Kind::Group, 200),
            Answer::Done(true),
        ),
        (
            Call::Add(1000000000017, 0, Kind::Group, 200),
            Answer::Done(false),
        ),
        (
            Call::Add(1000000000017, 0, Kind::Group, 199),
            Answer::Done(false),
        ),
        (
            Call::Cut(1000000000017, 0, Kind::Energisation, 204),
            Answer::Done(true),
        ),
        (
            Call::Count(1000000000017, 0, Kind::Energisation),
            Answer::Number(4),
        ),
        (
            Call::Read(1000000000017, 0, Kind::Energisation, 3),
            Answer::Row(203),
        ),
        (
            Call::Read(1000000000017, 0, Kind::Energisation, 4),
            Answer::Nothing,
        ),
        (Call::Make(1000000000017, 7), Answer::Done(true)),
        (Call::Make(1, 65535), Answer::Done(true)),
        (Call::Make(9999999999999, 0), Answer::Done(true)),
        (Call::Make(2, 0), Answer::Done(false)),
        (Call::Held, Answer::Number(4)),
        (Call::Make(1, 65535), Answer::Done(true)),
        (Call::Next(0, 0), Answer::Pair(1, 65535)),
        (Call::Next(1, 65534), Answer::Pair(1, 65535)),
        (Call::Next(1, 65535), Answer::Pair(1000000000017, 0)),
        (Call::Next(1000000000017, 0), Answer::Pair(1000000000017, 7)),
        (Call::Next(1000000000017, 7), Answer::Pair(9999999999999, 0)),
        (Call::Next(9999999999999, 0), Answer::Nothing),
        (Call::Next(18446744073709551615, 65535), Answer::Nothing),
        (
            Call::Add(1000000000017, 7, Kind::Advance, 300),
            Answer::Done(true),
        ),
        (
            Call::Add(1000000000017, 7, Kind::Advance, 301),
            Answer::Done(true),
        ),
        (
            Call::Add(1000000000017, 7, Kind::Advance, 302),
            Answer::Done(true),
        ),
        (
            Call::Add(1000000000017, 7, Kind::Advance, 303),
            Answer::Done(true),
        ),
        (
            Call::Add(1000000000017, 7, Kind::Advance, 304),
            Answer::Done(true),
        ),
        (
            Call::Add(1000000000017, 7, Kind::Advance, 305),
            Answer::Done(true),
        ),
        (
            Call::Add(1000000000017, 7, Kind::Advance, 306),
            Answer::Done(true),
        ),
        (
            Call::Add(1000000000017, 7, Kind::Advance, 307),
            Answer::Done(true),
        ),
        (
            Call::Add(1000000000017, 7, Kind::Advance, 308),
            Answer::Done(true),
        ),
        (
            Call::Add(1000000000017, 7, Kind::Advance, 309),
            Answer::Done(true),
        ),
        (
            Call::Add(1000000000017, 7, Kind::Advance, 310),
            Answer::Done(true),
        ),
        (
            Call::Add(1000000000017, 7, Kind::Advance, 311),
            Answer::Done(true),
        ),
        (
            Call::Add(1000000000017, 7, Kind::Advance, 312),
            Answer::Done(true),
        ),
        (
            Call::Add(1000000000017, 7, Kind::Advance, 313),
            Answer::Done(true),
        ),
        (
            Call::Add(1000000000017, 7, Kind::Advance, 314),
            Answer::Done(true),
        ),
        (
            Call::Add(1000000000017, 7, Kind::Advance, 315),
            Answer::Done(true),
        ),
        (
            Call::Add(1000000000017, 7, Kind::Advance, 316),
            Answer::Done(false),
        ),
        (
            Call::Read(1000000000017, 7, Kind::Advance, 15),
            Answer::Row(315),
        ),
        (
            Call::Read(1000000000017, 7, Kind::Advance, 16),
            Answer::Nothing,
        ),
        (
            Call::Read(1000000000017, 7, Kind::Advance, 65535),
            Answer::Nothing,
        ),
        (
            Call::Read(1000000000017, 0, Kind::Registration, 0),
            Answer::Nothing,
        ),
        (
            Call::Add(9999999999999, 0, Kind::Collector, 100),
            Answer::Done(true),
        ),
        (Call::Next(1, 0), Answer::Pair(1, 65535)),
        (Call::Add(1, 65535, Kind::Estimate, 130), Answer::Done(true)),
        (
            Call::Add(1000000000017, 0, Kind::Appointment, 102),
            Answer::Done(true),
        ),
        (
            Call::Add(9999999999999, 0, Kind::Collector, 130),
            Answer::Done(true),
        ),
        (
            Call::Add(9999999999999, 0, Kind::LineLoss, 101),
            Answer::Done(true),
        ),
        (Call::Make(9999999999999, 7), Answer::Done(false)),
        (
            Call::Add(1000000000017, 7, Kind::Appointment, 100),
            Answer::Done(true),
        ),
        (
            Call::Count(9999999999999, 0, Kind::Group),
            Answer::Number(0),
        ),
        (
            Call::Read(1000000000017, 0, Kind::Appointment, 3),
            Answer::Nothing,
        ),
        (
            Call::Add(1, 65535, Kind::Measurement, 102),
            Answer::Done(true),
        ),
        (Call::Make(1, 0), Answer::Done(false)),
        (
            Call::Add(9999999999999, 0, Kind::LineLoss, 101),
            Answer::Done(false),
        ),
        (Call::Make(1, 65535), Answer::Done(true)),
        (Call::Make(2, 9), Answer::Done(false)),
        (Call::Held, Answer::Number(4)),
        (Call::Add(1, 9, Kind::Estimate, 130), Answer::Done(false)),
        (
            Call::Read(1000000000017, 7, Kind::Profile, 0),
            Answer::Nothing,
        ),
        (
            Call::Add(9999999999999, 0, Kind::Estimate, 102),
            Answer::Done(true),
        ),
        (Call::Make(2, 65535), Answer::Done(false)),
        (
            Call::Add(1000000000017, 0, Kind::LineLoss, 101),
            Answer::Done(true),
        ),
        (
            Call::Count(1000000000017, 0, Kind::Appointment),
            Answer::Number(1),
        ),
        (
            Call::Count(1000000000017, 0, Kind::Group),
            Answer::Number(1),
        ),
        (
            Call::Add(1000000000017, 0, Kind::Appointment, 104),
            Answer::Done(true),
        ),
        (
            Call::Read(9999999999999, 0, Kind::Advance, 0),
            Answer::Nothing,
        ),
        (Call::Next(9999999999999, 7), Answer::Nothing),
        (
            Call::Add(1000000000017, 7, Kind::Estimate, 130),
            Answer::Done(true),
        ),
        (
            Call::Add(1000000000017, 7, Kind::Collector, 102),
            Answer::Done(true),
        ),
        (Call::Make(1000000000017, 65535), Answer::Done(false)),
        (Call::Make(9999999999999, 7), Answer::Done(false)),
        (Call::Make(1, 9), Answer::Done(false)),
        (Call::Make(2, 65535), Answer::Done(false)),
        (Call::Next(1, 7), Answer::Pair(1, 65535)),
        (
            Call::Add(1000000000017, 7, Kind::Group, 99),
            Answer::Done(true),
        ),
        (
            Call::Add(1000000000017, 7, Kind::Appointment, 100),
            Answer::Done(false),
        ),
        (Call::Make(1000000000017, 0), Answer::Done(true)),
        (Call::Make(1, 7), Answer::Done(false)),
        (
            Call::Add(9999999999999, 7, Kind::LineLoss, 99),
            Answer::Done(false),
        ),
        (
            Call::Add(1000000000017, 7, Kind::Collector, 101),
            Answer::Done(false),
        ),
        (Call::Add(2, 9, Kind::Advance, 130), Answer::Done(false)),
        (
            Call::Add(9999999999999, 0, Kind::LineLoss, 102),
            Answer::Done(true),
        ),
        (Call::Cut(1, 9, Kind::Advance, 99), Answer::Done(true)),
        (Call::Next(1000000000017, 0), Answer::Pair(1000000000017, 7)),
        (
            Call::Add(9999999999999, 0, Kind::Collector, 129),
            Answer::Done(false),
        ),
        (Call::Held, Answer::Number(4)),
        (Call::Cut(2, 0, Kind::Collector, 99), Answer::Done(true)),
        (
            Call::Add(1000000000017, 7, Kind::Estimate, 131),
            Answer::Done(true),
        ),
        (
            Call::Add(9999999999999, 0, Kind::Estimate, 102),
            Answer::Done(false),
        ),
        (
            Call::Read(1000000000017, 7, Kind::Appointment, 3),
            Answer::Nothing,
        ),
        (
            Call::Add(1000000000017, 7, Kind::Collector, 104),
            Answer::Done(true),
        ),
        (
            Call::Read(1000000000017, 0, Kind::LineLoss, 1),
            Answer::Nothing,
        ),
        (Call::Count(2, 0, Kind::LineLoss), Answer::Number(0)),
        (
            Call::Add(1000000000017, 7, Kind::Group, 129),
            Answer::Done(true),
        ),
        (
            Call::Next(1000000000017, 65535),
            Answer::Pair(9999999999999, 0),
        ),
        (
            Call::Read(1000000000017, 7, Kind::Appointment, 0),
            Answer::Row(100),
        ),
        (Call::Next(1, 0), Answer::Pair(1, 65535)),
        (
            Call::Read(1000000000017, 0, Kind::Estimate, 2),
            Answer::Nothing,
        ),
        (Call::Make(1, 9), Answer::Done(false)),
        (Call::Read(1, 65535, Kind::Collector, 0), Answer::Nothing),
        (
            Call::Count(1000000000017, 0, Kind::Appointment),
            Answer::Number(2),
        ),
        (
            Call::Count(9999999999999, 0, Kind::Estimate),
            Answer::Number(1),
        ),
        (
            Call::Add(1000000000017, 65535, Kind::LineLoss, 130),
            Answer::Done(false),
        ),
        (Call::Add(2, 9, Kind::Advance, 100), Answer::Done(false)),
        (Call::Add(1, 65535, Kind::Estimate, 131), Answer::Done(true)),
        (
            Call::Add(1, 65535, Kind::Measurement, 102),
            Answer::Done(false),
        ),
        (Call::Next(9999999999999, 9), Answer::Nothing),
        (
            Call::Add(9999999999999, 0, Kind::Measurement, 102),
            Answer::Done(true),
        ),
        (
            Call::Count(9999999999999, 7, Kind::Group),
            Answer::Number(0),
        ),
        (
            Call::Add(1, 65535, Kind::Registration, 101),
            Answer::Done(true),
        ),
        (
            Call::Add(1000000000017, 7, Kind::Estimate, 130),
            Answer::Done(false),
        ),
        (
            Call::Count(1000000000017, 0, Kind::Appointment),
            Answer::Number(2),
        ),
        (
            Call::Add(1000000000017, 7, Kind::LineLoss, 130),
            Answer::Done(true),
        ),
        (Call::Add(1, 65535, Kind::Profile, 101), Answer::Done(true)),
        (Call::Add(2, 9, Kind::Collector, 99), Answer::Done(false)),
        (Call::Make(1, 9), Answer::Done(false)),
        (Call::Count(1, 65535, Kind::Collector), Answer::Number(0)),
        (Call::Next(1000000000017, 9), Answer::Pair(9999999999999, 0)),
        (
            Call::Count(1000000000017, 7, Kind::Measurement),
            Answer::Number(0),
        ),
        (
            Call::Add(1000000000017, 7, Kind::Registration, 100),
            Answer::Done(true),
        ),
        (
            Call::Cut(9999999999999, 0, Kind::LineLoss, 62),
            Answer::Done(true),
        ),
        (Call::Next(9999999999999, 7), Answer::Nothing),
        (Call::Add(1, 65535, Kind::Group, 102), Answer::Done(true)),
        (Call::Next(1, 7), Answer::Pair(1, 65535)),
        (Call::Next(9999999999999, 65535), Answer::Nothing),
        (
            Call::Count(1000000000017, 0, Kind::Collector),
            Answer::Number(0),
        ),
        (
            Call::Add(1000000000017, 7, Kind::Collector, 103),
            Answer::Done(false),
        ),
        (Call::Next(1000000000017, 0), Answer::Pair(1000000000017, 7)),
        (Call::Make(1, 9), Answer::Done(false)),
        (
            Call::Cut(1000000000017, 0, Kind::Energisation, 204),
            Answer::Done(true),
        ),
        (Call::Make(2, 0), Answer::Done(false)),
        (Call::Count(1, 65535, Kind::Energisation), Answer::Number(0)),
        (
            Call::Add(1000000000017, 7, Kind::Energisation, 130),
            Answer::Done(true),
        ),
        (Call::Next(1000000000017, 0), Answer::Pair(1000000000017, 7)),
        (
            Call::Count(1000000000017, 0, Kind::Collector),
            Answer::Number(0),
        ),
        (
            Call::Add(9999999999999, 0, Kind::Appointment, 100),
            Answer::Done(true),
        ),
        (Call::Make(9999999999999, 9), Answer::Done(false)),
        (
            Call::Add(9999999999999, 0, Kind::LineLoss, 101),
            Answer::Done(true),
        ),
        (
            Call::Add(9999999999999, 0, Kind::Registration, 99),
            Answer::Done(true),
        ),
        (
            Call::Add(1000000000017, 0, Kind::Registration, 101),
            Answer::Done(true),
        ),
        (Call::Make(1000000000017, 7), Answer::Done(true)),
        (Call::Next(1000000000017, 0), Answer::Pair(1000000000017, 7)),
        (Call::Make(1, 9), Answer::Done(false)),
        (
            Call::Cut(9999999999999, 0, Kind::Collector, 129),
            Answer::Done(true),
        ),
        (
            Call::Count(9999999999999, 0, Kind::Energisation),
            Answer::Number(0),
        ),
        (
            Call::Count(9999999999999, 0, Kind::LineLoss),
            Answer::Number(1),
        ),
        (Call::Add(1, 65535, Kind::Advance, 102), Answer::Done(true)),
        (
            Call::Add(1000000000017, 0, Kind::Energisation, 202),
            Answer::Done(false),
        ),
        (
            Call::Add(9999999999999, 0, Kind::Measurement, 103),
            Answer::Done(true),
        ),
        (
            Call::Read(1000000000017, 7, Kind::Profile, 3),
            Answer::Nothing,
        ),
        (Call::Add(1, 65535, Kind::Group, 103), Answer::Done(true)),
        (
            Call::Read(1000000000017, 0, Kind::Estimate, 0),
            Answer::Nothing,
        ),
        (Call::Add(1, 65535, Kind::Group, 104), Answer::Done(true)),
        (
            Call::Add(1000000000017, 7, Kind::Measurement, 102),
            Answer::Done(true),
        ),
        (
            Call::Add(9999999999999, 0, Kind::Measurement, 103),
            Answer::Done(false),
        ),
        (Call::Held, Answer::Number(4)),
        (Call::Next(1000000000017, 0), Answer::Pair(1000000000017, 7)),
        (Call::Next(1, 7), Answer::Pair(1, 65535)),
        (
            Call::Count(9999999999999, 0, Kind::LineLoss),
            Answer::Number(1),
        ),
        (
            Call::Count(1000000000017, 7, Kind::Group),
            Answer::Number(2),
        ),
        (
            Call::Cut(1, 65535, Kind::Measurement, 101),
            Answer::Done(true),
        ),
        (
            Call::Add(9999999999999, 0, Kind::Collector, 101),
            Answer::Done(true),
        ),
        (Call::Make(9999999999999, 65535), Answer::Done(false)),
        (
            Call::Add(9999999999999, 0, Kind::LineLoss, 131),
            Answer::Done(true),
        ),
        (Call::Next(1, 65535), Answer::Pair(1000000000017, 0)),
        (
            Call::Cut(1000000000017, 0, Kind::Appointment, 103),
            Answer::Done(true),
        ),
        (Call::Make(2, 9), Answer::Done(false)),
        (
            Call::Add(1000000000017, 0, Kind::Energisation, 205),
            Answer::Done(true),
        ),
        (
            Call::Read(1000000000017, 7, Kind::Advance, 1),
            Answer::Row(301),
        ),
        (Call::Make(9999999999999, 65535), Answer::Done(false)),
        (
            Call::Add(1000000000017, 7, Kind::Profile, 99),
            Answer::Done(true),
        ),
        (Call::Cut(2, 7, Kind::Registration, 101), Answer::Done(true)),
        (
            Call::Count(1000000000017, 0, Kind::Profile),
            Answer::Number(0),
        ),
        (Call::Read(2, 9, Kind::Collector, 0), Answer::Nothing),
        (Call::Make(9999999999999, 0), Answer::Done(true)),
        (Call::Make(9999999999999, 0), Answer::Done(true)),
        (
            Call::Read(1000000000017, 0, Kind::Energisation, 0),
            Answer::Row(200),
        ),
        (
            Call::Add(9999999999999, 0, Kind::Registration, 99),
            Answer::Done(false),
        ),
        (
            Call::Read(1000000000017, 7, Kind::Energisation, 0),
            Answer::Row(130),
        ),
        (
            Call::Count(9999999999999, 0, Kind::Registration),
            Answer::Number(1),
        ),
        (
            Call::Add(9999999999999, 0, Kind::Registration, 129),
            Answer::Done(true),
        ),
        (
            Call::Add(1000000000017, 7, Kind::Estimate, 133),
            Answer::Done(true),
        ),
        (
            Call::Count(9999999999999, 0, Kind::Estimate),
            Answer::Number(1),
        ),
        (
            Call::Add(1000000000017, 0, Kind::Advance, 100),
            Answer::Done(true),
        ),
        (
            Call::Add(1000000000017, 7, Kind::Measurement, 103),
            Answer::Done(true),
        ),
        (
            Call::Add(1000000000017, 7, Kind::Energisation, 130),
            Answer::Done(false),
        ),
        (Call::Add(2, 7, Kind::Group, 101), Answer::Done(false)),
        (
            Call::Cut(1000000000017, 7, Kind::Estimate, 93),
            Answer::Done(true),
        ),
        (
            Call::Add(9999999999999, 0, Kind::Advance, 100),
            Answer::Done(true),
        ),
        (
            Call::Add(9999999999999, 0, Kind::Measurement, 105),
            Answer::Done(true),
        ),
        (
            Call::Add(1000000000017, 0, Kind::LineLoss, 101),
            Answer::Done(false),
        ),
        (Call::Cut(1, 65535, Kind::Profile, 100), Answer::Done(true)),
        (Call::Read(2, 0, Kind::Appointment, 0), Answer::Nothing),
        (Call::Add(2, 0, Kind::Profile, 100), Answer::Done(false)),
        (Call::Add(1, 65535, Kind::Group, 134), Answer::Done(true)),
        (Call::Add(1, 65535, Kind::Advance, 104), Answer::Done(true)),
        (Call::Add(1, 65535, Kind::Group, 135), Answer::Done(true)),
        (Call::Make(1000000000017, 7), Answer::Done(true)),
        (Call::Read(1, 65535, Kind::Estimate, 3), Answer::Nothing),
        (
            Call::Count(1000000000017, 0, Kind::Collector),
            Answer::Number(0),
        ),
        (
            Call::Cut(9999999999999, 9, Kind::Measurement, 100),
            Answer::Done(true),
        ),
        (
            Call::Add(1000000000017, 0, Kind::Appointment, 101),
            Answer::Done(false),
        ),
        (
            Call::Add(1000000000017, 7, Kind::Advance, 315),
            Answer::Done(false),
        ),
        (
            Call::Count(9999999999999, 0, Kind::Estimate),
            Answer::Number(1),
        ),
        (
            Call::Add(1, 65535, Kind::Measurement, 102),
            Answer::Done(true),
        ),
        (
            Call::Next(1000000000017, 65535),
            Answer::Pair(9999999999999, 0),
        ),
        (
            Call::Read(1000000000017, 7, Kind::Registration, 2),
            Answer::Nothing,
        ),
        (Call::Make(1000000000017, 9), Answer::Done(false)),
        (Call::Next(9999999999999, 0), Answer::Nothing),
        (
            Call::Add(9999999999999, 0, Kind::LineLoss, 161),
            Answer::Done(true),
        ),
        (
            Call::Add(1000000000017, 7, Kind::Profile, 100),
            Answer::Done(true),
        ),
        (Call::Read(1, 65535, Kind::Profile, 0), Answer::Nothing),
        (
            Call::Add(1000000000017, 7, Kind::Appointment, 99),
            Answer::Done(false),
        ),
        (Call::Clear, Answer::Done(true)),
        (Call::Held, Answer::Number(0)),
        (Call::Next(0, 0), Answer::Nothing),
        (
            Call::Count(1000000000017, 7, Kind::Advance),
            Answer::Number(0),
        ),
        (
            Call::Cut(9999999999999, 7, Kind::Advance, 100),
            Answer::Done(true),
        ),
        (Call::Next(1, 65535), Answer::Nothing),
        (
            Call::Count(9999999999999, 0, Kind::Measurement),
            Answer::Number(0),
        ),
        (
            Call::Add(9999999999999, 0, Kind::Collector, 99),
            Answer::Done(false),
        ),
        (
            Call::Read(1000000000017, 65535, Kind::Estimate, 0),
            Answer::Nothing,
        ),
        (
            Call::Add(1000000000017, 9, Kind::Appointment, 99),
            Answer::Done(false),
        ),
        (Call::Read(1, 7, Kind::Profile, 0), Answer::Nothing),
        (
            Call::Add(9999999999999, 7, Kind::Profile, 102),
            Answer::Done(false),
        ),
        (Call::Add(1, 7, Kind::Group, 102), Answer::Done(false)),
        (
            Call::Add(1000000000017, 65535, Kind::Estimate, 102),
            Answer::Done(false),
        ),
        (Call::Make(9999999999999, 7), Answer::Done(true)),
        (
            Call::Count(9999999999999, 7, Kind::Appointment),
            Answer::Number(0),
        ),
        (Call::Make(2, 0), Answer::Done(true)),
        (
            Call::Add(9999999999999, 9, Kind::Group, 100),
            Answer::Done(false),
        ),
        (
            Call::Add(2, 65535, Kind::Energisation, 100),
            Answer::Done(false),
        ),
        (Call::Add(2, 0, Kind::Advance, 99), Answer::Done(true)),
        (Call::Add(2, 0, Kind::LineLoss, 130), Answer::Done(true)),
        (
            Call::Count(9999999999999, 7, Kind::Registration),
            Answer::Number(0),
        ),
        (Call::Make(1, 65535), Answer::Done(true)),
        (
            Call::Count(9999999999999, 7, Kind::Estimate),
            Answer::Number(0),
        ),
        (Call::Count(1, 9, Kind::Appointment), Answer::Number(0)),
        (Call::Add(2, 9, Kind::Advance, 100), Answer::Done(false)),
        (Call::Make(1000000000017, 9), Answer::Done(true)),
        (Call::Add(2, 0, Kind::Profile, 130), Answer::Done(true)),
        (Call::Count(2, 9, Kind::Measurement), Answer::Number(0)),
        (Call::Add(1, 65535, Kind::Estimate, 130), Answer::Done(true)),
        (
            Call::Cut(9999999999999, 7, Kind::Measurement, 99),
            Answer::Done(true),
        ),
        (Call::Cut(2, 9, Kind::Appointment, 100), Answer::Done(true)),
        (
            Call::Add(1000000000017, 9, Kind::Appointment, 130),
            Answer::Done(true),
        ),
        (
            Call::Cut(9999999999999, 7, Kind::Collector, 101),
            Answer::Done(true),
        ),
        (
            Call::Cut(9999999999999, 7, Kind::Appointment, 99),
            Answer::Done(true),
        ),
        (Call::Make(1000000000017, 0), Answer::Done(false)),
        (Call::Read(2, 0, Kind::Profile, 0), Answer::Row(130)),
        (
            Call::Read(9999999999999, 7, Kind::Appointment, 3),
            Answer::Nothing,
        ),
        (Call::Held, Answer::Number(4)),
        (Call::Held, Answer::Number(4)),
        (Call::Make(1000000000017, 9), Answer::Done(true)),
        (
            Call::Add(1000000000017, 7, Kind::Measurement, 99),
            Answer::Done(false),
        ),
        (
            Call::Add(1, 65535, Kind::Registration, 130),
            Answer::Done(true),
        ),
        (Call::Next(1, 9), Answer::Pair(1, 65535)),
        (
            Call::Add(9999999999999, 7, Kind::Collector, 101),
            Answer::Done(true),
        ),
        (Call::Count(1, 65535, Kind::Measurement), Answer::Number(0)),
        (Call::Count(2, 0, Kind::Advance), Answer::Number(1)),
        (
            Call::Add(1000000000017, 0, Kind::Advance, 102),
            Answer::Done(false),
        ),
        (
            Call::Add(9999999999999, 0, Kind::Collector, 100),
            Answer::Done(false),
        ),
        (
            Call::Add(1000000000017, 9, Kind::Collector, 100),
            Answer::Done(true),
        ),
        (
            Call::Add(1, 65535, Kind::Appointment, 101),
            Answer::Done(true),
        ),
        (Call::Next(1000000000017, 7), Answer::Pair(1000000000017, 9)),
        (Call::Next(1, 9), Answer::Pair(1, 65535)),
        (Call::Next(2, 0), Answer::Pair(1000000000017, 9)),
        (Call::Add(2, 0, Kind::Appointment, 101), Answer::Done(true)),
        (Call::Next(2, 65535), Answer::Pair(1000000000017, 9)),
        (
            Call::Add(1, 65535, Kind::Collector, 101),
            Answer::Done(true),
        ),
        (
            Call::Cut(9999999999999, 7, Kind::Measurement, 101),
            Answer::Done(true),
        ),
        (Call::Make(1, 65535), Answer::Done(true)),
        (Call::Cut(1, 65535, Kind::Estimate, 129), Answer::Done(true)),
        (Call::Make(1000000000017, 65535), Answer::Done(false)),
        (
            Call::Next(1000000000017, 65535),
            Answer::Pair(9999999999999, 7),
        ),
        (Call::Make(1000000000017, 0), Answer::Done(false)),
        (Call::Cut(2, 0, Kind::Appointment, 61), Answer::Done(true)),
        (
            Call::Add(9999999999999, 7, Kind::Energisation, 101),
            Answer::Done(true),
        ),
        (
            Call::Read(1000000000017, 9, Kind::Energisation, 1),
            Answer::Nothing,
        ),
        (Call::Add(2, 0, Kind::Estimate, 101), Answer::Done(true)),
        (
            Call::Count(9999999999999, 7, Kind::Collector),
            Answer::Number(1),
        ),
        (
            Call::Count(9999999999999, 9, Kind::Energisation),
            Answer::Number(0),
        ),
        (
            Call::Add(1000000000017, 9, Kind::Estimate, 130),
            Answer::Done(true),
        ),
        (Call::Add(1, 65535, Kind::Group, 101), Answer::Done(true)),
        (Call::Add(2, 0, Kind::Appointment, 102), Answer::Done(true)),
        (
            Call::Add(1000000000017, 9, Kind::Energisation, 130),
            Answer::Done(true),
        ),
        (Call::Next(9999999999999, 9), Answer::Nothing),
        (Call::Next(1000000000017, 7), Answer::Pair(1000000000017, 9)),
        (Call::Add(2, 0, Kind::LineLoss, 160), Answer::Done(true)),
        (Call::Cut(2, 0, Kind::Advance, 100), Answer::Done(true)),
        (
            Call::Add(1, 65535, Kind::Measurement, 101),
            Answer::Done(true),
        ),
        (
            Call::Count(9999999999999, 7, Kind::Collector),
            Answer::Number(1),
        ),
        (Call::Read(1, 65535, Kind::Appointment, 1), Answer::Nothing),
        (
            Call::Add(9999999999999, 0, Kind::Group, 102),
            Answer::Done(false),
        ),
        (
            Call::Count(9999999999999, 7, Kind::Registration),
            Answer::Number(0),
        ),
        (Call::Make(9999999999999, 7), Answer::Done(true)),
        (Call::Add(2, 0, Kind::Group, 101), Answer::Done(true)),
        (Call::Next(2, 7), Answer::Pair(1000000000017, 9)),
        (
            Call::Add(1, 65535, Kind::Collector, 131),
            Answer::Done(true),
        ),
        (
            Call::Count(9999999999999, 9, Kind::Collector),
            Answer::Number(0),
        ),
        (
            Call::Cut(1, 65535, Kind::Appointment, 101),
            Answer::Done(true),
        ),
        (
            Call::Add(1000000000017, 7, Kind::Advance, 102),
            Answer::Done(false),
        ),
        (Call::Add(1, 9, Kind::Collector, 100), Answer::Done(false)),
        (Call::Next(9999999999999, 0), Answer::Pair(9999999999999, 7)),
        (
            Call::Count(9999999999999, 7, Kind::LineLoss),
            Answer::Number(0),
        ),
        (
            Call::Add(9999999999999, 7, Kind::Profile, 130),
            Answer::Done(true),
        ),
        (Call::Make(1000000000017, 9), Answer::Done(true)),
        (Call::Read(2, 0, Kind::Collector, 3), Answer::Nothing),
        (
            Call::Add(1000000000017, 9, Kind::Collector, 101),
            Answer::Done(true),
        ),
        (Call::Cut(1, 65535, Kind::Group, 102), Answer::Done(true)),
        (Call::Read(1, 65535, Kind::Group, 3), Answer::Nothing),
        (Call::Count(1, 65535, Kind::Group), Answer::Number(1)),
        (
            Call::Add(1000000000017, 9, Kind::Energisation, 129),
            Answer::Done(false),
        ),
        (Call::Make(9999999999999, 9), Answer::Done(false)),
        (Call::Cut(1, 65535, Kind::Estimate, 60), Answer::Done(true)),
        (Call::Add(2, 0, Kind::Estimate, 103), Answer::Done(true)),
        (
            Call::Add(1000000000017, 0, Kind::Registration, 100),
            Answer::Done(false),
        ),
        (Call::Add(2, 0, Kind::Estimate, 102), Answer::Done(false)),
        (Call::Read(1, 65535, Kind::Profile, 0), Answer::Nothing),
        (Call::Add(2, 0, Kind::Estimate, 104), Answer::Done(true)),
        (Call::Make(2, 65535), Answer::Done(false)),
        (
            Call::Add(1000000000017, 9, Kind::Advance, 99),
            Answer::Done(true),
        ),
        (
            Call::Add(1000000000017, 9, Kind::Group, 99),
            Answer::Done(true),
        ),
        (
            Call::Count(1000000000017, 9, Kind::Group),
            Answer::Number(1),
        ),
        (
            Call::Add(9999999999999, 7, Kind::Appointment, 101),
            Answer::Done(true),
        ),
        (
            Call::Add(1000000000017, 9, Kind::Profile, 102),
            Answer::Done(true),
        ),
        (
            Call::Add(1000000000017, 9, Kind::Profile, 102),
            Answer::Done(false),
        ),
        (Call::Add(2, 0, Kind::Energisation, 130), Answer::Done(true)),
        (
            Call::Add(1000000000017, 9, Kind::Registration, 101),
            Answer::Done(true),
        ),
        (Call::Make(1, 7), Answer::Done(false)),
        (Call::Read(2, 0, Kind::Group, 3), Answer::Nothing),
        (Call::Read(1, 65535, Kind::Measurement, 0), Answer::Row(101)),
        (
            Call::Add(9999999999999, 0, Kind::Appointment, 130),
            Answer::Done(false),
        ),
        (
            Call::Add(9999999999999, 7, Kind::LineLoss, 102),
            Answer::Done(true),
        ),
        (
            Call::Read(9999999999999, 7, Kind::Group, 0),
            Answer::Nothing,
        ),
        (
            Call::Read(1000000000017, 7, Kind::Collector, 0),
            Answer::Nothing,
        ),
        (
            Call::Add(1000000000017, 9, Kind::Group, 101),
            Answer::Done(true),
        ),
        (
            Call::Add(1, 65535, Kind::Appointment, 101),
            Answer::Done(true),
        ),
        (Call::Read(2, 0, Kind::Advance, 0), Answer::Row(99)),
        (
            Call::Add(9999999999999, 7, Kind::Estimate, 101),
            Answer::Done(true),
        ),
        (Call::Make(1, 7), Answer::Done(false)),
        (
            Call::Add(1, 65535, Kind::Appointment, 131),
            Answer::Done(true),
        ),
        (Call::Add(1, 65535, Kind::LineLoss, 101), Answer::Done(true)),
    ];
}
