// Tests of the layers together, table by table: what files are found to be, and what registers answer.
#![tactic(auto)]

mod registers;

#[cfg(test)]
mod tests {
    use commands::command::Source;
    use commands::source::source_of;
    use format::read_file;
    use instructions::walking::Instruction;
    use std::test::Fail;

    // A file with a record of each kind.
    const WHOLE: &[u8; 93] =
        b"HS\x00\x01\x00\x00\x00\x01\x00\x01I\x00\x00\x00\xe8\xd4\xa5\x10\x11\x00\x00\x00\x01\x00\xc8R\x00\xc8\x00eA\x00\xc8\x00\x00K\x00\xc8\x00\x07P\x00\xc8\x01\x01\x89M\x00\xc8AE\x00\xc8EL\x00\xc8\x00\x05G\x00\xc8CV\x00\xc8\x01\x22\x02\x00\x01\x00\x00\xa0\x28\x00\x02\xff\xff\xff\xf9Q\x01\x23\x01\x00\x01\x00\x00\x9e4ZX";

    // Where its commands begin.
    const PLACES: [usize; 14] = [0, 10, 25, 30, 35, 40, 46, 50, 54, 59, 63, 81, 91, 92];

    // What a file is found to be, as the tables have it: 0 and 0 where it is well formed, else the number of
    // the cause and the place.
    fn found(bytes: &[u8]) -> (u8, usize) {
        match read_file(bytes) {
            Ok(_) => (0, 0),
            Err(fault) => (u8::from(fault.cause), fault.place),
        }
    }

    // Whole files, with the cause and the place.
    const FORMS: [(&[u8], u8, usize); 35] = [
        (b"", 2, 0),
        (b"h", 1, 0),
        (b"T", 1, 0),
        (b"H", 2, 0),
        (b"X", 4, 0),
        (b"Z", 4, 0),
        (
            b"I\x00\x00\x00\xe8\xd4\xa5\x10\x11\x00\x00\x00\x01\x00\xc8",
            4,
            0,
        ),
        (b"R\x00\xc8\x00e", 4, 0),
        (b"HS\x00\x01\x00\x00\x00\x01\x00\x01X", 4, 10),
        (b"HS\x00\x01\x00\x00\x00\x01\x00\x01Z", 4, 10),
        (
            b"HS\x00\x01\x00\x00\x00\x01\x00\x01HS\x00\x01\x00\x00\x00\x01\x00\x01",
            4,
            10,
        ),
        (b"HS\x00\x01\x00\x00\x00\x01\x00\x01R\x00\xc8\x00e", 4, 10),
        (
            b"HS\x00\x01\x00\x00\x00\x01\x00\x01I\x00\x00\x00\xe8\xd4\xa5\x10\x11\x00\x00\x00\x01\x00\xc8X",
            4,
            25,
        ),
        (
            b"HS\x00\x01\x00\x00\x00\x01\x00\x01I\x00\x00\x00\xe8\xd4\xa5\x10\x11\x00\x00\x00\x01\x00\xc8I\x00\x00\x00\xe8\xd4\xa5\x10\x11\x00\x00\x00\x01\x00\xc8",
            4,
            25,
        ),
        (
            b"HS\x00\x01\x00\x00\x00\x01\x00\x01I\x00\x00\x00\xe8\xd4\xa5\x10\x11\x00\x00\x00\x01\x00\xc8HS\x00\x01\x00\x00\x00\x01\x00\x01",
            4,
            25,
        ),
        (
            b"HS\x00\x01\x00\x00\x00\x01\x00\x01I\x00\x00\x00\xe8\xd4\xa5\x10\x11\x00\x00\x00\x01\x00\xc8ZI\x00\x00\x00\xe8\xd4\xa5\x10\x11\x00\x00\x00\x02\x00\xc8ZX",
            4,
            26,
        ),
        (
            b"HS\x00\x01\x00\x00\x00\x01\x00\x02I\x00\x00\x00\xe8\xd4\xa5\x10\x11\x00\x00\x00\x01\x00\xc8ZX",
            4,
            26,
        ),
        (
            b"HS\x00\x01\x00\x00\x00\x01\x00\x01I\x00\x00\x00\xe8\xd4\xa5\x10\x11\x00\x00\x00\x01\x00\xc8ZX",
            0,
            0,
        ),
        (
            b"HS\x00\x01\x00\x00\x00\x01\x00\x01I\x00\x00\x00\xe8\xd4\xa5\x10\x11\x00\x00\x00\x01\x00\xc8ZXX",
            4,
            27,
        ),
        (
            b"HS\x00\x01\x00\x00\x00\x01\x00\x01I\x00\x00\x00\xe8\xd4\xa5\x10\x11\x00\x00\x00\x01\x00\xc8ZXR",
            2,
            27,
        ),
        (
            b"HS\x00\x01\x00\x00\x00\x01\x00\x01I\x00\x00\x00\xe8\xd4\xa5\x10\x11\x00\x00\x00\x01\x00\xc8ZX\x00",
            1,
            27,
        ),
        (
            b"HS\x00\x01\x00\x00\x00\x01\x00\x01I\x00\x00\x00\xe8\xd4\xa5\x10\x11\x00\x00\x00\x01\x00\xc8ZXE\x00\x00E",
            3,
            27,
        ),
        (
            b"HS\x00\x01\x00\x00\x00\x01\x00\x01I\x00\x00\x00\xe8\xd4\xa5\x10\x11\x00\x00\x00\x01\x00\xc8A\x00\xc8\x00\x00R\x00\xc8\x00eZX",
            4,
            30,
        ),
        (
            b"HS\x00\x01\x00\x00\x00\x01\x00\x01I\x00\x00\x00\xe8\xd4\xa5\x10\x11\x00\x00\x00\x01\x00\xc8E\x00\xc8EE\x00\xc8DZX",
            4,
            29,
        ),
        (
            b"HS\x00\x01\x00\x00\x00\x01\x00\x01I\x00\x00\x00\xe8\xd4\xa5\x10\x11\x00\x00\x00\x01\x00\xc8E\x00\xc8EE\x00\xc7DZX",
            4,
            29,
        ),
        (
            b"HS\x00\x01\x00\x00\x00\x01\x00\x01I\x00\x00\x00\xe8\xd4\xa5\x10\x11\x00\x00\x00\x01\x00\xc8E\x00\xc8EE\x00\xc9DZX",
            0,
            0,
        ),
        (
            b"HS\x00\x01\x00\x00\x00\x01\x00\x02I\x00\x00\x00\xe8\xd4\xa5\x10\x11\x00\x00\x00\x01\x00\xc8G\x00\xc8AZI\x00\x00\x00\xe8\xd4\xa5\x10\x11\x00\x00\x00\x02\x00\xc8R\x00\xc8\x00\x01ZX",
            0,
            0,
        ),
        (
            b"HC\x00\x07\x00\x00\x00\x01\x00\x01I\x00\x00\x00\xe8\xd4\xa5\x10\x11\x00\x00\x00\x01\x00\xc8V\x00\x00\x00\x01\x00",
            3,
            25,
        ),
        (
            b"HC\x00\x07\x00\x00\x00\x01\x00\x01I\x00\x00\x00\xe8\xd4\xa5\x10\x11\x00\x00\x00\x01\x00\xc8V\x00\x00\x00\x01\x05",
            3,
            25,
        ),
        (
            b"HC\x00\x07\x00\x00\x00\x01\x00\x01I\x00\x00\x00\xe8\xd4\xa5\x10\x11\x00\x00\x00\x01\x00\xc8V\x00\x00\x00\x01\x01",
            2,
            25,
        ),
        (
            b"HC\x00\x07\x00\x00\x00\x01\x00\x01I\x00\x00\x00\xe8\xd4\xa5\x10\x11\x00\x00\x00\x01\x00\xc8V\x00\x00\x00\x01",
            2,
            25,
        ),
        (
            b"HC\x00\x07\x00\x00\x00\x01\x00\x01I\x00\x00\x00\xe8\xd4\xa5\x10\x11\x00\x00\x00\x01\x00\xc8Q\x00\x00\x00",
            3,
            25,
        ),
        (
            b"HC\x00\x07\x00\x00\x00\x01\x00\x01I\x00\x00\x00\xe8\xd4\xa5\x10\x11\x00\x00\x00\x01\x00\xc8Q\x00\x00\x05",
            3,
            25,
        ),
        (
            b"HC\x00\x07\x00\x00\x00\x01\x00\x01I\x00\x00\x00\xe8\xd4\xa5\x10\x11\x00\x00\x00\x01\x00\xc8Q\x00\x00\x01\x00\x01\x00\x00\x00\x01",
            3,
            25,
        ),
        (
            b"HC\x00\x07\x00\x00\x00\x01\x00\x01I\x00\x00\x00\xe8\xd4\xa5\x10\x11\x00\x00\x00\x01\x00\xc8Q\x00\x01\x02\x00\x02\x00\x00\x00\x01\x00\x01\x00\x00\x00\x01",
            4,
            25,
        ),
    ];

    #[test]
    fn forms(rt: HostRuntime) {
        for (bytes, cause, place) in FORMS {
            assert_eq!(rt; found(bytes), (cause, place));
        }
    }

    // Where the command begins that reaches over a place.
    fn command_over(place: usize) -> usize {
        let mut begin = 0;
        for next in PLACES {
            if next <= place {
                begin = next;
            }
        }
        begin
    }

    // A file that ends too early is cut short at the command that is not whole.
    #[test]
    fn cuts(rt: HostRuntime) {
        let whole = *WHOLE;
        for length in 0..whole.len() {
            assert_eq!(rt; found(&whole[0..length]), (2, command_over(length)));
        }
        assert_eq!(rt; found(&whole), (0, 0));
    }

    // The file with some bytes replaced.
    fn patched(at: usize, patch: &[u8]) -> [u8; 93] {
        let mut bytes = *WHOLE;
        for (i, byte) in patch.iter().enumerate() {
            let place = at.saturating_add(i);
            if place < 93 {
                bytes[place] = *byte;
            }
        }
        bytes
    }

    // The limits of every operand: the place of the bytes put in, they, the cause and the place.
    const LIMITS: [(usize, &[u8], u8, usize); 96] = [
        (1, b"C", 0, 0),
        (1, b"s", 3, 0),
        (2, b"\x00\x00", 3, 0),
        (2, b"\xff\xff", 0, 0),
        (4, b"\x00\x00\x00\x00", 3, 0),
        (4, b"\xff\xff\xff\xff", 0, 0),
        (8, b"\x00\x00", 3, 0),
        (8, b"\x01\x01", 3, 0),
        (8, b"\x01\x00", 4, 92),
        (11, b"\x00\x00\x00\x00\x00\x00\x00\x00", 3, 10),
        (11, b"\x00\x00\x00\x00\x00\x00\x00\x01", 0, 0),
        (11, b"\x00\x00\x09\x18Nr\x9f\xff", 0, 0),
        (11, b"\x00\x00\x09\x18Nr\xa0\x00", 3, 10),
        (19, b"\x00\x00\x00\x00", 3, 10),
        (19, b"\xff\xff\xff\xff", 0, 0),
        (23, b"\x00\x00", 3, 10),
        (23, b"\x00\x01", 0, 0),
        (23, b"\xea\x60", 0, 0),
        (23, b"\xeaa", 3, 10),
        (26, b"\x00\x00", 3, 25),
        (26, b"\xea\x60", 0, 0),
        (26, b"\xeaa", 3, 25),
        (31, b"\x00\x00", 3, 30),
        (31, b"\xea\x60", 0, 0),
        (31, b"\xeaa", 3, 30),
        (36, b"\x00\x00", 3, 35),
        (36, b"\xea\x60", 0, 0),
        (36, b"\xeaa", 3, 35),
        (41, b"\x00\x00", 3, 40),
        (41, b"\xea\x60", 0, 0),
        (41, b"\xeaa", 3, 40),
        (47, b"\x00\x00", 3, 46),
        (47, b"\xea\x60", 0, 0),
        (47, b"\xeaa", 3, 46),
        (51, b"\x00\x00", 3, 50),
        (51, b"\xea\x60", 0, 0),
        (51, b"\xeaa", 3, 50),
        (55, b"\x00\x00", 3, 54),
        (55, b"\xea\x60", 0, 0),
        (55, b"\xeaa", 3, 54),
        (60, b"\x00\x00", 3, 59),
        (60, b"\xea\x60", 0, 0),
        (60, b"\xeaa", 3, 59),
        (28, b"\x00\x00", 3, 25),
        (28, b"\xff\xff", 0, 0),
        (33, b"\xea\x60", 0, 0),
        (33, b"\xeaa", 3, 30),
        (33, b"\x00\x01", 0, 0),
        (38, b"\x00\x00", 3, 35),
        (38, b"\xff\xff", 0, 0),
        (43, b"\x00", 3, 40),
        (43, b"\x10", 0, 0),
        (43, b"\x11", 3, 40),
        (44, b"\x00\x00", 3, 40),
        (44, b"\xff\xff", 0, 0),
        (49, b"\x40", 3, 46),
        (49, b"A", 0, 0),
        (49, b"D", 0, 0),
        (49, b"E", 3, 46),
        (53, b"C", 3, 50),
        (53, b"D", 0, 0),
        (53, b"E", 0, 0),
        (53, b"F", 3, 50),
        (57, b"\x00\x00", 0, 0),
        (57, b"\x03\xe7", 0, 0),
        (57, b"\x03\xe8", 3, 54),
        (62, b"A", 0, 0),
        (62, b"H", 0, 0),
        (62, b"J", 0, 0),
        (62, b"N", 0, 0),
        (62, b"P", 0, 0),
        (62, b"\x40", 3, 59),
        (62, b"I", 3, 59),
        (62, b"O", 3, 59),
        (62, b"Q", 3, 59),
        (64, b"\x00\x00", 3, 63),
        (64, b"\x00\x01", 0, 0),
        (64, b"\xeaa", 3, 63),
        (66, b"\xeaa", 3, 63),
        (66, b"\xea\x60", 0, 0),
        (66, b"\x00\x00", 0, 0),
        (68, b"\x00", 3, 63),
        (68, b"\x05", 3, 63),
        (69, b"\x00\x00", 3, 63),
        (75, b"\xff\xff", 0, 0),
        (71, b"w5\x94\x00", 0, 0),
        (71, b"w5\x94\x01", 3, 63),
        (71, b"\x88\xcal\x00", 0, 0),
        (71, b"\x88\xcak\xff", 3, 63),
        (71, b"\x80\x00\x00\x00", 3, 63),
        (75, b"\x00\x01", 4, 63),
        (69, b"\x00\x03", 4, 63),
        (84, b"\x00", 3, 81),
        (84, b"\x05", 3, 81),
        (82, b"\xeaa", 3, 81),
        (82, b"\xea\x60", 0, 0),
    ];

    #[test]
    fn limits(rt: HostRuntime) {
        for (at, patch, cause, place) in LIMITS {
            assert_eq!(rt; found(&patched(at, patch)), (cause, place));
        }
    }

    // What is walked of the whole file: one instruction with its ten records.
    #[test]
    fn walks(rt: HostRuntime) -> Result<(), Fail> {
        let Ok(file) = read_file(WHOLE) else {
            return Err(Fail::new("the file is well formed"));
        };
        assert_eq!(rt; file.header().count, 1);
        let mut records = 0usize;
        for instruction in file.instructions() {
            let Instruction::Change(change) = instruction;
            assert_eq!(rt; change.heading.system, 1_000_000_000_017);
            records = records.saturating_add(change.records.count());
        }
        assert_eq!(rt; records, 10);
        Ok(())
    }

    // A file's source is that of its header, whatever follows.
    #[test]
    fn sources(rt: HostRuntime) {
        let whole = *WHOLE;
        assert!(rt; source_of(&whole) == Some(Source::Agent(1)));
        assert!(rt; source_of(&whole[0..11]) == Some(Source::Agent(1)));
        assert!(rt; source_of(&whole[0..9]) == None);
        assert!(rt; source_of(&whole[10..]) == None);
        assert!(rt; source_of(&patched(1, b"C\x00\x07")) == Some(Source::Collector(7)));
        assert!(rt; source_of(b"") == None);
    }
}
