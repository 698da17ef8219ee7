// What a single letter says in a row: energisation status, measurement class, GSP group.
ghost use Rattle.std.specs.Prelude.{◌≡◌, Some, ok_or};
ghost use Rattle.fields.specs.Statuses.{status_letter, status_of};
ghost use Rattle.fields.specs.MeasurementClasses.{class_letter, class_of};
ghost use Rattle.fields.specs.Groups.{group_letter, group_of};

// A letter that stands for nothing where it was read.
#[derive(Clone, Copy, Debug, PartialEq, Eq)]
pub struct UnknownLetter(pub char);

// Whether a metering system can take energy.
#[derive(Clone, Copy, Debug, PartialEq, Eq)]
pub enum Status {
    DeEnergised,
    Energised,
}

impl From<Status> for char {
    ghost from_gives = { λ status letter. (letter ≡ status_letter status) × (status_of letter ≡ Some status) };

    fn from(status: Status) -> char {
        match status {
            Status::DeEnergised => 'D',
            Status::Energised => 'E',
        }
    }
}

impl TryFrom<char> for Status {
    type Error = UnknownLetter;

    ghost try_from_gives = { λ letter r. r ≡ ok_or (status_of letter) (record { 0 = letter }) };

    fn try_from(letter: char) -> Result<Status, UnknownLetter> {
        match letter {
            'D' => Ok(Status::DeEnergised),
            'E' => Ok(Status::Energised),
            _ => Err(UnknownLetter(letter)),
        }
    }
}

// How a metering system is measured.
#[derive(Clone, Copy, Debug, PartialEq, Eq)]
pub enum MeasurementClass {
    A,
    B,
    C,
    D,
}

impl From<MeasurementClass> for char {
    ghost from_gives = { λ class letter. (letter ≡ class_letter class) × (class_of letter ≡ Some class) };

    fn from(class: MeasurementClass) -> char {
        match class {
            MeasurementClass::A => 'A',
            MeasurementClass::B => 'B',
            MeasurementClass::C => 'C',
            MeasurementClass::D => 'D',
        }
    }
}

impl TryFrom<char> for MeasurementClass {
    type Error = UnknownLetter;

    ghost try_from_gives = { λ letter r. r ≡ ok_or (class_of letter) (record { 0 = letter }) };

    fn try_from(letter: char) -> Result<MeasurementClass, UnknownLetter> {
        match letter {
            'A' => Ok(MeasurementClass::A),
            'B' => Ok(MeasurementClass::B),
            'C' => Ok(MeasurementClass::C),
            'D' => Ok(MeasurementClass::D),
            _ => Err(UnknownLetter(letter)),
        }
    }
}

// A group of grid supply points, by its letter: A to P without I and O.
#[derive(Clone, Copy, Debug, PartialEq, Eq)]
pub enum Group {
    A,
    B,
    C,
    D,
    E,
    F,
    G,
    H,
    J,
    K,
    L,
    M,
    N,
    P,
}

impl From<Group> for char {
    ghost from_gives = { λ group letter. (letter ≡ group_letter group) × (group_of letter ≡ Some group) };

    fn from(group: Group) -> char {
        match group {
            Group::A => 'A',
            Group::B => 'B',
            Group::C => 'C',
            Group::D => 'D',
            Group::E => 'E',
            Group::F => 'F',
            Group::G => 'G',
            Group::H => 'H',
            Group::J => 'J',
            Group::K => 'K',
            Group::L => 'L',
            Group::M => 'M',
            Group::N => 'N',
            Group::P => 'P',
        }
    }
}

impl TryFrom<char> for Group {
    type Error = UnknownLetter;

    ghost try_from_gives = { λ letter r. r ≡ ok_or (group_of letter) (record { 0 = letter }) };

    fn try_from(letter: char) -> Result<Group, UnknownLetter> {
        match letter {
            'A' => Ok(Group::A),
            'B' => Ok(Group::B),
            'C' => Ok(Group::C),
            'D' => Ok(Group::D),
            'E' => Ok(Group::E),
            'F' => Ok(Group::F),
            'G' => Ok(Group::G),
            'H' => Ok(Group::H),
            'J' => Ok(Group::J),
            'K' => Ok(Group::K),
            'L' => Ok(Group::L),
            'M' => Ok(Group::M),
            'N' => Ok(Group::N),
            'P' => Ok(Group::P),
            _ => Err(UnknownLetter(letter)),
        }
    }
}
