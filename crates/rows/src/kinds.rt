// The ten kinds of row.
ghost use Rattle.std.specs.Prelude.{◌≡◌, Some, ok_or};
ghost use Rattle.rows.specs.Kinds.{letter_of, kind_of, rank_of};

use fields::letters::UnknownLetter;

// A kind of row. The order is the one in which files carry records and folders keep rows.
#[derive(Clone, Copy, Debug, PartialEq, Eq, PartialOrd, Ord)]
pub enum Kind {
    // R: which supplier a metering system is registered to
    Registration,
    // A: our own appointment to aggregate it
    Appointment,
    // K: which data collector is appointed to it
    Collector,
    // P: its profile class and settlement configuration
    Profile,
    // M: its measurement class
    Measurement,
    // E: its energisation status
    Energisation,
    // L: its line loss class
    LineLoss,
    // G: the GSP group that it is connected in
    Group,
    // V: a meter advance, annualised
    Advance,
    // Q: an estimate of annual consumption
    Estimate,
}

impl Kind {
    // How many kinds come before this one.
    pub fn rank(self) -> usize
        ensures { result ≡ rank_of self }
    {
        self as usize
    }
}

// The letter that begins a record of a kind.
impl From<Kind> for char {
    ghost from_gives = { λ kind letter. (letter ≡ letter_of kind) × (kind_of letter ≡ Some kind) };

    fn from(kind: Kind) -> char {
        match kind {
            Kind::Registration => 'R',
            Kind::Appointment => 'A',
            Kind::Collector => 'K',
            Kind::Profile => 'P',
            Kind::Measurement => 'M',
            Kind::Energisation => 'E',
            Kind::LineLoss => 'L',
            Kind::Group => 'G',
            Kind::Advance => 'V',
            Kind::Estimate => 'Q',
        }
    }
}

// The kind that a letter stands for.
impl TryFrom<char> for Kind {
    type Error = UnknownLetter;

    ghost try_from_gives = { λ letter r. r ≡ ok_or (kind_of letter) (record { 0 = letter }) };

    fn try_from(letter: char) -> Result<Kind, UnknownLetter> {
        match letter {
            'R' => Ok(Kind::Registration),
            'A' => Ok(Kind::Appointment),
            'K' => Ok(Kind::Collector),
            'P' => Ok(Kind::Profile),
            'M' => Ok(Kind::Measurement),
            'E' => Ok(Kind::Energisation),
            'L' => Ok(Kind::LineLoss),
            'G' => Ok(Kind::Group),
            'V' => Ok(Kind::Advance),
            'Q' => Ok(Kind::Estimate),
            _ => Err(UnknownLetter(letter)),
        }
    }
}
