// What causes, sources, headers and headings are in words.
ghost use Rattle.std.specs.Prelude.{Some};
ghost use Rattle.commands.specs.Words.{cause_words, source_words, header_words, heading_words};

use crate::causes::Cause;
use crate::command::{Header, Heading, Source};
use std::fmt;

impl fmt::Display for Cause {
    ghost output = { λ cause. Some (cause_words cause) };

    fn fmt<W: fmt::Write>(&self, f: &mut fmt::Formatter<W>) -> fmt::Result {
        let number = u8::from(*self);
        let words = match self {
            Cause::UnknownLetter => "unknown letter",
            Cause::CutShort => "cut short",
            Cause::OutOfRange => "operand out of range",
            Cause::OutOfPlace => "out of place",
        };
        write!(f, "cause {number}, {words}")
    }
}

impl fmt::Display for Source {
    ghost output = { λ source. Some (source_words source) };

    fn fmt<W: fmt::Write>(&self, f: &mut fmt::Formatter<W>) -> fmt::Result {
        match self {
            Source::Agent(id) => write!(f, "registration agent {id}"),
            Source::Collector(id) => write!(f, "data collector {id}"),
        }
    }
}

impl fmt::Display for Header {
    ghost output = { λ header. Some (header_words header) };

    fn fmt<W: fmt::Write>(&self, f: &mut fmt::Formatter<W>) -> fmt::Result {
        let Header {
            source,
            number,
            count,
        } = *self;
        write!(f, "file {number} of {source}, instructions: {count}")
    }
}

impl fmt::Display for Heading {
    ghost output = { λ heading. Some (heading_words heading) };

    fn fmt<W: fmt::Write>(&self, f: &mut fmt::Formatter<W>) -> fmt::Result {
        let Heading {
            system,
            number,
            day,
        } = *self;
        write!(
            f,
            "instruction {number} for metering system {system}, significant day {day}"
        )
    }
}
