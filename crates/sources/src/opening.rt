// A list of sources, and whether a book may be opened with it.
ghost use Rattle.std.specs.Prelude.{◌≡◌, ℕ, ◌<◌, length, Decides, MatchOption};
ghost use Rattle.sources.specs.Listings.{Clash};
ghost use Rattle.sources.specs.Openings.{source_at, Apart, AllInRange, FirstOutOfRange, FirstClash, NoneBehind, Lawful, Breaks};

use crate::listed::Listed;

// What a book is opened with.
#[derive(Clone, Copy)]
pub struct Opening<'a> {
    pub sources: &'a [Listed],
}

// The rule that a list of sources breaks, and where.
#[derive(Clone, Copy, Debug, PartialEq, Eq)]
pub enum OpeningFault {
    // there are more than 128
    TooMany,
    // an id or a distributor of the source at this place is out of range
    OutOfRange(usize),
    // the sources at these two places cannot be listed together
    Clashing(usize, usize),
}

// The place of the first source that is out of range.
fn first_out_of_range(sources: &[Listed]) -> Option<usize>
    ensures { MatchOption result (AllInRange sources.now) (FirstOutOfRange sources.now) }
{
    sources.iter().position(|source| !source.is_in_range())
}

// The place of the first of some sources with which a source clashes.
fn first_against(source: &Listed, others: &[Listed]) -> Option<usize>
    ensures { MatchOption result ((k : ℕ) → k < length others.now → Clash source.now (source_at others.now k) → ⊥) (λ k. (k < length others.now) × Clash source.now (source_at others.now k) × ((j : ℕ) → j < k → Clash source.now (source_at others.now j) → ⊥)) }
{
    others.iter().position(|other| source.clashes(other))
}

// The place of the first source behind this one that clashes with it.
fn clash_behind(sources: &[Listed], first: usize) -> Option<usize>
    requires { first < length sources.now }
    ensures { MatchOption result (NoneBehind sources.now first (length sources.now)) (λ second. (first < second) × (second < length sources.now) × Clash (source_at sources.now first) (source_at sources.now second) × NoneBehind sources.now first second) }
{
    let start = first + 1;
    let behind = first_against(&sources[first], &sources[start..])?;
    Some(start + behind)
}

// The places of two sources that clash.
fn first_clash(sources: &[Listed]) -> Option<(usize, usize)>
    ensures { MatchOption result (Apart sources.now) (λ p. FirstClash sources.now p.0 p.1) }
{
    sources.iter().enumerate().find_map(|(first, _)| {
        let second = clash_behind(sources, first)?;
        Some((first, second))
    })
}

impl Opening<'_> {
    // How many sources a book has at most.
    pub const MOST_SOURCES: usize = 128;

    // The first rule that the list breaks, with the place; none if a book may be opened with it. An Option,
    // since it is a question, and nothing is refused here.
    pub fn fault(&self) -> Option<OpeningFault>
        ensures { MatchOption result (Lawful self.now.sources.now) (λ fault. Breaks fault self.now.sources.now) }
    {
        if self.sources.len() > Self::MOST_SOURCES {
            return Some(OpeningFault::TooMany);
        }
        first_out_of_range(self.sources)
            .map(OpeningFault::OutOfRange)
            .or_else(|| {
                let (first, second) = first_clash(self.sources)?;
                Some(OpeningFault::Clashing(first, second))
            })
    }

    // Whether a book may be opened with the list.
    pub fn is_lawful(&self) -> bool
        ensures { Decides result (Lawful self.now.sources.now) }
    {
        self.fault().is_none()
    }
}
