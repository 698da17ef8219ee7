// What an opening answers of a source and of a distributor.
ghost use Rattle.std.specs.Prelude.{◌≡◌, ℕ, Decides, MatchOption};
ghost use Rattle.commands.specs.declared.command.Source.TheVariants.{Collector as IsCollector};
ghost use Rattle.sources.specs.Listings.{id_of};
ghost use Rattle.sources.specs.Openings.{source_at};
ghost use Rattle.sources.specs.Lookups.{Names, Serves, Somewhere, FirstOf};

use crate::listed::Listed;
use crate::opening::Opening;
use commands::command::Source;

// The source as a file names it.
impl From<Listed> for Source {
    ghost from_gives = { λ listed source. Names source listed };

    fn from(listed: Listed) -> Source {
        match listed {
            Listed::Agent { id, .. } => Source::Agent(id),
            Listed::Collector { id } => Source::Collector(id),
        }
    }
}

impl Listed {
    // Whether this is the source that a file names.
    pub fn is(&self, source: Source) -> bool
        ensures { Decides result (Names source self.now) }
    {
        Source::from(*self) == source
    }

    // Whether this is an agent that serves the distributor.
    pub fn serves(&self, distributor: u8) -> bool
        ensures { Decides result (Serves distributor self.now) }
    {
        matches!(self, Listed::Agent { distributor: served, .. } if distributor == *served)
    }
}

impl Opening<'_> {
    // Whether a source is listed.
    pub fn lists(&self, source: Source) -> bool
        ensures { Decides result (Somewhere (Names source) self.now.sources.now) }
    {
        self.sources.iter().any(|listed| listed.is(source))
    }

    // Whether a collector of this id is listed.
    pub fn lists_collector(&self, id: u16) -> bool
        ensures { Decides result (Somewhere (Names (IsCollector id)) self.now.sources.now) }
    {
        self.lists(Source::Collector(id))
    }

    // The place of the first agent that serves a distributor; of a lawful list there is one at most.
    pub fn agent_of(&self, distributor: u8) -> Option<usize>
        ensures { MatchOption result (Somewhere (Serves distributor) self.now.sources.now → ⊥) (FirstOf (Serves distributor) self.now.sources.now) }
    {
        self.sources
            .iter()
            .position(|listed| listed.serves(distributor))
    }
}
