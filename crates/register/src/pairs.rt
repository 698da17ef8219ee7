// What a folder is held under.

// A metering system and a view of it: 0 for what the agent says, else the id of a collector. Pairs
// are in order by the system, then by the view.
#[derive(Clone, Copy, Debug, PartialEq, Eq, PartialOrd, Ord)]
pub struct Pair {
    pub system: u64,
    pub view: u16,
}
