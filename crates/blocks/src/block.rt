// A folder, with a link for whoever keeps it among others. In `folder`, what is done with it.
mod folder;

ghost use Rattle.blocks.specs.Holding.{StartsAscend};

use crate::contents::Contents;
use register::pairs::Pair;

// The starts of the rows of each kind ascend, in every block.
#[derive(Clone, Copy)]
pub struct Block {
    pub pair: Pair,
    // the place of another block, if one is linked
    pub link: Option<u32>,
    contents: Contents,
    ghost ascend: { StartsAscend contents },
}
