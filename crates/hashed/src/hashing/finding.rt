// Where a folder is found: by the chain of its pair, or in the order of the pairs.
ghost use Rattle.std.specs.Prelude.{◌≡◌, ◌<◌, ◌≤◌, true, false, map, length, take, drop, IfSome, MatchOption};
ghost use Rattle.std.specs.List.{AllByRecursion};
ghost use Rattle.blocks.specs.Block.{folder_of};
ghost use Rattle.register.specs.Folders.{same, below, no_rows, rows_of};
ghost use Rattle.hashed.specs.Memory.{held_folders};
ghost use Rattle.hashed.specs.Table.{folders_of, pair_at, home_of, seek};

use crate::hashing::Hashed;
use blocks::block::Block;
use register::pairs::Pair;

// The chain of a pair, mixed by multiplication so that systems in a row come apart.
pub(crate) fn home(pair: Pair, size: usize) -> usize
    requires { 0 < size }
    ensures value { result ≡ home_of pair size }
    ensures below { result < size }
{
    let mixed = pair
        .system
        .wrapping_mul(11400714819323198485)
        .wrapping_add(u64::from(pair.view))
        .wrapping_mul(14029467366897019727);
    (mixed / 4294967296) as usize % size
}

// Whether the pair of the block at a place comes after this one.
fn is_after(blocks: &[Block], at: usize, pair: Pair) -> bool
    ensures { result ≡ below pair (pair_at (folders_of blocks.now) at) }
{
    blocks.get(at).is_some_and(|block| pair < block.pair)
}

impl<'a> Hashed<'a> {
    // The place of a pair's block: along the chain, which goes down.
    pub(crate) fn find(&self, pair: Pair) -> Option<usize>
        ensures value { result ≡ seek (pair_at (folders_of self.now.blocks.now)) pair self.now.count }
        ensures within { IfSome result (λ place. place < self.now.count) }
    {
        if self.heads.is_empty() {
            return None;
        }
        let blocks = &*self.blocks;
        let mut link = self.heads[home(pair, self.heads.len())];
        while let Some(at) = link {
            let place = at as usize;
            let block = &blocks[place];
            if pair == block.pair {
                return Some(place);
            }
            link = block.link;
        }
        None
    }

    // The block of a pair, which has its rows.
    pub(crate) fn block(&self, pair: Pair) -> Option<&Block>
        ensures { MatchOption result (rows_of pair (held_folders self.now) ≡ no_rows) (λ b. rows_of pair (held_folders self.now) ≡ (folder_of b.now).rows) }
    {
        let at = self.find(pair)?;
        let blocks = &*self.blocks;
        Some(&blocks[at])
    }

    // The first place in the order whose pair comes after this one.
    pub(crate) fn locate(&self, pair: Pair) -> usize
        ensures within { result ≤ self.now.count }
        ensures before { AllByRecursion (λ q. below pair q ≡ false) (take result (map (pair_at (folders_of self.now.blocks.now)) (take self.now.count self.now.order.now))) }
        ensures behind { AllByRecursion (λ q. below pair q ≡ true) (drop result (map (pair_at (folders_of self.now.blocks.now)) (take self.now.count self.now.order.now))) }
    {
        let blocks = &*self.blocks;
        self.order[..self.count].partition_point(|at| !is_after(blocks, *at as usize, pair))
    }
}
