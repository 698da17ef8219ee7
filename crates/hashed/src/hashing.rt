// The register that finds a folder by hashing its pair, in lent memory, always sound. In `finding`, where a
// folder is, and in `keeping`, what is done with it.
mod finding;
mod keeping;

ghost use Rattle.register.specs.Folders.{Systems};
ghost use Rattle.hashed.specs.Table.{folders_of, links_of, held_in, Sound};

use blocks::block::Block;

// The first blocks are used, each with its folder. A head leads to the newest block of its chain, and a
// block's link to the one before. The order lists the places of the used blocks by their pairs. Places in
// lent memory stand for references and maps, since nothing here allocates.
#[derive(Drop)]
pub struct Hashed<'a> {
    heads: &'a mut [Option<u32>],
    blocks: &'a mut [Block],
    order: &'a mut [u32],
    count: usize,
    places: usize,
    ghost sound: { Sound heads.now (folders_of blocks.now) (links_of blocks.now) order.now count places },
    ghost systems: { Systems (held_in (folders_of blocks.now) count) },
}
