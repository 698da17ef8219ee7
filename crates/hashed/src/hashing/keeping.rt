// Folders in lent memory: read, made, cut, added to and forgotten.
ghost use Rattle.std.specs.Prelude.{◌≡◌, [], length};
ghost use Rattle.hashed.specs.Form.{in_form_lem};
ghost use Rattle.hashed.specs.Memory.{held_folders};
ghost use Rattle.hashed.specs.Table.{places_of};

use crate::changes::{add_at, cut_at};
use crate::hashing::Hashed;
use crate::hashing::finding::home;
use crate::orders::insert;
use blocks::block::Block;
use register::pairs::Pair;
use register::registers::Register;
use register::systems::MeteringSystem;
use rows::kinds::Kind;
use rows::row::Row;

// How many folders there may be over slices of such lengths.
fn places_of(most: usize, heads: usize, blocks: usize, order: usize) -> usize
    ensures { result ≡ places_of most heads blocks order }
{
    if heads == 0 {
        return 0;
    }
    order.min(blocks).min(most).min(4294967295)
}

impl<'a> Hashed<'a> {
    // A register of no folder over memory of any content, with at most so many places.
    pub fn over(
        heads: &'a mut [Option<u32>],
        blocks: &'a mut [Block],
        order: &'a mut [u32],
        most: usize,
    ) -> Hashed<'a>
        ensures empty { held_folders result ≡ [] }
        ensures places { result.places ≡ places_of most (length heads.old) (length blocks.old) (length order.old) }
    {
        heads.fill(None);
        let places = places_of(most, heads.len(), blocks.len(), order.len());
        Hashed {
            heads,
            blocks,
            order,
            count: 0,
            places,
        }
    }
}

impl<'a> Register for Hashed<'a> {
    ghost places = { λ s. s.places };

    ghost folders = { λ s. held_folders s };

    ghost in_form = { λ s. in_form_lem s.blocks.now s.count s.places s.sound.used s.systems };

    fn places(&self) -> usize {
        self.places
    }

    fn held(&self) -> usize {
        self.count
    }

    fn next(&self, pair: Pair) -> Option<Pair> {
        let at = self.locate(pair);
        if at >= self.count {
            return None;
        }
        let blocks = &*self.blocks;
        Some(blocks[self.order[at] as usize].pair)
    }

    fn count(&self, pair: Pair, kind: Kind) -> usize {
        self.block(pair).map_or(0, |block| block.count(kind))
    }

    fn read(&self, pair: Pair, kind: Kind, place: usize, row: &mut Option<Row>) {
        *row = self.block(pair).and_then(|block| block.read(kind, place));
    }

    fn make(&mut self, system: MeteringSystem, view: u16) -> bool {
        let pair = system.with_view(view);
        if self.find(pair).is_some() {
            return true;
        }
        let used = self.count;
        if used >= self.places {
            return false;
        }
        let at = self.locate(pair);
        let chain = home(pair, self.heads.len());
        let link = self.heads[chain];
        let Hashed {
            heads,
            blocks,
            order,
            count,
            ..
        } = self;
        blocks[used] = Block::new(pair, link);
        heads[chain] = Some(used as u32);
        insert(order, used, at, used as u32);
        *count = used + 1;
        true
    }

    fn cut(&mut self, system: MeteringSystem, view: u16, kind: Kind, day: u16) {
        let pair = system.with_view(view);
        if let Some(place) = self.find(pair) {
            cut_at(self.blocks, place, kind, day);
        }
    }

    fn add(&mut self, system: MeteringSystem, view: u16, row: Row) -> bool {
        let pair = system.with_view(view);
        match self.find(pair) {
            Some(place) => add_at(self.blocks, place, row),
            None => false,
        }
    }

    fn clear(&mut self) {
        self.heads.fill(None);
        self.count = 0;
    }
}
