// How a pool reads and writes one place.
ghost use Rattle.store.specs.Meanings.{pool_of};
ghost use Rattle.contents.proofs.Pooling.{pool_sound};
ghost use Rattle.store.specs.Kept.{pool_kept};

use crate::place::Place;
use crate::places::Places;
use crate::pool::Pool;
use crate::pool::slot::Slot;

impl Places for Pool {
    ghost contents = { pool_of };

    ghost sound = { λ p. pool_sound (pool_kept p) };

    fn width(&self) -> u16 {
        self.cells.width
    }

    fn limit(&self) -> u16 {
        self.limit
    }

    fn held(&self) -> u16 {
        self.limit - self.spare.len() as u16
    }

    #[tactic(auto, using(crate::proofs::Slots::slot_none, crate::proofs::Slots::slot_room, crate::proofs::Slots::slot_string))]
    fn string(&self, place: Place) -> &[u8] {
        self.slots[place.index()].map_or(&[], |slot| {
            self.cells.front(slot.cell as usize, slot.len)
        })
    }

    #[tactic(auto, using(contents::proofs::Pooling::pool_spare))]
    fn fill(&mut self, place: Place, octets: &[u8]) {
        let cell = self.spare.take();
        let len = self.cells.write(cell as usize, octets);
        self.slots[place.index()] = Some(Slot { cell, len });
    }

    #[tactic(auto, using(crate::proofs::Slots::slot_less, crate::proofs::Slots::slot_left, crate::proofs::Slots::slot_taken))]
    fn release(&mut self, place: Place) {
        let index = place.index();
        // An empty place is only looked at.
        if let Some(slot) = self.slots[index] {
            self.slots[index] = None;
            self.spare.give(slot.cell);
        }
    }
}
