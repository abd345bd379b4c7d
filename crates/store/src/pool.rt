// A store of a fixed number of cells, any of which serves any row and number.
ghost use Rattle.std.specs.Prelude.{vec_capacity};
ghost use Rattle.contents.specs.Pools.{PoolKept};
ghost use Rattle.store.specs.Slots.{cells_of, lens_of};

use crate::cells::Cells;
use crate::pool::slot::Slot;
use crate::pool::spare::Spare;

pub mod calls;
mod making;
mod slot;
mod spare;

#[derive(Drop)]
pub struct Pool {
    limit: u16,
    // As many as the limit.
    cells: Cells,
    // What each place holds.
    slots: Vec<Option<Slot>>,
    // The cells that no place has.
    spare: Spare,
    ghost kept: { PoolKept cells.width limit (vec_capacity spare.cells) cells.bytes.items (cells_of slots.items) (lens_of slots.items) spare.cells.items },
}
