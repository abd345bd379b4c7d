// A store with a fixed cell for each row and number.
ghost use Rattle.contents.specs.Grids.{GridKept};

use crate::cells::Cells;

pub mod calls;
mod making;

#[derive(Drop)]
pub struct Grid {
    // A cell for each place.
    cells: Cells,
    // The length of the string at each place. Where none is held it is 0, and the empty string is read with no test.
    lens: Vec<u16>,
    // How many strings are held.
    held: u16,
    ghost kept: { GridKept cells.width cells.bytes.items lens.items held },
}
