// Making a grid.
ghost use Rattle.std.specs.Prelude.{◌≡◌, true, IfOk};
ghost use Rattle.contents.specs.Contents.{empty_store, width_fits};
ghost use Rattle.protocol.specs.Limits.{most_strings};
ghost use Rattle.store.specs.Making.{Filling, Making};
ghost use Rattle.store.specs.Meanings.{grid_of};

use crate::cells::Cells;
use crate::fault::StoreFault;
use crate::grid::Grid;
use crate::making::{check_sizes, fill};
use protocol::MOST_STRINGS;
use std::alloc::{AllocError, Global};

impl Grid {
    // An empty grid, once its width is checked.
    fn with_width(heap: Global, width: u16) -> Result<Grid, AllocError>
        requires { width_fits width ≡ true }
        ensures made { IfOk result (λ g. grid_of g ≡ empty_store width most_strings) }
    {
        let cells = Cells::new(heap, width, MOST_STRINGS)?;
        let lens = Vec::from_elem(heap, 0u16, MOST_STRINGS as usize)?;
        Ok(Grid {
            cells,
            lens,
            held: 0,
        })
    }

    // An empty grid, or a refusal.
    pub fn new(heap: Global, width: u16) -> Result<Grid, StoreFault>
        ensures answer { Making grid_of width most_strings result }
    {
        check_sizes(width, MOST_STRINGS)?;
        Grid::with_width(heap, width).map_err(|_| StoreFault::Size {
            value: MOST_STRINGS,
        })
    }

    // Fills a place with an empty grid. A refusal leaves the place as it was.
    pub fn make(place: &mut Option<Grid>, heap: Global, width: u16) -> Result<(), StoreFault>
        ensures answer { Filling grid_of width most_strings place.old place.new result }
    {
        fill(place, Grid::new(heap, width))
    }
}
