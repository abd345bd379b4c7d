// Making a pool.
ghost use Rattle.std.specs.Prelude.{◌≡◌, true, IfOk};
ghost use Rattle.contents.specs.Contents.{empty_store, limit_fits, width_fits};
ghost use Rattle.store.specs.Making.{Filling, Making};
ghost use Rattle.store.specs.Meanings.{pool_of};

use crate::cells::Cells;
use crate::fault::StoreFault;
use crate::making::{check_sizes, fill};
use crate::pool::Pool;
use crate::pool::spare::Spare;
use protocol::MOST_STRINGS;
use std::alloc::{AllocError, Global};

impl Pool {
    // An empty pool, once its width and its limit are checked.
    fn with_sizes(heap: Global, width: u16, limit: u16) -> Result<Pool, AllocError>
        requires width { width_fits width ≡ true }
        requires limit { limit_fits limit ≡ true }
        ensures made { IfOk result (λ p. pool_of p ≡ empty_store width limit) }
    {
        let cells = Cells::new(heap, width, limit)?;
        let slots = Vec::from_elem(heap, None, MOST_STRINGS as usize)?;
        let spare = Spare::new(heap, limit)?;
        Ok(Pool {
            limit,
            cells,
            slots,
            spare,
        })
    }

    // An empty pool, or a refusal.
    pub fn new(heap: Global, width: u16, limit: u16) -> Result<Pool, StoreFault>
        ensures answer { Making pool_of width limit result }
    {
        check_sizes(width, limit)?;
        Pool::with_sizes(heap, width, limit).map_err(|_| StoreFault::Size { value: limit })
    }

    // Fills a place with an empty pool. A refusal leaves the place as it was.
    pub fn make(
        place: &mut Option<Pool>,
        heap: Global,
        width: u16,
        limit: u16,
    ) -> Result<(), StoreFault>
        ensures answer { Filling pool_of width limit place.old place.new result }
    {
        fill(place, Pool::new(heap, width, limit))
    }
}
