// A grid or a pool, for programs that mix them.
ghost use Rattle.store.specs.Meanings.{any_of};
ghost use Rattle.store.specs.Kept.{any_sound};

use crate::fault::StoreFault;
use crate::grid::Grid;
use crate::pool::Pool;
use crate::store::FragmentStore;

#[derive(Drop)]
pub enum AnyStore {
    Grid(Grid),
    Pool(Pool),
}

// Each call has its match: the gate refuses a method that would give either store as a `&dyn FragmentStore`.
impl FragmentStore for AnyStore {
    ghost contents = { any_of };

    ghost sound = { any_sound };

    fn put(&mut self, row: u8, number: u16, octets: &[u8]) -> Result<(), StoreFault> {
        match self {
            AnyStore::Grid(grid) => grid.put(row, number, octets),
            AnyStore::Pool(pool) => pool.put(row, number, octets),
        }
    }

    fn get(&self, row: u8, number: u16, out: &mut [u8]) -> Result<usize, StoreFault> {
        match self {
            AnyStore::Grid(grid) => grid.get(row, number, out),
            AnyStore::Pool(pool) => pool.get(row, number, out),
        }
    }

    fn free(&mut self, row: u8) -> Result<(), StoreFault> {
        match self {
            AnyStore::Grid(grid) => grid.free(row),
            AnyStore::Pool(pool) => pool.free(row),
        }
    }

    fn length(&self, row: u8, number: u16) -> u16 {
        match self {
            AnyStore::Grid(grid) => grid.length(row, number),
            AnyStore::Pool(pool) => pool.length(row, number),
        }
    }

    fn width(&self) -> u16 {
        match self {
            AnyStore::Grid(grid) => grid.width(),
            AnyStore::Pool(pool) => pool.width(),
        }
    }

    fn limit(&self) -> u16 {
        match self {
            AnyStore::Grid(grid) => grid.limit(),
            AnyStore::Pool(pool) => pool.limit(),
        }
    }

    fn held(&self) -> u16 {
        match self {
            AnyStore::Grid(grid) => grid.held(),
            AnyStore::Pool(pool) => pool.held(),
        }
    }
}
