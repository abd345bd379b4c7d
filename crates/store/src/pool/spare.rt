// The free cells of a pool, a stack. It is made with room for all the cells, so that none of its calls allocates later.
ghost use Rattle.std.specs.Prelude.{◌≡◌, ℕ, ◌<◌, ◌≤◌, ◌∷◌, [], ◌++◌, IfOk, length, slice_index, vec_capacity};

use std::alloc::{AllocError, Global};

#[derive(Drop)]
pub(crate) struct Spare {
    cells: Vec<u16>,
}

impl Spare {
    // The cells below n, rising.
    pub(crate) fn new(heap: Global, n: u16) -> Result<Spare, AllocError>
        ensures all { IfOk result (λ s. (length s.cells.items ≡ n) × ((k : ℕ) → k < n → slice_index s.cells.items k ≡ k)) }
        ensures room { IfOk result (λ s. n ≤ vec_capacity s.cells) }
    {
        let cells = (0..n).collect(heap)?;
        Ok(Spare { cells })
    }

    pub(crate) fn len(&self) -> usize
        ensures { result ≡ length self.now.cells.items }
    {
        self.cells.len()
    }

    // Takes the cell on top.
    pub(crate) fn take(&mut self) -> u16
        requires { 0 < length self.old.cells.items }
        ensures top { self.old.cells.items ≡ self.new.cells.items ++ result ∷ [] }
        ensures room { vec_capacity self.new.cells ≡ vec_capacity self.old.cells }
    {
        self.cells.pop().unwrap()
    }

    // Puts a cell on top.
    pub(crate) fn give(&mut self, cell: u16)
        requires { length self.old.cells.items < vec_capacity self.old.cells }
        ensures top { self.new.cells.items ≡ self.old.cells.items ++ cell ∷ [] }
        ensures room { vec_capacity self.old.cells ≤ vec_capacity self.new.cells }
    {
        self.cells.push_reserved(cell);
    }
}
