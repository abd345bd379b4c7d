// Cells of one width, one after another.
ghost use Rattle.std.specs.Prelude.{◌≡◌, ◌+◌, ◌*◌, ◌≤◌, IfOk, length, take, drop};
ghost use Rattle.std.proofs.Math.Seq.{paste};
ghost use Rattle.protocol.specs.Limits.{most_width};

use std::alloc::{AllocError, Global};

#[derive(Drop)]
pub(crate) struct Cells {
    pub(crate) width: u16,
    bytes: Vec<u8>,
}

impl Cells {
    pub(crate) fn new(heap: Global, width: u16, count: u16) -> Result<Cells, AllocError>
        ensures made { IfOk result (λ c. (c.width ≡ width) × (length c.bytes.items ≡ count * width)) }
    {
        let bytes = Vec::from_elem(heap, 0u8, count as usize * width as usize)?;
        Ok(Cells { width, bytes })
    }

    // So many octets from the front of a cell.
    pub(crate) fn front(&self, cell: usize, len: u16) -> &[u8]
        requires { cell * self.now.width + len ≤ length self.now.bytes.items }
        ensures { result.now ≡ take len (drop (cell * self.now.width) self.now.bytes.items) }
    {
        let at = cell * self.width as usize;
        &self.bytes[at..at + len as usize]
    }

    // Writes a string to the front of a cell, and tells its length.
    pub(crate) fn write(&mut self, cell: usize, octets: &[u8]) -> u16
        requires room { cell * self.old.width + length octets.now ≤ length self.old.bytes.items }
        requires small { length octets.now ≤ most_width }
        ensures length { result ≡ length octets.now }
        ensures width { self.new.width ≡ self.old.width }
        ensures bytes { self.new.bytes.items ≡ paste self.old.bytes.items (cell * self.old.width) octets.now (length octets.now) }
    {
        let at = cell * self.width as usize;
        self.bytes[at..at + octets.len()].copy_from_slice(octets);
        octets.len() as u16
    }
}
