// A place of a store: a row and a number that are in bounds.
ghost use Rattle.std.specs.Prelude.{◌≡◌, ◌<◌, true, false, MatchOption};
ghost use Rattle.contents.specs.Contents.{in_bounds};
ghost use Rattle.contents.specs.Layout.{place_of};
ghost use Rattle.protocol.specs.Limits.{most_strings};

use protocol::{NUMBERS, ROWS, is_number};

#[derive(Clone, Copy)]
pub(crate) struct Place {
    pub(crate) row: u8,
    pub(crate) number: u16,
    ghost bounded: { in_bounds row number ≡ true },
}

impl Place {
    // None if the row or the number is out of bounds. (In a closure under `then`, that they are in bounds would not be known.)
    pub(crate) fn new(row: u8, number: u16) -> Option<Place>
        ensures answer { MatchOption result (in_bounds row number ≡ false) (λ p. (p.row ≡ row) × (p.number ≡ number)) }
    {
        if row < ROWS && is_number(number) {
            Some(Place { row, number })
        } else {
            None
        }
    }

    // Row after row, each from its number 1 on.
    pub(crate) fn index(self) -> usize
        ensures place { result ≡ place_of self.row self.number }
        ensures low { result < most_strings }
    {
        self.row as usize * NUMBERS as usize + (self.number as usize - 1)
    }
}
