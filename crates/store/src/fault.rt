// Why a store refuses.
ghost use Rattle.std.specs.Prelude.{◌≡◌, ◌∷◌};
ghost use Rattle.std.specs.Option.{option_to_list};
ghost use Rattle.store.specs.Faults.{cause_of};

// `cause_of` of the specifications gives each case its number and its values.
#[derive(Clone, Copy, PartialEq, Eq, Debug)]
pub enum StoreFault {
    // The store holds as many strings as it may.
    Full { limit: u16 },
    // The string is empty or longer than the width.
    Fragment { width: u16 },
    // The caller's buffer is shorter than the string.
    Buffer { needed: u16 },
    // The row or the number is out of bounds, or the place is held at a put or not held at a get.
    Place { row: u8, number: u16 },
    // A width or a limit is out of bounds, or memory is short, where a store is made.
    Size { value: u16 },
}

impl StoreFault {
    // The number of the refusal. A fault is more than its number, so this is no `From`.
    pub fn number(&self) -> u8
        ensures answer { result ≡ (cause_of self.now).number }
    {
        match self {
            StoreFault::Full { .. } => 10,
            StoreFault::Fragment { .. } => 11,
            StoreFault::Buffer { .. } => 12,
            StoreFault::Place { .. } => 20,
            StoreFault::Size { .. } => 21,
        }
    }

    // The values that come with it: one, or a row and a number. A list of at most two would be no plainer.
    pub fn values(&self) -> (u16, Option<u16>)
        ensures answer { (cause_of self.now).values ≡ result.0 ∷ option_to_list result.1 }
    {
        match *self {
            StoreFault::Full { limit } => (limit, None),
            StoreFault::Fragment { width } => (width, None),
            StoreFault::Buffer { needed } => (needed, None),
            StoreFault::Place { row, number } => (row as u16, Some(number)),
            StoreFault::Size { value } => (value, None),
        }
    }
}
