// The state of a receiver, beside its store.
use parts::numbers::Numbers;

// Which message a row or a record is of, and how it ranks.
#[derive(Clone, Copy)]
pub struct Label {
    pub source: u32,
    pub identity: u32,
    pub priority: u8,
    // New rows are counted from 1.
    pub arrival: u32,
}

#[derive(Clone, Copy)]
pub enum ReceiverRow {
    Vacant,
    // Data came, and no Address yet. The row goes at its deadline.
    Loose {
        label: Label,
        deadline: u64,
        held: Numbers,
    },
    // `ack`: the time of a raised ACK. `quiet`: the first tick from then on raises one.
    Open {
        label: Label,
        total: u16,
        expiry: u32,
        ack: Option<u64>,
        quiet: Option<u64>,
        held: Numbers,
    },
    // Every number of 1 to `total` is held. (`label`, `expiry` and `ack` stand here as in the row before and in a record: each is
    // read by itself in a rule's pattern.)
    Complete {
        label: Label,
        total: u16,
        expiry: u32,
        ack: Option<u64>,
    },
}

// A message that was handed over.
#[derive(Clone, Copy)]
pub struct Record {
    pub label: Label,
    pub expiry: u32,
    pub ack: Option<u64>,
}

#[derive(Clone, Copy)]
pub struct ReceiverTable {
    pub identity: u32,
    pub silent: bool,
    pub now: u64,
    // of the last new row, 0 at first
    pub arrival: u32,
    pub rows: [ReceiverRow; 8],
    pub records: [Option<Record>; 32],
}

// What arrived at a row, after the refusals that a row decides.
#[derive(Clone, Copy)]
pub enum Arrival {
    // Data with a number that the row did not hold, and that the store took.
    New { number: u16 },
    // Data with a number that the row holds.
    Again { number: u16 },
    // An Address that lists us.
    Listed { total: u16, expiry: u32 },
    // The only part of an Address, without us.
    LeftOut,
    // Another part of an Address, without us.
    OtherPart,
    Discard,
}
