// The state of a sender, beside its store.
use crate::answers::Standing;
use parts::numbers::Numbers;

// An enrolled destination.
#[derive(Clone, Copy)]
pub struct Enrolled {
    pub destination: u32,
    pub answering: bool,
    // how many messages were submitted to it
    pub submitted: u32,
}

// One destination of a message.
#[derive(Clone, Copy)]
pub struct Destination {
    pub destination: u32,
    pub sequence: u32,
    pub standing: Standing,
    pub missing: Numbers,
}

// What was submitted: of the destinations the first `count` are given. They come first, without a gap, which
// an Option for each would not say; an `ArrayVec` is not `Copy`, as a row is.
#[derive(Clone, Copy)]
pub struct Message {
    pub identity: u32,
    pub total: u16,
    pub priority: u8,
    pub expiry: u32,
    pub destinations: [Destination; 16],
    pub count: u8,
}

#[derive(Clone, Copy)]
pub enum SenderRow {
    Vacant,
    // `count` fragments were appended.
    Draft {
        identity: u32,
        count: u16,
    },
    // The Address may be due, and the numbers `due`. (`wait` and `rounds` stand in both rows that send again: two numbers read
    // better in a rule's pattern than a struct of them.)
    Sending {
        message: Message,
        address: bool,
        due: Numbers,
        wait: u32,
        rounds: u8,
    },
    // Nothing is due until the deadline.
    Waiting {
        message: Message,
        deadline: u64,
        wait: u32,
        rounds: u8,
    },
    // All are complete. Without a deadline the Address is due. `counted`: an entry counted since the last Address.
    Ending {
        message: Message,
        deadline: Option<u64>,
        counted: bool,
    },
    // The Discard is due.
    Closing {
        message: Message,
    },
    Ended {
        message: Message,
    },
}

#[derive(Clone, Copy)]
pub struct SenderTable {
    pub source: u32,
    // the identity of the next draft; one above the last identity if none is left, so that the rules only add and compare
    pub next: u64,
    pub now: u64,
    pub roster: [Option<Enrolled>; 16],
    pub rows: [SenderRow; 8],
}
