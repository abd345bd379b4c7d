// What the calls answer.

// How a destination stands in a message.
#[derive(Clone, Copy, Debug, PartialEq, Eq)]
pub enum Standing {
    Waiting,
    Complete,
    Expired,
}

// What a take did.
#[derive(Clone, Copy, Debug, PartialEq, Eq)]
pub enum Taken {
    // A new fragment was kept.
    Kept,
    // A row became complete.
    Complete,
    // A fragment that is held, or one of a finished message.
    Again,
    // Any other Address that was not passed over, or an ACK with an entry that counts.
    Noted,
    // A row was vacated.
    Dropped,
    PassedOver,
}
