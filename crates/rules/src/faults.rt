// Why an end refuses. A fault of the wire or of the store stands whole inside.
ghost use Rattle.std.specs.Prelude.{◌≡◌};
ghost use Rattle.rules.specs.declared.faults.EndFault.TheVariants.{Wire as InWire, Store as InStore};
ghost use Rattle.rules.specs.Refusals.{refusal_of};

use store::StoreFault;
use wire::WireFault;

// Where a submitted row is that is not ended, as a refused forget tells it.
#[derive(Clone, Copy, Debug, PartialEq, Eq)]
pub enum State {
    Sending,
    Waiting,
    Ending,
    Closing,
}

#[derive(Clone, Copy, Debug, PartialEq, Eq)]
pub enum EndFault {
    Wire(WireFault),
    Store(StoreFault),
    // The clock is above its limit or below now.
    Clock { now: u64 },
    // The expiry is reached.
    Expired { expiry: u32 },
    // No row is vacant.
    Rows { count: u8 },
    // An Address or Data against the row's total, priority or expiry, or a number above the total.
    Against { row: u8 },
    // The caller's buffer is too short for the message.
    Buffer { needed: u32 },
    // Nothing is due, nothing is complete.
    Nothing,
    // All records are in use.
    Records { count: u8 },
    // An unknown draft or destination, or an identity of no submitted row.
    Unknown { named: u32 },
    // The first identity is 0, or the last identity or arrival is used.
    Identity { value: u32 },
    // A list that is empty, too long, unenrolled or not rising; a roster that is full, or has the destination.
    List { place: u8 },
    // A submit of no fragment, an append to as many as there may be.
    Fragments { count: u16 },
    // A forget before the row is ended.
    Unended { state: State },
}

impl From<WireFault> for EndFault {
    ghost from_gives = { λ fault r. r ≡ InWire fault };

    fn from(fault: WireFault) -> EndFault {
        EndFault::Wire(fault)
    }
}

impl From<StoreFault> for EndFault {
    ghost from_gives = { λ fault r. r ≡ InStore fault };

    fn from(fault: StoreFault) -> EndFault {
        EndFault::Store(fault)
    }
}

impl EndFault {
    // The number by which the cause is known. A fault is more than its number, so this is no `From`.
    pub fn number(&self) -> u8
        ensures value { result ≡ (refusal_of self.now).cause.number }
    {
        match self {
            EndFault::Wire(fault) => fault.number(),
            EndFault::Store(fault) => fault.number(),
            EndFault::Clock { .. } => 6,
            EndFault::Expired { .. } => 7,
            EndFault::Rows { .. } => 8,
            EndFault::Against { .. } => 9,
            EndFault::Buffer { .. } => 12,
            EndFault::Nothing => 13,
            EndFault::Records { .. } => 14,
            EndFault::Unknown { .. } => 15,
            EndFault::Identity { .. } => 16,
            EndFault::List { .. } => 17,
            EndFault::Fragments { .. } => 18,
            EndFault::Unended { .. } => 19,
        }
    }
}
