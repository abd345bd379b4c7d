// The numbers of the protocol. `specs/Limits.antt` has the same numbers for the contracts.
#![tactic(auto)]

ghost use Rattle.std.specs.Prelude.{◌≡◌};
ghost use Rattle.protocol.specs.Limits.{is_number};

// A datagram has at least and at most so many octets.
pub const SHORTEST: usize = 16;

pub const LONGEST: usize = 1472;

// A set of fragment numbers is so many words of 64 bits.
pub const WORDS: usize = 4;

// Fragment numbers and totals lie in 1 to this.
pub const NUMBERS: u16 = 64 * WORDS as u16;

// Whether a fragment or a total may have this number.
pub fn is_number(number: u16) -> bool
    ensures value { result ≡ is_number number }
{
    (1..=NUMBERS).contains(&number)
}

// Each end has so many rows, and so has a store.
pub const ROWS: u8 = 8;

// A string in a store has at least 1 and at most the store's width of octets; a width lies between these.
pub const LEAST_WIDTH: u16 = 16;

pub const MOST_WIDTH: u16 = 1024;

// A store holds at most its limit of strings; a limit lies in 1 to this.
pub const MOST_STRINGS: u16 = ROWS as u16 * NUMBERS;

// The roster has so many places, and a message goes to at most so many destinations.
pub const ROSTER: u8 = 16;

// A receiver keeps at most so many finished records.
pub const RECORDS: u8 = 32;

// An ACK lists at most so many missing numbers, and so many missing below the highest held raise one.
pub const LISTED: u16 = 32;

// The last clock, in milliseconds since 1.1.1970.
pub const LAST_CLOCK: u64 = 4_294_967_295_999;

// The last identity, and the last arrival.
pub const LAST_IDENTITY: u32 = 4_294_967_295;

// An expiry is in seconds: so many milliseconds each.
pub const SECOND: u64 = 1_000;

// A submitted row first waits so long for ACKs, and never longer than the second.
pub const FIRST_WAIT: u32 = 8_000;

pub const LONGEST_WAIT: u32 = 600_000;

// It waits so long where no open destination is answering, and so often sends to silent ones alone.
pub const SILENT_WAIT: u32 = 3_600_000;

pub const SILENT_ROUNDS: u8 = 4;

// An ending row waits so long after its Address.
pub const ENDING_WAIT: u32 = 30_000;

// A loose row is vacated so long after its making.
pub const LOOSE_TIME: u32 = 60_000;

// An open row raises an ACK so long after its opening or its last new Data.
pub const QUIET_TIME: u32 = 5_000;

// One step of the table of delays.
pub const DELAY_STEP: u32 = 10;
