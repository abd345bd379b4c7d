// What a datagram says. `source` and `message` stand among the other fields, as they do in the format.
ghost use Rattle.std.specs.Prelude.{◌≡◌};
ghost use Rattle.wire.specs.Told.{kind_in};

use crate::kind::Kind;
use crate::views::{Destinations, Entries};

#[derive(Clone, Copy)]
pub struct Data<'a> {
    pub priority: u8,
    pub number: u16,
    pub source: u32,
    pub message: u32,
    pub fragment: &'a [u8],
}

// An Address, or an Extra_Address if its kind says so. `part` is 0 if this is the only part.
#[derive(Clone, Copy)]
pub struct Address<'a> {
    pub priority: u8,
    pub kind: Kind,
    pub part: u8,
    pub total: u16,
    pub source: u32,
    pub message: u32,
    pub expiry: u32,
    pub destinations: Destinations<'a>,
}

#[derive(Clone, Copy)]
pub struct Discard {
    pub priority: u8,
    pub source: u32,
    pub message: u32,
}

#[derive(Clone, Copy)]
pub struct Ack<'a> {
    pub priority: u8,
    pub sender: u32,
    pub entries: Entries<'a>,
}

#[derive(Clone, Copy)]
pub enum Pdu<'a> {
    Data(Data<'a>),
    Address(Address<'a>),
    Discard(Discard),
    Ack(Ack<'a>),
}

impl Pdu<'_> {
    // The type of the PDU.
    pub fn kind(&self) -> Kind
        ensures value { result ≡ kind_in self.now }
    {
        match self {
            Pdu::Data(_) => Kind::Data,
            Pdu::Address(address) => address.kind,
            Pdu::Discard(_) => Kind::Discard,
            Pdu::Ack(_) => Kind::Ack,
        }
    }
}

// A destination of an Address that is to be written, with its sequence number: one that has no place yet.
#[derive(Clone, Copy)]
pub struct Addressee {
    pub destination: u32,
    pub sequence: u32,
}

// An Address that is to be written.
#[derive(Clone, Copy)]
pub struct NewAddress<'a> {
    pub priority: u8,
    pub total: u16,
    pub source: u32,
    pub message: u32,
    pub expiry: u32,
    pub destinations: &'a [Addressee],
}

// An ACK of one entry that is to be written.
#[derive(Clone, Copy)]
pub struct NewAck<'a> {
    pub priority: u8,
    pub sender: u32,
    pub source: u32,
    pub message: u32,
    pub numbers: &'a [u16],
}
