// PDUs read from datagrams and written into buffers.
#![tactic(auto)]

mod datagram;
mod destinations;
mod entries;
mod fault;
mod fields;
mod head;
mod kind;
mod pdus;
mod put;
mod reading;
mod rules;
mod sum;
mod views;
mod write_ack;
mod write_address;
mod write_data;
mod writing;

pub use fault::WireFault;
pub use kind::{Kind, UnknownKind};
pub use pdus::{Ack, Address, Addressee, Data, Discard, NewAck, NewAddress, Pdu};
pub use reading::read;
pub use views::{Destination, Destinations, Entries, Entry, Numbers};
pub use writing::Written;
