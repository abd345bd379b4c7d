// A datagram, and the fields that every PDU has at the same places.
ghost use Rattle.std.specs.Prelude.{◌≡◌, ◌≤◌, length};
ghost use Rattle.pdu.specs.Octets.{quad};
ghost use Rattle.pdu.specs.Read.{priority_field, top_bits, type_field, number_field};
ghost use Rattle.protocol.specs.Limits.{shortest};
ghost use Rattle.wire.specs.Kinds.{kind_number};

use crate::fields::{quad_at, word_at};
use crate::kind::Kind;

// A datagram whose header stands, and its type.
#[derive(Clone, Copy)]
pub(crate) struct Datagram<'a> {
    pub(crate) kind: Kind,
    pub(crate) octets: &'a [u8],
    ghost long: { shortest ≤ length octets.now },
    ghost typed: { kind_number kind ≡ type_field octets.now },
}

impl Datagram<'_> {
    pub(crate) fn priority(&self) -> u8
        ensures { result ≡ priority_field self.now.octets.now }
    {
        self.octets[2]
    }

    // The part of an Address; 0 elsewhere.
    pub(crate) fn top_bits(&self) -> u8
        ensures { result ≡ top_bits self.now.octets.now }
    {
        self.octets[3] / 64
    }

    // A Data's number, an Address's total; 0 elsewhere.
    pub(crate) fn number(&self) -> u16
        ensures { result ≡ number_field self.now.octets.now }
    {
        word_at(self.octets, 4)
    }

    // The source; in an ACK, its sender.
    pub(crate) fn source(&self) -> u32
        ensures { result ≡ quad self.now.octets.now 8 }
    {
        quad_at(self.octets, 8)
    }

    // The message, but for an ACK, whose entries have theirs.
    pub(crate) fn message(&self) -> u32
        ensures { result ≡ quad self.now.octets.now 12 }
    {
        quad_at(self.octets, 12)
    }
}
