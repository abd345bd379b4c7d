// The PDUs by their definitions: specs/ says what the octets of each mean, how each is written and why one is refused,
// and proofs/ has what follows of these definitions alone. The crate `wire` reads and writes them.
#![tactic(auto)]

ghost use Rattle.std.specs.Prelude.{◌≡◌, Some};
ghost use Rattle.pdu.specs.Examples.{example_checksums};
ghost use Rattle.pdu.specs.Types.{Names, name_of};

use std::fmt;
use std::str::FromStr;

// Which end reads. A sender takes ACKs; a receiver takes Data, Address, Extra_Address and Discard.
#[derive(Clone, Copy, Debug, PartialEq, Eq)]
pub enum Accepts {
    Sender,
    Receiver,
}

impl fmt::Display for Accepts {
    ghost output = { λ end. Some (name_of end) };

    fn fmt<W: fmt::Write>(&self, f: &mut fmt::Formatter<W>) -> fmt::Result {
        f.write_str(match self {
            Accepts::Sender => "sender",
            Accepts::Receiver => "receiver",
        })
    }
}

// No end has this name.
#[derive(Clone, Copy, Debug, PartialEq, Eq)]
pub struct UnknownEnd;

impl FromStr for Accepts {
    type Err = UnknownEnd;

    ghost from_str_gives = { Names };

    fn from_str(name: &str) -> Result<Accepts, UnknownEnd> {
        match name {
            "sender" => Ok(Accepts::Sender),
            "receiver" => Ok(Accepts::Receiver),
            _ => Err(UnknownEnd),
        }
    }
}

// The Checksums of five worked examples: a Discard, Data with "Hi", Data with "H", an Address and an ACK.
pub fn example_checksums() -> [u16; 5]
    ensures table { result ≡ example_checksums }
{
    [0xCF57, 0x86EE, 0x8758, 0x78DB, 0xC544]
}
