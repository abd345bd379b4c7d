// The types of PDUs.
ghost use Rattle.std.specs.Prelude.{◌≡◌, Some};
ghost use Rattle.wire.specs.Kinds.{kind_number, kind_of, kind_name};

use std::fmt;

#[derive(Clone, Copy, Debug, PartialEq, Eq)]
pub enum Kind {
    Data = 0x00,
    Ack = 0x01,
    Address = 0x02,
    Discard = 0x03,
    ExtraAddress = 0x12,
}

// No type has this number.
#[derive(Clone, Copy, Debug, PartialEq, Eq)]
pub struct UnknownKind(pub u8);

impl TryFrom<u8> for Kind {
    type Error = UnknownKind;

    ghost try_from_gives = { λ number result. result ≡ kind_of number };

    fn try_from(number: u8) -> Result<Kind, UnknownKind> {
        match number {
            0x00 => Ok(Kind::Data),
            0x01 => Ok(Kind::Ack),
            0x02 => Ok(Kind::Address),
            0x03 => Ok(Kind::Discard),
            0x12 => Ok(Kind::ExtraAddress),
            _ => Err(UnknownKind(number)),
        }
    }
}

impl From<Kind> for u8 {
    ghost from_gives = { λ kind result. result ≡ kind_number kind };

    fn from(kind: Kind) -> u8 {
        kind as u8
    }
}

impl fmt::Display for Kind {
    ghost output = { λ kind. Some (kind_name kind) };

    fn fmt<W: fmt::Write>(&self, f: &mut fmt::Formatter<W>) -> fmt::Result {
        f.write_str(match self {
            Kind::Data => "Data",
            Kind::Ack => "ACK",
            Kind::Address => "Address",
            Kind::Discard => "Discard",
            Kind::ExtraAddress => "Extra_Address",
        })
    }
}
