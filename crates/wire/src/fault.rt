// Why a datagram is refused, or a PDU is not written.
ghost use Rattle.std.specs.Prelude.{◌≡◌};
ghost use Rattle.wire.specs.Faults.{cause_of};

#[derive(Clone, Copy, Debug, PartialEq, Eq)]
pub enum WireFault {
    // The datagram is shorter or longer than any PDU.
    Size { length: usize },
    // Length_of_PDU is not the datagram's length.
    Length { field: u16, length: usize },
    // The Checksum is not the right one.
    Checksum { field: u16, sum: u16 },
    // The type is none that this end takes.
    PduType { number: u8 },
    // A field breaks its rule; this is the lowest octet place of those that do.
    Field { place: usize },
    // The caller's buffer is too short.
    Buffer { needed: usize },
}

impl WireFault {
    // The number by which the cause is known. A fault is more than its number, so this is no `From`.
    pub fn number(&self) -> u8
        ensures value { result ≡ (cause_of self.now).number }
    {
        match self {
            WireFault::Size { .. } => 1,
            WireFault::Length { .. } => 2,
            WireFault::Checksum { .. } => 3,
            WireFault::PduType { .. } => 4,
            WireFault::Field { .. } => 5,
            WireFault::Buffer { .. } => 12,
        }
    }
}
