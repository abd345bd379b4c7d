// What a datagram says, in words.
use pdu::Accepts;
use std::fmt;
use wire::{Ack, Address, Data, Entry, Pdu, WireFault, read};

// A datagram on a line of input, as the end that the line names reads it.
#[derive(Clone, Copy)]
pub struct Report<'a> {
    pub line: u64,
    pub end: Accepts,
    pub octets: &'a [u8],
}

impl fmt::Display for Report<'_> {
    fn fmt<W: fmt::Write>(&self, f: &mut fmt::Formatter<W>) -> fmt::Result {
        match read(self.end, self.octets) {
            Ok(pdu) => self.write_pdu(f, &pdu),
            Err(fault) => self.write_fault(f, fault),
        }
    }
}

impl Report<'_> {
    fn write_fault<W: fmt::Write>(
        &self,
        f: &mut fmt::Formatter<W>,
        fault: WireFault,
    ) -> fmt::Result {
        let Report { line, end, .. } = self;
        let number = fault.number();
        write!(f, "line {line}: {end} refuses with {number}: ")?;
        match fault {
            WireFault::Size { length } => writeln!(f, "{length} octets, not 16 to 1472"),
            WireFault::Length { field, length } => {
                writeln!(f, "length field {field}, datagram of {length} octets")
            }
            WireFault::Checksum { field, sum } => {
                writeln!(f, "checksum field {field:04X}, sum {sum:04X}")
            }
            WireFault::PduType { number } => writeln!(f, "type {number:02X} is not for a {end}"),
            WireFault::Field { place } => writeln!(f, "the field at octet {place} breaks its rule"),
            WireFault::Buffer { needed } => writeln!(f, "a buffer of {needed} octets is needed"),
        }
    }

    fn write_pdu<W: fmt::Write>(&self, f: &mut fmt::Formatter<W>, pdu: &Pdu<'_>) -> fmt::Result {
        let Report { line, end, octets } = self;
        let kind = pdu.kind();
        let length = octets.len();
        writeln!(f, "line {line}: {end} reads {kind}, {length} octets")?;
        write_head(f, octets, pdu)?;
        match pdu {
            Pdu::Data(data) => write_data(f, data),
            Pdu::Address(address) => write_address(f, address),
            Pdu::Discard(discard) => write_message(f, discard.source, discard.message),
            Pdu::Ack(ack) => write_ack(f, ack, length),
        }
    }
}

// What the field at octet 4 is called.
fn field_of(pdu: &Pdu<'_>) -> &'static str {
    match pdu {
        Pdu::Data(_) => "number",
        Pdu::Address(_) => "total",
        Pdu::Discard(_) | Pdu::Ack(_) => "unused",
    }
}

// The fields that every PDU opens with.
fn write_head<W: fmt::Write>(
    f: &mut fmt::Formatter<W>,
    octets: &[u8],
    pdu: &Pdu<'_>,
) -> fmt::Result {
    let [l0, l1, priority, _, f0, f1, c0, c1, ..] = *octets else {
        return Ok(());
    };
    let length = u16::from_be_bytes([l0, l1]);
    let number = u8::from(pdu.kind());
    let name = field_of(pdu);
    let field = u16::from_be_bytes([f0, f1]);
    let checksum = u16::from_be_bytes([c0, c1]);
    writeln!(f, "  0: length {length}")?;
    writeln!(f, "  2: priority {priority}")?;
    write!(f, "  3: type {number:02X}")?;
    if let Pdu::Address(address) = pdu {
        write!(f, ", MAP {}", address.part)?;
    }
    writeln!(f)?;
    writeln!(f, "  4: {name} {field}")?;
    writeln!(f, "  6: checksum {checksum:04X}")
}

// The two fields that name a message.
fn write_message<W: fmt::Write>(
    f: &mut fmt::Formatter<W>,
    source: u32,
    message: u32,
) -> fmt::Result {
    writeln!(f, "  8: source {source:08X}")?;
    writeln!(f, "  12: message {message:08X}")
}

fn write_data<W: fmt::Write>(f: &mut fmt::Formatter<W>, data: &Data<'_>) -> fmt::Result {
    write_message(f, data.source, data.message)?;
    let count = data.fragment.len();
    write!(f, "  16: fragment, {count} octets")?;
    if !data.fragment.is_empty() {
        write!(f, ": ")?;
    }
    for octet in data.fragment {
        write!(f, "{octet:02X}")?;
    }
    writeln!(f)
}

fn write_address<W: fmt::Write>(f: &mut fmt::Formatter<W>, address: &Address<'_>) -> fmt::Result {
    let Address {
        source,
        message,
        expiry,
        destinations,
        ..
    } = *address;
    write_message(f, source, message)?;
    writeln!(f, "  16: expiry {expiry}")?;
    writeln!(f, "  20: destinations {}", destinations.count)?;
    writeln!(f, "  22: reserved {}", destinations.reserved)?;
    for d in destinations {
        let place = d.place;
        let destination = d.destination;
        let sequence = d.sequence;
        writeln!(
            f,
            "  {place}: destination {destination:08X}, sequence number {sequence}"
        )?;
    }
    Ok(())
}

fn write_ack<W: fmt::Write>(
    f: &mut fmt::Formatter<W>,
    ack: &Ack<'_>,
    length: usize,
) -> fmt::Result {
    let Ack {
        sender,
        entries,
        ..
    } = *ack;
    writeln!(f, "  8: ACK sender {sender:08X}")?;
    writeln!(f, "  12: entries {}", entries.count)?;
    let mut end = 14;
    for entry in entries {
        end = write_entry(f, &entry)?;
    }
    if end < length {
        writeln!(f, "  {end}: Time_Option, 8 octets")?;
    }
    Ok(())
}

// Writes one entry, and tells the place behind it.
fn write_entry<W: fmt::Write>(
    f: &mut fmt::Formatter<W>,
    entry: &Entry<'_>,
) -> Result<usize, fmt::Error> {
    let place = entry.place;
    let size = entry.count().saturating_mul(2).saturating_add(10);
    writeln!(f, "  {place}: entry of {size} octets")?;
    let at = place.saturating_add(2);
    writeln!(f, "  {at}: source {:08X}", entry.source)?;
    let at = place.saturating_add(6);
    writeln!(f, "  {at}: message {:08X}", entry.message)?;
    let places = (place.saturating_add(10)..).step_by(2);
    for (at, number) in places.zip(entry.numbers) {
        writeln!(f, "  {at}: missing {number}")?;
    }
    Ok(place.saturating_add(size))
}
