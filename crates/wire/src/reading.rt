// Reading a datagram.
ghost use Rattle.std.specs.Prelude.{◌≡◌, length, IfOk, OnOk};
ghost use Rattle.std.specs.Result.{result_map_both};
ghost use Rattle.pdu.specs.Damage.{DamageShows};
ghost use Rattle.pdu.specs.Read.{unless_broken, data_broken, data_of, discard_broken, discard_of, address_broken, address_of, ack_broken, ack_of, read_of};
ghost use Rattle.pdu.specs.Said.{said_data, said_address, said_discard, said_ack};
ghost use Rattle.wire.specs.Faults.{cause_of};
ghost use Rattle.wire.specs.Told.{Counted, told_of};
ghost use Rattle.wire.specs.Views.{data_in, address_in, discard_in, ack_in, destinations_in, entries_in};

use crate::datagram::Datagram;
use crate::destinations::DESTINATION_SIZE;
use crate::entries::ACK_COUNT;
use crate::fault::WireFault;
use crate::fields::{quad_at, word_at};
use crate::head::head;
use crate::kind::Kind;
use crate::pdus::{Ack, Address, Data, Discard, Pdu};
use crate::rules::{first_unrisen, rule, unbroken};
use crate::views::{Destinations, Entries};
use pdu::Accepts;
use protocol::{SHORTEST, is_number};

// So many octets of an Address stand before its destinations, and of an ACK before its entries.
pub(crate) const ADDRESS_HEAD: usize = 24;

pub(crate) const ACK_HEAD: usize = 14;

// The place of an Address's count of destinations.
const ADDRESS_COUNT: usize = 20;

fn read_data(datagram: Datagram<'_>) -> Result<Data<'_>, WireFault>
    ensures { result_map_both (λ d. said_data (data_in d)) cause_of result ≡ unless_broken (data_broken datagram.entry.octets.now) (said_data (data_of datagram.entry.octets.now)) }
{
    let number = datagram.number();
    rule(datagram.top_bits() == 0, 3)?;
    rule(is_number(number), 4)?;
    Ok(Data {
        priority: datagram.priority(),
        number,
        source: datagram.source(),
        message: datagram.message(),
        fragment: &datagram.octets[16..],
    })
}

fn read_discard(datagram: Datagram<'_>) -> Result<Discard, WireFault>
    ensures { result_map_both (λ d. said_discard (discard_in d)) cause_of result ≡ unless_broken (discard_broken datagram.entry.octets.now) (said_discard (discard_of datagram.entry.octets.now)) }
{
    rule(datagram.octets.len() == SHORTEST, 0)?;
    rule(datagram.top_bits() == 0, 3)?;
    rule(datagram.number() == 0, 4)?;
    Ok(Discard {
        priority: datagram.priority(),
        source: datagram.source(),
        message: datagram.message(),
    })
}

fn read_address(datagram: Datagram<'_>) -> Result<Address<'_>, WireFault>
    ensures answer { result_map_both (λ a. said_address (address_in a)) cause_of result ≡ unless_broken (address_broken datagram.entry.octets.now) (said_address (address_of datagram.entry.octets.now)) }
    ensures counts { IfOk result (λ a. length (destinations_in a.destinations) ≡ a.destinations.count) }
{
    let octets = datagram.octets;
    rule(octets.len() >= ADDRESS_HEAD, 0)?;
    let total = datagram.number();
    rule(is_number(total), 4)?;
    let count = word_at(octets, ADDRESS_COUNT);
    let reserved = word_at(octets, 22);
    let size = usize::from(count) * (DESTINATION_SIZE + usize::from(reserved));
    rule(size == octets.len() - ADDRESS_HEAD, ADDRESS_COUNT)?;
    let destinations = Destinations {
        datagram: octets,
        place: ADDRESS_HEAD,
        count,
        reserved,
    };
    unbroken(first_unrisen(destinations))?;
    Ok(Address {
        priority: datagram.priority(),
        kind: datagram.kind,
        part: datagram.top_bits(),
        total,
        source: datagram.source(),
        message: datagram.message(),
        expiry: quad_at(octets, 16),
        destinations,
    })
}

fn read_ack(datagram: Datagram<'_>) -> Result<Ack<'_>, WireFault>
    ensures answer { result_map_both (λ a. said_ack (ack_in a)) cause_of result ≡ unless_broken (ack_broken datagram.entry.octets.now) (said_ack (ack_of datagram.entry.octets.now)) }
    ensures counts { IfOk result (λ a. length (entries_in a.entries) ≡ a.entries.count) }
{
    rule(datagram.top_bits() == 0, 3)?;
    rule(datagram.number() == 0, 4)?;
    let count = word_at(datagram.octets, ACK_COUNT);
    rule(count != 0, ACK_COUNT)?;
    let entries = Entries {
        datagram: datagram.octets,
        place: ACK_HEAD,
        count,
    };
    unbroken(entries.broken())?;
    Ok(Ack {
        priority: datagram.priority(),
        sender: datagram.source(),
        entries,
    })
}

fn parsed(accepts: Accepts, octets: &[u8]) -> Result<Pdu<'_>, WireFault>
    ensures answer { told_of result ≡ read_of accepts octets.now }
    ensures counts { IfOk result Counted }
{
    let datagram = head(accepts, octets)?;
    Ok(match datagram.kind {
        Kind::Data => Pdu::Data(read_data(datagram)?),
        Kind::Ack => Pdu::Ack(read_ack(datagram)?),
        Kind::Address | Kind::ExtraAddress => Pdu::Address(read_address(datagram)?),
        Kind::Discard => Pdu::Discard(read_discard(datagram)?),
    })
}

// What a datagram says to an end, or why the end refuses it. An accepted ACK or Address has as many entries or
// destinations as it counts. Any accepted PDU would be refused, by either end, with any one of its bits changed.
pub fn read(accepts: Accepts, datagram: &[u8]) -> Result<Pdu<'_>, WireFault>
    ensures answer { told_of result ≡ read_of accepts datagram.now }
    ensures counts { IfOk result Counted }
    ensures damage { OnOk result (DamageShows datagram.now) }
{
    parsed(accepts, datagram)
}
