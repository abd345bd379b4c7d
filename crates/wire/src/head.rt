// The header of a datagram: refusals 1 to 4.
ghost use Rattle.std.specs.Prelude.{◌≡◌, true, false, length, IfOk, MatchOption};
ghost use Rattle.std.specs.Result.{result_map_both};
ghost use Rattle.pdu.specs.Read.{head_of};
ghost use Rattle.pdu.specs.Types.{takes};
ghost use Rattle.wire.specs.Faults.{cause_of};
ghost use Rattle.wire.specs.Kinds.{kind_number};

use crate::datagram::Datagram;
use crate::fault::WireFault;
use crate::fields::word_at;
use crate::kind::Kind;
use crate::sum::checksum;
use pdu::Accepts;
use protocol::{LONGEST, SHORTEST};

fn is_taken(accepts: Accepts, kind: Kind) -> bool
    ensures { result ≡ takes accepts (kind_number kind) }
{
    match accepts {
        Accepts::Sender => kind == Kind::Ack,
        Accepts::Receiver => kind != Kind::Ack,
    }
}

// The type with a number, if an end takes it.
fn kind_taken(accepts: Accepts, number: u8) -> Option<Kind>
    ensures { MatchOption result (takes accepts number ≡ false) (λ kind. (kind_number kind ≡ number) × (takes accepts number ≡ true)) }
{
    Kind::try_from(number)
        .ok()
        .filter(|kind| is_taken(accepts, *kind))
}

// A datagram whose header stands.
pub(crate) fn head(accepts: Accepts, octets: &[u8]) -> Result<Datagram<'_>, WireFault>
    ensures answer { result_map_both (λ d. kind_number d.kind) cause_of result ≡ head_of accepts octets.now }
    ensures same { IfOk result (λ d. d.octets.now ≡ octets.now) }
    ensures taken { IfOk result (λ d. takes accepts (kind_number d.kind) ≡ true) }
{
    let length = octets.len();
    if !(SHORTEST..=LONGEST).contains(&length) {
        return Err(WireFault::Size { length });
    }
    let field = word_at(octets, 0);
    if usize::from(field) != length {
        return Err(WireFault::Length { field, length });
    }
    let field = word_at(octets, 6);
    let sum = checksum(octets);
    if field != sum {
        return Err(WireFault::Checksum { field, sum });
    }
    // The lower six bits of the octet; the upper two are an Address's part.
    let number = octets[3] % 64;
    let kind = kind_taken(accepts, number).ok_or(WireFault::PduType { number })?;
    Ok(Datagram { kind, octets })
}
