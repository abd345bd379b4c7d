// The Checksum of a PDU.
ghost use Rattle.std.specs.Prelude.{◌≡◌, ◌<◌, ◌≤◌, length};
ghost use Rattle.pdu.specs.Sum.{carried, checksum_of, word_sum};
ghost use Rattle.protocol.specs.Limits.{longest};

use crate::fields::word_at;

// What an odd last octet counts for, if there is one: 0 follows it.
fn odd_word(odd: &[u8]) -> u32
    requires { length odd.now < 2 }
    ensures value { result ≡ word_sum odd.now }
    ensures bound { result ≤ 65535 }
{
    odd.first()
        .map_or(0, |last| u32::from(u16::from_be_bytes([*last, 0])))
}

// The plain sum of the big-endian words; at most 1,472 octets cannot overflow it.
fn summed(datagram: &[u8]) -> u32
    requires { length datagram.now ≤ longest }
    ensures { result ≡ word_sum datagram.now }
{
    let (words, odd) = datagram.as_chunks();
    let mut sum = odd_word(odd);
    for word in words {
        sum += u32::from(u16::from_be_bytes(*word));
    }
    sum
}

// A sum with its carries added at the bottom: the arithmetic of the Checksum, which no method has.
fn folded(sum: u32) -> u16
    ensures { result ≡ carried (carried sum) }
{
    let once = sum % 65536 + sum / 65536;
    (once % 65536 + once / 65536) as u16
}

// The Checksum that belongs to a datagram.
#[tactic(auto, using(crate::proofs::Sets::sums))]
pub(crate) fn checksum(datagram: &[u8]) -> u16
    requires { (8 ≤ length datagram.now) × (length datagram.now ≤ longest) }
    ensures { result ≡ checksum_of datagram.now }
{
    let field = u32::from(word_at(datagram, 6));
    !folded(summed(datagram) - field)
}
