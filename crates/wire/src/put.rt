// Octets written into a buffer.
ghost use Rattle.std.specs.Prelude.{◌≡◌, ℕ, ◌+◌, ◌*◌, ◌^◌, ◌<◌, ◌≤◌, List, ◌++◌, length, take, drop, All, refl};
ghost use Rattle.std.specs.List.{flat_map};
ghost use Rattle.pdu.specs.Octets.{two_octets, four_octets};
ghost use Rattle.pdu.specs.Write.{head_octets, pair_octets, sealed, overlaid};
ghost use Rattle.protocol.specs.Limits.{longest};
ghost use Rattle.wire.specs.Kinds.{kind_number};
ghost use Rattle.wire.specs.Written.{pair_of};

use crate::kind::Kind;
use crate::pdus::Addressee;
use crate::sum::checksum;

// What is written as N octets.
pub(crate) trait ToOctets<const N: usize> {
    ghost octets: { Self → List ℕ };

    // What holds of each value, as a bound on a number.
    ghost fits: { Self → Type 0 };

    fn to_octets(&self) -> [u8; N]
        ensures octets { result ≡ octets self.now }
        ensures fits { fits self.now };

    ghost wide: { (x : Self) → length (octets x) ≡ N };
}

// Each width has its own definition of its octets, and so its own `impl`.
impl ToOctets<2> for u16 {
    ghost octets = { two_octets };

    ghost fits = { λ n. n < 2 ^ 16 };

    fn to_octets(&self) -> [u8; 2] {
        u16::to_be_bytes(*self)
    }

    ghost wide = { λ x. refl };
}

impl ToOctets<4> for u32 {
    ghost octets = { four_octets };

    ghost fits = { λ n. n < 2 ^ 32 };

    fn to_octets(&self) -> [u8; 4] {
        u32::to_be_bytes(*self)
    }

    ghost wide = { λ x. refl };
}

impl ToOctets<8> for Addressee {
    ghost octets = { λ d. pair_octets (pair_of d) };

    ghost fits = { λ d. (d.destination < 2 ^ 32) × (d.sequence < 2 ^ 32) };

    fn to_octets(&self) -> [u8; 8] {
        let mut octets = [0; 8];
        put(&mut octets, 0, &self.destination);
        put(&mut octets, 4, &self.sequence);
        octets
    }

    ghost wide = { λ x. refl };
}

// Writes octets over a buffer from a place on.
#[tactic(auto, using(crate::proofs::Sets::parts))]
pub(crate) fn put_octets(out: &mut [u8], place: usize, octets: &[u8])
    requires { place + length octets.now ≤ length out.old }
    ensures { out.new ≡ overlaid out.old place octets.now }
{
    out[place..place + octets.len()].copy_from_slice(octets);
}

// Writes an item over a buffer from a place on.
pub(crate) fn put<T: ToOctets<N>, const N: usize>(out: &mut [u8], place: usize, item: &T)
    requires { place + N ≤ length out.old }
    ensures after { out.new ≡ overlaid out.old place (T.ToOctets.octets item.now) }
    ensures fits { T.ToOctets.fits item.now }
{
    put_octets(out, place, &item.to_octets());
}

// Writes items over a buffer from a place on, one behind the other. Each goes by its place, since nothing is known of a slice
// whose chunks were written through an adapter.
pub(crate) fn put_all<T: ToOctets<N>, const N: usize>(out: &mut [u8], place: usize, items: &[T])
    requires { place + N * length items.now ≤ length out.old }
    ensures after { out.new ≡ overlaid out.old place (flat_map T.ToOctets.octets items.now) }
    ensures fits { All T.ToOctets.fits items.now }
{
    for (i, item) in items.iter().enumerate() {
        put(out, place + N * i, item);
    }
}

// The header, with the Checksum 0.
pub(crate) fn put_head(out: &mut [u8], size: u16, priority: u8, kind: Kind, field: u16)
    requires { 8 ≤ length out.old }
    ensures { out.new ≡ overlaid out.old 0 (head_octets size priority (kind_number kind) field) }
{
    put(out, 0, &size);
    put_octets(out, 2, &[priority, kind.into()]);
    put(out, 4, &field);
    put_octets(out, 6, &[0, 0]);
}

// Puts the right Checksum into the PDU of `size` octets at the front of a buffer.
#[tactic(auto, using(crate::proofs::Sealed::seal_put))]
pub(crate) fn seal(out: &mut [u8], size: usize)
    requires { (8 ≤ size) × ((size ≤ longest) × (size ≤ length out.old)) }
    ensures { out.new ≡ sealed (take size out.old) ++ drop size out.old }
{
    let sum = checksum(&out[..size]);
    put(out, 6, &sum);
}
