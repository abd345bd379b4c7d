// Going through the destinations of an Address.
ghost use Rattle.std.specs.Prelude.{◌≡◌, ◌+◌, ◌≤◌, min, [], ◌∷◌, length, IfSome, MatchOption};
ghost use Rattle.std.specs.Iterator.{YieldsFirstBy, item_count};
ghost use Rattle.std.specs.Option.{option_map};
ghost use Rattle.std.specs.List.{slice_get};
ghost use Rattle.pdu.specs.Octets.{quad};
ghost use Rattle.pdu.specs.Types.{destination_size};
ghost use Rattle.wire.specs.Views.{destination_in, destinations_in};

use crate::fields::quad_at;
use crate::views::{Destination, Destinations};

pub(crate) const DESTINATION_SIZE: usize = 8;

// The destination at a place of a datagram.
fn destination_at(datagram: &[u8], place: usize) -> Destination
    requires { place + destination_size ≤ length datagram.now }
    ensures { result ≡ record { place = place; destination = quad datagram.now place; sequence = quad datagram.now (place + 4) } }
{
    Destination {
        place,
        destination: quad_at(datagram, place),
        sequence: quad_at(datagram, place + 4),
    }
}

// How far the next destination is, where so many octets are left: past the end there is none, whatever the place.
fn step(reserved: u16, left: usize) -> usize
    ensures { result ≡ min (destination_size + reserved) left }
{
    (DESTINATION_SIZE + usize::from(reserved)).min(left)
}

impl<'a> Destinations<'a> {
    // The first destination and the others behind it. Each view reads its own parts, so each has its own step.
    #[tactic(auto, using(crate::proofs::Sets::destination_steps))]
    pub fn split_first(&self) -> Option<(Destination, Destinations<'a>)>
        ensures parts { MatchOption result (destinations_in self.now ≡ []) (λ p. destinations_in self.now ≡ destination_in p.0 ∷ destinations_in p.1) }
        ensures count { IfSome result (λ p. p.1.count + 1 ≡ self.now.count) }
    {
        let left = self.datagram.len().saturating_sub(self.place);
        if self.count == 0 || left < DESTINATION_SIZE {
            return None;
        }
        let first = destination_at(self.datagram, self.place);
        let rest = Destinations {
            datagram: self.datagram,
            place: self.place + step(self.reserved, left),
            count: self.count - 1,
            reserved: self.reserved,
        };
        Some((first, rest))
    }

    // The destination n, counted from 0. One line for each view: its contract names the view's own list.
    pub fn get(&self, n: u16) -> Option<Destination>
        ensures value { option_map destination_in result ≡ slice_get (destinations_in self.now) n }
    {
        let mut left = *self;
        left.nth(n.into())
    }
}

// An `impl` is of one type, so each view has its own.
impl Iterator for Destinations<'_> {
    type Item = Destination;

    ghost next_gives = { YieldsFirstBy destination_in destinations_in };

    ghost remaining = { item_count destinations_in };

    fn next(&mut self) -> Option<Destination> {
        let (first, behind) = self.split_first()?;
        *self = behind;
        Some(first)
    }
}
