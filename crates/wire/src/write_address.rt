// Writing Addresses.
ghost use Rattle.std.specs.Prelude.{◌≡◌, ◌≤◌, length, Ok, refl};
ghost use Rattle.pdu.specs.declared.Accepts.TheVariants.{Receiver};
ghost use Rattle.pdu.specs.Read.{read_of, unrisen};
ghost use Rattle.pdu.specs.Said.{said_address};
ghost use Rattle.pdu.specs.Types.{address_head, most_destinations};
ghost use Rattle.pdu.specs.Write.{address_unfit, placed};
ghost use Rattle.wire.specs.Written.{address_sent, pairs_of, octets_of_address, new_address_in};

use crate::destinations::DESTINATION_SIZE;
use crate::fault::WireFault;
use crate::kind::Kind;
use crate::pdus::{Addressee, NewAddress};
use crate::put::{put, put_all, put_head, seal};
use crate::reading::ADDRESS_HEAD;
use crate::rules::{first_unrisen, rule, unbroken};
use crate::views::Destination;
use crate::writing::Fields;
use protocol::{LONGEST, is_number};

// So many destinations fit into the longest datagram.
const MOST_DESTINATIONS: usize = (LONGEST - ADDRESS_HEAD) / DESTINATION_SIZE;

// The place of the first destination that is not above the one before it.
fn unrisen_place(destinations: &[Addressee]) -> Option<usize>
    requires { length destinations.now ≤ most_destinations }
    ensures { result ≡ unrisen (placed address_head (pairs_of destinations.now)) }
{
    first_unrisen(
        destinations.iter().enumerate().map(|(i, d)| Destination {
            place: ADDRESS_HEAD + DESTINATION_SIZE * i,
            destination: d.destination,
            sequence: d.sequence,
        }),
    )
}

impl Fields for NewAddress<'_> {
    ghost answer = { address_sent };

    ghost unfit = { λ a. address_unfit a.total (pairs_of a.destinations.now) };

    ghost octets = { octets_of_address };

    ghost back = { λ a xs. read_of Receiver xs ≡ Ok (said_address (new_address_in a)) };

    fn check(&self) -> Result<(), WireFault> {
        rule(self.destinations.len() <= MOST_DESTINATIONS, 0)?;
        rule(is_number(self.total), 4)?;
        unbroken(unrisen_place(self.destinations))
    }

    #[tactic(auto, using(crate::proofs::Sets::sizes))]
    fn size(&self) -> usize {
        ADDRESS_HEAD + DESTINATION_SIZE * self.destinations.len()
    }

    fn fill(&self, size: usize, out: &mut [u8]) {
        put_head(out, size as u16, self.priority, Kind::Address, self.total);
        put(out, 8, &self.source);
        put(out, 12, &self.message);
        put(out, 16, &self.expiry);
        put(out, 20, &(self.destinations.len() as u16));
        put(out, 22, &0u16);
        put_all(out, ADDRESS_HEAD, self.destinations);
        seal(out, size);
    }

    ghost told = { λ pdu room. refl };
}
