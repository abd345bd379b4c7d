// Writing ACKs of one entry.
ghost use Rattle.std.specs.Prelude.{◌≡◌, ◌+◌, ◌≤◌, length, Ok, refl};
ghost use Rattle.pdu.specs.declared.Accepts.TheVariants.{Sender};
ghost use Rattle.pdu.specs.Read.{numbers_broken, read_of};
ghost use Rattle.pdu.specs.Said.{said_ack};
ghost use Rattle.pdu.specs.Types.{ack_head, entry_head, longest_list};
ghost use Rattle.pdu.specs.Write.{ack_unfit};
ghost use Rattle.wire.specs.Written.{ack_sent, octets_of_ack, new_ack_in};

use crate::entries::{ACK_COUNT, ENTRY_HEAD};
use crate::fault::WireFault;
use crate::kind::Kind;
use crate::pdus::NewAck;
use crate::put::{put, put_all, put_head, seal};
use crate::reading::ACK_HEAD;
use crate::rules::{first_broken, rule, unbroken};
use crate::writing::Fields;
use protocol::LONGEST;

// The numbers of the one entry stand here, and so many fit into the longest datagram.
const NUMBERS_AT: usize = ACK_HEAD + ENTRY_HEAD;

const LONGEST_LIST: usize = (LONGEST - NUMBERS_AT) / 2;

// The place of the first number that is none.
fn broken_place(numbers: &[u16]) -> Option<usize>
    requires { length numbers.now ≤ longest_list }
    ensures { result ≡ numbers_broken (ack_head + entry_head) numbers.now }
{
    first_broken(numbers.iter().copied(), NUMBERS_AT)
}

impl Fields for NewAck<'_> {
    ghost answer = { ack_sent };

    ghost unfit = { λ a. ack_unfit a.numbers.now };

    ghost octets = { octets_of_ack };

    ghost back = { λ a xs. read_of Sender xs ≡ Ok (said_ack (new_ack_in a)) };

    fn check(&self) -> Result<(), WireFault> {
        rule(self.numbers.len() <= LONGEST_LIST, 0)?;
        unbroken(broken_place(self.numbers))
    }

    #[tactic(auto, using(crate::proofs::Sets::sizes))]
    fn size(&self) -> usize {
        NUMBERS_AT + 2 * self.numbers.len()
    }

    fn fill(&self, size: usize, out: &mut [u8]) {
        put_head(out, size as u16, self.priority, Kind::Ack, 0);
        put(out, 8, &self.sender);
        put(out, ACK_COUNT, &1u16);
        put(
            out,
            ACK_HEAD,
            &((ENTRY_HEAD + 2 * self.numbers.len()) as u16),
        );
        put(out, 16, &self.source);
        put(out, 20, &self.message);
        put_all(out, NUMBERS_AT, self.numbers);
        seal(out, size);
    }

    ghost told = { λ pdu room. refl };
}
