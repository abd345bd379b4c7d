// Writing Data PDUs and Discards.
ghost use Rattle.std.specs.Prelude.{◌≡◌, None, Ok, refl};
ghost use Rattle.pdu.specs.declared.Accepts.TheVariants.{Receiver};
ghost use Rattle.pdu.specs.Read.{read_of};
ghost use Rattle.pdu.specs.Said.{said_data, said_discard};
ghost use Rattle.pdu.specs.Write.{data_unfit};
ghost use Rattle.wire.specs.Views.{data_in, discard_in};
ghost use Rattle.wire.specs.Written.{data_sent, discard_sent, octets_of_data, octets_of_discard};

use crate::fault::WireFault;
use crate::kind::Kind;
use crate::pdus::{Data, Discard};
use crate::put::{put, put_head, put_octets, seal};
use crate::rules::rule;
use crate::writing::Fields;
use protocol::{LONGEST, SHORTEST, is_number};

impl Fields for Data<'_> {
    ghost answer = { data_sent };

    ghost unfit = { λ d. data_unfit d.number d.fragment.now };

    ghost octets = { octets_of_data };

    ghost back = { λ d xs. read_of Receiver xs ≡ Ok (said_data (data_in d)) };

    fn check(&self) -> Result<(), WireFault> {
        rule(self.fragment.len() <= LONGEST - SHORTEST, 0)?;
        rule(is_number(self.number), 4)
    }

    fn size(&self) -> usize {
        SHORTEST + self.fragment.len()
    }

    fn fill(&self, size: usize, out: &mut [u8]) {
        put_head(out, size as u16, self.priority, Kind::Data, self.number);
        put(out, 8, &self.source);
        put(out, 12, &self.message);
        put_octets(out, 16, self.fragment);
        seal(out, size);
    }

    ghost told = { λ pdu room. refl };
}

impl Fields for Discard {
    ghost answer = { discard_sent };

    ghost unfit = { λ _. None };

    ghost octets = { octets_of_discard };

    ghost back = { λ d xs. read_of Receiver xs ≡ Ok (said_discard (discard_in d)) };

    fn check(&self) -> Result<(), WireFault> {
        Ok(())
    }

    fn size(&self) -> usize {
        SHORTEST
    }

    fn fill(&self, size: usize, out: &mut [u8]) {
        put_head(out, size as u16, self.priority, Kind::Discard, 0);
        put(out, 8, &self.source);
        put(out, 12, &self.message);
        seal(out, size);
    }

    ghost told = { λ pdu room. refl };
}
