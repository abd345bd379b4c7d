// Worked cases of the rules.
ghost use Rattle.std.specs.Prelude.{◌≡◌};
ghost use Rattle.rules.specs.Cases.{Edges, example_waits, left_after_again, left_after_ring};
ghost use Rattle.rules.specs.Slips.{CompleteStays, RecordsStay, AboveLastStays};
ghost use Rattle.pdu.specs.Examples.{example_checksums};

use pdu::example_checksums;

pub struct Worked {
    // of a Discard, Data with "Hi", Data with "H", an Address and an ACK
    pub checksums: [u16; 5],
    // what the list 1, 1 leaves missing of 2, and the list 3, 5, 3 of 6
    pub after_again: [u16; 1],
    pub after_ring: [u16; 2],
    // how a wait grows
    pub waits: [u32; 8],
}

fn growing_waits() -> [u32; 8]
    ensures { result ≡ example_waits }
{
    [
        8_000, 12_000, 18_000, 27_000, 40_500, 60_750, 91_125, 136_687,
    ]
}

// The worked cases under the definitions, with their edges; and that the slips which this protocol invites cannot happen: an
// older list does not take "complete" back, no Address drops a record, a rising list says nothing of what is above its last number.
pub fn worked_cases() -> Worked
    ensures checksums { result.checksums ≡ example_checksums }
    ensures again { result.after_again ≡ left_after_again }
    ensures ring { result.after_ring ≡ left_after_ring }
    ensures waits { result.waits ≡ example_waits }
    ensures edges { Edges }
    ensures complete { CompleteStays }
    ensures records { RecordsStay }
    ensures above { AboveLastStays }
{
    Worked {
        checksums: example_checksums(),
        after_again: [1],
        after_ring: [3, 5],
        waits: growing_waits(),
    }
}
