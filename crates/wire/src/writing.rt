// Writing a PDU into a caller's buffer.
ghost use Rattle.std.specs.Prelude.{◌≡◌, ℕ, ◌≤◌, List, ◌++◌, length, take, drop, IfOk, None, Ok, Err, Option, Result};
ghost use Rattle.std.specs.Option.{option_map_or};
ghost use Rattle.pdu.specs.Write.{sent, counted, fronted};
ghost use Rattle.protocol.specs.Causes.{Cause};
ghost use Rattle.protocol.specs.Limits.{longest};
ghost use Rattle.wire.specs.Faults.{causes};

use crate::fault::WireFault;

// A PDU that can be written: what its writer answers for a buffer with so much room, and what reading the octets gives back.
pub trait Written {
    ghost answer: { Self → (room : ℕ) → Result (List ℕ) Cause };

    ghost back: { Self → List ℕ → Type 0 };

    // Writes the PDU to the front of `out`, and tells its length.
    fn write(&self, out: &mut [u8]) -> Result<usize, WireFault>
        ensures answer { causes result ≡ counted (answer self.now (length out.old)) }
        ensures buffer { out.new ≡ fronted (answer self.now (length out.old)) out.old }
        ensures back { IfOk result (λ n. back self.now (take n out.new)) };
}

// The parts of a writer: what it answers, which field would break its rule, the octets otherwise, and what reading them gives
// back.
pub(crate) trait Fields {
    ghost answer: { Self → (room : ℕ) → Result (List ℕ) Cause };

    ghost unfit: { Self → Option ℕ };

    ghost octets: { Self → List ℕ };

    ghost back: { Self → List ℕ → Type 0 };

    // Refusal 5 with the lowest place whose field would break its rule.
    fn check(&self) -> Result<(), WireFault>
        ensures { result ≡ option_map_or (λ place. Err (WireFault.Field place)) (unfit self.now) (Ok tt) };

    fn size(&self) -> usize
        requires { unfit self.now ≡ None }
        ensures value { result ≡ length (octets self.now) }
        ensures bound { result ≤ longest };

    // Writes the octets, which are so many, over the buffer's front.
    fn fill(&self, size: usize, out: &mut [u8])
        requires fit { unfit self.now ≡ None }
        requires size { size ≡ length (octets self.now) }
        requires bound { size ≤ longest }
        requires room { size ≤ length out.old }
        ensures after { out.new ≡ octets self.now ++ drop (length (octets self.now)) out.old }
        ensures back { back self.now (octets self.now) };

    ghost told: { (pdu : Self) (room : ℕ) → answer pdu room ≡ sent (unfit pdu) (octets pdu) room };
}

impl<P: Fields> Written for P {
    ghost answer = { P.Fields.answer };

    ghost back = { P.Fields.back };

    fn write(&self, out: &mut [u8]) -> Result<usize, WireFault> {
        self.check()?;
        let needed = self.size();
        if out.len() < needed {
            return Err(WireFault::Buffer { needed });
        }
        self.fill(needed, out);
        Ok(needed)
    }
}
