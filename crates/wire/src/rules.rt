// The rules that fields keep, as they are read and written.
ghost use Rattle.std.specs.Prelude.{◌≡◌, ℕ, ◌+◌, ◌*◌, ◌^◌, ◌<◌, cond, List, Ok, Err};
ghost use Rattle.std.specs.Iterator.{AlwaysYields, IsFinite, size};
ghost use Rattle.std.specs.Option.{option_map_or};
ghost use Rattle.pdu.specs.Read.{numbers_broken, unrisen};
ghost use Rattle.pdu.specs.Said;
ghost use Rattle.wire.specs.Views.{destination_in};

use crate::fault::WireFault;
use crate::views::Destination;
use protocol::is_number;

// Refusal 5 with a place, unless its rule is kept.
pub(crate) fn rule(kept: bool, place: usize) -> Result<(), WireFault>
    ensures { result ≡ cond kept (Ok tt) (Err (WireFault.Field place)) }
{
    if kept {
        return Ok(());
    }
    Err(WireFault::Field { place })
}

// Refusal 5 with the broken place, if there is one.
pub(crate) fn unbroken(broken: Option<usize>) -> Result<(), WireFault>
    ensures { result ≡ option_map_or (λ place. Err (WireFault.Field place)) broken (Ok tt) }
{
    broken.map_or(Ok(()), |place| Err(WireFault::Field { place }))
}

// The place of the first number that is none; the first of them stands at a place.
pub(crate) fn first_broken<I: Iterator<Item = u16>>(mut numbers: I, place: usize) -> Option<usize>
    requires can { I.can_next numbers }
    requires ends { IsFinite (I.remaining numbers) }
    requires fits { place + 2 * size (I.remaining numbers) < 2 ^ 64 }
    ensures { (ns : List ℕ) → AlwaysYields I.next_gives (λ n. n) numbers ns → result ≡ numbers_broken place ns }
{
    let k = numbers.position(|number| !is_number(number))?;
    Some(place + 2 * k)
}

// The place of the first destination that is not above the one before it.
pub(crate) fn first_unrisen<I: Iterator<Item = Destination>>(destinations: I) -> Option<usize>
    requires can { I.can_next destinations }
    requires ends { IsFinite (I.remaining destinations) }
    ensures { (ds : List Said.Destination) → AlwaysYields I.next_gives destination_in destinations ds → result ≡ unrisen ds }
{
    let mut before: Option<u32> = None;
    for d in destinations {
        if before.is_some_and(|least| d.destination <= least) {
            return Some(d.place);
        }
        before = Some(d.destination);
    }
    None
}
