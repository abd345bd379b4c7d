// What the making of any store needs.
ghost use Rattle.std.specs.Prelude.{◌≡◌, ◌&&◌, if◌then◌else◌, MatchResult, Ok, Err, Some};
ghost use Rattle.contents.specs.Answers.{making_cause};
ghost use Rattle.contents.specs.Contents.{limit_fits, width_fits};
ghost use Rattle.store.specs.Faults.{causes};

use crate::fault::StoreFault;
use protocol::{LEAST_WIDTH, MOST_STRINGS, MOST_WIDTH};

// Refuses a width that no store has, then a limit that none has.
// Over this `new` of each store is two lines, and each allocates its own parts: one for both would take as many, and a closure.
pub(crate) fn check_sizes(width: u16, limit: u16) -> Result<(), StoreFault>
    ensures answer { causes result ≡ (if width_fits width && limit_fits limit then Ok tt else Err (making_cause width limit)) }
{
    if !(LEAST_WIDTH..=MOST_WIDTH).contains(&width) {
        return Err(StoreFault::Size { value: width });
    }
    if !(1..=MOST_STRINGS).contains(&limit) {
        return Err(StoreFault::Size { value: limit });
    }
    Ok(())
}

// Puts what was made in a place. A refusal leaves the place as it was.
pub(crate) fn fill<S: Drop>(
    place: &mut Option<S>,
    made: Result<S, StoreFault>,
) -> Result<(), StoreFault>
    ensures answer { MatchResult made (λ s. (result ≡ Ok tt) × (place.new ≡ Some s)) (λ e. (result ≡ Err e) × (place.new ≡ place.old)) }
{
    *place = Some(made?);
    Ok(())
}
