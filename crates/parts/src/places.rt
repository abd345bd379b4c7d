// The first of a list that passes a test, alike for any kind of record and any test.
ghost use Rattle.std.specs.Prelude.{◌≡◌, Bool, position};
ghost use Rattle.parts.specs.Places.{first_place};

// A test of records: a trait, since a closure would ask its caller to show that it may be called.
pub trait Passes<T> {
    ghost test: { Self → T → Bool };

    fn passes(&self, item: &T) -> bool
        ensures value { result ≡ test self.now item.now };
}

// The place of the first that passes, in std's word for it. It stands apart so that the check finds each half alone.
fn position_of<T, Q: Passes<T>>(test: &Q, items: &[T]) -> Option<usize>
    ensures place { result ≡ position (Q.Passes.test test.now) items.now }
{
    items.iter().position(|item| test.passes(item))
}

// The place of the first that passes.
#[tactic(auto, using(crate::proofs::Firsts::first_position))]
pub fn first_place<T, Q: Passes<T>>(test: &Q, items: &[T]) -> Option<usize>
    ensures place { result ≡ first_place (Q.Passes.test test.now) items.now }
{
    position_of(test, items)
}
