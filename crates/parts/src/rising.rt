// Walks over the numbers of a set, rising.
ghost use Rattle.std.specs.Prelude.{◌≡◌, ◌++◌, drop, length, min, take};
ghost use Rattle.std.specs.Iterator.{YieldsFirst, item_count};
ghost use Rattle.parts.specs.Numbers.{rising};
ghost use Rattle.parts.specs.Rising.{left};

use crate::number_set::NumberSet;

// What a walk has left: the numbers of its set from one on.
#[derive(Clone, Drop)]
pub struct Rising {
    set: NumberSet,
    from: u16,
}

impl Iterator for Rising {
    type Item = u16;

    ghost next_gives = { YieldsFirst left };

    ghost remaining = { item_count left };

    #[tactic(auto, using(crate::proofs::Walks::walks))]
    fn next(&mut self) -> Option<u16> {
        let n = self.set.next_from(self.from)?;
        self.from = n + 1;
        Some(n)
    }
}

impl NumberSet {
    // The numbers of the set, rising.
    pub fn iter(&self) -> Rising
        ensures items { left result ≡ rising self.now.numbers }
    {
        Rising {
            set: *self,
            from: 1,
        }
    }

    // Writes the lowest numbers of the set to the front of out, rising, as many as there are and it takes; tells how many,
    // which is why it counts along.
    #[tactic(auto, using(crate::proofs::Walks::rising_count))]
    pub fn lowest(&self, out: &mut [u16]) -> usize
        ensures count { result ≡ min (length out.old) self.now.numbers.count }
        ensures written { out.new ≡ take result (rising self.now.numbers) ++ drop result out.old }
    {
        let mut rest = self.iter();
        for (i, slot) in out.iter_mut().enumerate() {
            let Some(n) = rest.next() else {
                return i;
            };
            *slot = n;
        }
        out.len()
    }
}
