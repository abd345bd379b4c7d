// The words of a set of numbers: number n is bit (n - 1) % 64 of word (n - 1) / 64.
ghost use Rattle.std.specs.Prelude.{◌≡◌, ℕ, ◌+◌, ◌-◌, ◌*◌, ◌^◌, ◌<◌, ◌≤◌, min, not, ◌&&◌, length, if◌then◌else◌, nat_eq, nat_le, nat_lt};
ghost use Rattle.std.specs.Int.Count.{count_leading_zeros, count_trailing_zeros};
ghost use Rattle.bitmap.specs.Passing.{Next, greatest, tally};
ghost use Rattle.bitmap.specs.Words.{Fitted, holds, words_of};
ghost use Rattle.protocol.specs.Limits.{is_number, most_numbers, word_count};
ghost use Rattle.parts.specs.Numbers.{Holding, up_to};
ghost use Rattle.parts.specs.Joints.{Joins, JoinsBits};
ghost use Rattle.parts.specs.Joints.Joint.{And, AndNot, Or};

use protocol::{WORDS, is_number};
use std::array;
use std::ops::{BitAnd, BitOr, Sub};

// The bits of a word.
const BITS: u16 = 64;

// The words of a set, which operators join word by word. Each operator has its own line: a function over the three would take a
// closure and its law.
#[derive(Clone, Copy)]
pub(crate) struct Words(pub(crate) [u64; WORDS]);

// The numbers of both.
impl BitAnd for Words {
    type Output = Words;

    ghost bitand_gives = { λ a b r. Joins And a.0 b.0 r.0 };

    fn bitand(self, other: Words) -> Words {
        Words(array::from_fn(|i| self.0[i] & other.0[i]))
    }
}

// The numbers of either.
impl BitOr for Words {
    type Output = Words;

    ghost bitor_gives = { λ a b r. Joins Or a.0 b.0 r.0 };

    fn bitor(self, other: Words) -> Words {
        Words(array::from_fn(|i| self.0[i] | other.0[i]))
    }
}

// The numbers of the first that the second lacks.
impl Sub for Words {
    type Output = Words;

    ghost sub_gives = { λ a b r. Joins AndNot a.0 b.0 r.0 };

    fn sub(self, other: Words) -> Words {
        Words(array::from_fn(|i| lacking(self.0[i], other.0[i])))
    }
}

// The bits of one word that another lacks.
#[tactic(auto, using(crate::proofs::Bitwise::lacks))]
fn lacking(word: u64, other: u64) -> u64
    ensures bits { JoinsBits AndNot word other result }
{
    word & !other
}

// The word whose n lowest bits are set, all of them from 64 on.
fn low_bits(n: u16) -> u64
    ensures value { result ≡ 2 ^ min n 64 - 1 }
{
    if n >= BITS {
        return u64::MAX;
    }
    (1 << n) - 1
}

// The place of the highest set bit of a word, from 1 on, and 0 if there is none.
fn high(word: u64) -> u16
    ensures value { result ≡ 64 - count_leading_zeros 64 word }
{
    BITS - word.leading_zeros() as u16
}

// The place of the lowest set bit of a word, from 1 on.
fn low(word: u64) -> u16
    ensures value { result ≡ 1 + count_trailing_zeros 64 word }
    ensures small { result ≤ 65 }
{
    1 + word.trailing_zeros() as u16
}

impl Words {
    // The numbers 1 to total.
    pub(crate) fn up_to(total: u16) -> Words
        ensures value { result.0 ≡ words_of (up_to total) word_count }
        ensures holds { Holding (up_to total) result.0 }
    {
        Words(array::from_fn(|i| low_bits(total.saturating_sub(i as u16 * BITS))))
    }

    // The numbers above a and below b.
    pub(crate) fn between(a: u16, b: u16) -> Words
        ensures value { result.0 ≡ words_of (λ k. nat_lt a k && nat_lt k b) word_count }
    {
        Words::up_to(b.saturating_sub(1)) - Words::up_to(a)
    }

    // Whether they hold n.
    #[tactic(auto, using(bitmap::proofs::Words::holds_at, crate::proofs::Sets::number_bounds))]
    pub(crate) fn contains(&self, n: u16) -> bool
        ensures value { result ≡ (is_number n && holds self.now.0 n) }
    {
        if !is_number(n) {
            return false;
        }
        let k = n - 1;
        (self.0[(k / BITS) as usize] >> (k % BITS)) % 2 == 1
    }

    // These words with number n turned over: put in if it was out, and taken out if it was in.
    pub(crate) fn turned(&self, n: u16) -> Words
        requires low { 0 < n }
        requires high { n ≤ most_numbers }
        requires fits { Fitted self.now.0 }
        ensures long { length result.0 ≡ word_count }
        ensures fits { Fitted result.0 }
        ensures turns { (m : ℕ) → holds result.0 m ≡ (if nat_eq m n then not (holds self.now.0 m) else holds self.now.0 m) }
    {
        let k = n - 1;
        let mut words = self.0;
        words[(k / BITS) as usize] ^= 1 << (k % BITS);
        Words(words)
    }

    // How many numbers they hold.
    pub(crate) fn count(&self) -> u16
        ensures count { result ≡ tally (holds self.now.0) most_numbers }
        ensures fits { Fitted self.now.0 }
    {
        let mut seen = 0;
        for word in self.0.iter() {
            seen += word.count_ones() as u16;
        }
        seen
    }

    // The greatest number, and 0 if there is none.
    pub(crate) fn top(&self) -> u16
        ensures value { result ≡ greatest (holds self.now.0) most_numbers }
    {
        let Some(i) = self.0.iter().rposition(|w| *w != 0) else {
            return 0;
        };
        i as u16 * BITS + high(self.0[i])
    }

    // The lowest number of the words from one on.
    fn lowest_from(&self, first: usize) -> Option<u16>
        requires within { first ≤ word_count }
        ensures next { Next (holds self.now.0) (64 * first + 1) result }
    {
        let i = first + self.0[first..].iter().position(|w| *w != 0)?;
        Some(i as u16 * BITS + low(self.0[i]))
    }

    // The lowest number above k.
    pub(crate) fn above(self, k: u16) -> Option<u16>
        ensures next { Next (holds self.0) (k + 1) result }
    {
        let first = (k / BITS) as usize;
        let part = *self.0.get(first)? >> (k % BITS);
        if part != 0 {
            return Some(k + low(part));
        }
        self.lowest_from(first + 1)
    }
}
