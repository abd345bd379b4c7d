// Sets of the numbers 1 to NUMBERS, with their true count and their top.
ghost use Rattle.std.specs.Prelude.{◌≡◌, ℕ, ◌+◌, ◌-◌, ◌<◌, ◌≤◌, min, max, Bool, true, false, not, ◌&&◌, ◌++◌, length, take, drop, IfSome, if◌then◌else◌, MatchBool, MatchOption, ◌==◌, ◌≢◌, nat_eq};
ghost use Rattle.bitmap.specs.Passing.{Next, Top, greatest, tally};
ghost use Rattle.bitmap.specs.Words.{holds};
ghost use Rattle.protocol.specs.Limits.{is_number, most_numbers};
ghost use Rattle.parts.specs.Numbers.{IsSetOf, Sound, common, excluding, has, including, lacking, next_from, none, rising, set_of, united, up_to, within, without};

use crate::numbers::Numbers;
use crate::words::Words;
use protocol::is_number;

// A set of fragment numbers whose words, count and top are those of its numbers.
#[derive(Clone, Copy, PartialEq, Eq, Debug)]
pub struct NumberSet {
    numbers: Numbers,
    ghost sound: { Sound numbers },
    ghost counted: { numbers.count ≡ tally (has numbers) most_numbers },
    ghost topped: { numbers.top ≡ greatest (has numbers) most_numbers },
    ghost highest: { Top (has numbers) numbers.top },
    ghost gaps: { numbers.count + tally (λ k. not (has numbers k)) numbers.top ≡ numbers.top },
}

// The set that the words hold.
fn set_of(words: Words) -> NumberSet
    ensures words { result.numbers.words ≡ words.0 }
    ensures set { IsSetOf (λ k. is_number k && holds words.0 k) result.numbers }
{
    let count = words.count();
    let top = words.top();
    let Words(words) = words;
    NumberSet {
        numbers: Numbers { words, count, top },
    }
}

// The top of a set without its number n, the words being those that are left.
fn top_without(numbers: &Numbers, words: &Words, n: u16) -> u16
    ensures value { result ≡ (if nat_eq n numbers.now.top then greatest (holds words.now.0) most_numbers else numbers.now.top) }
{
    if n == numbers.top {
        words.top()
    } else {
        numbers.top
    }
}

// The set of a plain one's numbers. Where count or top are not those of its words, they are counted anew.
impl From<Numbers> for NumberSet {
    ghost from_gives = { λ plain set. IsSetOf (has plain) set.numbers };

    #[tactic(auto, unfolding(crate::specs::Numbers::has))]
    fn from(numbers: Numbers) -> NumberSet {
        set_of(Words(numbers.words))
    }
}

// The set as it lies in a table.
impl From<NumberSet> for Numbers {
    ghost from_gives = { λ set plain. (plain ≡ set.numbers) × Sound plain };

    fn from(set: NumberSet) -> Numbers {
        set.numbers
    }
}

impl NumberSet {
    fn words(&self) -> Words
        ensures value { result.0 ≡ self.now.numbers.words }
    {
        Words(self.numbers.words)
    }

    // The set that a plain one stands for, if its words, count and top agree.
    pub fn checked(numbers: Numbers) -> Option<NumberSet>
        ensures answer { MatchOption result (Sound numbers → ⊥) (λ s. (s.numbers ≡ numbers) × Sound numbers) }
    {
        let set = NumberSet::from(numbers);
        (set.numbers == numbers).then_some(set)
    }

    pub fn empty() -> NumberSet
        ensures set { IsSetOf none result.numbers }
        ensures count { result.numbers.count ≡ 0 }
        ensures top { result.numbers.top ≡ 0 }
    {
        NumberSet::full(0)
    }

    // The set of 1 to total, which is taken as NUMBERS if it is above that.
    #[tactic(auto, using(crate::proofs::Made::up_to_set, bitmap::proofs::Counts::tally_up_to, bitmap::proofs::Counts::greatest_up_to))]
    pub fn full(total: u16) -> NumberSet
        ensures set { IsSetOf (up_to total) result.numbers }
        ensures count { result.numbers.count ≡ min total most_numbers }
        ensures top { result.numbers.top ≡ min total most_numbers }
    {
        set_of(Words::up_to(total))
    }

    #[tactic(auto, unfolding(crate::specs::Numbers::has))]
    pub fn contains(&self, n: u16) -> bool
        ensures value { result ≡ has self.now.numbers n }
    {
        self.words().contains(n)
    }

    // How many numbers are in the set.
    pub fn count(&self) -> u16
        ensures value { result ≡ self.now.numbers.count }
        ensures tallied { result ≡ tally (has self.now.numbers) most_numbers }
    {
        self.numbers.count
    }

    // The greatest number of the set, 0 if it is empty.
    pub fn top(&self) -> u16
        ensures value { result ≡ self.now.numbers.top }
        ensures greatest { result ≡ greatest (has self.now.numbers) most_numbers }
        ensures stands { Top (has self.now.numbers) result }
    {
        self.numbers.top
    }

    // How many numbers below the top the set lacks.
    pub fn missing_below_top(&self) -> u16
        ensures value { result ≡ self.now.numbers.top - self.now.numbers.count }
        ensures tallied { result ≡ tally (λ k. not (has self.now.numbers k)) self.now.numbers.top }
    {
        self.top() - self.count()
    }

    // Whether n is a number that the set lacks.
    fn lacks(&self, n: u16) -> bool
        ensures value { result ≡ (is_number n && not (has self.now.numbers n)) }
    {
        is_number(n) && !self.contains(n)
    }

    // The set with n in it; an n that is no number leaves it as it is.
    #[tactic(auto, using(crate::proofs::Changes::with_top, crate::proofs::Sets::number_bounds, crate::proofs::Sets::sound_fits, crate::proofs::Sets::sound_count, bitmap::proofs::Counts::tally_le))]
    pub fn with(self, n: u16) -> NumberSet
        ensures set { IsSetOf (including self.numbers n) result.numbers }
        ensures count { result.numbers.count ≡ (if is_number n && not (has self.numbers n) then self.numbers.count + 1 else self.numbers.count) }
        ensures top { result.numbers.top ≡ (if is_number n then max self.numbers.top n else self.numbers.top) }
    {
        if !self.lacks(n) {
            return self;
        }
        let words = self.words().turned(n).0;
        let count = self.numbers.count + 1;
        let top = self.numbers.top.max(n);
        NumberSet {
            numbers: Numbers { words, count, top },
        }
    }

    // The set without n.
    #[tactic(auto, using(crate::proofs::Changes::without_held, crate::proofs::Changes::without_top, crate::proofs::Changes::without_some, crate::proofs::Sets::has_bounds, crate::proofs::Sets::sound_fits))]
    pub fn without(self, n: u16) -> NumberSet
        ensures set { IsSetOf (excluding self.numbers n) result.numbers }
        ensures count { result.numbers.count ≡ (if has self.numbers n then self.numbers.count - 1 else self.numbers.count) }
        ensures top { result.numbers.top ≡ (if nat_eq n self.numbers.top then greatest (has self.numbers) (n - 1) else self.numbers.top) }
    {
        if !self.contains(n) {
            return self;
        }
        let left = self.words().turned(n);
        let top = top_without(&self.numbers, &left, n);
        let count = self.numbers.count - 1;
        let words = left.0;
        NumberSet {
            numbers: Numbers { words, count, top },
        }
    }

    // The numbers of both sets.
    #[tactic(auto, using(crate::proofs::Made::common_set))]
    pub fn and(self, other: NumberSet) -> NumberSet
        ensures set { IsSetOf (common self.numbers other.numbers) result.numbers }
    {
        set_of(self.words() & other.words())
    }

    // The numbers of either set.
    #[tactic(auto, using(crate::proofs::Made::united_set))]
    pub fn or(self, other: NumberSet) -> NumberSet
        ensures set { IsSetOf (united self.numbers other.numbers) result.numbers }
    {
        set_of(self.words() | other.words())
    }

    // The numbers of this set that the other lacks.
    #[tactic(auto, using(crate::proofs::Made::without_set))]
    pub fn and_not(self, other: NumberSet) -> NumberSet
        ensures set { IsSetOf (without self.numbers other.numbers) result.numbers }
    {
        set_of(self.words() - other.words())
    }

    // The numbers of 1 to total that the set lacks.
    #[tactic(auto, using(crate::proofs::Made::lacking_set))]
    pub fn complement_to(self, total: u16) -> NumberSet
        ensures set { IsSetOf (lacking self.numbers total) result.numbers }
    {
        set_of(Words::up_to(total) - self.words())
    }

    // The numbers of the set above a and below b.
    #[tactic(auto, using(crate::proofs::Made::within_set))]
    pub fn between(self, a: u16, b: u16) -> NumberSet
        ensures set { IsSetOf (within self.numbers a b) result.numbers }
    {
        set_of(self.words() & Words::between(a, b))
    }

    // The lowest number of the set from n on.
    pub fn next_from(&self, n: u16) -> Option<u16>
        ensures value { result ≡ next_from self.now.numbers n }
        ensures stands { Next (has self.now.numbers) n result }
        ensures number { IfSome result (λ m. (0 < m) × (m ≤ most_numbers)) }
    {
        self.words().above(n.saturating_sub(1))
    }

    // Whether some number of the set lies above a and below b.
    pub fn any_between(&self, a: u16, b: u16) -> bool
        ensures value { MatchBool result ((k : ℕ) × (a < k) × (k < b) × (has self.now.numbers k ≡ true)) ((k : ℕ) → a < k → k < b → has self.now.numbers k ≡ false) }
    {
        a < b && self.next_from(a + 1).is_some_and(|n| n < b)
    }

    // Whether two sets have the same numbers: `==`, told with what it means.
    #[tactic(auto, using(crate::proofs::Sets::sound_same))]
    pub fn same(&self, other: &NumberSet) -> bool
        ensures alike { ((k : ℕ) → 0 < k → k ≤ most_numbers → has self.now.numbers k ≡ has other.now.numbers k) → self.now.numbers ≡ other.now.numbers }
        ensures value { MatchBool result (self.now.numbers ≡ other.now.numbers) (self.now.numbers ≢ other.now.numbers) }
    {
        self == other
    }
}
