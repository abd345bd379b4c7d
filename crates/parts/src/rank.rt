// The foremost of what waits, chosen alike for any kind of record that has a rank.
ghost use Rattle.std.specs.Prelude.{◌≡◌, Bool, true, false, ◌&&◌, length};
ghost use Rattle.parts.specs.Foremost.{Foremost, foremost_of};

// A record that may wait, and that ranks with others of its kind. The laws say that the rank is a total preorder: of two records at most
// one is ahead of the other, and where a record is not ahead of a second nor that of a third, it is not ahead of the third.
pub trait Rank {
    ghost waiting: { Self → Bool };

    ghost ahead: { Self → Self → Bool };

    fn waits(&self) -> bool
        ensures value { result ≡ waiting self.now };

    fn before(&self, other: &Self) -> bool
        ensures value { result ≡ ahead self.now other.now };

    ghost oneway: { (x y : Self) → ahead x y ≡ true → ahead y x ≡ false };

    ghost chain: { (x y z : Self) → ahead x y ≡ false → ahead y z ≡ false → ahead x z ≡ false };
}

// The place of the foremost of what waits: nothing that waits is ahead of it, and it is the first such. It counts along, since a
// place is what it tells.
pub fn foremost<T: Rank>(items: &[T]) -> Option<usize>
    ensures place { result ≡ foremost_of T.Rank.waiting T.Rank.ahead items.now }
    ensures stands { Foremost T.Rank.waiting T.Rank.ahead items.now (length items.now) result }
{
    let mut best = None;
    for (i, x) in items.iter().enumerate() {
        if x.waits() && best.is_none_or(|b: usize| x.before(&items[b])) {
            best = Some(i);
        }
    }
    best
}
