// Going through the entries of an ACK, and through the numbers of an entry.
ghost use Rattle.std.specs.Prelude.{◌≡◌, ◌+◌, ◌-◌, ◌*◌, ◌^◌, ◌<◌, ◌≤◌, [], ◌∷◌, length, take, drop, IfSome, IfOk, MatchOption};
ghost use Rattle.std.specs.Iterator.{YieldsFirst, YieldsFirstBy, item_count};
ghost use Rattle.std.specs.Option.{option_map};
ghost use Rattle.std.specs.List.{slice_get};
ghost use Rattle.pdu.specs.Octets.{word, quad, words_of};
ghost use Rattle.pdu.specs.Read.{is_entry_length, entry_broken, lower};
ghost use Rattle.pdu.specs.Types.{entry_head};
ghost use Rattle.wire.specs.Views.{entry_in, entries_in, entry_broken_in, broken_in, numbers_in, place_of};

use crate::fields::{quad_at, word_at};
use crate::rules::first_broken;
use crate::views::{Entries, Entry, Numbers};

// So many octets of an entry stand before its numbers.
pub(crate) const ENTRY_HEAD: usize = 10;

// The place of an ACK's count of entries.
pub(crate) const ACK_COUNT: usize = 12;

// What stands behind the last entry has so many octets, if anything does.
const TIME_OPTION: usize = 8;

// The lower of two places.
fn lower_of(a: Option<usize>, b: Option<usize>) -> Option<usize>
    ensures { result ≡ lower a b }
{
    a.into_iter().chain(b).min()
}

// An entry's length is 10 and twice the count of its numbers.
fn is_entry_length(length: usize) -> bool
    ensures { result ≡ is_entry_length length }
{
    length >= ENTRY_HEAD && length % 2 == 0
}

// The length of the entry at a place of a datagram, or the place that is broken if none stands there: a place and no refusal yet,
// since the lowest of several is told.
#[tactic(auto, using(crate::proofs::Sets::entry_cases))]
fn entry_length(datagram: &[u8], place: usize) -> Result<usize, usize>
    ensures broken { entry_broken place (drop place datagram.now) ≡ place_of result }
    ensures within { IfOk result (λ l. (l ≡ word datagram.now place) × (entry_head ≤ l) × (place + l ≤ length datagram.now)) }
{
    let left = datagram.len().saturating_sub(place);
    if left < ENTRY_HEAD {
        return Err(ACK_COUNT);
    }
    let length = usize::from(word_at(datagram, place));
    if !is_entry_length(length) {
        return Err(place);
    }
    if left < length {
        return Err(ACK_COUNT);
    }
    Ok(length)
}

// The entry of a length at a place of a datagram.
#[tactic(auto, using(crate::proofs::Words::words_in_chunks))]
fn entry_at(datagram: &[u8], place: usize, size: usize) -> Entry<'_>
    requires { (entry_head ≤ size) × (place + size ≤ length datagram.now) }
    ensures place { result.place ≡ place }
    ensures source { result.source ≡ quad datagram.now (place + 2) }
    ensures message { result.message ≡ quad datagram.now (place + 6) }
    ensures numbers { numbers_in result.numbers ≡ words_of (take (size - entry_head) (drop (place + entry_head) datagram.now)) }
    ensures count { entry_head + 2 * length result.numbers.octets.now ≤ size }
{
    let (octets, _) = datagram[place + ENTRY_HEAD..place + size].as_chunks();
    Entry {
        place,
        source: quad_at(datagram, place + 2),
        message: quad_at(datagram, place + 6),
        numbers: Numbers { octets },
    }
}

impl<'a> Entries<'a> {
    // The first entry and the others behind it. Each view reads its own parts, so each has its own step.
    pub fn split_first(&self) -> Option<(Entry<'a>, Entries<'a>)>
        ensures parts { MatchOption result (entries_in self.now ≡ []) (λ p. entries_in self.now ≡ entry_in p.0 ∷ entries_in p.1) }
        ensures count { IfSome result (λ p. p.1.count + 1 ≡ self.now.count) }
        ensures broken { IfSome result (λ p. broken_in self.now ≡ lower (entry_broken_in p.0) (broken_in p.1)) }
        ensures within { IfSome result (λ p. p.0.place + entry_head + 2 * length p.0.numbers.octets.now < 2 ^ 64) }
    {
        if self.count == 0 {
            return None;
        }
        let Ok(length) = entry_length(self.datagram, self.place) else {
            return None;
        };
        let first = entry_at(self.datagram, self.place, length);
        let rest = Entries {
            datagram: self.datagram,
            place: self.place + length,
            count: self.count - 1,
        };
        Some((first, rest))
    }

    // Where no entry is left, the broken place, if there is one. Behind the last entry nothing stands, or a Time_Option.
    fn end_broken(&self) -> Option<usize>
        requires { entries_in self.now ≡ [] }
        ensures { result ≡ broken_in self.now }
    {
        if self.count > 0 {
            return entry_length(self.datagram, self.place).err();
        }
        let left = self.datagram.len().saturating_sub(self.place);
        (left != 0 && left != TIME_OPTION).then_some(ACK_COUNT)
    }

    // The lowest broken place of the entries and of what stands behind them. It walks by hand, since it judges what is left.
    pub(crate) fn broken(&self) -> Option<usize>
        ensures { result ≡ broken_in self.now }
    {
        let mut left = *self;
        let mut lowest = None;
        while let Some((first, behind)) = left.split_first() {
            lowest = lower_of(lowest, first.broken());
            left = behind;
        }
        lower_of(lowest, left.end_broken())
    }

    // The entry n, counted from 0. One line for each view: its contract names the view's own list.
    pub fn get(&self, n: u16) -> Option<Entry<'a>>
        ensures value { option_map entry_in result ≡ slice_get (entries_in self.now) n }
    {
        let mut left = *self;
        left.nth(n.into())
    }
}

// An `impl` is of one type, so each view has its own.
impl<'a> Iterator for Entries<'a> {
    type Item = Entry<'a>;

    ghost next_gives = { YieldsFirstBy entry_in entries_in };

    ghost remaining = { item_count entries_in };

    fn next(&mut self) -> Option<Entry<'a>> {
        let (first, behind) = self.split_first()?;
        *self = behind;
        Some(first)
    }
}

impl Entry<'_> {
    // How many numbers are listed.
    pub fn count(&self) -> usize
        ensures value { result ≡ length (entry_in self.now).numbers }
    {
        self.numbers.octets.len()
    }

    // The number k, counted from 0.
    pub fn number(&self, k: usize) -> Option<u16>
        ensures value { result ≡ slice_get (entry_in self.now).numbers k }
    {
        let octets = self.numbers.octets.get(k)?;
        Some(u16::from_be_bytes(*octets))
    }

    // The place of the first number that is none.
    fn broken(&self) -> Option<usize>
        requires { self.now.place + entry_head + 2 * length self.now.numbers.octets.now < 2 ^ 64 }
        ensures { result ≡ entry_broken_in self.now }
    {
        first_broken(self.numbers, self.place + ENTRY_HEAD)
    }
}

impl Iterator for Numbers<'_> {
    type Item = u16;

    ghost next_gives = { YieldsFirst numbers_in };

    ghost remaining = { item_count numbers_in };

    fn next(&mut self) -> Option<u16> {
        let (first, behind) = self.octets.split_first()?;
        self.octets = behind;
        Some(u16::from_be_bytes(*first))
    }
}
