// The stores under load, for measuring them from outside. In a round the octets are put at every number of a row, each is
// got back, and the row is freed. Each call has the bound itself, since it ties the result to the rounds
// asked for, which no type of the result can.
#![tactic(auto)]

ghost use Rattle.std.specs.Prelude.{◌*◌, ◌≤◌};
ghost use Rattle.protocol.specs.Limits.{most_numbers};

use protocol::{MOST_STRINGS, MOST_WIDTH, NUMBERS};
use std::alloc::Global;
use store::{FragmentStore, Grid, Pool, StoreFault};

const BUFFER: usize = MOST_WIDTH as usize;

// Puts the octets at a number of row 0, and tells how many the store gives back.
fn put_and_get<S: FragmentStore>(
    store: &mut S,
    number: u16,
    octets: &[u8],
    out: &mut [u8],
) -> Result<usize, StoreFault> {
    store.put(0, number, octets)?;
    store.get(0, number, out)
}

// One round: how many strings came back whole. One that was refused has no octets.
fn round<S: FragmentStore>(store: &mut S, octets: &[u8], out: &mut [u8]) -> u16
    ensures bound { result ≤ most_numbers }
{
    let mut whole = 0;
    for number in 1..=NUMBERS {
        if put_and_get(store, number, octets, out).unwrap_or(0) == octets.len() {
            whole += 1;
        }
    }
    let _ = store.free(0);
    whole
}

// So many rounds: how many strings came back whole.
fn rounds_of<S: FragmentStore>(store: &mut S, rounds: u32, octets: &[u8]) -> u64
    ensures bound { result ≤ most_numbers * rounds }
{
    let mut out = [0u8; BUFFER];
    let mut whole: u64 = 0;
    for _ in 0..rounds {
        whole += round(store, octets, &mut out) as u64;
    }
    whole
}

// A store that was made under load; 0 if it could not be made.
fn gauge<S: FragmentStore + Drop>(made: Result<S, StoreFault>, rounds: u32, octets: &[u8]) -> u64
    ensures bound { result ≤ most_numbers * rounds }
{
    made.map_or(0, |mut store| rounds_of(&mut store, rounds, octets))
}

// A new grid under load; 0 if it cannot be made.
pub fn gauge_grid(heap: Global, rounds: u32, octets: &[u8]) -> u64
    ensures bound { result ≤ most_numbers * rounds }
{
    gauge(Grid::new(heap, MOST_WIDTH), rounds, octets)
}

// A new pool under load; 0 if it cannot be made.
pub fn gauge_pool(heap: Global, rounds: u32, octets: &[u8]) -> u64
    ensures bound { result ≤ most_numbers * rounds }
{
    gauge(Pool::new(heap, MOST_WIDTH, MOST_STRINGS), rounds, octets)
}
