// The stores under load, as a static library that other languages link; so each has a name and a clause of its own.
#![tactic(auto)]

ghost use Rattle.std.specs.Prelude.{◌*◌, ◌≤◌};
ghost use Rattle.protocol.specs.Limits.{most_numbers};

use std::alloc::Global;

// A new grid under load; 0 if it cannot be made.
#[unsafe(no_mangle)]
pub extern "C" fn gauge_grid(heap: Global, rounds: u32, octets: &[u8]) -> u64
    ensures bound { result ≤ most_numbers * rounds }
{
    gauge::gauge_grid(heap, rounds, octets)
}

// A new pool under load; 0 if it cannot be made.
#[unsafe(no_mangle)]
pub extern "C" fn gauge_pool(heap: Global, rounds: u32, octets: &[u8]) -> u64
    ensures bound { result ≤ most_numbers * rounds }
{
    gauge::gauge_pool(heap, rounds, octets)
}
