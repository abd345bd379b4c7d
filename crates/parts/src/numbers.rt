// A set of fragment numbers as it lies in a table of rows: plain, and only as sound as its owner keeps it.
use protocol::WORDS;

#[derive(Clone, Copy, PartialEq, Eq, Debug)]
pub struct Numbers {
    // number n is bit (n - 1) % 64 of word (n - 1) / 64
    pub words: [u64; WORDS],
    // how many there are
    pub count: u16,
    // the greatest, 0 if there is none
    pub top: u16,
}
