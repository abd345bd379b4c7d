// One line of input.
use pdu::Accepts;
use std::alloc::{AllocError, Global};

// A datagram, and the end that is to read it.
#[derive(Drop)]
pub struct Datagram {
    pub end: Accepts,
    pub octets: Vec<u8>,
}

// Why a line gives no datagram.
#[derive(Drop)]
pub enum LineError {
    Malformed,
    Memory(AllocError),
}

impl From<AllocError> for LineError {
    fn from(error: AllocError) -> LineError {
        LineError::Memory(error)
    }
}

// A line without its line feed, and without a carriage return before that.
fn trimmed(text: &[u8]) -> &[u8] {
    match text {
        [line @ .., b'\r', b'\n'] => line,
        [line @ .., b'\n'] => line,
        line => line,
    }
}

// The datagram of a line; none in an empty line or a comment.
pub fn parse(heap: Global, text: &[u8]) -> Result<Option<Datagram>, LineError> {
    let line = trimmed(text);
    if line.is_empty() || line.starts_with(b"#") {
        return Ok(None);
    }
    let (end, digits) = addressed(line).ok_or(LineError::Malformed)?;
    let octets = octets_of(heap, digits)?.ok_or(LineError::Malformed)?;
    Ok(Some(Datagram { end, octets }))
}

// The end that a line names, and what stands behind one space.
fn addressed(line: &[u8]) -> Option<(Accepts, &str)> {
    let (name, digits) = str::from_utf8(line).ok()?.split_once(' ')?;
    Some((name.parse().ok()?, digits))
}

// `-` stands for no octets; nothing at all is malformed.
fn octets_of(heap: Global, digits: &str) -> Result<Option<Vec<u8>>, AllocError> {
    match digits {
        "" => Ok(None),
        "-" => Ok(Some(Vec::new(heap))),
        _ => hexadecimal::decode(heap, digits.as_bytes()),
    }
}
