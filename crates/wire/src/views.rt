// Parts of a datagram, where they lie in it. A view is walked before it is judged, so that it has as many parts as it counts
// is promised by `read`, and not by its type: a second type for what was judged would be no plainer.

// The destinations of an Address from a place on: so many, each followed by reserved octets.
#[derive(Clone, Copy)]
pub struct Destinations<'a> {
    pub(crate) datagram: &'a [u8],
    pub place: usize,
    pub count: u16,
    pub reserved: u16,
}

// One destination, and the place where it stands.
#[derive(Clone, Copy)]
pub struct Destination {
    pub place: usize,
    pub destination: u32,
    pub sequence: u32,
}

// The entries of an ACK from a place on.
#[derive(Clone, Copy)]
pub struct Entries<'a> {
    pub(crate) datagram: &'a [u8],
    pub place: usize,
    pub count: u16,
}

// One entry of an ACK, and the place where it stands.
#[derive(Clone, Copy)]
pub struct Entry<'a> {
    pub place: usize,
    pub source: u32,
    pub message: u32,
    pub numbers: Numbers<'a>,
}

// The numbers listed for an entry, of two octets each.
#[derive(Clone, Copy)]
pub struct Numbers<'a> {
    pub(crate) octets: &'a [[u8; 2]],
}
