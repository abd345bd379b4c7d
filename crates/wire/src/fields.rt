// Big-endian numbers in a datagram, each by its place, since places are what is judged and printed. There is one function for each
// width, as there is one definition: no trait of std has `from_be_bytes`. The octets are read by index, which tests nothing at run
// time: that they stand there is proved.
ghost use Rattle.std.specs.Prelude.{◌≡◌, ◌+◌, ◌<◌, length};
ghost use Rattle.pdu.specs.Octets.{word, quad};

// The number of two octets at a place.
pub(crate) fn word_at(datagram: &[u8], place: usize) -> u16
    requires { place + 1 < length datagram.now }
    ensures { result ≡ word datagram.now place }
{
    u16::from_be_bytes([datagram[place], datagram[place + 1]])
}

// The number of four octets at a place.
pub(crate) fn quad_at(datagram: &[u8], place: usize) -> u32
    requires { place + 3 < length datagram.now }
    ensures { result ≡ quad datagram.now place }
{
    u32::from_be_bytes([
        datagram[place],
        datagram[place + 1],
        datagram[place + 2],
        datagram[place + 3],
    ])
}
