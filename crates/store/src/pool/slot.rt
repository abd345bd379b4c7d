// Where a pool keeps the string of a place.
ghost use Rattle.std.specs.Prelude.{◌<◌};

#[derive(Clone, Copy)]
pub(crate) struct Slot {
    pub(crate) cell: u16,
    pub(crate) len: u16,
    ghost some: { 0 < len },
}
