//! A slot with its number.

ghost use Rattle.std.specs.Prelude.{◌<◌};

/// One of the first 65,536 slots of a list, with its number, counted from 0.
#[derive(Clone, Copy)]
pub struct NumberedSlot<'a> {
    pub bytes: &'a [u8; 42],
    pub at: u32,
    ghost small: { at < 65536 },
}
