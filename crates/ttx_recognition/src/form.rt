//! The forms in which packets are delivered.

/// Packets that take `size` bytes each, of which the last 42 are those of a slot; the first packet begins with byte `off`. In some recordings
/// the bits of each byte are in reverse order.
#[derive(Clone, Copy, Debug)]
pub struct Form {
    pub size: usize,
    pub off: usize,
    pub reversed: bool,
}

/// What bytes are if they are no packets of 42 bytes.
#[derive(Clone, Copy, Debug)]
pub enum Unlike {
    /// Packets of this form.
    Form(Form),
    /// None of the forms fits.
    NoTeletext,
}
