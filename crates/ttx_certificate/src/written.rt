//! Entries as they are written.

/// An item as it is written: the number of a row may be any below 10,000,000.
#[derive(Clone, Copy)]
pub(crate) enum WrittenItem {
    Head,
    Row(u32),
    Links,
}

/// The page and the item of an entry as they are written: their numbers may be out of range.
#[derive(Clone, Copy)]
pub(crate) struct Written {
    pub(crate) mag: u8,
    pub(crate) page: u8,
    pub(crate) sub: u16,
    pub(crate) item: WrittenItem,
}
