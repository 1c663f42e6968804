//! What a receiver is set to.

use ttx_page::{Class, Selection};

/// What a receiver is set to: its class, the slots in a field, and its selection.
#[derive(Clone, Copy)]
pub(crate) struct Tuning {
    pub(crate) class: Class,
    pub(crate) lines: u8,
    pub(crate) selection: Selection,
}
