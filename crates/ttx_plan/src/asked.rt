//! The receivers that a cycle is planned for.

use ttx_page::Class;

/// The receivers that a cycle is planned for.
#[derive(Clone, Copy)]
pub struct Receivers {
    /// Receivers of this class.
    pub class: Class,
    /// Also receivers that show a page late, when the next header of its magazine has another page number.
    pub late: bool,
}
