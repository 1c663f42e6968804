//! How long viewers wait.

pub mod item_waits;
pub mod page_waits;
pub mod wait;
