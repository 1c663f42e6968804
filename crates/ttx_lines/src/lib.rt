//! The lines of slots and of Views, as `inspect`, `receive` and `replay` print them.
#![tactic(auto)]

mod slots;
mod texts;
mod unlike_views;
mod views;

pub use slots::slot_lines;
pub use texts::push_numbered;
pub use unlike_views::push_unlike_lines;
pub use views::view_lines;
