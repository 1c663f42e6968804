//! Pages, page memories and the items that a viewer needs. `specs/` defines what receivers may do and what a stream of slots sends.
#![tactic(auto)]

pub mod class;
mod codes;
pub mod item;
pub mod laws;
pub mod memory;
pub mod page;
pub mod selection;
mod shown;

pub use class::Class;
pub use item::{Item, RowNumber};
pub use memory::PageMemory;
pub use page::Page;
pub use selection::Selection;
pub use shown::{is_blank, needed};
