//! What one period of a cycle sends of the items of pages.

pub mod collected;
pub mod collection;
pub mod indexed_headers;
pub mod one_slot;
pub mod owners;
pub mod packets;
pub mod page_index;
pub mod page_items;
