//! Why a cycle is not accepted: bad slots, and slots that differ from a page.

pub mod bad_slots;
pub mod first_slots;
pub mod other_subpages;
pub mod page_faults;
pub mod reason;
pub mod subcodes;
pub mod wrong_slots;
