//! The streaming walk: decides slot by slot, in two passes, whether a cycle is accepted, and keeps no slot. The first pass finds the
//! headers before slot 0, the second finds what the cycle sends of the pages. The verdict does not depend on the first pass being right: if
//! the second pass does not bear it out, the verdict is `Unsteady`.

pub mod earlier_owners;
pub mod end;
pub mod numbered_slot;
pub mod other_headers;
pub mod packed_track;
pub mod packed_tracks;
pub mod packed_transmissions;
pub mod page_facts;
pub mod page_results;
pub mod passes;
pub mod progress;
pub mod returning_owners;
pub mod start;
pub mod tracks;
