//! Transmissions of one item as numbers, the runs they make, and the starts of runs. Pages and packets are not known here.

pub mod confirmation;
pub mod named_starts;
pub mod one_item;
pub mod ring;
pub mod sure_starts;
pub mod transmissions;
pub mod window;
