//! Why there is no plan in which subpages stay as long as promised.

use ttx_header::PageId;
use ttx_promise::{LatePage, PromiseFault};

/// A number whose pages stay too short a time.
#[derive(Clone, Copy)]
pub struct ShortStay {
    /// A page of the number.
    pub number: PageId,
    /// The whole fields for which each page of the number stays.
    pub fields: usize,
    /// The fields for which each is to stay.
    pub promise: u32,
}

/// What is missed in a cycle that keeps the stays.
#[derive(Clone, Copy)]
pub enum Missed {
    /// No certificate accepts this page.
    Unseen { page: PageId },
    /// This page comes too late.
    Late { late: LatePage },
    /// Receivers that show pages late never show this page: after its header in this slot comes its own page number again.
    NeverShown { page: PageId, slot: usize },
}

/// Why a service has no plan that keeps its promises and its stays.
#[derive(Drop)]
pub enum StayFault {
    /// The promises cannot be kept even without stays, or there is no plan.
    Promise { fault: PromiseFault },
    /// A cycle with one lap a turn might have more than 65,536 slots.
    TooLong,
    /// In the longest cycle these numbers stay too short, and in each shorter one some number does.
    Short { numbers: Vec<ShortStay> },
    /// In the shortest cycle in which the stays are kept something else is missed.
    Missed { missed: Missed },
    /// An allocation failed.
    NoMemory,
}
