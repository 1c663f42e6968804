//! Why there is no plan that keeps each promise.

use ttx_header::PageId;

/// A page that comes too late.
#[derive(Clone, Copy)]
pub struct LatePage {
    pub page: PageId,
    /// The most fields that a viewer waits.
    pub fields: u32,
    /// The fields within which a viewer is to see it.
    pub promise: u32,
}

/// Why a service has no plan that keeps each promise.
#[derive(Drop)]
pub enum PromiseFault {
    /// The service has no pages.
    NoPages,
    /// The cycle might have more than 65,536 slots, each page sent as often as the service says.
    TooLong,
    /// Some promises are not kept: the pages that come too late in the last plan, in the order of the promises.
    Late { pages: Vec<LatePage> },
    /// An allocation failed.
    NoMemory,
}
