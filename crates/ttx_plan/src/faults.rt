//! Why a service has no planned cycle.

use thiserror::Error;

/// Why a service has no planned cycle.
#[derive(Clone, Copy, Debug, PartialEq, Eq, Error)]
pub enum PlanFault {
    /// The service has no pages.
    #[error("the service has no pages")]
    NoPages,
    /// The cycle might have more than 65,536 slots.
    #[error("the service is too long for a cycle of 65536 slots")]
    TooLong,
    /// An allocation failed.
    #[error("out of memory")]
    NoMemory,
}
