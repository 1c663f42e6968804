//! Why files are not read or written.

use thiserror::Error;
use ttx_certificate::CertFault;
use ttx_cycle::CycleFault;
use ttx_source::SourceError;

/// The texts that are read beside a cycle.
#[derive(Clone, Copy, Debug)]
pub enum TextFile {
    /// 2. The service definition.
    Service,
    /// 3. The certificate.
    Certificate,
}

/// Why files are not read or written, numbered from 1 in this order.
#[derive(Clone, Copy, Debug, Error)]
pub enum FilesFault {
    /// 1. The packet file could not be read, or is refused.
    #[error("{0}")]
    Cycle(CycleFault),
    /// 2. The text isn't a service definition.
    #[error("{0}")]
    Service(SourceError),
    /// 3. The text isn't a certificate.
    #[error("{0}")]
    Certificate(CertFault),
    /// 4. A read of a text failed.
    #[error("a text isn't read")]
    Read { which: TextFile },
    /// 5. A text is longer than 4,194,304 bytes.
    #[error("a text is longer than 4194304 bytes")]
    TooLong { which: TextFile },
    /// 6. A write failed. The first `written` bytes of the line went out, and no more.
    #[error("a write failed after {written} bytes")]
    Write { written: usize },
    /// 7. An allocation failed.
    #[error("out of memory")]
    NoMemory,
}

/// Why a feed is not read.
#[derive(Clone, Copy, PartialEq, Eq, Debug)]
pub enum FeedFault {
    /// A read of the feed failed.
    Read,
    /// Memory ran out.
    NoMemory,
}
