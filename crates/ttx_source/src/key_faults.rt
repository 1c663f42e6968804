//! Faults of the values at keys, and the pages that they are in.

ghost use Rattle.std.specs.Prelude.{◌≡◌};
ghost use Rattle.ttx_source.specs.Faults.{fault_of};
ghost use Rattle.ttx_source.specs.KeyFaults.{key_fault_of, read_fault_of, in_no_memory, out_of_memory};

use crate::faults::{SourceError, SourceFault};
use crate::keys::Key;

/// A fault in the keys of a service definition. Each is the `SourceFault` of the same name.
#[derive(Clone, Copy)]
pub enum KeyFault {
    Missing { key: Key },
    Kind { key: Key },
    PageNumber,
    Subcode,
    Duplicate,
    RowTooLong,
    Character,
    Often,
    Range { key: Key },
}

impl KeyFault {
    /// The fault of the same name.
    pub fn source_fault(self) -> SourceFault
        ensures { fault_of result ≡ key_fault_of self }
    {
        match self {
            KeyFault::Missing { key } => SourceFault::Missing { key: key.name() },
            KeyFault::Kind { key } => SourceFault::Kind { key: key.name() },
            KeyFault::PageNumber => SourceFault::PageNumber,
            KeyFault::Subcode => SourceFault::Subcode,
            KeyFault::Duplicate => SourceFault::Duplicate,
            KeyFault::RowTooLong => SourceFault::RowTooLong,
            KeyFault::Character => SourceFault::Character,
            KeyFault::Often => SourceFault::Often,
            KeyFault::Range { key } => SourceFault::Range { key: key.name() },
        }
    }
}

/// Why the table of a service definition cannot be read.
#[derive(Clone, Copy)]
pub enum ReadFault {
    /// A fault in the keys of a page, counted from 1, or of the service (page 0).
    InPage { page: usize, fault: KeyFault },
    /// An allocation failed.
    NoMemory,
}

impl ReadFault {
    /// The fault and its page as an error of a service definition.
    pub fn source_error(self) -> SourceError
        ensures fault { (fault_of result.fault, result.page) ≡ read_fault_of self }
        ensures memory { self ≡ in_no_memory → result ≡ out_of_memory }
    {
        match self {
            ReadFault::InPage { page, fault } => SourceError {
                fault: fault.source_fault(),
                page,
            },
            ReadFault::NoMemory => SourceError {
                fault: SourceFault::NoMemory,
                page: 0,
            },
        }
    }
}
