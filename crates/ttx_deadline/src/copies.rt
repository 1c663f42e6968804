//! Certificates with another deadline.

ghost use Rattle.std.specs.Prelude.{◌≡◌, ◌≤◌, IfOk};
ghost use Rattle.ttx_certificate.specs.Certificates.{fields_of};
ghost use Rattle.ttx_certificate.specs.EntryViews.{entry_of, entries_of};
ghost use Rattle.ttx_deadline.specs.Deadlines.{fields_with_deadline};

use std::alloc::{AllocError, Global};
use ttx_witness::{Certificate, Entry, NoMemory, Starts};

fn copied_starts(alloc: Global, starts: &[u32]) -> Result<Starts, AllocError>
    ensures { IfOk result (λ copied. copied.items ≡ starts.now) }
{
    Starts::from_slice(alloc, starts)
}

fn copied(alloc: Global, entry: &Entry) -> Result<Entry, AllocError>
    ensures { IfOk result (λ copied. entry_of copied ≡ entry_of entry.now) }
{
    let starts = copied_starts(alloc, entry.starts())?;
    Ok(Entry::of(entry.page(), entry.item(), starts))
}

fn copied_entries(alloc: Global, entries: &[Entry]) -> Result<Vec<Entry>, AllocError>
    ensures { IfOk result (λ copied. entries_of copied.items ≡ entries_of entries.now) }
{
    let mut all = Vec::with_capacity(alloc, entries.len())?;
    for entry in entries {
        all.push(copied(alloc, entry)?)?;
    }
    Ok(all)
}

/// The certificate with another deadline in fields, 1 to 1,000,000.
pub fn with_deadline(
    alloc: Global,
    certificate: &Certificate,
    deadline: u32,
) -> Result<Certificate, NoMemory>
    requires some { 1 ≤ deadline }
    requires few { deadline ≤ 1000000 }
    ensures { IfOk result (λ other. fields_of other ≡ fields_with_deadline (fields_of certificate.now) deadline) }
{
    ttx_witness::certificate_laws::certificates_keep_their_rules();
    let Ok(entries) = copied_entries(alloc, certificate.entries()) else {
        return Err(NoMemory);
    };
    Ok(Certificate::of(
        certificate.lines(),
        certificate.repeat(),
        deadline,
        entries,
        certificate.class(),
    ))
}
