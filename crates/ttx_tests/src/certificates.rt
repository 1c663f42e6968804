//! Certificates by their entries.

use std::test::Fail;
use ttx_header::PageId;
use ttx_page::{Class, Item};
use ttx_witness::{Certificate, Entry, Starts, write_certificate};

#[test]
fn a_certificate_of_one_entry(rt: HostRuntime) -> Result<(), Fail> {
    let Some(id) = PageId::new(1, 0, 0) else {
        panic!(rt; "there is no page");
    };
    let Some(entry) = Entry::new(id, Item::Head, Starts::from_slice(rt.alloc(), &[0, 28])?) else {
        panic!(rt; "there is no entry");
    };
    let mut entries = Vec::new(rt.alloc());
    entries.push(entry)?;
    let Some(certificate) = Certificate::new(2, 1, 2, entries, Class::Clearing) else {
        panic!(rt; "there is no certificate");
    };
    let Ok(text) = write_certificate(rt.alloc(), &certificate) else {
        panic!(rt; "there is no text");
    };
    let wanted =
        b"ttx certificate 2\nclass clearing\nlines 2\nrepeat 1\ndeadline 2\n100/0000 head 0 28\n";
    assert!(rt; text.as_slice() == wanted.as_slice());
    Ok(())
}
