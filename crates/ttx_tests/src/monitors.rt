//! The verdicts of a monitor on the slots of the worked cycle, as they are received.

use crate::base::{self, SERVICE, certificate_text};
use std::alloc::{AllocError, Global};
use std::test::Fail;
use ttx_cycle::faulty::FaultyReader;
use ttx_cycle::{Counted, Cycle};
use ttx_files::Inputs;
use ttx_monitor::{Breach, Monitor, TextByte, find_start, monitor_feed};
use ttx_source::read_service;
use ttx_witness::{Certificate, read_certificate};

// A slot of the cycle, a byte of it and the bits in which it is received wrong, or all bytes received as 0, and what that breaks. Slot 1
// is empty, slot 3 is row 1.
#[rattlefmt::skip]
static RECEPTIONS: [(u32, usize, u8, bool, Option<Breach>); 8] = [
    (0, 0, 0x00, false, None),
    (0, 5, 0x10, false, None),
    (0, 34, 0xff, false, None),
    (0, 3, 0x03, false, Some(Breach::Bits(3))),
    (0, 0, 0x00, true, Some(Breach::Lost)),
    (1, 0, 0x02, false, Some(Breach::Unasked)),
    (1, 0, 0x00, true, None),
    (3, 2, 0x01, false, Some(Breach::Repeated(TextByte { page: 0, row: 1, byte: 2 }))),
];

// What is received of a slot.
fn received(sent: &[u8; 42], at: usize, bits: u8, is_zero: bool) -> [u8; 42] {
    if is_zero {
        return [0; 42];
    }
    let mut slot = *sent;
    if at < 42 {
        slot[at] = slot[at] ^ bits;
    }
    slot
}

#[test]
fn breaches_of_the_error_rule(rt: HostRuntime) -> Result<(), Fail> {
    let text = certificate_text(rt.alloc(), 27)?;
    let (Some(cycle), Ok(service), Ok(certificate)) = (
        Cycle::of(base::slots(rt.alloc())?),
        read_service(rt.alloc(), SERVICE),
        read_certificate(rt.alloc(), text.as_bytes()),
    ) else {
        panic!(rt; "there is no cycle");
    };
    for (place, at, bits, is_zero, wanted) in &RECEPTIONS {
        let Ok(mut monitor) = Monitor::new(rt.alloc(), &cycle, &service, &certificate, *place)
        else {
            panic!(rt; "there is no monitor");
        };
        let Some(sent) = cycle.slots().get(*place as usize) else {
            panic!(rt; "there is no slot");
        };
        let slot = received(sent, *at, *bits, *is_zero);
        assert!(rt; monitor.hear(&slot) == *wanted, "{place} {at}");
        assert!(rt;
            monitor.within() == wanted.is_none() && monitor.count() == 1,
            "{place} {at}"
        );
    }
    Ok(())
}

#[test]
fn a_feed_from_slot_10_on(rt: HostRuntime) -> Result<(), Fail> {
    let text = certificate_text(rt.alloc(), 27)?;
    let (Some(cycle), Ok(service), Ok(certificate)) = (
        Cycle::of(base::slots(rt.alloc())?),
        read_service(rt.alloc(), SERVICE),
        read_certificate(rt.alloc(), text.as_bytes()),
    ) else {
        panic!(rt; "there is no cycle");
    };
    let head = [base::row(8), base::row(9), base::row(10)];
    let start = find_start(&cycle, &head);
    assert!(rt; start == 10);
    let Ok(mut monitor) = Monitor::new(rt.alloc(), &cycle, &service, &certificate, start) else {
        panic!(rt; "there is no monitor");
    };
    for n in 0..54u32 {
        assert!(rt; !monitor.lasts(&certificate) && monitor.count() == u64::from(n));
        let Some(slot) = cycle.slots().get(((10 + n) % 28) as usize) else {
            panic!(rt; "there is no slot");
        };
        assert!(rt; monitor.hear(slot).is_none(), "{n}");
    }
    assert!(rt; monitor.lasts(&certificate));
    Ok(())
}

// A slot of the feed, a byte of it and the bits in which it is received wrong, or all bytes received as 0; the repeat count; how many bytes
// follow the last slot; and the report on 54 slots from slot 10 of the cycle on. Slot 0 of the feed is row 8, slot 18 is the page
// header, and slot 19 is empty.
#[rattlefmt::skip]
static FEEDS: [(usize, usize, u8, bool, u8, usize, &str); 11] = [
    (0, 42, 0x00, false, 1, 0, "yes start 10 slots 54 wrong 0 streak 0\n"),
    (0, 42, 0x00, false, 1, 41, "yes start 10 slots 54 wrong 0 streak 0\nrest 41 bytes\n"),
    (0, 0, 0x01, false, 1, 0, "yes start 10 slots 54 wrong 1 streak 0\n"),
    (18, 34, 0xff, false, 1, 0, "yes start 10 slots 54 wrong 0 streak 0\n"),
    (0, 2, 0x01, false, 2, 0, "yes start 10 slots 54 wrong 1 streak 1\n"),
    (0, 2, 0x01, false, 1, 3, "no repeat 100/0000 row 8 byte 2 slot 0 start 10\n"),
    (18, 10, 0x01, false, 1, 0, "no repeat 100/0000 head byte 10 slot 18 start 10\n"),
    (46, 3, 0x03, false, 1, 0, "no slot 46 byte 3 start 10\n"),
    (18, 0, 0x00, true, 1, 0, "no slot 18 lost start 10\n"),
    (19, 7, 0x02, false, 1, 0, "no slot 19 unlike start 10\n"),
    (30, 7, 0x03, false, 8, 0, "no slot 30 byte 7 start 10\n"),
];

// The bytes of the feed, with this slot received differently.
fn feed(
    alloc: Global,
    cycle: &Cycle,
    slot: usize,
    other: [u8; 42],
    rest: usize,
) -> Result<Vec<u8>, AllocError> {
    let mut bytes = Vec::new(alloc);
    for n in 0..54usize {
        let sent = cycle.slots().get((10 + n) % 28);
        match sent {
            Some(_) if n == slot => bytes.extend_from_slice(&other)?,
            Some(sent) => bytes.extend_from_slice(sent)?,
            None => {}
        }
    }
    for _ in 0..rest {
        bytes.push(0x20)?;
    }
    Ok(bytes)
}

// A certificate with this repeat count; a monitor uses nothing else of it.
fn repeated(alloc: Global, repeat: u8) -> Option<Certificate> {
    let Ok(text) = format!(in alloc;
        "ttx certificate 1\nlines 2\nrepeat {repeat}\ndeadline 27\n100/0000 head 0\n"
    ) else {
        return None;
    };
    match read_certificate(alloc, text.as_bytes()) {
        Ok(certificate) => Some(certificate),
        Err(_) => None,
    }
}

#[test]
fn feeds_are_told(rt: HostRuntime) -> Result<(), Fail> {
    for (slot, at, bits, is_zero, repeat, rest, wanted) in &FEEDS {
        let (Some(cycle), Ok(service), Some(certificate)) = (
            Cycle::of(base::slots(rt.alloc())?),
            read_service(rt.alloc(), SERVICE),
            repeated(rt.alloc(), *repeat),
        ) else {
            panic!(rt; "there is no cycle");
        };
        let Some(sent) = cycle.slots().get((10 + *slot) % 28) else {
            panic!(rt; "there is no slot");
        };
        let other = received(sent, *at, *bits, *is_zero);
        let bytes = feed(rt.alloc(), &cycle, *slot, other, *rest)?;
        let inputs = Inputs {
            cycle,
            service,
            certificate,
        };
        for named in [None, Some(10)] {
            let mut reader = Counted::new(FaultyReader::new(bytes.as_slice(), 41, None));
            let Ok(told) = monitor_feed(rt.alloc(), &inputs, named, &mut reader) else {
                panic!(rt; "nothing is told");
            };
            assert!(rt; told.line.as_str() == *wanted, "{wanted} {}", told.line);
        }
    }
    Ok(())
}
