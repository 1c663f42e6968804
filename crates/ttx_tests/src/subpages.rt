//! Viewers who key a page number and no subcode: cycles of two subpages of which only the header is shown, with one line in a field.

use std::alloc::{AllocError, Global};
use std::test::Fail;
use ttx_cycle::faulty::{FaultyReader, FaultyWriter};
use ttx_cycle::{Counted, Cycle};
use ttx_files::answer_files;
use ttx_page::{Item, Selection};
use ttx_source::{Service, read_service};
use ttx_subpages::{
    ByNumber, Lack, NumbersVerdict, certify_numbers, count_of, first_lack, greatest_interval,
    least_stay, longest_interval, number_reports, number_waits, numbers_verdict_text,
};
use ttx_witness::{Certificate, read_certificate};

static SERVICE: &[u8] =
    b"lines = 1\nserial = false\n[[page]]\nnumber = \"100\"\nsub = \"0001\"\ninhibit = true\nhead = \"AAAAAAAAAAAAAAAAAAAAAAAA\"\n\
    [[page]]\nnumber = \"100\"\nsub = \"0002\"\ninhibit = true\nhead = \"BBBBBBBBBBBBBBBBBBBBBBBB\"\n";

static CERTIFICATE: &[u8] =
    b"ttx certificate 1\nlines 1\nrepeat 1\ndeadline 20\n100/0001 head 0\n100/0001 links 2\n\
    100/0002 head 4\n100/0002 links 6\n";

// X/27/0 of magazine 1 without links.
#[rattlefmt::skip]
static LINKS: [u8; 42] = [
    0xc7, 0xb6, 0x15,
    0xea, 0xea, 0xea, 0x2f, 0xea, 0x5e, 0xea, 0xea, 0xea, 0x2f, 0xea, 0x5e,
    0xea, 0xea, 0xea, 0x2f, 0xea, 0x5e, 0xea, 0xea, 0xea, 0x2f, 0xea, 0x5e,
    0xea, 0xea, 0xea, 0x2f, 0xea, 0x5e, 0xea, 0xea, 0xea, 0x2f, 0xea, 0x5e,
    0x2f, 0x00, 0x00,
];

// A page header of magazine 1: its page and subcode words, and a letter in its characters.
fn header(page: [u8; 6], letter: u8) -> [u8; 42] {
    let mut slot = [0x20; 42];
    slot[0] = 0x02;
    slot[1] = 0x15;
    slot[2..8].copy_from_slice(&page);
    slot[8] = 0xd0;
    slot[9] = 0x15;
    for at in 10..34 {
        slot[at] = letter;
    }
    slot
}

fn subpage(sub: u8, letter: u8) -> [u8; 42] {
    header([0x15, 0x15, sub, 0x15, 0x15, 0x15], letter)
}

fn filling() -> [u8; 42] {
    header([0xea, 0xea, 0xea, 0x2f, 0xea, 0x5e], 0x20)
}

// 100/0001, 100/0002, each with its X/27/0 two slots on, and a time-filling header one slot later; twice.
fn turns(alloc: Global) -> Result<Vec<[u8; 42]>, AllocError> {
    let mut slots = Vec::new(alloc);
    for _ in 0..2 {
        slots.extend_from_slice(&[subpage(0x02, 0xc1), [0; 42], LINKS, filling()])?;
        slots.extend_from_slice(&[subpage(0x49, 0xc2), [0; 42], LINKS, filling()])?;
    }
    Ok(slots)
}

// The text of the verdict on a cycle.
fn told(
    alloc: Global,
    slots: Vec<[u8; 42]>,
    service: &Service,
    certificate: &Certificate,
) -> Option<String> {
    let cycle = Cycle::of(slots)?;
    let Ok(verdict) = certify_numbers(alloc, &cycle, service, certificate) else {
        return None;
    };
    let Ok(reports) = number_reports(alloc, &cycle, service.pages()) else {
        return None;
    };
    let count = service.pages().len();
    match numbers_verdict_text(alloc, certificate, count, reports.as_slice(), verdict) {
        Ok(text) => Some(text),
        Err(_) => None,
    }
}

// A slot, the subcode of the header that it holds instead, or none for an empty slot, and the text. At slot 16 the header comes behind the
// cycle, and a time-filling one behind it.
static TOLD: [(usize, u8, &str); 5] = [
    (
        17,
        0,
        "yes lines 1 repeat 1 deadline 20 pages 2 late 3\nnumber 100 pages 2 every 23 slots stays 4\n",
    ),
    (10, 0, "no 14 unwhole 100/0001 links 8\n"),
    (14, 0, "no 14 unwhole 100/0002 links 12\n"),
    (16, 0x5e, "no 15 unlisted 100 16\n"),
    (3, 0x02, "no 13 never-shown 100/0001 0\n"),
];

#[test]
fn numbers_are_certified(rt: HostRuntime) -> Result<(), Fail> {
    let Ok(service) = read_service(rt.alloc(), SERVICE) else {
        panic!(rt; "there is no service");
    };
    let Ok(certificate) = read_certificate(rt.alloc(), CERTIFICATE) else {
        panic!(rt; "there is no certificate");
    };
    for (slot, sub, wanted) in &TOLD {
        let mut slots = turns(rt.alloc())?;
        if *slot == 16 {
            slots.extend_from_slice(&[subpage(*sub, 0xc1), filling()])?;
        }
        if let Some(held) = slots.get_mut(*slot) {
            *held = if *sub == 0 {
                [0; 42]
            } else {
                subpage(*sub, 0xc1)
            };
        }
        let Some(text) = told(rt.alloc(), slots, &service, &certificate) else {
            panic!(rt; "there is no verdict {slot}");
        };
        assert!(rt; text.as_str() == *wanted, "{slot} {text}");
    }
    Ok(())
}

#[test]
fn stays_and_intervals(rt: HostRuntime) -> Result<(), Fail> {
    let Ok(service) = read_service(rt.alloc(), SERVICE) else {
        panic!(rt; "there is no service");
    };
    let mut slots = turns(rt.alloc())?;
    // 100/0002 in the first turn is replaced by empty slots, so 100/0001 stays eight slots, and four.
    for at in 4..8 {
        if let Some(held) = slots.get_mut(at) {
            *held = [0; 42];
        }
    }
    let Some(cycle) = Cycle::of(slots) else {
        panic!(rt; "there is no cycle");
    };
    let (Some(first), Some(second)) = (service.pages().get(0), service.pages().get(1)) else {
        panic!(rt; "there are no pages");
    };
    let (one, two) = (Selection::Exact(first.id()), Selection::Exact(second.id()));
    assert!(rt; count_of(service.pages(), 1, 0) == 2 && count_of(service.pages(), 2, 0) == 0);
    assert!(rt; least_stay(&cycle, one) == Some(4) && greatest_interval(&cycle, one) == 8);
    assert!(rt; least_stay(&cycle, two) == Some(4) && greatest_interval(&cycle, two) == 16);
    assert!(rt; least_stay(&cycle, Selection::AnySub(1, 0)) == Some(4));
    assert!(rt; greatest_interval(&cycle, Selection::AnySub(1, 0)) == 8);
    assert!(rt; least_stay(&cycle, Selection::AnySub(1, 1)) == None);
    assert!(rt; greatest_interval(&cycle, Selection::AnySub(1, 1)) == 0);
    Ok(())
}

#[test]
fn the_first_lack(rt: HostRuntime) -> Result<(), Fail> {
    let Ok(service) = read_service(rt.alloc(), SERVICE) else {
        panic!(rt; "there is no service");
    };
    let mut slots = turns(rt.alloc())?;
    let Some(cycle) = Cycle::of(slots.clone()?) else {
        panic!(rt; "there is no cycle");
    };
    let Ok(lack) = first_lack(rt.alloc(), &cycle, &service, 1) else {
        panic!(rt; "there is no answer");
    };
    assert!(rt; lack.is_none());
    // Two lines in a field: each X/27/0 comes where a receiver may miss it.
    let Ok(lack) = first_lack(rt.alloc(), &cycle, &service, 2) else {
        panic!(rt; "there is no answer");
    };
    assert!(rt;
        matches!(
            &lack,
            Some(Lack::Unwhole {
                page: _,
                item: Item::Links,
                slot: 0
            })
        )
    );
    // The second X/27/0 of 100/0001 is lost.
    if let Some(held) = slots.get_mut(10) {
        *held = [0; 42];
    }
    let Some(cycle) = Cycle::of(slots) else {
        panic!(rt; "there is no cycle");
    };
    let Ok(lack) = first_lack(rt.alloc(), &cycle, &service, 1) else {
        panic!(rt; "there is no answer");
    };
    assert!(rt;
        matches!(
            &lack,
            Some(Lack::Unwhole {
                page: _,
                item: Item::Links,
                slot: 8
            })
        )
    );
    Ok(())
}

// Slots that are replaced by empty slots, the most slots after which each subpage comes again, and the line for `wait`: one line in a field, so
// five slots in a tenth of a second.
static WAITS: [(usize, usize, Option<usize>, &str); 4] = [
    (
        0,
        0,
        Some(8),
        "100 2 subpages, each at least 0.0 s, again within 0.2 s\n",
    ),
    (
        4,
        8,
        Some(16),
        "100 2 subpages, each at least 0.0 s, again within 0.4 s\n",
    ),
    (
        4,
        12,
        Some(16),
        "100 2 subpages, each at least 0.0 s, again within 0.4 s\n",
    ),
    (
        0,
        4,
        Some(16),
        "100 2 subpages, each at least 0.0 s, again within 0.4 s\n",
    ),
];

#[test]
fn waits_for_subpages(rt: HostRuntime) -> Result<(), Fail> {
    let Ok(service) = read_service(rt.alloc(), SERVICE) else {
        panic!(rt; "there is no service");
    };
    for (from, to, interval, wanted) in &WAITS {
        let mut slots = turns(rt.alloc())?;
        for at in *from..*to {
            if let Some(held) = slots.get_mut(at) {
                *held = [0; 42];
            }
        }
        let Some(cycle) = Cycle::of(slots) else {
            panic!(rt; "there is no cycle");
        };
        assert!(rt;
            longest_interval(&cycle, service.pages(), 1, 0) == *interval,
            "{from}"
        );
        let Ok(text) = number_waits(rt.alloc(), &cycle, &service) else {
            panic!(rt; "there is no text");
        };
        assert!(rt; text.as_str() == *wanted, "{from} {text}");
    }
    Ok(())
}

#[test]
fn a_subpage_that_is_not_sent(rt: HostRuntime) -> Result<(), Fail> {
    let Ok(service) = read_service(rt.alloc(), SERVICE) else {
        panic!(rt; "there is no service");
    };
    let slots = Vec::from_slice(
        rt.alloc(),
        &[subpage(0x02, 0xc1), [0; 42], LINKS, filling()],
    )?;
    let Some(cycle) = Cycle::of(slots) else {
        panic!(rt; "there is no cycle");
    };
    let Ok(text) = number_waits(rt.alloc(), &cycle, &service) else {
        panic!(rt; "there is no text");
    };
    assert!(rt; text.as_str() == "100 2 subpages, not all sent\n", "{text}");
    Ok(())
}

#[test]
fn files_are_certified_by_number(rt: HostRuntime) -> Result<(), Fail> {
    let mut bytes = Vec::new(rt.alloc());
    for slot in &turns(rt.alloc())? {
        bytes.extend_from_slice(slot)?;
    }
    let mut room = [0; 120];
    let mut cycle = Counted::new(FaultyReader::new(bytes.as_slice(), 41, None));
    let mut service = Counted::new(FaultyReader::new(SERVICE, 9, None));
    let mut certificate = Counted::new(FaultyReader::new(CERTIFICATE, 10, None));
    let mut writer = Counted::new(FaultyWriter::new(&mut room, 7, None));
    let answer = answer_files(
        rt.alloc(),
        &ByNumber,
        &mut cycle,
        &mut service,
        &mut certificate,
        &mut writer,
    );
    assert!(rt; matches!(&answer, Ok(NumbersVerdict::Yes { gap: 3 })));
    let wanted =
        b"yes lines 1 repeat 1 deadline 20 pages 2 late 3\nnumber 100 pages 2 every 23 slots stays 4\n";
    assert!(rt; writer.get_ref().taken() == wanted.as_slice());
    Ok(())
}
