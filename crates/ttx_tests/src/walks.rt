//! Two readings of a file that has changed between them: the verdict on the second one, or that they do not go together. The cases of
//! `certify` have the verdicts on two equal readings.

use crate::base::{self, SERVICE, TIME_FILLING, beginning, certificate_text};
use crate::seen::page;
use std::alloc::{AllocError, Global};
use std::test::Fail;
use ttx_certify::{FilesFault, Verdict, Walk, WalkFault, certify_passes};
use ttx_cycle::faulty::{FaultyReader, FaultyWriter};
use ttx_cycle::{Counted, CycleFault};
use ttx_page::Class;
use ttx_witness::{Certificate, Reason, read_certificate};

// What is returned for two readings: a line, or a fault of a cycle and no line.
enum Answer {
    Yes,
    Unsteady,
    BadSlot1,
    BadSlot4,
    BadSlot26,
    NoHeader,
    OtherSubpage,
    Erased,
    LateRow22,
    LateRow23,
    LateLinks,
    Truncated,
    Empty,
}

// What is done to a slot of the second reading.
enum Edit {
    Nothing,
    Byte(usize, usize, u8),
    All(usize, u8),
    Header(usize, [u8; 10]),
}

// The header of page 100, subcode 0001.
static OTHER_SUBPAGE: [u8; 10] = [0x02, 0x15, 0x15, 0x15, 0x02, 0x15, 0x15, 0x15, 0x15, 0x02];

// The slots are those of the worked cycle, the time-filling header again, and the cycle once more: which of them the first reading
// has, from one on to before another, and which the second; what is done to a slot of the second; the deadline; and the answer.
#[rattlefmt::skip]
static READINGS: [(usize, usize, usize, Edit, u32, Answer); 21] = [
    (0, 28, 28, Edit::Nothing, 27, Answer::Yes),
    // the time-filling header is the last one, whatever stands before
    (0, 57, 28, Edit::Nothing, 27, Answer::Yes),
    (27, 28, 28, Edit::Nothing, 27, Answer::Yes),
    // the header of page 100 is the last one, or none, or the last slot is missing
    (0, 27, 28, Edit::Nothing, 27, Answer::Unsteady),
    (0, 1, 28, Edit::Nothing, 27, Answer::Unsteady),
    (1, 6, 28, Edit::Nothing, 27, Answer::Unsteady),
    (1, 30, 28, Edit::Nothing, 27, Answer::Unsteady),
    (0, 28, 27, Edit::Nothing, 27, Answer::Unsteady),
    (0, 28, 27, Edit::Nothing, 26, Answer::Unsteady),
    // with one slot more in each period the links of slot 26 next come in slot 26 + 29, after 54 slots of 27 fields
    (0, 28, 29, Edit::Nothing, 27, Answer::LateLinks),
    (0, 28, 29, Edit::Nothing, 26, Answer::LateRow22),
    (0, 28, 28, Edit::Nothing, 26, Answer::LateRow23),
    // no first reading gives a yes for a cycle that is not accepted
    (0, 28, 28, Edit::Byte(0, 5, 0xd0), 27, Answer::Erased),
    (27, 28, 28, Edit::Byte(0, 5, 0xd0), 27, Answer::Erased),
    (0, 27, 28, Edit::Byte(0, 5, 0xd0), 27, Answer::Unsteady),
    (1, 30, 28, Edit::Byte(0, 5, 0xd0), 27, Answer::Unsteady),
    // slots that one wrong bit in each byte may turn into another packet, no header, and a header of subcode 0001 as the last one
    (0, 28, 28, Edit::Byte(4, 0, 0x03), 27, Answer::BadSlot4),
    (0, 28, 28, Edit::All(1, 0xff), 27, Answer::BadSlot1),
    (0, 28, 28, Edit::Byte(26, 2, 0x14), 27, Answer::BadSlot26),
    (0, 28, 28, Edit::All(0, 0x00), 27, Answer::NoHeader),
    (0, 28, 28, Edit::Header(27, OTHER_SUBPAGE), 27, Answer::OtherSubpage),
];

// The slots, of which one may be another.
fn slots(alloc: Global, edit: &Edit) -> Result<Vec<[u8; 42]>, AllocError> {
    let mut slots = base::slots(alloc)?;
    slots.push(beginning(&TIME_FILLING))?;
    let again = base::slots(alloc)?;
    slots.extend_from_slice(again.as_slice())?;
    match edit {
        Edit::Nothing => {}
        Edit::Byte(place, at, byte) => {
            if *at < 42
                && let Some(slot) = slots.get_mut(*place)
            {
                slot[*at] = *byte;
            }
        }
        Edit::All(place, byte) => {
            if let Some(slot) = slots.get_mut(*place) {
                *slot = [*byte; 42];
            }
        }
        Edit::Header(place, first) => {
            if let Some(slot) = slots.get_mut(*place) {
                *slot = beginning(first);
            }
        }
    }
    Ok(slots)
}

// The two packet files, and the certificate's text.
#[derive(Clone, Copy)]
struct Files<'a> {
    first: &'a [u8],
    second: &'a [u8],
    certificate: &'a [u8],
}

// What is returned for two readings with the worked service, and how many bytes of the room are written.
fn passed(
    alloc: Global,
    files: &Files<'_>,
    room: &mut [u8],
) -> (Result<Verdict, FilesFault>, usize) {
    let mut first = Counted::new(FaultyReader::new(files.first, 41, None));
    let mut second = Counted::new(FaultyReader::new(files.second, 43, None));
    let mut service = Counted::new(FaultyReader::new(SERVICE, 9, None));
    let mut certificate = Counted::new(FaultyReader::new(files.certificate, 10, None));
    let mut writer = Counted::new(FaultyWriter::new(room, 7, None));
    let answer = certify_passes(
        alloc,
        &mut first,
        &mut second,
        &mut service,
        &mut certificate,
        &mut writer,
    );
    (answer, writer.get_ref().taken().len())
}

// The line of an answer.
fn line_of(answer: &Answer) -> &'static [u8] {
    match answer {
        Answer::Yes => b"yes lines 2 repeat 1 deadline 27 pages 1\n",
        Answer::Unsteady => b"no 11 unsteady\n",
        Answer::BadSlot1 => b"no 1 bad-slot 1\n",
        Answer::BadSlot4 => b"no 1 bad-slot 4\n",
        Answer::BadSlot26 => b"no 1 bad-slot 26\n",
        Answer::NoHeader => b"no 2 no-header 100/0000\n",
        Answer::OtherSubpage => b"no 3 other-subpage 100/0000 27\n",
        Answer::Erased => b"no 4 erased 100/0000 0\n",
        Answer::LateRow22 => b"no 10 late 100/0000 row 22 24\n",
        Answer::LateRow23 => b"no 10 late 100/0000 row 23 25\n",
        Answer::LateLinks => b"no 10 late 100/0000 links 26\n",
        Answer::Truncated | Answer::Empty => b"",
    }
}

// Whether the returned value is that of the line.
fn is_value(value: &Result<Verdict, FilesFault>, answer: &Answer) -> bool {
    match value {
        Ok(Verdict::Yes) => matches!(answer, Answer::Yes),
        Ok(Verdict::No(_)) => line_of(answer).starts_with(b"no "),
        Err(FilesFault::Cycle(CycleFault::Truncated { rest })) => *rest == 1
            && matches!(answer, Answer::Truncated),
        Err(FilesFault::Cycle(CycleFault::Empty)) => matches!(answer, Answer::Empty),
        Err(_) => false,
    }
}

// Whether these readings give this answer, and its line is written.
fn is_answered(alloc: Global, files: &Files<'_>, answer: &Answer) -> bool {
    let mut room = [0; 100];
    let (value, count) = passed(alloc, files, &mut room);
    let line = line_of(answer);
    is_value(&value, answer) && count == line.len() && room.starts_with(line)
}

// A part of some slots.
fn part(slots: &Vec<[u8; 42]>, begin: usize, end: usize) -> &[[u8; 42]] {
    match slots.as_slice().get(begin..end) {
        Some(part) => part,
        None => &[],
    }
}

#[test]
fn readings_that_differ(rt: HostRuntime) -> Result<(), Fail> {
    for (begin, end, second_end, edit, deadline, answer) in &READINGS {
        let first = slots(rt.alloc(), &Edit::Nothing)?;
        let second = slots(rt.alloc(), edit)?;
        let text = certificate_text(rt.alloc(), *deadline)?;
        let files = Files {
            first: part(&first, *begin, *end).as_flattened(),
            second: part(&second, 0, *second_end).as_flattened(),
            certificate: text.as_bytes(),
        };
        assert!(rt;
            is_answered(rt.alloc(), &files, answer),
            "{begin} {end} {second_end}"
        );
    }
    Ok(())
}

// How many bytes the second file has, and the answer: its first slots are those of the worked cycle.
static SECOND_FILES: [(usize, Answer); 3] = [
    (1176, Answer::Yes),
    (1177, Answer::Truncated),
    (0, Answer::Empty),
];

#[test]
fn second_files(rt: HostRuntime) -> Result<(), Fail> {
    let slots = slots(rt.alloc(), &Edit::Nothing)?;
    let text = certificate_text(rt.alloc(), 27)?;
    for (count, answer) in &SECOND_FILES {
        let bytes = slots.as_slice().as_flattened();
        let files = Files {
            first: bytes.get(..1176).unwrap_or(&[]),
            second: bytes.get(..*count).unwrap_or(&[]),
            certificate: text.as_bytes(),
        };
        assert!(rt; is_answered(rt.alloc(), &files, answer), "{count}");
    }
    Ok(())
}

// How many slots of a time-filling header the first list has and how many the second, and whether the verdict is yes.
static LISTS: [(u32, u32, bool); 4] = [
    (65_536, 65_536, true),
    // the last slot is refused, and the walk is as before it
    (65_537, 65_536, true),
    (65_536, 65_537, false),
    (28, 0, false),
];

// How many slots of the worked cycle the second list has after an empty first one, and whether they are accepted. Where two lists
// differ, the verdict on an accepted one may be `Unsteady`.
static AFTER_NOTHING: [(u32, bool); 4] = [(28, true), (56, true), (1, false), (0, false)];

// Gives the first list to a walk: whether each slot above 65,536 is refused, and no other.
fn feeds(walk: &mut Walk<'_>, count: u32) -> bool {
    let slot = beginning(&TIME_FILLING);
    for at in 0..count {
        let is_refused = matches!(walk.first(&slot), Err(WalkFault::TooLong));
        if is_refused != (at >= 65_536) {
            return false;
        }
    }
    true
}

// The verdict if the second list has so many slots, these again and again.
fn finished(walk: Walk<'_>, slots: &[[u8; 42]], count: u32) -> Verdict {
    let mut second = walk.begin_second();
    for at in 0..count {
        if !slots.is_empty()
            && let Some(slot) = slots.get(at as usize % slots.len())
        {
            second.second(slot);
        }
    }
    second.finish()
}

#[test]
fn lists_of_many_slots(rt: HostRuntime) -> Result<(), Fail> {
    let Some(certificate) = Certificate::new(1, 1, 1, Vec::new(rt.alloc()), Class::Any) else {
        panic!(rt; "there is no certificate");
    };
    for (first, second, is_yes) in &LISTS {
        let Ok(mut walk) = Walk::new(rt.alloc(), &[], &certificate) else {
            panic!(rt; "there is no walk");
        };
        assert!(rt; feeds(&mut walk, *first), "{first}");
        let verdict = finished(walk, &[beginning(&TIME_FILLING)], *second);
        assert!(rt;
            matches!(verdict, Verdict::Yes) == *is_yes,
            "{first} {second}"
        );
    }
    Ok(())
}

#[test]
fn an_empty_first_list(rt: HostRuntime) -> Result<(), Fail> {
    let slots = base::slots(rt.alloc())?;
    let text = certificate_text(rt.alloc(), 27)?;
    let (Some(page), Ok(certificate)) = (page(0x20), read_certificate(rt.alloc(), text.as_bytes()))
    else {
        panic!(rt; "there is no page or certificate");
    };
    for (count, is_accepted) in &AFTER_NOTHING {
        let Ok(walk) = Walk::new(rt.alloc(), std::slice::from_ref(&page), &certificate) else {
            panic!(rt; "there is no walk");
        };
        let verdict = finished(walk, slots.as_slice(), *count);
        let is_allowed = match verdict {
            Verdict::Yes | Verdict::No(Reason::Unsteady) => *is_accepted
                || !matches!(verdict, Verdict::Yes),
            Verdict::No(_) => !*is_accepted,
        };
        assert!(rt; is_allowed, "{count}");
    }
    Ok(())
}
