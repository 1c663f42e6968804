//! Changes from one cycle to another after so many periods of the old one: what `splice_files` returns, and what a head-end does.

use crate::base::{self, SERVICE, certificate_text};
use std::alloc::{AllocError, Global};
use std::test::Fail;
use ttx_certify::FilesFault;
use ttx_cycle::faulty::{FaultyReader, FaultyWriter};
use ttx_cycle::{Counted, Cycle};
use ttx_playout::{ChangeFault, Edition, OnAir};
use ttx_proof::{AfterPeriods, SentVerdict, SpliceReason, splice_files};
use ttx_source::read_service;
use ttx_witness::read_certificate;

// The worked cycle has 28 slots, and with 27 fields of two lines a deadline of 54. The deadlines of the old and the new certificate in
// fields, for how many periods the old cycle has been sent, and the line.
static CHANGES: [(u32, u32, u32, &[u8]); 9] = [
    (27, 27, 0, b"no 6 too-soon 54\n"),
    (27, 27, 1, b"no 6 too-soon 26\n"),
    (27, 27, 2, b"yes\n"),
    (27, 27, 4_294_967_295, b"yes\n"),
    // the splice's own reasons come first
    (27, 28, 2, b"no 3 numbers\n"),
    (27, 28, 0, b"no 3 numbers\n"),
    (26, 27, 0, b"no 1 old 10 late 100/0000 row 23 25\n"),
    (27, 26, 0, b"no 2 new 10 late 100/0000 row 23 25\n"),
    (28, 28, 1, b"no 6 too-soon 28\n"),
];

// What is returned if the worked cycle follows itself, and how many bytes of the room are written.
fn changed(
    alloc: Global,
    cycle: &[u8],
    texts: [&[u8]; 2],
    periods: u32,
    room: &mut [u8],
) -> (Result<SentVerdict, FilesFault>, usize) {
    let mut old = Counted::new(FaultyReader::new(cycle, 41, None));
    let mut new = Counted::new(FaultyReader::new(cycle, 43, None));
    let mut old_service = Counted::new(FaultyReader::new(SERVICE, 9, None));
    let mut new_service = Counted::new(FaultyReader::new(SERVICE, 10, None));
    let [first, second] = texts;
    let mut old_certificate = Counted::new(FaultyReader::new(first, 11, None));
    let mut new_certificate = Counted::new(FaultyReader::new(second, 12, None));
    let mut writer = Counted::new(FaultyWriter::new(room, 7, None));
    let answer = splice_files(
        alloc,
        &AfterPeriods(periods),
        &mut old,
        &mut new,
        &mut old_service,
        &mut new_service,
        &mut old_certificate,
        &mut new_certificate,
        &mut writer,
    );
    (answer, writer.get_ref().taken().len())
}

// Whether the verdict is that of the line.
fn is_verdict(answer: &Result<SentVerdict, FilesFault>, line: &[u8]) -> bool {
    match answer {
        Ok(SentVerdict::Yes) => line.starts_with(b"yes\n"),
        Ok(SentVerdict::No(SpliceReason::Old(_))) => line.starts_with(b"no 1 old "),
        Ok(SentVerdict::No(SpliceReason::New(_))) => line.starts_with(b"no 2 new "),
        Ok(SentVerdict::No(SpliceReason::Numbers)) => line.starts_with(b"no 3 numbers\n"),
        Ok(SentVerdict::TooSoon { left }) => matches!(*left, 54 | 28 | 26)
            && line.starts_with(b"no 6 too-soon "),
        _ => false,
    }
}

#[test]
fn changes_that_come_too_soon(rt: HostRuntime) -> Result<(), Fail> {
    let slots = base::slots(rt.alloc())?;
    for (old, new, periods, line) in &CHANGES {
        let mut room = [0; 100];
        let old_text = certificate_text(rt.alloc(), *old)?;
        let new_text = certificate_text(rt.alloc(), *new)?;
        let texts = [old_text.as_bytes(), new_text.as_bytes()];
        let cycle = slots.as_slice().as_flattened();
        let (answer, count) = changed(rt.alloc(), cycle, texts, *periods, &mut room);
        assert!(rt; is_verdict(&answer, line), "{old} {new} {periods}");
        assert!(rt; room.get(..count) == Some(*line), "{old} {new} {periods}");
    }
    Ok(())
}

// The entries of the certificate of the worked cycle turned by ten slots.
static TURNED: &str = "100/0000 head 18\n100/0000 row 1 21\n100/0000 row 2 22\n100/0000 row 3 23\n\
      100/0000 row 4 24\n100/0000 row 5 25\n100/0000 row 6 26\n100/0000 row 7 27\n100/0000 row 8 0\n100/0000 row 9 1\n\
      100/0000 row 10 2\n100/0000 row 11 3\n100/0000 row 12 4\n100/0000 row 13 5\n100/0000 row 14 6\n100/0000 row 15 7\n\
      100/0000 row 16 8\n100/0000 row 17 9\n100/0000 row 18 10\n100/0000 row 19 11\n100/0000 row 20 12\n100/0000 row 21 13\n\
      100/0000 row 22 14\n100/0000 row 23 15\n100/0000 links 16\n";

// The worked cycle, or the turned one, with a deadline in fields.
pub(crate) fn edition(
    alloc: Global,
    is_turned: bool,
    deadline: u32,
) -> Result<Option<Edition>, AllocError> {
    let mut slots = base::slots(alloc)?;
    let mut text = certificate_text(alloc, deadline)?;
    if is_turned && slots.len() > 10 {
        slots.rotate_left(10);
        text = format!(in alloc;
            "ttx certificate 1\nlines 2\nrepeat 1\ndeadline {deadline}\n{TURNED}"
        )?;
    }
    let cycle = Cycle::of(slots);
    let service = read_service(alloc, SERVICE);
    let certificate = read_certificate(alloc, text.as_bytes());
    if let (Some(cycle), Ok(service), Ok(certificate)) = (cycle, service, certificate) {
        return Ok(Some(Edition {
            cycle,
            service,
            certificate,
        }));
    }
    Ok(None)
}

// What is returned if an edition is to follow.
enum Answer {
    Follows,
    TooSoon(u32),
    Numbers,
}

fn is_answer(answer: &Result<Edition, ChangeFault>, wanted: &Answer) -> bool {
    match answer {
        Ok(_) => matches!(wanted, Answer::Follows),
        Err(ChangeFault::TooSoon { left }) =>
            matches!(wanted, Answer::TooSoon(slots) if *slots == *left),
        Err(ChangeFault::Refused(SpliceReason::Numbers)) => matches!(wanted, Answer::Numbers),
        Err(_) => false,
    }
}

// With 36 fields of two lines an edition is held for 72 slots, which are three periods of 28; the first one has no beginning. How many periods go
// out, whether the turned cycle is to follow then, its deadline, and the answer.
static FOLLOWING: [(usize, bool, u32, Answer); 7] = [
    (1, true, 36, Answer::Follows),
    (0, false, 36, Answer::TooSoon(72)),
    (1, false, 36, Answer::TooSoon(44)),
    (1, false, 36, Answer::TooSoon(16)),
    (1, false, 36, Answer::Follows),
    (3, true, 35, Answer::Numbers),
    (0, true, 36, Answer::Follows),
];

#[test]
fn turned_editions_follow_one_another(rt: HostRuntime) -> Result<(), Fail> {
    let Some(first) = edition(rt.alloc(), false, 36)? else {
        panic!(rt; "there is no edition");
    };
    let Ok(mut on_air) = OnAir::start(rt.alloc(), first) else {
        panic!(rt; "it is not put on the air");
    };
    for (periods, is_turned, deadline, wanted) in &FOLLOWING {
        for _ in 0..*periods {
            for _ in 0..28u32 {
                let _ = on_air.next_slot();
            }
        }
        let Some(next) = edition(rt.alloc(), *is_turned, *deadline)? else {
            panic!(rt; "there is no edition");
        };
        let answer = on_air.follow(rt.alloc(), next);
        assert!(rt; is_answer(&answer, wanted), "{periods} {deadline}");
    }
    Ok(())
}
