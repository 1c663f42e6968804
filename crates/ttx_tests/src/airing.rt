//! Services on the air: what `air` writes, its log, and what it returns.

use crate::changes::edition;
use std::alloc::{AllocError, Global};
use std::test::Fail;
use ttx_air::{AirFault, Airtime, Candidate, Listed, News, Outputs, Receivers, air};
use ttx_cycle::Counted;
use ttx_cycle::faulty::FaultyWriter;
use ttx_send::Moment;

// The answers of the newsroom in the tests.
#[derive(Clone, Copy)]
enum Told {
    Edition(bool, u32),
    Words,
    Nothing,
}

fn candidate(
    alloc: Global,
    is_turned: bool,
    deadline: u32,
    mark: &str,
) -> Result<Option<Candidate>, AllocError> {
    match edition(alloc, is_turned, deadline)? {
        Some(edition) => Ok(Some(Candidate {
            edition,
            mark: String::from_str(alloc, mark)?,
        })),
        None => Ok(None),
    }
}

fn news(alloc: Global, told: Told) -> Result<News, AllocError> {
    match told {
        Told::Nothing => Ok(News::Nothing),
        Told::Words => Ok(News::Refused {
            mark: String::from_str(alloc, " c")?,
            words: String::from_str(alloc, "line 3 column 1: not a page")?,
        }),
        Told::Edition(is_turned, deadline) => {
            match candidate(alloc, is_turned, deadline, " b")? {
                Some(next) => Ok(News::Next(next)),
                None => Ok(News::Nothing),
            }
        }
    }
}

// The answers, the last one first: a change, a text without an edition, other numbers, nothing new, and back.
static TOLD: [Told; 5] = [
    Told::Edition(false, 36),
    Told::Nothing,
    Told::Edition(true, 35),
    Told::Words,
    Told::Edition(true, 36),
];

// The airing of 150 fields of two lines with these outputs.
fn aired(
    alloc: Global,
    receivers: Receivers,
    log: &mut [u8],
    packets: &mut [u8],
) -> Result<Option<(Result<(), AirFault>, usize, usize)>, AllocError> {
    let mut answers = Vec::new(alloc);
    for told in &TOLD {
        answers.push(news(alloc, *told)?)?;
    }
    let (Some(first), Some(start)) = (
        candidate(alloc, false, 36, " a")?,
        Moment::new(61_000, 0, 3_600),
    ) else {
        return Ok(None);
    };
    let mut newsroom = Listed::new(answers);
    let mut outputs = Outputs {
        log: Counted::new(FaultyWriter::new(log, 7, None)),
        packets: Counted::new(FaultyWriter::new(packets, 1_000, None)),
    };
    let airtime = Airtime {
        clock: start,
        fields: 150,
        receivers,
    };
    let answer = air(alloc, first, &airtime, &mut newsroom, &mut outputs);
    let noted = outputs.log.get_ref().taken().len();
    let written = outputs.packets.get_ref().taken().len();
    Ok(Some((answer, noted, written)))
}

// An edition is held for 72 slots, which are three periods of 28; the first one has no beginning.
static AT_ONCE: &[u8] =
    b"field 0 2025-11-21T01:00:00+01:00 on air a: 1 page, deadline 36 fields (0.72 s), 28 slots\n\
      field 14 2025-11-21T01:00:00+01:00 changed b: 0 pages new, 0 gone, deadline 36\n\
      field 56 2025-11-21T01:00:01+01:00 kept c: line 3 column 1: not a page\n\
      field 70 2025-11-21T01:00:01+01:00 kept b: no 3 numbers\n\
      field 98 2025-11-21T01:00:01+01:00 changed b: 0 pages new, 0 gone, deadline 36\n\
      field 150 2025-11-21T01:00:03+01:00 end\n";

// The turned cycle ends with the header of page 100, which the other one begins with.
static LATE: &[u8] =
    b"field 0 2025-11-21T01:00:00+01:00 on air a: 1 page, deadline 36 fields (0.72 s), 28 slots\n\
      field 14 2025-11-21T01:00:00+01:00 changed b: 0 pages new, 0 gone, deadline 36\n\
      field 56 2025-11-21T01:00:01+01:00 kept c: line 3 column 1: not a page\n\
      field 70 2025-11-21T01:00:01+01:00 kept b: no 3 numbers\n\
      field 98 2025-11-21T01:00:01+01:00 kept b: no 9 unfollowed 100/0000\n\
      field 150 2025-11-21T01:00:03+01:00 end\n";

// The FNV-1a hash.
fn sum(bytes: &[u8]) -> u32 {
    let mut sum: u32 = 0x811c_9dc5;
    for byte in bytes {
        sum = (sum ^ u32::from(*byte)).wrapping_mul(0x0100_0193);
    }
    sum
}

// The log, and the sum of the 12,600 bytes that a plain head-end in Python writes.
#[test]
fn the_log_says_what_happened(rt: HostRuntime) -> Result<(), Fail> {
    for (receivers, wanted, bytes) in [
        (Receivers::AtOnce, AT_ONCE, 89_575_217),
        (Receivers::Late { gap: 27 }, LATE, 3_920_182_229),
    ] {
        let mut log = [0; 1_000];
        let mut packets = [0; 20_000];
        let Some((answer, noted, written)) = aired(rt.alloc(), receivers, &mut log, &mut packets)?
        else {
            panic!(rt; "there is no edition");
        };
        assert!(rt; answer.is_ok());
        assert!(rt; written == 12_600);
        assert!(rt; log.get(..noted) == Some(wanted));
        let Some(sent) = packets.get(..written) else {
            panic!(rt; "more than the room is written");
        };
        assert!(rt; sum(sent) == bytes);
    }
    Ok(())
}

#[test]
fn a_page_that_is_followed_too_late_is_not_put_on_the_air(rt: HostRuntime) -> Result<(), Fail> {
    let mut log = [0; 1_000];
    let mut packets = [0; 20_000];
    let receivers = Receivers::Late { gap: 26 };
    let Some((answer, noted, written)) = aired(rt.alloc(), receivers, &mut log, &mut packets)?
    else {
        panic!(rt; "there is no edition");
    };
    assert!(rt; matches!(answer, Err(AirFault::TooFar { gap: 27 })));
    assert!(rt; noted == 0 && written == 0);
    Ok(())
}

#[test]
fn a_reader_that_has_gone_ends_it(rt: HostRuntime) -> Result<(), Fail> {
    let mut log = [0; 1_000];
    let mut packets = [0; 6_000];
    let Some((answer, noted, written)) = aired(
        rt.alloc(),
        Receivers::AtOnce,
        &mut log,
        &mut packets,
    )?
    else {
        panic!(rt; "there is no edition");
    };
    assert!(rt; matches!(answer, Err(AirFault::Write(fault)) if fault.written == 6_000));
    assert!(rt; written == 6_000);
    assert!(rt; noted < AT_ONCE.len());
    Ok(())
}

#[test]
fn a_log_that_fails_does_not_stop_the_air(rt: HostRuntime) -> Result<(), Fail> {
    let mut log = [0; 20];
    let mut packets = [0; 20_000];
    let Some((answer, noted, written)) = aired(
        rt.alloc(),
        Receivers::AtOnce,
        &mut log,
        &mut packets,
    )?
    else {
        panic!(rt; "there is no edition");
    };
    assert!(rt; answer.is_ok());
    assert!(rt; noted == 20 && written == 12_600);
    Ok(())
}
