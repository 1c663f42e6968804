//! Editions of the worked service that follow one another on the air.

use crate::base::{self, HEADER, SERVICE, TIME_FILLING, beginning, certificate_text};
use std::alloc::Global;
use std::test::Fail;
use ttx_certify::Verdict;
use ttx_change::{WholeChange, judge_whole};
use ttx_cycle::Cycle;
use ttx_late::LateVerdict;
use ttx_playout::{ChangeFault, Edition, LateChange, OnAir, StartFault};
use ttx_proof::{SpliceReason, SpliceVerdict};
use ttx_rows::{certify_by_rows, certify_late_by_rows};
use ttx_source::read_service;
use ttx_witness::{Reason, read_certificate};

static CLEARING: &[u8] =
    b"ttx certificate 2\nclass clearing\nlines 2\nrepeat 1\ndeadline 2\n100/0000 head 0\n";

// What is returned if an edition is to follow: it does, or in how many slots it may.
enum Answer {
    Follows,
    TooSoon(u32),
    Amid(u32),
}

// How many slots go out, and what is returned then if the worked edition is to follow.
static CHANGES: [(usize, Answer); 6] = [
    (0, Answer::Follows),
    (0, Answer::TooSoon(54)),
    (28, Answer::TooSoon(26)),
    (1, Answer::TooSoon(26)),
    (28, Answer::Amid(27)),
    (27, Answer::Follows),
];

// An edition of the worked service.
fn edition_of(alloc: Global, slots: Vec<[u8; 42]>, certificate: &[u8]) -> Option<Edition> {
    match (
        Cycle::of(slots),
        read_service(alloc, SERVICE),
        read_certificate(alloc, certificate),
    ) {
        (Some(cycle), Ok(service), Ok(certificate)) => Some(Edition {
            cycle,
            service,
            certificate,
        }),
        _ => None,
    }
}

// The worked edition with a deadline.
fn edition(alloc: Global, deadline: u32) -> Option<Edition> {
    match (base::slots(alloc), certificate_text(alloc, deadline)) {
        (Ok(slots), Ok(text)) => edition_of(alloc, slots, text.as_bytes()),
        _ => None,
    }
}

// Whether this is the answer if the worked edition is to follow.
fn is_answered(alloc: Global, on_air: &mut OnAir, wanted: &Answer) -> bool {
    let Some(next) = edition(alloc, 27) else {
        return false;
    };
    match on_air.follow(alloc, next) {
        Ok(former) => matches!(wanted, Answer::Follows) && former.certificate.deadline() == 27,
        Err(ChangeFault::TooSoon { left }) =>
            matches!(wanted, Answer::TooSoon(slots) if *slots == left),
        Err(ChangeFault::Amid { left }) => matches!(wanted, Answer::Amid(slots) if *slots == left),
        Err(_) => false,
    }
}

#[test]
fn editions_follow_one_another(rt: HostRuntime) -> Result<(), Fail> {
    let slots = base::slots(rt.alloc())?;
    let Some(first) = edition(rt.alloc(), 27) else {
        panic!(rt; "there is no edition");
    };
    let Ok(mut on_air) = OnAir::start(rt.alloc(), first) else {
        panic!(rt; "it is not put on the air");
    };
    let mut sent = 0usize;
    for (count, answer) in &CHANGES {
        for _ in 0..*count {
            assert!(rt; slots.get(sent % 28) == Some(&on_air.next_slot()), "{sent}");
            sent = sent.saturating_add(1);
        }
        assert!(rt; is_answered(rt.alloc(), &mut on_air, answer), "{count}");
    }
    Ok(())
}

// Whether this is the verdict on a change to the edition, by its deadline: 27 is that of the one on the air.
fn is_judged(alloc: Global, on_air: &OnAir, next: &Edition, gap: usize) -> bool {
    let is_same = next.certificate.deadline() == 27;
    let is_spliced = match on_air.judge(alloc, next) {
        Ok(SpliceVerdict::Yes) => is_same,
        Ok(SpliceVerdict::No(SpliceReason::Numbers)) => !is_same,
        _ => false,
    };
    let is_late = match on_air.judge_late(alloc, next, gap) {
        Ok(LateChange::Yes) => is_same && gap == 27,
        Ok(LateChange::TooFar { gap: greatest }) => is_same && gap == 26 && greatest == 27,
        Ok(LateChange::No(SpliceReason::Numbers)) => !is_same,
        _ => false,
    };
    is_spliced && is_late && is_judged_whole(alloc, on_air, next, gap)
}

// The same for receivers that show a page only where it ends; the cycle leaves nothing open.
fn is_judged_whole(alloc: Global, on_air: &OnAir, next: &Edition, gap: usize) -> bool {
    let is_same = next.certificate.deadline() == 27;
    match judge_whole(alloc, on_air, next, gap) {
        Ok(WholeChange::Yes) => is_same && gap == 27,
        Ok(WholeChange::No(LateChange::TooFar { gap: greatest })) => is_same
            && gap == 26
            && greatest == 27,
        Ok(WholeChange::No(LateChange::No(SpliceReason::Numbers))) => !is_same,
        _ => false,
    }
}

// Whether the edition takes over where its change is accepted.
fn takes(alloc: Global, on_air: &mut OnAir, next: Edition) -> bool {
    if on_air.is_time()
        && let Ok(SpliceVerdict::Yes) = on_air.judge(alloc, &next)
    {
        let former = on_air.take(next);
        return former.certificate.deadline() == 27 && on_air.is_between() && !on_air.is_time();
    }
    false
}

// The deadline of a next edition, and the most slots to another page header.
static JUDGED: [(u32, usize); 3] = [(27, 27), (27, 26), (28, 27)];

#[test]
fn changes_are_judged(rt: HostRuntime) -> Result<(), Fail> {
    let (Some(first), Some(second)) = (edition(rt.alloc(), 27), edition(rt.alloc(), 27)) else {
        panic!(rt; "there is no edition");
    };
    let Ok(mut on_air) = OnAir::start(rt.alloc(), first) else {
        panic!(rt; "it is not put on the air");
    };
    for (deadline, gap) in &JUDGED {
        let Some(next) = edition(rt.alloc(), *deadline) else {
            panic!(rt; "there is no edition");
        };
        assert!(rt;
            is_judged(rt.alloc(), &on_air, &next, *gap),
            "{deadline} {gap}"
        );
    }
    assert!(rt; takes(rt.alloc(), &mut on_air, second));
    Ok(())
}

// Whether the certifiers for receivers that lose rows give the verdict of `certify` on the edition: yes exactly at 27 fields.
fn is_certified(alloc: Global, edition: &Edition) -> bool {
    let (cycle, service, certificate) = (&edition.cycle, &edition.service, &edition.certificate);
    let is_on_time = certificate.deadline() == 27;
    let is_seen = match certify_by_rows(alloc, cycle, service, certificate) {
        Ok(Verdict::Yes) => is_on_time,
        Ok(Verdict::No(Reason::Late { .. })) => !is_on_time,
        _ => false,
    };
    let is_shown = match certify_late_by_rows(alloc, cycle, service, certificate) {
        Ok(LateVerdict::Yes { gap }) => is_on_time && gap == 27,
        Ok(LateVerdict::No(Reason::Late { .. })) => !is_on_time,
        _ => false,
    };
    is_seen && is_shown
}

#[test]
fn editions_that_are_refused(rt: HostRuntime) -> Result<(), Fail> {
    let (Some(worked), Some(late)) = (edition(rt.alloc(), 27), edition(rt.alloc(), 26)) else {
        panic!(rt; "there is no edition");
    };
    assert!(rt; is_certified(rt.alloc(), &worked) && is_certified(rt.alloc(), &late));
    let is_late = matches!(
        OnAir::start(rt.alloc(), late),
        Err(StartFault::Refused(Reason::Late { .. }))
    );
    assert!(rt; is_late);
    let slots = [
        beginning(&HEADER),
        [0; 42],
        [0; 42],
        beginning(&TIME_FILLING),
    ];
    let slots = Vec::from_slice(rt.alloc(), &slots)?;
    let Some(clearing) = edition_of(rt.alloc(), slots, CLEARING) else {
        panic!(rt; "there is no edition");
    };
    let is_clearing = matches!(
        OnAir::start(rt.alloc(), clearing),
        Err(StartFault::Clearing)
    );
    assert!(rt; is_clearing);
    Ok(())
}
