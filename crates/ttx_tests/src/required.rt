//! Certificates with a deadline that is asked for: found with it, or required of one.

use crate::promised::{TWO, VIEWERS};
use std::test::Fail;
use ttx_certify::Verdict;
use ttx_deadline::{
    Asked, LateRequiredVerdict, RequiredVerdict, certify_late_required, certify_required,
    find_with, first_unmet, late_required_line, required_line,
};
use ttx_late::LateVerdict;
use ttx_page::Class;
use ttx_plan::plan_spread;
use ttx_source::read_service;

#[test]
fn certificates_carry_the_deadline_that_is_asked_for(rt: HostRuntime) -> Result<(), Fail> {
    let Ok(service) = read_service(rt.alloc(), TWO) else {
        panic!(rt; "there is no service");
    };
    let Ok(cycle) = plan_spread(rt.alloc(), &service, VIEWERS.receivers) else {
        panic!(rt; "there is no plan");
    };
    for (deadline, found_one) in [(22, true), (1000, true), (21, false)] {
        let asked = Asked {
            class: Class::Any,
            repeat: 1,
            deadline,
        };
        let Ok(found) = find_with(rt.alloc(), &cycle, &service, asked) else {
            panic!(rt; "nothing is found");
        };
        assert!(rt; found.certificate.deadline() == deadline);
        let is_yes = matches!(found.verdict, Verdict::Yes);
        assert!(rt; is_yes == found_one);
    }
    Ok(())
}

#[test]
fn deadlines_are_required(rt: HostRuntime) -> Result<(), Fail> {
    let Ok(service) = read_service(rt.alloc(), TWO) else {
        panic!(rt; "there is no service");
    };
    let Ok(cycle) = plan_spread(rt.alloc(), &service, VIEWERS.receivers) else {
        panic!(rt; "there is no plan");
    };
    let asked = Asked {
        class: Class::Any,
        repeat: 1,
        deadline: 22,
    };
    let Ok(found) = find_with(rt.alloc(), &cycle, &service, asked) else {
        panic!(rt; "nothing is found");
    };
    let certificate = found.certificate;
    assert!(rt; first_unmet(&service, &certificate, 22).is_none());
    let Ok(RequiredVerdict::Yes) = certify_required(
        rt.alloc(),
        &cycle,
        &service,
        &certificate,
        Some(22),
    ) else {
        panic!(rt; "the deadline is not met");
    };
    let Ok(verdict) = certify_required(rt.alloc(), &cycle, &service, &certificate, Some(21)) else {
        panic!(rt; "there is no verdict");
    };
    let Ok(line) = required_line(rt.alloc(), &certificate, 2, verdict) else {
        panic!(rt; "there is no line");
    };
    assert!(rt; line.as_str() == "no deadline 22 of 21\n");
    Ok(())
}

// The next header of the magazine comes 29 slots after each page header: on 4 lines that is 8 fields after the 22 of the deadline.
#[test]
fn late_receivers_have_a_requirement(rt: HostRuntime) -> Result<(), Fail> {
    let Ok(service) = read_service(rt.alloc(), TWO) else {
        panic!(rt; "there is no service");
    };
    let Ok(cycle) = plan_spread(rt.alloc(), &service, VIEWERS.receivers) else {
        panic!(rt; "there is no plan");
    };
    let asked = Asked {
        class: Class::Any,
        repeat: 1,
        deadline: 22,
    };
    let Ok(found) = find_with(rt.alloc(), &cycle, &service, asked) else {
        panic!(rt; "nothing is found");
    };
    let certificate = found.certificate;
    let Ok(LateRequiredVerdict::Certified(LateVerdict::Yes { gap })) = certify_late_required(
        rt.alloc(),
        &cycle,
        &service,
        &certificate,
        30,
    ) else {
        panic!(rt; "the deadline is not met");
    };
    assert!(rt; gap == 29);
    let Ok(verdict) = certify_late_required(rt.alloc(), &cycle, &service, &certificate, 29) else {
        panic!(rt; "there is no verdict");
    };
    let Ok(line) = late_required_line(rt.alloc(), &certificate, 2, verdict) else {
        panic!(rt; "there is no line");
    };
    assert!(rt; line.as_str() == "no late-deadline 30 of 29\n");
    Ok(())
}
