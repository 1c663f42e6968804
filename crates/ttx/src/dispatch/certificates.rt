//! The commands that judge a cycle by its service: `certify`, `find`, `report`, `wait`.

use super::Outcome;
use super::inputs::{Claim, SentService, SentServiceReaders, buffered};
use crate::devices::{Input, create_out, open_input};
use crate::reports::{report, report_no_date, status_of};
use std::fs::File;
use std::io;
use ttx_arguments::{CertifyOrder, Fields, FindOrder, ReportOrder, WaitOrder};
use ttx_cycle::Counted;
use ttx_deadline::Asked;
use ttx_report::is_date;
use ttx_tool::commands::certify::Judgement;
use ttx_tool::commands::wait::Question;
use ttx_tool::{ToolFault, commands};
use ttx_wait::Detail;

// What is asked for, beside the form of the answer.
fn judgement_of(order: &CertifyOrder<'_>) -> Judgement {
    match order.within {
        Some(fields) => Judgement::Within(fields.count()),
        None if order.numbers => Judgement::Numbers,
        None if order.all => Judgement::All,
        None if order.late => Judgement::Late,
        None => Judgement::AtOnce,
    }
}

fn certify_claim(
    rt: &HostRuntime,
    inputs: Claim,
    order: &CertifyOrder<'_>,
) -> Result<u8, ToolFault> {
    let mut claim = inputs.claim(rt)?;
    let mut writer = Counted::new(io::writer(rt));
    commands::certify::run(
        rt.alloc(),
        &mut claim,
        judgement_of(order),
        order.json,
        &mut writer,
    )
}

// The same for a cycle that is read twice.
fn certify_twice(
    rt: &HostRuntime,
    first: Input,
    inputs: Claim,
    json: bool,
) -> Result<u8, ToolFault> {
    let mut first = buffered(rt, first)?;
    let mut claim = inputs.claim(rt)?;
    let mut writer = Counted::new(io::writer(rt));
    commands::certify::run_twice(rt.alloc(), &mut first, &mut claim, json, &mut writer)
}

/// Opens the cycle, once more where it is read twice, the service and the certificate, and judges the cycle by the certificate.
pub fn certify(rt: &HostRuntime, order: &CertifyOrder<'_>) -> Outcome {
    if order.twice && !order.late {
        let first = open_input(rt, order.cycle)?;
        let inputs = Claim::open(rt, order.cycle, order.service, order.certificate)?;
        return Ok(status_of(rt, certify_twice(rt, first, inputs, order.json)));
    }
    let inputs = Claim::open(rt, order.cycle, order.service, order.certificate)?;
    Ok(status_of(rt, certify_claim(rt, inputs, order)))
}

// The status is 0 if there is a deadline, otherwise 1.
fn find_in(
    rt: &HostRuntime,
    readers: &mut SentServiceReaders,
    order: &FindOrder<'_>,
    file: &mut Counted<File>,
) -> Result<u8, ToolFault> {
    let mut writer = Counted::new(io::writer(rt));
    commands::find::run(
        rt.alloc(),
        &mut readers.cycle,
        &mut readers.service,
        order.repeat.count(),
        order.class,
        file,
        &mut writer,
    )
}

// The same with a deadline that is asked for.
fn find_in_with(
    rt: &HostRuntime,
    readers: &mut SentServiceReaders,
    order: &FindOrder<'_>,
    fields: Fields,
    file: &mut Counted<File>,
) -> Result<u8, ToolFault> {
    let mut writer = Counted::new(io::writer(rt));
    let asked = Asked {
        class: order.class,
        repeat: order.repeat.count(),
        deadline: fields.count(),
    };
    commands::find_deadline::run(
        rt.alloc(),
        &mut readers.cycle,
        &mut readers.service,
        asked,
        file,
        &mut writer,
    )
}

fn find_to(
    rt: &HostRuntime,
    inputs: SentService,
    order: &FindOrder<'_>,
    out: File,
) -> Result<u8, ToolFault> {
    let mut file = Counted::new(out);
    let mut readers = inputs.readers(rt)?;
    match order.deadline {
        None => find_in(rt, &mut readers, order, &mut file),
        Some(fields) => find_in_with(rt, &mut readers, order, fields, &mut file),
    }
}

/// Opens the cycle and the service, makes the certificate's file anew, and finds the certificate.
pub fn find(rt: &HostRuntime, order: &FindOrder<'_>) -> Outcome {
    let inputs = SentService::open(rt, order.cycle, order.service)?;
    match create_out(rt, &[&inputs.cycle, &inputs.service], order.out)? {
        Some(file) => Ok(status_of(rt, find_to(rt, inputs, order, file))),
        None => Ok(report(rt, &ToolFault::Same)),
    }
}

// The status is 0 where the verdict is yes, otherwise 1.
fn report_to(
    rt: &HostRuntime,
    claim: Claim,
    date: Option<&str>,
    out: File,
) -> Result<u8, ToolFault> {
    let mut file = Counted::new(out);
    let mut readers = claim.readers(rt)?;
    let answer = commands::report::run(
        rt.alloc(),
        &mut readers.cycle,
        &mut readers.service,
        &mut readers.text,
        date,
        &mut file,
    );
    Ok(readers.told(rt, status_of(rt, answer)))
}

// Whether there is a date that is not in the calendar.
fn has_wrong_date(order: &ReportOrder<'_>) -> bool {
    match order.date {
        Some(date) => !is_date(date),
        None => false,
    }
}

/// Opens the cycle, the service and the certificate, makes the document's file anew, and writes the report to it. A text that is no date is
/// refused before anything is opened.
pub fn report_on(rt: &HostRuntime, order: &ReportOrder<'_>) -> Outcome {
    if has_wrong_date(order) {
        return Ok(report_no_date(rt));
    }
    let claim = Claim::open(rt, order.cycle, order.service, order.certificate)?;
    let inputs = [&claim.cycle, &claim.service, &claim.text];
    match create_out(rt, &inputs, order.out)? {
        Some(file) => Ok(status_of(rt, report_to(rt, claim, order.date, file))),
        None => Ok(report(rt, &ToolFault::Same)),
    }
}

// Which lines are asked for.
fn detail_of(order: &WaitOrder<'_>) -> Detail {
    if order.items {
        Detail::Items
    } else {
        Detail::Pages
    }
}

// The status is 0 if there is a deadline for all pages, otherwise 1.
fn wait_for(rt: &HostRuntime, inputs: SentService, order: &WaitOrder<'_>) -> Result<u8, ToolFault> {
    let mut readers = inputs.readers(rt)?;
    let mut writer = Counted::new(io::writer(rt));
    let question = Question {
        repeat: order.repeat.count(),
        class: order.class,
        detail: detail_of(order),
        numbers: order.numbers,
        json: order.json,
    };
    let answer = commands::wait::run(
        rt.alloc(),
        &mut readers.cycle,
        &mut readers.service,
        question,
        &mut writer,
    );
    Ok(readers.told(rt, status_of(rt, answer)))
}

/// Opens the cycle and the service, and writes how long viewers of each page wait.
pub fn wait(rt: &HostRuntime, order: &WaitOrder<'_>) -> Outcome {
    let inputs = SentService::open(rt, order.cycle, order.service)?;
    Ok(status_of(rt, wait_for(rt, inputs, order)))
}
