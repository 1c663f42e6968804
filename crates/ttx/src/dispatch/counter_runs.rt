//! The commands of counter-runs: `refute`, `replay`.

use super::Outcome;
use super::inputs::{Claim, ClaimReaders};
use crate::devices::create_out;
use crate::reports::{report, status_of};
use std::io;
use std::io::Write;
use ttx_arguments::{RefuteOrder, ReplayForm, ReplayOrder};
use ttx_cycle::Counted;
use ttx_tool::commands::refute::Asked;
use ttx_tool::{FailureForm, ToolFault, commands};

// Looks for a receiver that fails to show a page: status 1 if one is found, otherwise 0.
fn refute_readers<O: Write>(
    rt: &HostRuntime,
    readers: &mut ClaimReaders,
    asked: Asked,
    file: &mut Counted<O>,
) -> Result<u8, ToolFault> {
    let mut writer = Counted::new(io::writer(rt));
    commands::refute::run(
        rt.alloc(),
        &mut readers.cycle,
        &mut readers.service,
        &mut readers.text,
        asked,
        file,
        &mut writer,
    )
}

fn refute_claim<O: Write + Drop>(
    rt: &HostRuntime,
    claim: Claim,
    asked: Asked,
    out: O,
) -> Result<u8, ToolFault> {
    let mut file = Counted::new(out);
    let mut readers = claim.readers(rt)?;
    refute_readers(rt, &mut readers, asked, &mut file)
}

/// Opens the cycle, the service and the certificate, makes the counter-run's file anew if it is named, and looks for one.
pub fn refute(rt: &HostRuntime, order: &RefuteOrder<'_>) -> Outcome {
    let claim = Claim::open(rt, order.cycle, order.service, order.certificate)?;
    let asked = Asked {
        save: order.save.is_some(),
        json: order.json,
    };
    let Some(out) = order.save else {
        return Ok(status_of(rt, refute_claim(rt, claim, asked, io::sink())));
    };
    let inputs = [&claim.cycle, &claim.service, &claim.text];
    match create_out(rt, &inputs, out)? {
        Some(file) => Ok(status_of(rt, refute_claim(rt, claim, asked, file))),
        None => Ok(report(rt, &ToolFault::Same)),
    }
}

// The status is 0 if the text is that of a counter-run, otherwise 1.
fn replay_readers(rt: &HostRuntime, readers: &mut ClaimReaders) -> Result<u8, ToolFault> {
    let mut writer = Counted::new(io::writer(rt));
    commands::replay::run(
        rt.alloc(),
        &mut readers.cycle,
        &mut readers.service,
        &mut readers.text,
        &mut writer,
    )
}

// The same as a picture.
fn picture_readers(
    rt: &HostRuntime,
    readers: &mut ClaimReaders,
    form: FailureForm,
) -> Result<u8, ToolFault> {
    let mut writer = Counted::new(io::writer(rt));
    commands::replay_page::run(
        rt.alloc(),
        &mut readers.cycle,
        &mut readers.service,
        &mut readers.text,
        form,
        &mut writer,
    )
}

fn replay_claim(rt: &HostRuntime, claim: Claim, form: ReplayForm) -> Result<u8, ToolFault> {
    let mut readers = claim.readers(rt)?;
    match form {
        ReplayForm::Words => replay_readers(rt, &mut readers),
        ReplayForm::Text => picture_readers(rt, &mut readers, FailureForm::Text),
        ReplayForm::Html => picture_readers(rt, &mut readers, FailureForm::Html),
    }
}

/// Opens the cycle, the service and the counter-run, and shows where the page is wrong at its end.
pub fn replay(rt: &HostRuntime, order: &ReplayOrder<'_>) -> Outcome {
    let claim = Claim::open(rt, order.cycle, order.service, order.counter)?;
    Ok(status_of(rt, replay_claim(rt, claim, order.form)))
}
