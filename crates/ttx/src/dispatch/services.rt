//! The commands that take a service alone: `check`, `plan`.

use super::Outcome;
use super::desks::shown_name;
use super::inputs::{RecordedInput, buffered, recorded};
use crate::devices::{Input, create_out, open_input};
use crate::reports::{report, status_of, told};
use std::fs::File;
use std::io;
use std::io::{BufReader, IsTerminal};
use ttx_arguments::{CheckOrder, PlanOrder};
use ttx_cycle::Counted;
use ttx_kinds::Place;
use ttx_plan::Receivers;
use ttx_promise::Viewers;
use ttx_tool::commands::check::Style;
use ttx_tool::{ToolFault, commands};

// On a terminal the report is long.
fn checked(
    rt: &HostRuntime,
    reader: &mut RecordedInput,
    order: &CheckOrder<'_>,
) -> Result<u8, ToolFault> {
    let (file, strict) = (shown_name(order.service), order.strict);
    let mut writer = Counted::new(io::writer(rt));
    if order.json {
        return commands::check_json::run(rt.alloc(), file, strict, reader, &mut writer);
    }
    let style = Style {
        file,
        long: order.long || rt.stdout().is_terminal(),
        strict,
    };
    commands::check::run(rt.alloc(), style, reader, &mut writer)
}

// Says what the file is if it is neither a service nor an author's text.
fn check_input(rt: &HostRuntime, input: Input, order: &CheckOrder<'_>) -> Result<u8, ToolFault> {
    let mut reader = recorded(rt, input)?;
    let answer = checked(rt, &mut reader, order);
    let status = status_of(rt, answer);
    Ok(told(rt, Place::ServiceOrAuthor, reader.get_ref().kept(), status))
}

/// Opens the service, or an author's text, and reports what is wrong, or probably wrong, in it.
pub fn check(rt: &HostRuntime, order: &CheckOrder<'_>) -> Outcome {
    let input = open_input(rt, order.service)?;
    Ok(status_of(rt, check_input(rt, input, order)))
}

fn plan_to(
    rt: &HostRuntime,
    reader: &mut Counted<BufReader<Input>>,
    receivers: Receivers,
    file: &mut Counted<File>,
) -> Result<u8, ToolFault> {
    let mut writer = Counted::new(io::writer(rt));
    commands::plan::run(rt.alloc(), reader, receivers, file, &mut writer)
}

// The same with spread rounds. The promises of the service hold for viewers who receive each item right the first time (repeat 1).
fn plan_spread_to(
    rt: &HostRuntime,
    reader: &mut Counted<BufReader<Input>>,
    receivers: Receivers,
    file: &mut Counted<File>,
) -> Result<u8, ToolFault> {
    let mut writer = Counted::new(io::writer(rt));
    let viewers = Viewers {
        receivers,
        repeat: 1,
    };
    commands::plan_spread::run(rt.alloc(), reader, viewers, file, &mut writer)
}

fn plan_input(
    rt: &HostRuntime,
    input: Input,
    order: &PlanOrder<'_>,
    out: File,
) -> Result<u8, ToolFault> {
    let mut file = Counted::new(out);
    let mut reader = buffered(rt, input)?;
    let receivers = Receivers {
        class: order.class,
        late: order.late,
    };
    if order.spread {
        plan_spread_to(rt, &mut reader, receivers, &mut file)
    } else {
        plan_to(rt, &mut reader, receivers, &mut file)
    }
}

/// Opens the service, makes the cycle's file anew, and plans.
pub fn plan(rt: &HostRuntime, order: &PlanOrder<'_>) -> Outcome {
    let service = open_input(rt, order.service)?;
    match create_out(rt, &[&service], order.out)? {
        Some(file) => Ok(status_of(rt, plan_input(rt, service, order, file))),
        None => Ok(report(rt, &ToolFault::Same)),
    }
}
