//! The commands that take a cycle alone: `inspect`, `pages`, `book`, `extract`.

use super::Outcome;
use super::inputs::{RecordedInput, buffered, recorded};
use crate::devices::{Input, create_out, open_input};
use crate::reports::{diagnosed, report, status_of, told};
use std::fs::File;
use std::io;
use ttx_arguments::Lines;
use ttx_cycle::Counted;
use ttx_extract::ExtractFault;
use ttx_kinds::Place;
use ttx_tool::commands::extract::{Extraction, Whole};
use ttx_tool::commands::extract_partly::Partly;
use ttx_tool::{ExtractionFault, ToolFault, commands};

fn inspect_input(rt: &HostRuntime, input: Input) -> Result<u8, ToolFault> {
    let mut reader = buffered(rt, input)?;
    let mut writer = Counted::new(io::writer(rt));
    commands::inspect::run(rt.alloc(), &mut reader, &mut writer).map(|()| 0)
}

/// Shows the slots of a packet file.
pub fn inspect(rt: &HostRuntime, file: &str) -> Outcome {
    Ok(status_of(rt, inspect_input(rt, open_input(rt, file)?)))
}

// The status of a command on a cycle; says what it is if it is no packet file.
fn told_of(rt: &HostRuntime, reader: &RecordedInput, status: u8) -> u8 {
    let bytes = reader.get_ref().kept();
    told(rt, Place::Cycle, bytes, diagnosed(rt, bytes, status))
}

fn pages_of(rt: &HostRuntime, reader: &mut RecordedInput, json: bool) -> Result<u8, ToolFault> {
    let mut writer = Counted::new(io::writer(rt));
    if json {
        commands::pages::run_json(rt.alloc(), reader, &mut writer)
    } else {
        commands::pages::run(rt.alloc(), reader, &mut writer)
    }
}

/// Lists the pages of a cycle.
pub fn pages(rt: &HostRuntime, cycle: &str, json: bool) -> Outcome {
    let mut reader = match recorded(rt, open_input(rt, cycle)?) {
        Ok(reader) => reader,
        Err(fault) => return Ok(report(rt, &fault)),
    };
    let status = status_of(rt, pages_of(rt, &mut reader, json));
    Ok(told_of(rt, &reader, status))
}

fn book_of(rt: &HostRuntime, reader: &mut RecordedInput, out: File) -> Result<u8, ToolFault> {
    let mut file = Counted::new(out);
    commands::book::run(rt.alloc(), reader, &mut file)
}

/// Opens the cycle, makes the book's file anew, and writes all pages of the cycle to it.
pub fn book(rt: &HostRuntime, cycle: &str, out: &str) -> Outcome {
    let cycle = open_input(rt, cycle)?;
    let Some(file) = create_out(rt, &[&cycle], out)? else {
        return Ok(report(rt, &ToolFault::Same));
    };
    let mut reader = match recorded(rt, cycle) {
        Ok(reader) => reader,
        Err(fault) => return Ok(report(rt, &fault)),
    };
    let status = status_of(rt, book_of(rt, &mut reader, file));
    Ok(told_of(rt, &reader, status))
}

// A refusal has a line of its own.
fn report_refused(rt: &HostRuntime, fault: &ExtractFault) -> Result<u8, ToolFault> {
    let mut errors = Counted::new(rt.stderr());
    commands::report_extraction(rt.alloc(), fault, &mut errors)
}

fn extract_from<E: Extraction>(
    rt: &HostRuntime,
    reader: &mut RecordedInput,
    lines: u8,
    out: File,
) -> Result<u8, ToolFault> {
    let mut file = Counted::new(out);
    let mut writer = Counted::new(io::writer(rt));
    match commands::extract::run::<E, _, _, _>(rt.alloc(), reader, lines, &mut file, &mut writer) {
        Ok(status) => Ok(status),
        Err(ExtractionFault::Tool(fault)) => Err(fault),
        Err(ExtractionFault::Refused(fault)) => report_refused(rt, &fault),
    }
}

// Opens the cycle, makes the service's file anew, and writes to it the service that the cycle sends, with these lines of a field, without the
// pages that no service text can have where it is partial.
fn extract_with(rt: &HostRuntime, cycle: &str, out: &str, lines: u8, partial: bool) -> Outcome {
    let cycle = open_input(rt, cycle)?;
    let Some(file) = create_out(rt, &[&cycle], out)? else {
        return Ok(report(rt, &ToolFault::Same));
    };
    let mut reader = match recorded(rt, cycle) {
        Ok(reader) => reader,
        Err(fault) => return Ok(report(rt, &fault)),
    };
    let answer = if partial {
        extract_from::<Partly>(rt, &mut reader, lines, file)
    } else {
        extract_from::<Whole>(rt, &mut reader, lines, file)
    };
    Ok(told_of(rt, &reader, status_of(rt, answer)))
}

fn name_lines(rt: &HostRuntime, reader: &mut RecordedInput) -> Result<u8, ToolFault> {
    let mut writer = Counted::new(io::writer(rt));
    match commands::extract_lines::run(rt.alloc(), reader, &mut writer) {
        Ok(status) => Ok(status),
        Err(ExtractionFault::Tool(fault)) => Err(fault),
        Err(ExtractionFault::Refused(fault)) => report_refused(rt, &fault),
    }
}

// Opens the cycle, and names the lines of a field with which its pages have a deadline. No file is made.
fn extract_lines(rt: &HostRuntime, cycle: &str) -> Outcome {
    let mut reader = match recorded(rt, open_input(rt, cycle)?) {
        Ok(reader) => reader,
        Err(fault) => return Ok(report(rt, &fault)),
    };
    let status = status_of(rt, name_lines(rt, &mut reader));
    Ok(told_of(rt, &reader, status))
}

/// Writes the service that the cycle sends with these lines of a field, or without any, names those with which its pages have a deadline.
pub fn extract(
    rt: &HostRuntime,
    cycle: &str,
    out: &str,
    lines: &Option<Lines>,
    partial: bool,
) -> Outcome {
    match lines {
        Some(lines) => extract_with(rt, cycle, out, lines.count(), partial),
        None => extract_lines(rt, cycle),
    }
}
