//! The commands that show a page: `receive`, `show`, `preview`.

use super::Outcome;
use super::desks::standing;
use super::inputs::{RecordedInput, buffered, recorded};
use crate::devices::{Input, open_input};
use crate::reports::{diagnosed, report, status_of, told};
use std::io::IsTerminal;
use std::{env, io};
use ttx_arguments::{Look, Tuning};
use ttx_cycle::Counted;
use ttx_kinds::Place;
use ttx_page::Selection;
use ttx_tool::commands::service_text::Standing;
use ttx_tool::{ToolFault, commands};

// Whether standard output is a terminal that shows colours: NO_COLOR says that it must not.
fn shows_colours(rt: &HostRuntime) -> bool {
    let refused = match env::var(rt, "NO_COLOR") {
        Ok(value) => !value.is_empty(),
        Err(_) => false,
    };
    !refused && rt.stdout().is_terminal()
}

fn show_input(
    rt: &HostRuntime,
    reader: &mut RecordedInput,
    tuning: &Tuning,
    look: &Look<'_>,
) -> Result<u8, ToolFault> {
    let look = look.seen(shows_colours(rt));
    let mut writer = Counted::new(io::writer(rt));
    commands::show::run(rt.alloc(), reader, tuning, &look, &mut writer)
}

/// Opens the cycle, and shows a page as a receiver shows it.
pub fn show(rt: &HostRuntime, cycle: &str, tuning: &Tuning, look: &Look<'_>) -> Outcome {
    let mut reader = match recorded(rt, open_input(rt, cycle)?) {
        Ok(reader) => reader,
        Err(fault) => return Ok(report(rt, &fault)),
    };
    let status = status_of(rt, show_input(rt, &mut reader, tuning, look));
    let bytes = reader.get_ref().kept();
    Ok(told(rt, Place::Cycle, bytes, diagnosed(rt, bytes, status)))
}

// Writes what is held of a page word by word.
fn receive_input(rt: &HostRuntime, input: Input, tuning: &Tuning) -> Result<u8, ToolFault> {
    let mut reader = buffered(rt, input)?;
    let mut writer = Counted::new(io::writer(rt));
    commands::receive::run(rt.alloc(), &mut reader, tuning, &mut writer)
}

/// Opens the cycle, and writes what a receiver holds of a page, word by word.
pub fn receive(rt: &HostRuntime, cycle: &str, tuning: &Tuning) -> Outcome {
    Ok(status_of(rt, receive_input(rt, open_input(rt, cycle)?, tuning)))
}

fn preview_input(
    rt: &HostRuntime,
    input: Input,
    name: &str,
    selection: &Selection,
    look: &Look<'_>,
) -> Result<u8, ToolFault> {
    let standing = standing(rt, input, name)?;
    let look = look.seen(shows_colours(rt));
    let mut writer = Counted::new(io::writer(rt));
    match standing {
        Standing::Text(text) => {
            let mut reader = Counted::new(text.as_slice());
            let answer = commands::preview::run(
                rt.alloc(),
                &mut reader,
                selection,
                &look,
                &mut writer,
            );
            Ok(told(
                rt,
                Place::ServiceOrAuthor,
                text.as_slice(),
                status_of(rt, answer),
            ))
        }
        Standing::Lines(lines) => commands::service_text::refuse(&mut writer, lines.as_str()),
    }
}

/// Opens the service, or an author's text that stands for it, and shows a page of it before it is sent.
pub fn preview(rt: &HostRuntime, service: &str, selection: &Selection, look: &Look<'_>) -> Outcome {
    let input = open_input(rt, service)?;
    Ok(status_of(rt, preview_input(rt, input, service, selection, look)))
}

fn preview_all_input(
    rt: &HostRuntime,
    input: Input,
    name: &str,
    look: &Look<'_>,
) -> Result<u8, ToolFault> {
    let standing = standing(rt, input, name)?;
    let look = look.seen(shows_colours(rt));
    let mut writer = Counted::new(io::writer(rt));
    match standing {
        Standing::Text(text) => {
            let mut reader = Counted::new(text.as_slice());
            let answer = commands::preview_all::run(
                rt.alloc(),
                &mut reader,
                look.form,
                look.reveal,
                &mut writer,
            );
            Ok(told(
                rt,
                Place::ServiceOrAuthor,
                text.as_slice(),
                status_of(rt, answer),
            ))
        }
        Standing::Lines(lines) => commands::service_text::refuse(&mut writer, lines.as_str()),
    }
}

/// Opens the service, or an author's text that stands for it, and shows all its pages before they are sent.
pub fn preview_all(rt: &HostRuntime, service: &str, look: &Look<'_>) -> Outcome {
    let input = open_input(rt, service)?;
    Ok(status_of(rt, preview_all_input(rt, input, service, look)))
}
