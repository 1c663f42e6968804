//! The sending side of a Level 1 teletext service: the program over the commands of `ttx_tool`.
#![tactic(auto)]

mod devices;
mod dispatch;
mod reports;

use devices::hold_streams;
use dispatch::run_order;
use reports::{file_fault, memory_fault, status_of};
use std::process::ExitCode;
use std::{env, io};
use ttx_arguments::{Order, WordsFault, words};
use ttx_cycle::Counted;
use ttx_tool::{ToolFault, commands};

// The status of refused arguments.
const REFUSED: u8 = 2;

// Runs an order, and returns the status of the program. An error that is left is that of a file, or memory ran out.
fn execute(rt: &HostRuntime, order: &Order<'_>) -> u8 {
    match run_order(rt, order) {
        Ok(status) => status,
        Err(error) => match error.kind() {
            io::ErrorKind::OutOfMemory => memory_fault(rt),
            _ => file_fault(rt),
        },
    }
}

// Reports why arguments are refused: help on standard output, everything else on standard error.
fn refuse(rt: &HostRuntime, fault: &WordsFault) -> Result<u8, ToolFault> {
    let shows_help = match fault {
        WordsFault::Refused(error) => !error.use_stderr(),
        _ => false,
    };
    if shows_help {
        let mut output = Counted::new(io::writer(rt));
        commands::report_words(rt.alloc(), fault, &mut output)
    } else {
        let mut errors = Counted::new(rt.stderr());
        commands::report_words(rt.alloc(), fault, &mut errors)
    }
}

// Reports why the arguments cannot be read, and returns the status: one is not UTF-8, or memory ran out.
fn words_fault(rt: &HostRuntime, error: &io::Error) -> u8 {
    match error.kind() {
        io::ErrorKind::InvalidData => {
            let _ = rt.eprintln("error: invalid UTF-8 was detected in one or more arguments");
            REFUSED
        }
        _ => memory_fault(rt),
    }
}

fn run(rt: &HostRuntime) -> io::Result<u8> {
    let args: Vec<String> = env::args(rt)?.skip(1).collect(rt.alloc())?;
    let mut texts = Vec::with_capacity(rt.alloc(), args.len())?;
    for arg in &args {
        texts.push(arg.as_str())?;
    }
    match words(rt.alloc(), texts.as_slice()) {
        Ok(order) => Ok(execute(rt, &order)),
        Err(fault) => Ok(status_of(rt, refuse(rt, &fault))),
    }
}

fn main(rt: HostRuntime) -> ExitCode {
    let _streams = hold_streams(&rt);
    match run(&rt) {
        Ok(status) => ExitCode::from(status),
        Err(error) => ExitCode::from(words_fault(&rt, &error)),
    }
}
