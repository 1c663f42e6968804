//! The line of a fault on standard error, and the status of the program after it.

use ttx_cycle::Counted;
use ttx_files::FilesFault;
use ttx_kinds::Place;
use ttx_tool::{AirRefusal, ToolFault, commands};

// The status of a fault, also if the line cannot be written.
const FAULT: u8 = 3;

/// Reports that a file cannot be opened, and returns the status.
pub fn file_fault(rt: &HostRuntime) -> u8 {
    let _ = rt.eprintln("fault: file");
    FAULT
}

/// Reports that memory ran out, without allocating, and returns the status.
pub fn memory_fault(rt: &HostRuntime) -> u8 {
    let _ = rt.eprintln("fault: memory");
    FAULT
}

/// Reports a fault of a command, and returns the status.
pub fn report(rt: &HostRuntime, fault: &ToolFault) -> u8 {
    let mut errors = Counted::new(rt.stderr());
    match commands::report_fault(rt.alloc(), fault, &mut errors) {
        Ok(status) => status,
        Err(ToolFault::Files(FilesFault::NoMemory)) => memory_fault(rt),
        Err(_) => FAULT,
    }
}

/// Reports why nothing is sent, and returns the status.
pub fn report_refusal(rt: &HostRuntime, refusal: AirRefusal) -> u8 {
    let mut errors = Counted::new(rt.stderr());
    match commands::report_air(refusal, &mut errors) {
        Ok(status) => status,
        Err(_) => FAULT,
    }
}

/// Reports that a text is not a date, and returns the status.
pub fn report_no_date(rt: &HostRuntime) -> u8 {
    let mut errors = Counted::new(rt.stderr());
    match commands::report::refuse_date(&mut errors) {
        Ok(status) => status,
        Err(_) => FAULT,
    }
}

/// The status of a command's result. A fault is reported.
pub fn status_of(rt: &HostRuntime, outcome: Result<u8, ToolFault>) -> u8 {
    match outcome {
        Ok(status) => status,
        Err(fault) => report(rt, &fault),
    }
}

/// The status of a command on a file of these first bytes; where they are no slots, says what they are.
pub fn diagnosed(rt: &HostRuntime, bytes: &[u8], status: u8) -> u8 {
    if status >= FAULT {
        return status;
    }
    let mut errors = Counted::new(rt.stderr());
    status_of(
        rt,
        commands::diagnosis::run(rt.alloc(), bytes, status, &mut errors),
    )
}

/// The status of a command on an input of these first bytes; where it is not done, says if the input is of another kind than its place takes.
pub fn told(rt: &HostRuntime, place: Place, bytes: &[u8], status: u8) -> u8 {
    if status == 0 || status >= FAULT {
        return status;
    }
    let mut errors = Counted::new(rt.stderr());
    status_of(
        rt,
        commands::other_kind::run(rt.alloc(), place, bytes, status, &mut errors),
    )
}
