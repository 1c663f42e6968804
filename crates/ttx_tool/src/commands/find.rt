//! `find`: the certificate of a cycle for the pages of a service.

ghost use Rattle.std.specs.Prelude.{◌≡◌, ◌≤◌, ◌∷◌, [], IfSome, IfOk, string_bytes};
ghost use Rattle.ttx_cycle.specs.Counters.{inner_of};
ghost use Rattle.ttx_cycle.specs.Cycles.{slots_of};
ghost use Rattle.ttx_certificate.specs.Certificates.{fields_of};
ghost use Rattle.ttx_files.specs.Answers.{IsUntouched};
ghost use Rattle.ttx_files.specs.Devices.{AtCycle, AtService};
ghost use Rattle.ttx_faults.specs.Devices.{is_tool_write, Fails, Reads, read_from, written_to};
ghost use Rattle.ttx_tool.specs.Find.{found_line, WritesDeadline, TellsVerdict, IsFoundAndTold, FindsText, FindsFiles};
ghost use Rattle.ttx_tool.specs.PlannedFiles.{FindsDeadline, MakesCertified};

use std::alloc::{AllocError, Global};
use std::io::{Read, Write};
use ttx_certify::{certify_service, find_service, verdict_line};
use ttx_cycle::{Counted, Cycle};
use ttx_faults::ToolFault;
use ttx_files::{Filed, FilesFault, read_served, write_both};
use ttx_page::Class;
use ttx_source::Service;
use ttx_witness::{Certificate, NoMemory, write_certificate};

// The line of a deadline.
fn found_line(alloc: Global, deadline: u32) -> Result<String, AllocError>
    ensures { IfOk result (λ line. string_bytes line ≡ found_line deadline) }
{
    format!(in alloc; "found deadline {deadline}\n")
}

// What goes out if there is a deadline.
pub(super) fn tell_deadline(
    alloc: Global,
    certificate: &Certificate,
    deadline: u32,
) -> Result<Filed<u8>, NoMemory>
    ensures { IfOk result (λ told. WritesDeadline (fields_of certificate.now) deadline told.file.items (string_bytes told.line) told.verdict) }
{
    let file = write_certificate(alloc, certificate)?;
    let Ok(line) = found_line(alloc, deadline) else {
        return Err(NoMemory);
    };
    Ok(Filed {
        verdict: 0,
        file,
        line,
    })
}

// What goes out if there is none: the verdict, whatever it is.
fn tell_verdict(
    alloc: Global,
    cycle: &Cycle,
    service: &Service,
    certificate: &Certificate,
) -> Result<Filed<u8>, NoMemory>
    ensures { IfOk result (λ told. TellsVerdict (slots_of cycle.now) service.now (fields_of certificate.now) told.file.items
        (string_bytes told.line) told.verdict) }
{
    let Ok(verdict) = certify_service(alloc, cycle, service, certificate) else {
        return Err(NoMemory);
    };
    let line = verdict_line(alloc, certificate, service.pages().len(), verdict)?;
    Ok(Filed {
        verdict: 1,
        file: Vec::new(alloc),
        line,
    })
}

// What is found for the pages of a service, and what goes out.
fn tell(
    alloc: Global,
    cycle: &Cycle,
    service: &Service,
    repeat: u8,
    class: Class,
) -> Result<Filed<u8>, NoMemory>
    requires some { 1 ≤ repeat }
    requires few { repeat ≤ 8 }
    ensures { IfOk result (λ told. IsFoundAndTold (slots_of cycle.now) service.now repeat class told.file.items
        (string_bytes told.line) told.verdict) }
{
    ttx_witness::certificate_laws::certificates_keep_their_rules();
    ttx_certify::laws::accepted_is_seen();
    ttx_page::laws::pages_keep_their_rules();
    // This call brings the ranges of the pages into the proof.
    let _pages = service.pages();
    let found = find_service(alloc, cycle, service, repeat, class)?;
    match found.deadline {
        Some(deadline) => tell_deadline(alloc, &found.certificate, deadline),
        None => tell_verdict(alloc, cycle, service, &found.certificate),
    }
}

// The same for a packet file and the text of a service.
fn find_text<A: Read, B: Read>(
    alloc: Global,
    cycle: &mut Counted<A>,
    service: &mut Counted<B>,
    repeat: u8,
    class: Class,
) -> Result<Filed<u8>, ToolFault>
    requires some { 1 ≤ repeat }
    requires few { repeat ≤ 8 }
    ensures bytes { IfSome (A.remaining (inner_of cycle.old))
        (λ a. IfSome (B.remaining (inner_of service.old)) (λ b. FindsText a b repeat class result)) }
    ensures faults { Reads (read_from AtCycle A.remaining cycle.old cycle.new ∷ read_from AtService B.remaining service.old service.new ∷ []) result }
{
    let inputs = match read_served(alloc, cycle, service) {
        Ok(inputs) => inputs,
        Err(fault) => return Err(ToolFault::Files(fault)),
    };
    match tell(alloc, &inputs.cycle, &inputs.service, repeat, class) {
        Ok(told) => Ok(told),
        Err(_) => Err(ToolFault::Files(FilesFault::NoMemory)),
    }
}

/// Reads a packet file and the text of a service, and finds the certificate of the cycle for the pages of the service and
/// receivers of the class; `repeat` is 1 to 8. If there is a deadline, it writes the text of the certificate to the file and
/// the deadline to the other writer: the status is 0. If there is none, it writes nothing to the file, and to the other writer
/// the verdict on the certificate, which is a rejection: the status is 1.
///
/// In a packet file that `plan` writes for the same text and class a deadline is found. If the status is 0 and the file was empty,
/// `certify` says yes to what was written to it.
///
/// Nothing is written before all is found. After `Write` exactly the first `written` bytes of both went out, the file's before the
/// line's; after any other fault both writers are unchanged.
pub fn run<A: Read, B: Read, O: Write, W: Write>(
    alloc: Global,
    cycle: &mut Counted<A>,
    service: &mut Counted<B>,
    repeat: u8,
    class: Class,
    file: &mut Counted<O>,
    writer: &mut Counted<W>,
) -> Result<u8, ToolFault>
    requires some { 1 ≤ repeat }
    requires few { repeat ≤ 8 }
    ensures bytes { IfSome (A.remaining (inner_of cycle.old)) (λ a. IfSome (B.remaining (inner_of service.old)) (λ b. FindsFiles a b repeat class
        (O.contents (inner_of file.old)) (O.contents (inner_of file.new)) (W.contents (inner_of writer.old)) (W.contents (inner_of writer.new))
        result)) }
    ensures planned { IfSome (A.remaining (inner_of cycle.old))
        (λ a. IfSome (B.remaining (inner_of service.old)) (λ b. FindsDeadline a b class result)) }
    ensures certified { IfSome (A.remaining (inner_of cycle.old)) (λ a. IfSome (B.remaining (inner_of service.old)) (λ b. MakesCertified a b
        (O.contents (inner_of file.old)) (O.contents (inner_of file.new)) result)) }
    ensures faults { Fails (read_from AtCycle A.remaining cycle.old cycle.new ∷ read_from AtService B.remaining service.old service.new
        ∷ written_to file.old file.new ∷ written_to writer.old writer.new ∷ []) result }
    ensures untouched { IsUntouched is_tool_write result file.old file.new × IsUntouched is_tool_write result writer.old writer.new }
{
    crate::laws::planned_is_found();
    crate::laws::found_is_certified();
    let told = match find_text(alloc, cycle, service, repeat, class) {
        Ok(told) => told,
        Err(fault) => return Err(fault),
    };
    match write_both(file, told.file.as_slice(), writer, told.line.as_bytes()) {
        Ok(()) => Ok(told.verdict),
        Err(fault) => Err(ToolFault::Files(fault)),
    }
}
