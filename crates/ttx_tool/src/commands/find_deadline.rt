//! `find --deadline` and `find --within`: the certificate of a cycle with the deadline that is asked for.

ghost use Rattle.std.specs.Prelude.{◌≤◌, ◌∷◌, [], IfSome, IfOk, string_bytes};
ghost use Rattle.ttx_certificate.specs.Certificates.{fields_of};
ghost use Rattle.ttx_cycle.specs.Counters.{inner_of};
ghost use Rattle.ttx_cycle.specs.Cycles.{slots_of};
ghost use Rattle.ttx_files.specs.Answers.{IsUntouched};
ghost use Rattle.ttx_files.specs.Devices.{AtCycle, AtService};
ghost use Rattle.ttx_faults.specs.Devices.{is_tool_write, Fails, Reads, read_from, written_to};
ghost use Rattle.ttx_tool.specs.FindDeadline.{TellsRefused, WritesAsked, IsAskedAndTold, AsksText, AsksFiles};
ghost use Rattle.ttx_tool.specs.PlannedFiles.{MakesCertified};

use super::find::tell_deadline;
use std::alloc::Global;
use std::io::{Read, Write};
use ttx_certify::{Verdict, verdict_line};
use ttx_cycle::{Counted, Cycle};
use ttx_deadline::{Asked, find_with};
use ttx_faults::ToolFault;
use ttx_files::{Filed, FilesFault, read_served, write_both};
use ttx_source::Service;
use ttx_witness::{Certificate, NoMemory, Reason};

// What goes out for a rejection of so many pages.
fn tell_refused(
    alloc: Global,
    certificate: &Certificate,
    pages: usize,
    reason: Reason,
) -> Result<Filed<u8>, NoMemory>
    ensures { IfOk result (λ told. TellsRefused (fields_of certificate.now) pages reason told.file.items (string_bytes told.line) told.verdict) }
{
    let line = verdict_line(alloc, certificate, pages, Verdict::No(reason))?;
    Ok(Filed {
        verdict: 1,
        file: Vec::new(alloc),
        line,
    })
}

// What goes out for each verdict.
fn tell_verdict(
    alloc: Global,
    certificate: &Certificate,
    deadline: u32,
    pages: usize,
    verdict: Verdict,
) -> Result<Filed<u8>, NoMemory>
    ensures { IfOk result (λ told. WritesAsked (fields_of certificate.now) deadline pages verdict told.file.items (string_bytes told.line)
        told.verdict) }
{
    match verdict {
        Verdict::Yes => tell_deadline(alloc, certificate, deadline),
        Verdict::No(reason) => tell_refused(alloc, certificate, pages, reason),
    }
}

// What is found for the pages of a service, and what goes out.
fn tell(
    alloc: Global,
    cycle: &Cycle,
    service: &Service,
    asked: Asked,
) -> Result<Filed<u8>, NoMemory>
    requires some { 1 ≤ asked.repeat }
    requires few { asked.repeat ≤ 8 }
    requires some_fields { 1 ≤ asked.deadline }
    requires few_fields { asked.deadline ≤ 1000000 }
    ensures { IfOk result (λ told. IsAskedAndTold (slots_of cycle.now) service.now asked told.file.items (string_bytes told.line) told.verdict) }
{
    let Ok(found) = find_with(alloc, cycle, service, asked) else {
        return Err(NoMemory);
    };
    let pages = service.pages().len();
    match tell_verdict(
        alloc,
        &found.certificate,
        asked.deadline,
        pages,
        found.verdict,
    ) {
        Ok(told) => Ok(told),
        Err(_) => Err(NoMemory),
    }
}

// The same for a packet file and the text of a service.
fn find_text<A: Read, B: Read>(
    alloc: Global,
    cycle: &mut Counted<A>,
    service: &mut Counted<B>,
    asked: Asked,
) -> Result<Filed<u8>, ToolFault>
    requires some { 1 ≤ asked.repeat }
    requires few { asked.repeat ≤ 8 }
    requires some_fields { 1 ≤ asked.deadline }
    requires few_fields { asked.deadline ≤ 1000000 }
    ensures bytes { IfSome (A.remaining (inner_of cycle.old)) (λ a. IfSome (B.remaining (inner_of service.old)) (λ b. AsksText a b asked result)) }
    ensures faults { Reads (read_from AtCycle A.remaining cycle.old cycle.new ∷ read_from AtService B.remaining service.old service.new ∷ []) result }
{
    let inputs = match read_served(alloc, cycle, service) {
        Ok(inputs) => inputs,
        Err(fault) => return Err(ToolFault::Files(fault)),
    };
    match tell(alloc, &inputs.cycle, &inputs.service, asked) {
        Ok(told) => Ok(told),
        Err(_) => Err(ToolFault::Files(FilesFault::NoMemory)),
    }
}

/// Reads a packet file and the text of a service, and gives the certificate of `find::run` the deadline that is asked for. If the cycle is
/// accepted with it, which is so exactly if the least deadline is at most the one that is asked for, writes the text of the certificate to
/// the file and the deadline to the other writer: the status is 0. Otherwise it writes nothing to the file, and to the other writer the verdict,
/// which is a rejection: the status is 1. If the status is 0 and the file was empty, `certify` says yes to what was written to it.
///
/// Nothing is written before everything is found. After `Write` exactly the first `written` bytes of both went out, the file's before the
/// line's; after any other fault both writers are unchanged.
pub fn run<A: Read, B: Read, O: Write, W: Write>(
    alloc: Global,
    cycle: &mut Counted<A>,
    service: &mut Counted<B>,
    asked: Asked,
    file: &mut Counted<O>,
    writer: &mut Counted<W>,
) -> Result<u8, ToolFault>
    requires some { 1 ≤ asked.repeat }
    requires few { asked.repeat ≤ 8 }
    requires some_fields { 1 ≤ asked.deadline }
    requires few_fields { asked.deadline ≤ 1000000 }
    ensures bytes { IfSome (A.remaining (inner_of cycle.old)) (λ a. IfSome (B.remaining (inner_of service.old)) (λ b. AsksFiles a b asked
        (O.contents (inner_of file.old)) (O.contents (inner_of file.new)) (W.contents (inner_of writer.old)) (W.contents (inner_of writer.new))
        result)) }
    ensures certified { IfSome (A.remaining (inner_of cycle.old)) (λ a. IfSome (B.remaining (inner_of service.old)) (λ b. MakesCertified a b
        (O.contents (inner_of file.old)) (O.contents (inner_of file.new)) result)) }
    ensures faults { Fails (read_from AtCycle A.remaining cycle.old cycle.new ∷ read_from AtService B.remaining service.old service.new
        ∷ written_to file.old file.new ∷ written_to writer.old writer.new ∷ []) result }
    ensures untouched { IsUntouched is_tool_write result file.old file.new × IsUntouched is_tool_write result writer.old writer.new }
{
    crate::laws::asked_is_certified();
    let told = find_text(alloc, cycle, service, asked)?;
    match write_both(file, told.file.as_slice(), writer, told.line.as_bytes()) {
        Ok(()) => Ok(told.verdict),
        Err(fault) => Err(ToolFault::Files(fault)),
    }
}
