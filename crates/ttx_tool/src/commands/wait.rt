//! `wait`: how long viewers of each page of a service wait, beside what it promises; of each page number with several pages, too; as lines
//! or JSON objects.

ghost use Rattle.std.specs.Prelude.{◌≡◌, ◌≤◌, ◌++◌, ◌∷◌, [], length, map, IfSome, IfOk, string_bytes};
ghost use Rattle.ttx_cycle.specs.Counters.{inner_of};
ghost use Rattle.ttx_cycle.specs.Cycles.{slots_of};
ghost use Rattle.ttx_files.specs.Answers.{IsUntouched};
ghost use Rattle.ttx_files.specs.Devices.{AtCycle, AtService};
ghost use Rattle.ttx_source.specs.PromiseViews.{promise_view};
ghost use Rattle.ttx_faults.specs.Devices.{is_tool_write, Fails, Reads, read_from, written_to};
ghost use Rattle.ttx_tool.specs.Wait.{wait_status, promised_status, shows_promises, IsWaitOf, IsPromisedWaitOf, IsWaitBeside, IsNumbersWaitOf};
ghost use Rattle.ttx_tool.specs.Wait.{IsWaitRecordOf, IsItemRecordOf, IsRecordOf, IsNumbersRecordOf, IsWaitAsked, WaitsText, Waits};

use super::promised::{Promised, PromisedInputs, read_promised_inputs};
use std::alloc::Global;
use std::io::{Read, Write};
use ttx_cycle::{Counted, Cycle};
use ttx_faults::{ToolFault, write_text};
use ttx_files::{FilesFault, Told};
use ttx_page::Class;
use ttx_promise::{PromisedReport, report_promises};
use ttx_records::{report_item_waits, report_number_waits, report_waits};
use ttx_source::Service;
use ttx_subpages::number_waits;
use ttx_wait::{Detail, report_with};
use ttx_witness::NoMemory;

/// What `wait` is asked for.
#[derive(Clone, Copy)]
pub struct Question {
    /// The repeat count, 1 to 8.
    pub repeat: u8,
    pub class: Class,
    /// Which lines each page has.
    pub detail: Detail,
    /// Whether each page number with several pages has a line, too.
    pub numbers: bool,
    /// Whether the answer is written as JSON objects.
    pub json: bool,
}

// 0 if there is a deadline, otherwise 1.
fn wait_status(deadline: Option<u32>) -> u8
    ensures { result ≡ wait_status deadline }
{
    match deadline {
        Some(_) => 0,
        None => 1,
    }
}

// The lines for a cycle and a service.
fn tell(
    alloc: Global,
    cycle: &Cycle,
    service: &Service,
    question: Question,
) -> Result<Told<u8>, NoMemory>
    requires some { 1 ≤ question.repeat }
    requires few { question.repeat ≤ 8 }
    ensures { IfOk result (λ told. IsWaitOf (slots_of cycle.now) service.now question.repeat question.class question.detail
        (string_bytes told.line) told.verdict) }
{
    let report = report_with(
        alloc,
        cycle,
        service.pages(),
        question.class,
        question.repeat,
        service.lines(),
        question.detail,
    )?;
    let status = wait_status(report.deadline);
    Ok(Told {
        verdict: status,
        line: report.text,
    })
}

// Whether the waits stand beside so many promises.
fn shows_promises(count: usize, detail: Detail) -> bool
    ensures { result ≡ shows_promises count detail }
{
    match detail {
        Detail::Pages => count > 0,
        Detail::Items => false,
    }
}

// The text of a report beside promises, and its status.
fn told_of(report: PromisedReport) -> Told<u8>
    ensures text { string_bytes result.line ≡ string_bytes report.text }
    ensures status { result.verdict ≡ promised_status report.late report.deadline }
{
    let status = if report.late {
        1
    } else {
        wait_status(report.deadline)
    };
    Told {
        verdict: status,
        line: report.text,
    }
}

// The lines for a cycle and a service, beside its promises.
fn tell_promised(
    alloc: Global,
    cycle: &Cycle,
    promised: &Promised,
    question: Question,
) -> Result<Told<u8>, NoMemory>
    requires some { 1 ≤ question.repeat }
    requires few { question.repeat ≤ 8 }
    ensures { IfOk result (λ told. IsPromisedWaitOf (slots_of cycle.now) promised.now.service (map promise_view promised.now.promises.items)
        question.repeat question.class (string_bytes told.line) told.verdict) }
{
    let report = report_promises(
        alloc,
        cycle,
        &promised.service,
        question.class,
        question.repeat,
        &promised.promises,
    )?;
    Ok(told_of(report))
}

// The lines for a cycle and a service, which may have promises.
fn tell_beside(
    alloc: Global,
    cycle: &Cycle,
    promised: &Promised,
    question: Question,
) -> Result<Told<u8>, NoMemory>
    requires some { 1 ≤ question.repeat }
    requires few { question.repeat ≤ 8 }
    ensures { IfOk result (λ told. IsWaitBeside (shows_promises (length promised.now.promises.items) question.detail) (slots_of cycle.now)
        promised.now.service (map promise_view promised.now.promises.items) question.repeat question.class question.detail
        (string_bytes told.line) told.verdict) }
{
    if shows_promises(promised.promises.len(), question.detail) {
        tell_promised(alloc, cycle, promised, question)
    } else {
        tell(alloc, cycle, &promised.service, question)
    }
}

// The lines behind those of the waits.
fn joined(waits: Told<u8>, numbers: &str) -> Result<Told<u8>, NoMemory>
    ensures { IfOk result (λ told. (string_bytes told.line ≡ string_bytes waits.line ++ numbers.now) × (told.verdict ≡ waits.verdict)) }
{
    let verdict = waits.verdict;
    let mut line = waits.line;
    match line.push_str(numbers) {
        Ok(()) => Ok(Told { verdict, line }),
        Err(_) => Err(NoMemory),
    }
}

// The lines for a cycle and a service, which may have promises, and for its numbers.
fn tell_numbers(
    alloc: Global,
    inputs: &PromisedInputs,
    question: Question,
) -> Result<Told<u8>, NoMemory>
    requires some { 1 ≤ question.repeat }
    requires few { question.repeat ≤ 8 }
    ensures { IfOk result (λ told. IsNumbersWaitOf (shows_promises (length inputs.now.promised.promises.items) question.detail)
        (slots_of inputs.now.cycle) inputs.now.promised.service (map promise_view inputs.now.promised.promises.items) question.repeat
        question.class question.detail (string_bytes told.line) told.verdict) }
{
    let waits = tell_beside(alloc, &inputs.cycle, &inputs.promised, question)?;
    let numbers = number_waits(alloc, &inputs.cycle, &inputs.promised.service)?;
    joined(waits, numbers.as_str())
}

// The objects for a cycle and a service with its promises.
fn tell_pages(
    alloc: Global,
    inputs: &PromisedInputs,
    question: Question,
) -> Result<Told<u8>, NoMemory>
    requires some { 1 ≤ question.repeat }
    requires few { question.repeat ≤ 8 }
    ensures { IfOk result (λ told. IsWaitRecordOf (slots_of inputs.now.cycle) inputs.now.promised.service
        (map promise_view inputs.now.promised.promises.items) question.repeat question.class (string_bytes told.line) told.verdict) }
{
    let report = report_waits(
        alloc,
        &inputs.cycle,
        &inputs.promised.service,
        question.class,
        question.repeat,
        &inputs.promised.promises,
    )?;
    Ok(told_of(report))
}

// The same with an object for each item of a page.
fn tell_items(
    alloc: Global,
    inputs: &PromisedInputs,
    question: Question,
) -> Result<Told<u8>, NoMemory>
    requires some { 1 ≤ question.repeat }
    requires few { question.repeat ≤ 8 }
    ensures { IfOk result (λ told. IsItemRecordOf (slots_of inputs.now.cycle) inputs.now.promised.service question.repeat question.class
        (string_bytes told.line) told.verdict) }
{
    let service = &inputs.promised.service;
    let (class, repeat) = (question.class, question.repeat);
    let waiting = report_item_waits(alloc, &inputs.cycle, service, class, repeat)?;
    Ok(Told {
        verdict: wait_status(waiting.deadline),
        line: waiting.text,
    })
}

// Either of both.
fn tell_records(
    alloc: Global,
    inputs: &PromisedInputs,
    question: Question,
) -> Result<Told<u8>, NoMemory>
    requires some { 1 ≤ question.repeat }
    requires few { question.repeat ≤ 8 }
    ensures { IfOk result (λ told. IsRecordOf question.detail (slots_of inputs.now.cycle) inputs.now.promised.service
        (map promise_view inputs.now.promised.promises.items) question.repeat question.class (string_bytes told.line) told.verdict) }
{
    match question.detail {
        Detail::Pages => tell_pages(alloc, inputs, question),
        Detail::Items => tell_items(alloc, inputs, question),
    }
}

// The same, and behind them the objects of the numbers.
fn tell_number_records(
    alloc: Global,
    inputs: &PromisedInputs,
    question: Question,
) -> Result<Told<u8>, NoMemory>
    requires some { 1 ≤ question.repeat }
    requires few { question.repeat ≤ 8 }
    ensures { IfOk result (λ told. IsNumbersRecordOf (slots_of inputs.now.cycle) inputs.now.promised.service
        (map promise_view inputs.now.promised.promises.items) question.repeat question.class question.detail (string_bytes told.line)
        told.verdict) }
{
    let waits = tell_records(alloc, inputs, question)?;
    let numbers = report_number_waits(alloc, &inputs.cycle, &inputs.promised.service)?;
    joined(waits, numbers.as_str())
}

// What is asked for.
fn tell_asked(
    alloc: Global,
    inputs: &PromisedInputs,
    question: Question,
) -> Result<Told<u8>, NoMemory>
    requires some { 1 ≤ question.repeat }
    requires few { question.repeat ≤ 8 }
    ensures { IfOk result (λ told. IsWaitAsked question (shows_promises (length inputs.now.promised.promises.items) question.detail)
        (slots_of inputs.now.cycle) inputs.now.promised.service (map promise_view inputs.now.promised.promises.items)
        (string_bytes told.line) told.verdict) }
{
    match (question.json, question.numbers) {
        (true, true) => tell_number_records(alloc, inputs, question),
        (true, false) => tell_records(alloc, inputs, question),
        (false, true) => tell_numbers(alloc, inputs, question),
        (false, false) => tell_beside(alloc, &inputs.cycle, &inputs.promised, question),
    }
}

// The same for a packet file and the text of a service.
fn wait_text<A: Read, B: Read>(
    alloc: Global,
    cycle: &mut Counted<A>,
    service: &mut Counted<B>,
    question: Question,
) -> Result<Told<u8>, ToolFault>
    requires some { 1 ≤ question.repeat }
    requires few { question.repeat ≤ 8 }
    ensures bytes { IfSome (A.remaining (inner_of cycle.old))
        (λ a. IfSome (B.remaining (inner_of service.old)) (λ b. WaitsText a b question result)) }
    ensures faults { Reads (read_from AtCycle A.remaining cycle.old cycle.new ∷ read_from AtService B.remaining service.old service.new ∷ []) result }
{
    let inputs = match read_promised_inputs(alloc, cycle, service) {
        Ok(inputs) => inputs,
        Err(fault) => return Err(fault),
    };
    match tell_asked(alloc, &inputs, question) {
        Ok(told) => Ok(told),
        Err(_) => Err(ToolFault::Files(FilesFault::NoMemory)),
    }
}

/// Reads a packet file and the text of a service, and writes how long viewers of each page of the service wait, and what they
/// wait for, to receivers of the class, in the lines or objects that are asked for. If the service has promises and no items are asked
/// for, the waits stand beside them, and a last line has the pages that are not in the service; behind them stand those of page numbers.
/// The status is 0 if there is a deadline for all pages and none comes too late for its promise, otherwise 1.
///
/// Nothing is written before all lines are known. After `Write` exactly the first `written` bytes of the lines went out; after any other
/// fault the writer is unchanged.
pub fn run<A: Read, B: Read, W: Write>(
    alloc: Global,
    cycle: &mut Counted<A>,
    service: &mut Counted<B>,
    question: Question,
    writer: &mut Counted<W>,
) -> Result<u8, ToolFault>
    requires some { 1 ≤ question.repeat }
    requires few { question.repeat ≤ 8 }
    ensures bytes { IfSome (A.remaining (inner_of cycle.old)) (λ a. IfSome (B.remaining (inner_of service.old)) (λ b. Waits a b question
        (W.contents (inner_of writer.old)) (W.contents (inner_of writer.new)) result)) }
    ensures faults { Fails (read_from AtCycle A.remaining cycle.old cycle.new ∷ read_from AtService B.remaining service.old service.new
        ∷ written_to writer.old writer.new ∷ []) result }
    ensures untouched { IsUntouched is_tool_write result writer.old writer.new }
{
    let told = wait_text(alloc, cycle, service, question)?;
    write_text(writer, told.line.as_str(), told.verdict)
}
