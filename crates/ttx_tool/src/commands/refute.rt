//! `refute`: a receiver that fails to show a page, by the numbers of a certificate.

ghost use Rattle.std.specs.Prelude.{◌≡◌, ◌<◌, ◌∷◌, ◌++◌, [], Some, IfSome, IfOk, IfErr, OnOk};
ghost use Rattle.std.specs.Prelude.{codes, length, map, slice_get, string_bytes};
ghost use Rattle.ttx_counter.specs.Counters.{counter_run_of};
ghost use Rattle.ttx_cycle.specs.Counters.{inner_of};
ghost use Rattle.ttx_cycle.specs.Cycles.{slots_of};
ghost use Rattle.ttx_certificate.specs.Certificates.{fields_of};
ghost use Rattle.ttx_page.specs.Pages as definitions;
ghost use Rattle.ttx_page.specs.declared.class.Class.TheVariants.{Any};
ghost use Rattle.ttx_page.specs.Views.{page_of};
ghost use Rattle.ttx_files.specs.Answers.{IsUntouched};
ghost use Rattle.ttx_files.specs.Devices.{AtCycle, AtService, AtCertificate};
ghost use Rattle.ttx_faults.specs.Devices.{is_tool_write, Fails, Reads, read_from, written_to};
ghost use Rattle.ttx_tool.specs.Refute.{counter_line, counter_numbers, said_counter, said_none, saved, IsRefutation, IsClassFault, RefutesText, RefutesFiles};

use std::alloc::{AllocError, Global};
use std::io::{Read, Write};
use ttx_counter::{Counter, refute as counter_to, write_counter};
use ttx_cycle::{Counted, Cycle};
use ttx_digits::push_id;
use ttx_faults::ToolFault;
use ttx_files::{Filed, FilesFault, read_inputs, write_both};
use ttx_header::PageId;
use ttx_lines::push_numbered;
use ttx_page::{Class, Page};
use ttx_records::{counter_record, none_record};
use ttx_source::Service;
use ttx_witness::{Certificate, NoMemory};

/// What is asked beside the answer.
#[derive(Clone, Copy)]
pub struct Asked {
    /// Whether the counter-run is saved.
    pub save: bool,
    /// Whether the answer is a JSON object.
    pub json: bool,
}

// Adds the numbers of a counter-run.
fn push_counter(line: &mut String, counter: &Counter) -> Result<(), AllocError>
    ensures { OnOk result (string_bytes line.new ≡ string_bytes line.old ++ counter_numbers (counter_run_of counter.now)) }
{
    push_numbered(line, " start ", counter.start as usize)?;
    push_numbered(line, " slots ", counter.slots as usize)?;
    push_numbered(line, " hits ", counter.hits.len())?;
    push_numbered(line, " choices ", counter.choices.len())
}

// The line of a counter-run.
pub(super) fn counter_line(
    alloc: Global,
    id: PageId,
    counter: &Counter,
) -> Result<String, AllocError>
    ensures { IfOk result (λ line. string_bytes line ≡ counter_line id (counter_run_of counter.now)) }
{
    let mut line = String::from_str(alloc, "counter ")?;
    push_id(&mut line, id)?;
    push_counter(&mut line, counter)?;
    line.push('\n')?;
    Ok(line)
}

// The words about a counter-run.
fn said_counter(
    alloc: Global,
    id: PageId,
    counter: &Counter,
    json: bool,
) -> Result<String, AllocError>
    ensures { IfOk result (λ line. string_bytes line ≡ said_counter json id (counter_run_of counter.now)) }
{
    if json {
        counter_record(alloc, id, counter)
    } else {
        counter_line(alloc, id, counter)
    }
}

// The words if there is none.
fn said_none(alloc: Global, json: bool) -> Result<String, AllocError>
    ensures { IfOk result (λ line. string_bytes line ≡ said_none json) }
{
    if json {
        none_record(alloc)
    } else {
        String::from_str(alloc, "none\n")
    }
}

// The text of a counter-run, if it is asked for.
fn saved(alloc: Global, counter: &Counter, save: bool) -> Result<Vec<u8>, NoMemory>
    ensures text { IfOk result (λ file. file.items ≡ saved save (counter_run_of counter.now)) }
{
    if !save {
        return Ok(Vec::new(alloc));
    }
    write_counter(alloc, counter)
}

// The id of the page at a place of the list.
fn id_at(pages: &[Page], index: u32) -> PageId
    requires { index < length pages.now }
    ensures { (p : definitions.Page) → slice_get (map page_of pages.now) index ≡ Some p → result ≡ p.id }
{
    pages[index as usize].id()
}

// What goes out of a counter-run.
fn tell_counter(
    alloc: Global,
    pages: &[Page],
    counter: &Counter,
    asked: Asked,
) -> Result<Filed<u8>, NoMemory>
    requires { counter.now.page < length pages.now }
    ensures line { IfOk result (λ told. (p : definitions.Page) → slice_get (map page_of pages.now) counter.now.page ≡ Some p →
        string_bytes told.line ≡ said_counter asked.json p.id (counter_run_of counter.now)) }
    ensures file { IfOk result (λ told. told.file.items ≡ saved asked.save (counter_run_of counter.now)) }
    ensures status { IfOk result (λ told. told.verdict ≡ 1) }
{
    let id = id_at(pages, counter.page);
    let Ok(line) = said_counter(alloc, id, counter, asked.json) else {
        return Err(NoMemory);
    };
    Ok(Filed {
        verdict: 1,
        file: saved(alloc, counter, asked.save)?,
        line,
    })
}

// What goes out if there is none.
fn tell_none(alloc: Global, json: bool) -> Result<Filed<u8>, NoMemory>
    ensures line { IfOk result (λ told. string_bytes told.line ≡ said_none json) }
    ensures file { IfOk result (λ told. told.file.items ≡ []) }
    ensures status { IfOk result (λ told. told.verdict ≡ 0) }
{
    match said_none(alloc, json) {
        Ok(line) => Ok(Filed {
            verdict: 0,
            file: Vec::new(alloc),
            line,
        }),
        Err(_) => Err(NoMemory),
    }
}

// What is found of a cycle, the pages of a service and a certificate for receivers of any class, and what goes out.
fn tell_any(
    alloc: Global,
    cycle: &Cycle,
    service: &Service,
    certificate: &Certificate,
    asked: Asked,
) -> Result<Filed<u8>, NoMemory>
    requires { (fields_of certificate.now).class ≡ Any }
    ensures { IfOk result (λ told. IsRefutation (slots_of cycle.now) service.now (fields_of certificate.now) asked told.file.items
        (string_bytes told.line) told.verdict) }
{
    let pages = service.pages();
    let counter = counter_to(alloc, cycle, pages, certificate)?;
    match counter {
        Some(counter) => tell_counter(alloc, pages, &counter, asked),
        None => tell_none(alloc, asked.json),
    }
}

// The same of a certificate of any class.
fn tell(
    alloc: Global,
    cycle: &Cycle,
    service: &Service,
    certificate: &Certificate,
    asked: Asked,
) -> Result<Filed<u8>, ToolFault>
    ensures told { IfOk result (λ told. IsRefutation (slots_of cycle.now) service.now (fields_of certificate.now) asked told.file.items
        (string_bytes told.line) told.verdict) }
    ensures fault { IfErr result (IsClassFault (fields_of certificate.now).class) }
{
    match certificate.class() {
        Class::Any => match tell_any(alloc, cycle, service, certificate, asked) {
            Ok(told) => Ok(told),
            Err(_) => Err(ToolFault::Files(FilesFault::NoMemory)),
        },
        Class::Clearing => Err(ToolFault::Class),
    }
}

// The same of a packet file and the two texts.
fn refute_text<A: Read, B: Read, C: Read>(
    alloc: Global,
    cycle: &mut Counted<A>,
    service: &mut Counted<B>,
    certificate: &mut Counted<C>,
    asked: Asked,
) -> Result<Filed<u8>, ToolFault>
    ensures bytes { IfSome (A.remaining (inner_of cycle.old))
        (λ a. IfSome (B.remaining (inner_of service.old)) (λ b. IfSome (C.remaining (inner_of certificate.old))
        (λ c. RefutesText a b c asked result))) }
    ensures faults { Reads (read_from AtCycle A.remaining cycle.old cycle.new ∷ read_from AtService B.remaining service.old service.new
        ∷ read_from AtCertificate C.remaining certificate.old certificate.new ∷ []) result }
{
    let inputs = match read_inputs(alloc, cycle, service, certificate) {
        Ok(inputs) => inputs,
        Err(fault) => return Err(ToolFault::Files(fault)),
    };
    match tell(
        alloc,
        &inputs.cycle,
        &inputs.service,
        &inputs.certificate,
        asked,
    ) {
        Ok(told) => Ok(told),
        Err(fault) => Err(fault),
    }
}

/// Reads a packet file, the text of a service and that of a certificate, in this order, and looks for a counter-run to the
/// certificates of class any with the numbers of this one. If there is one, it writes its text to the file if it is to be
/// saved, and its line, or its JSON object, to the other writer: the status is 1. Where there is none, writes nothing to the file, and that there is
/// none to the other writer: the status is 0. A certificate of class clearing gives `Class`.
///
/// The counter-run concerns the first page that is not sent well. If all are, it concerns the first page of which a plain run ends wrong.
///
/// Nothing is written before all is found. After `Write` exactly the first `written` bytes of both went out, the file's before the
/// line's; after any other fault both writers are unchanged.
pub fn run<A: Read, B: Read, C: Read, O: Write, W: Write>(
    alloc: Global,
    cycle: &mut Counted<A>,
    service: &mut Counted<B>,
    certificate: &mut Counted<C>,
    asked: Asked,
    file: &mut Counted<O>,
    writer: &mut Counted<W>,
) -> Result<u8, ToolFault>
    ensures bytes { IfSome (A.remaining (inner_of cycle.old))
        (λ a. IfSome (B.remaining (inner_of service.old)) (λ b. IfSome (C.remaining (inner_of certificate.old)) (λ c. RefutesFiles a b c asked
        (O.contents (inner_of file.old)) (O.contents (inner_of file.new)) (W.contents (inner_of writer.old)) (W.contents (inner_of writer.new))
        result))) }
    ensures faults { Fails (read_from AtCycle A.remaining cycle.old cycle.new ∷ read_from AtService B.remaining service.old service.new
        ∷ read_from AtCertificate C.remaining certificate.old certificate.new ∷ written_to file.old file.new ∷ written_to writer.old writer.new
        ∷ []) result }
    ensures untouched { IsUntouched is_tool_write result file.old file.new × IsUntouched is_tool_write result writer.old writer.new }
{
    let told = match refute_text(alloc, cycle, service, certificate, asked) {
        Ok(told) => told,
        Err(fault) => return Err(fault),
    };
    match write_both(file, told.file.as_slice(), writer, told.line.as_bytes()) {
        Ok(()) => Ok(told.verdict),
        Err(fault) => Err(ToolFault::Files(fault)),
    }
}
