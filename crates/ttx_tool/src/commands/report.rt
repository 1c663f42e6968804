//! `report`: the verdict on a carousel, what it promises, and how long viewers wait, as a document to print and to file.

ghost use Rattle.std.specs.Prelude.{◌∷◌, [], codes, map, Option, option_map, IfSome, IfOk, string_bytes};
ghost use Rattle.ttx_certificate.specs.Certificates.{fields_of};
ghost use Rattle.ttx_cycle.specs.Counters.{inner_of};
ghost use Rattle.ttx_cycle.specs.Cycles.{slots_of};
ghost use Rattle.ttx_files.specs.Answers.{IsUntouched};
ghost use Rattle.ttx_files.specs.Devices.{AtCycle, AtService, AtCertificate};
ghost use Rattle.ttx_report.specs.Files.{marks_view};
ghost use Rattle.ttx_source.specs.PromiseViews.{promise_view};
ghost use Rattle.ttx_faults.specs.Devices.{is_tool_write, Fails, Reads, read_from, written_to};
ghost use Rattle.ttx_faults.specs.Reports.{Reports};
ghost use Rattle.ttx_tool.specs.Report.{ReadsSealed, ReadsFiling, TellsReport, ReportsText, ReportsFiles};

use super::certify::Status;
use super::promised::{Promised, read_defined};
use super::version::VERSION;
use std::alloc::Global;
use std::io::{Read, Write};
use ttx_certificate::{Certificate, read_certificate};
use ttx_cycle::{Counted, Cycle, TextFault};
use ttx_faults::{ToolFault, write_text};
use ttx_files::{FilesFault, TextFile, Told, read_packets, read_text};
use ttx_report::{Filing, Imprint, Marks, marks_of, report};
use ttx_witness::NoMemory;

// A certificate, and its text.
#[derive(Drop)]
struct Sealed {
    certificate: Certificate,
    text: Vec<u8>,
}

// What a report is about.
#[derive(Drop)]
struct Filed {
    cycle: Cycle,
    promised: Promised,
    certificate: Certificate,
    marks: Marks,
}

// Reads the text of a certificate.
fn read_sealed<R: Read>(alloc: Global, reader: &mut Counted<R>) -> Result<Sealed, ToolFault>
    ensures bytes { IfSome (R.remaining (inner_of reader.old)) (λ bytes. ReadsSealed bytes result) }
    ensures faults { Reads (read_from AtCertificate R.remaining reader.old reader.new ∷ []) result }
{
    let which = TextFile::Certificate;
    let text = match read_text(alloc, reader) {
        Ok(text) => text,
        Err(TextFault::Read) => return Err(ToolFault::Files(FilesFault::Read { which })),
        Err(TextFault::TooLong) => return Err(ToolFault::Files(FilesFault::TooLong { which })),
        Err(TextFault::NoMemory) => return Err(ToolFault::Files(FilesFault::NoMemory)),
    };
    match read_certificate(alloc, text.as_slice()) {
        Ok(certificate) => Ok(Sealed { certificate, text }),
        Err(fault) => Err(ToolFault::Files(FilesFault::Certificate(fault))),
    }
}

// Reads a packet file, the text of a service and that of a certificate, in this order.
fn read_filed<A: Read, B: Read, C: Read>(
    alloc: Global,
    cycle: &mut Counted<A>,
    service: &mut Counted<B>,
    certificate: &mut Counted<C>,
) -> Result<Filed, ToolFault>
    ensures bytes { IfSome (A.remaining (inner_of cycle.old))
        (λ a. IfSome (B.remaining (inner_of service.old)) (λ b. IfSome (C.remaining (inner_of certificate.old))
        (λ c. ReadsFiling a b c result))) }
    ensures faults { Reads (read_from AtCycle A.remaining cycle.old cycle.new ∷ read_from AtService B.remaining service.old service.new
        ∷ read_from AtCertificate C.remaining certificate.old certificate.new ∷ []) result }
{
    let cycle = match read_packets(alloc, cycle) {
        Ok(cycle) => cycle,
        Err(fault) => return Err(ToolFault::Files(fault)),
    };
    let defined = match read_defined(alloc, service) {
        Ok(defined) => defined,
        Err(fault) => return Err(fault),
    };
    match read_sealed(alloc, certificate) {
        Ok(sealed) => {
            let marks = marks_of(&cycle, defined.text.as_slice(), sealed.text.as_slice());
            Ok(Filed {
                cycle,
                promised: defined.promised,
                certificate: sealed.certificate,
                marks,
            })
        }
        Err(fault) => Err(fault),
    }
}

// The document, and the status.
fn tell(alloc: Global, filed: &Filed, date: Option<&str>) -> Result<Told<u8>, NoMemory>
    ensures { IfOk result (λ told. TellsReport (slots_of filed.now.cycle) filed.now.promised.service
        (map promise_view filed.now.promised.promises.items) (fields_of filed.now.certificate) (marks_view filed.now.marks)
        (option_map (λ d. d.now) date.entry) (string_bytes told.line) told.verdict) }
{
    let filing = Filing {
        cycle: &filed.cycle,
        service: &filed.promised.service,
        promises: &filed.promised.promises,
        certificate: &filed.certificate,
        marks: filed.marks,
    };
    let imprint = Imprint {
        version: VERSION,
        date,
    };
    let report = report(alloc, &filing, &imprint)?;
    Ok(Told {
        verdict: report.verdict.status(),
        line: report.text,
    })
}

// The same of a packet file and the two texts.
fn report_text<A: Read, B: Read, C: Read>(
    alloc: Global,
    cycle: &mut Counted<A>,
    service: &mut Counted<B>,
    certificate: &mut Counted<C>,
    date: Option<&str>,
) -> Result<Told<u8>, ToolFault>
    ensures bytes { IfSome (A.remaining (inner_of cycle.old))
        (λ a. IfSome (B.remaining (inner_of service.old)) (λ b. IfSome (C.remaining (inner_of certificate.old))
        (λ c. ReportsText a b c (option_map (λ d. d.now) date.entry) result))) }
    ensures faults { Reads (read_from AtCycle A.remaining cycle.old cycle.new ∷ read_from AtService B.remaining service.old service.new
        ∷ read_from AtCertificate C.remaining certificate.old certificate.new ∷ []) result }
{
    let filed = match read_filed(alloc, cycle, service, certificate) {
        Ok(filed) => filed,
        Err(fault) => return Err(fault),
    };
    match tell(alloc, &filed, date) {
        Ok(told) => Ok(told),
        Err(_) => Err(ToolFault::Files(FilesFault::NoMemory)),
    }
}

/// Reads a packet file, the text of a service and that of a certificate, in this order, and writes the report on them, with the date, if
/// one is given, as it is. The status is 0 if the verdict is yes, otherwise 1.
///
/// Nothing is written before all is judged. After `Write` exactly the first `written` bytes of the document went out; after any other fault
/// the writer is unchanged.
pub fn run<A: Read, B: Read, C: Read, W: Write>(
    alloc: Global,
    cycle: &mut Counted<A>,
    service: &mut Counted<B>,
    certificate: &mut Counted<C>,
    date: Option<&str>,
    writer: &mut Counted<W>,
) -> Result<u8, ToolFault>
    ensures bytes { IfSome (A.remaining (inner_of cycle.old))
        (λ a. IfSome (B.remaining (inner_of service.old)) (λ b. IfSome (C.remaining (inner_of certificate.old)) (λ c.
        ReportsFiles a b c (option_map (λ d. d.now) date.entry) (W.contents (inner_of writer.old)) (W.contents (inner_of writer.new)) result))) }
    ensures faults { Fails (read_from AtCycle A.remaining cycle.old cycle.new ∷ read_from AtService B.remaining service.old service.new
        ∷ read_from AtCertificate C.remaining certificate.old certificate.new ∷ written_to writer.old writer.new ∷ []) result }
    ensures untouched { IsUntouched is_tool_write result writer.old writer.new }
{
    let told = report_text(alloc, cycle, service, certificate, date)?;
    write_text(writer, told.line.as_str(), told.verdict)
}

/// Writes the line that says that a text is no date, and returns the status of the program, 2.
///
/// After `Write` exactly the first `written` bytes of the line went out; after any other fault the writer is unchanged.
pub fn refuse_date<W: Write>(writer: &mut Counted<W>) -> Result<u8, ToolFault>
    ensures line { Reports (codes "refused: date\n") 2 (W.contents (inner_of writer.old)) (W.contents (inner_of writer.new)) result }
    ensures faults { Fails (written_to writer.old writer.new ∷ []) result }
    ensures untouched { IsUntouched is_tool_write result writer.old writer.new }
{
    write_text(writer, "refused: date\n", 2)
}
