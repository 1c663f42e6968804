//! Reports of faults: their lines and their statuses.

ghost use Rattle.std.specs.Prelude.{◌≡◌, [], ◌∷◌, ◌++◌, IfOk, codes, string_bytes};
ghost use Rattle.ttx_files.specs.Answers.{IsUntouched};
ghost use Rattle.ttx_cycle.specs.Counters.{inner_of};
ghost use Rattle.ttx_extract.specs.Refusals.{refusal_text};
ghost use Rattle.ttx_source.specs.Faults.{fault_of};
ghost use Rattle.ttx_faults.specs.Devices.{is_tool_write, Fails, written_to};
ghost use Rattle.ttx_faults.specs.Reports.{service_text, service_status, certificate_refusal, extract_text, extract_status, run_text, run_status, files_text, files_status};
ghost use Rattle.ttx_faults.specs.Reports.{refused_service, air_line, fault_line, status_of, Reports, ReportsWords};

use crate::faults::{AirRefusal, CounterFileFault, ToolFault};
use std::alloc::{AllocError, Global};
use std::io::Write;
use ttx_arguments::{WordsFault, conflict_line};
use ttx_certificate::CertFault;
use ttx_counter::CounterFault;
use ttx_cycle::{Counted, CycleFault};
use ttx_extract::{ExtractFault, push_refusal};
use ttx_files::{FilesFault, TextFile, write_line};
use ttx_plan::PlanFault;
use ttx_source::{SourceError, SourceFault};

// The line of a refused service definition whose fault names a key.
fn keyed_line(alloc: Global, name: &str, key: &str, page: usize) -> Result<String, AllocError>
    ensures { IfOk result (λ line. string_bytes line ≡ refused_service (name.now ++ 32 ∷ key.now) page ++ 10 ∷ []) }
{
    format!(in alloc; "refused: service {name} {key} page {page}\n")
}

// The line of a refused service definition whose fault names no key.
fn unkeyed_line(alloc: Global, name: &str, page: usize) -> Result<String, AllocError>
    ensures { IfOk result (λ line. string_bytes line ≡ refused_service name.now page ++ 10 ∷ []) }
{
    format!(in alloc; "refused: service {name} page {page}\n")
}

// The line of a refused service definition.
fn service_line(alloc: Global, error: &SourceError) -> Result<String, AllocError>
    ensures { IfOk result (λ line. string_bytes line ≡ service_text (fault_of error.now.fault) error.now.page ++ 10 ∷ []) }
{
    let page = error.page;
    match error.fault {
        SourceFault::NotToml => unkeyed_line(alloc, "1 not-toml", page),
        SourceFault::Missing { key } => keyed_line(alloc, "2 missing", key, page),
        SourceFault::Kind { key } => keyed_line(alloc, "3 kind", key, page),
        SourceFault::PageNumber => unkeyed_line(alloc, "4 page-number", page),
        SourceFault::Subcode => unkeyed_line(alloc, "5 subcode", page),
        SourceFault::Duplicate => unkeyed_line(alloc, "6 duplicate", page),
        SourceFault::RowTooLong => unkeyed_line(alloc, "7 row-too-long", page),
        SourceFault::Character => unkeyed_line(alloc, "8 character", page),
        SourceFault::Often => unkeyed_line(alloc, "9 often", page),
        SourceFault::Range { key } => keyed_line(alloc, "10 range", key, page),
        SourceFault::NoMemory => String::from_str(alloc, "fault: memory\n"),
    }
}

// The line of a refused certificate.
fn certificate_line(alloc: Global, fault: &CertFault) -> Result<String, AllocError>
    ensures { IfOk result (λ line. string_bytes line ≡ certificate_refusal fault.now ++ 10 ∷ []) }
{
    match fault {
        CertFault::Title => String::from_str(alloc, "refused: certificate 1 title\n"),
        CertFault::Line { line } => format!(in alloc; "refused: certificate 2 line line {line}\n"),
        CertFault::Order { line } => format!(in alloc;
            "refused: certificate 3 order line {line}\n"
        ),
        CertFault::Range { line } => format!(in alloc;
            "refused: certificate 4 range line {line}\n"
        ),
        CertFault::NoMemory => String::from_str(alloc, "fault: memory\n"),
    }
}

// The line about a cycle.
fn refusal_line(alloc: Global, fault: &ExtractFault) -> Result<String, AllocError>
    ensures { IfOk result (λ line. string_bytes line ≡ codes "refused: " ++ refusal_text fault.now ++ 10 ∷ []) }
{
    let mut line = String::from_str(alloc, "refused: ")?;
    push_refusal(&mut line, fault)?;
    line.push('\n')?;
    Ok(line)
}

// The line of a cycle that has no service text.
fn extract_line(alloc: Global, fault: &ExtractFault) -> Result<String, AllocError>
    ensures { IfOk result (λ line. string_bytes line ≡ extract_text fault.now ++ 10 ∷ []) }
{
    match fault {
        ExtractFault::Service(error) => service_line(alloc, error),
        ExtractFault::TooLong => String::from_str(alloc, "refused: service too-long\n"),
        ExtractFault::NoMemory => String::from_str(alloc, "fault: memory\n"),
        ExtractFault::Conflict { .. }
        | ExtractFault::Reason(_)
        | ExtractFault::Info { slot: _ }
        | ExtractFault::Unsaid => refusal_line(alloc, fault),
    }
}

// The line of a counter-run's text that is refused.
fn run_line(alloc: Global, fault: &CounterFileFault) -> Result<String, AllocError>
    ensures { IfOk result (λ line. string_bytes line ≡ run_text fault.now ++ 10 ∷ []) }
{
    match fault {
        CounterFileFault::Read => String::from_str(alloc, "fault: read\n"),
        CounterFileFault::TooLong => String::from_str(alloc, "refused: counter too-long\n"),
        CounterFileFault::Text(CounterFault::Title) => {
            String::from_str(alloc, "refused: counter 1 title\n")
        }
        CounterFileFault::Text(CounterFault::Line { line }) => format!(in alloc;
            "refused: counter 2 line line {line}\n"
        ),
        CounterFileFault::Text(CounterFault::NoMemory) => {
            String::from_str(alloc, "fault: memory\n")
        }
    }
}

// The line of a fault of a file.
fn files_line(alloc: Global, fault: &FilesFault) -> Result<String, AllocError>
    ensures { IfOk result (λ line. string_bytes line ≡ files_text fault.now ++ 10 ∷ []) }
{
    match fault {
        FilesFault::Cycle(CycleFault::Truncated { rest }) => {
            format!(in alloc; "refused: cycle 2 truncated {rest}\n")
        }
        FilesFault::Cycle(CycleFault::Empty) => String::from_str(alloc, "refused: cycle 3 empty\n"),
        FilesFault::Cycle(CycleFault::TooLong) => {
            String::from_str(alloc, "refused: cycle 4 too-long\n")
        }
        FilesFault::Service(error) => service_line(alloc, error),
        FilesFault::Certificate(fault) => certificate_line(alloc, fault),
        FilesFault::TooLong {
            which: TextFile::Service,
        } => { String::from_str(alloc, "refused: service too-long\n") }
        FilesFault::TooLong {
            which: TextFile::Certificate,
        } => { String::from_str(alloc, "refused: certificate too-long\n") }
        FilesFault::Cycle(CycleFault::Read) | FilesFault::Read { which: _ } => {
            String::from_str(alloc, "fault: read\n")
        }
        FilesFault::Write { written: _ } => String::from_str(alloc, "fault: write\n"),
        FilesFault::Cycle(CycleFault::NoMemory) | FilesFault::NoMemory => {
            String::from_str(alloc, "fault: memory\n")
        }
    }
}

// The line of a fault.
fn line_of(alloc: Global, fault: &ToolFault) -> Result<String, AllocError>
    ensures { IfOk result (λ line. string_bytes line ≡ fault_line fault.now) }
{
    match fault {
        ToolFault::Files(fault) => files_line(alloc, fault),
        ToolFault::Plan(PlanFault::NoPages) => String::from_str(
            alloc,
            "refused: plan 1 no-pages\n",
        ),
        ToolFault::Plan(PlanFault::TooLong) => String::from_str(
            alloc,
            "refused: plan 2 too-long\n",
        ),
        ToolFault::Plan(PlanFault::NoMemory) => String::from_str(alloc, "fault: memory\n"),
        ToolFault::Class => String::from_str(alloc, "refused: class\n"),
        ToolFault::Same => String::from_str(alloc, "refused: same\n"),
        ToolFault::Counter(fault) => run_line(alloc, fault),
        ToolFault::Feed => String::from_str(alloc, "fault: read\n"),
    }
}

// The status of the program after a fault of a service definition.
fn service_status(fault: &SourceFault) -> u8
    ensures { result ≡ service_status (fault_of fault.now) }
{
    match fault {
        SourceFault::NoMemory => 3,
        _ => 2,
    }
}

// The status of the program if a cycle has no service text.
fn extract_status(fault: &ExtractFault) -> u8
    ensures { result ≡ extract_status fault.now }
{
    match fault {
        ExtractFault::Service(error) => service_status(&error.fault),
        ExtractFault::NoMemory => 3,
        _ => 2,
    }
}

// The status of the program if a counter-run's text is refused.
fn run_status(fault: &CounterFileFault) -> u8
    ensures { result ≡ run_status fault.now }
{
    match fault {
        CounterFileFault::Read | CounterFileFault::Text(CounterFault::NoMemory) => 3,
        CounterFileFault::TooLong | CounterFileFault::Text(_) => 2,
    }
}

// The status of the program after a fault of a file.
fn files_status(fault: &FilesFault) -> u8
    ensures { result ≡ files_status fault.now }
{
    match fault {
        FilesFault::Cycle(CycleFault::Read | CycleFault::NoMemory) => 3,
        FilesFault::Cycle(_) => 2,
        FilesFault::Service(error) => service_status(&error.fault),
        FilesFault::Certificate(CertFault::NoMemory) => 3,
        FilesFault::Certificate(_) | FilesFault::TooLong { which: _ } => 2,
        FilesFault::Read { .. } | FilesFault::Write { .. } | FilesFault::NoMemory => 3,
    }
}

// The status of the program after a fault.
fn status(fault: &ToolFault) -> u8
    ensures { result ≡ status_of fault.now }
{
    match fault {
        ToolFault::Files(fault) => files_status(fault),
        ToolFault::Plan(PlanFault::NoMemory) => 3,
        ToolFault::Plan(_) | ToolFault::Class | ToolFault::Same => 2,
        ToolFault::Counter(fault) => run_status(fault),
        ToolFault::Feed => 3,
    }
}

/// Writes a text, and returns the status. After a fault the first `written` bytes of it went out.
pub fn write_text<W: Write>(
    writer: &mut Counted<W>,
    text: &str,
    status: u8,
) -> Result<u8, ToolFault>
    ensures bytes { Reports text.now status (W.contents (inner_of writer.old)) (W.contents (inner_of writer.new)) result }
    ensures faults { Fails (written_to writer.old writer.new ∷ []) result }
    ensures untouched { IsUntouched is_tool_write result writer.old writer.new }
{
    match write_line(writer, text.as_bytes()) {
        Ok(()) => Ok(status),
        Err(fault) => Err(ToolFault::Files(fault)),
    }
}

/// Writes the line of a fault and returns the status of the program: 2 for a refusal, 3 for a fault.
///
/// After `Write` exactly the first `written` bytes of the line went out; after any other fault the writer is unchanged.
pub fn report_fault<W: Write>(
    alloc: Global,
    fault: &ToolFault,
    writer: &mut Counted<W>,
) -> Result<u8, ToolFault>
    ensures line { Reports (fault_line fault.now) (status_of fault.now) (W.contents (inner_of writer.old)) (W.contents (inner_of writer.new)) result }
    ensures faults { Fails (written_to writer.old writer.new ∷ []) result }
    ensures untouched { IsUntouched is_tool_write result writer.old writer.new }
{
    let Ok(line) = line_of(alloc, fault) else {
        return Err(ToolFault::Files(FilesFault::NoMemory));
    };
    write_text(writer, line.as_str(), status(fault))
}

/// Writes the line that says why a cycle has no service text, and returns the status of the program.
///
/// After `Write` exactly the first `written` bytes of the line went out; after any other fault the writer is unchanged.
pub fn report_extraction<W: Write>(
    alloc: Global,
    fault: &ExtractFault,
    writer: &mut Counted<W>,
) -> Result<u8, ToolFault>
    ensures line { Reports (extract_text fault.now ++ 10 ∷ []) (extract_status fault.now) (W.contents (inner_of writer.old))
        (W.contents (inner_of writer.new)) result }
    ensures faults { Fails (written_to writer.old writer.new ∷ []) result }
    ensures untouched { IsUntouched is_tool_write result writer.old writer.new }
{
    let Ok(line) = extract_line(alloc, fault) else {
        return Err(ToolFault::Files(FilesFault::NoMemory));
    };
    write_text(writer, line.as_str(), extract_status(fault))
}

// The line that says why nothing is sent.
fn refused_air<'a>(refusal: AirRefusal) -> &'a str
    ensures { result.now ≡ air_line refusal }
{
    match refusal {
        AirRefusal::Time => "refused: time\n",
        AirRefusal::Zone => "refused: zone\n",
        AirRefusal::Terminal => "refused: terminal\n",
    }
}

/// Writes the line that says why nothing is sent, and returns the status of the program, 2.
///
/// After `Write` exactly the first `written` bytes of the line went out; after any other fault the writer is unchanged.
pub fn report_air<W: Write>(refusal: AirRefusal, writer: &mut Counted<W>) -> Result<u8, ToolFault>
    ensures line { Reports (air_line refusal) 2 (W.contents (inner_of writer.old)) (W.contents (inner_of writer.new)) result }
    ensures faults { Fails (written_to writer.old writer.new ∷ []) result }
    ensures untouched { IsUntouched is_tool_write result writer.old writer.new }
{
    write_text(writer, refused_air(refusal), 2)
}

/// Writes why arguments are refused, and returns the status of the program. If `clap` refuses them, its own text is written.
///
/// After `Write` exactly the first `written` bytes of the text went out; after any other fault the writer is unchanged.
pub fn report_words<W: Write>(
    alloc: Global,
    fault: &WordsFault,
    writer: &mut Counted<W>,
) -> Result<u8, ToolFault>
    ensures line { ReportsWords fault.now (W.contents (inner_of writer.old)) (W.contents (inner_of writer.new)) result }
    ensures faults { Fails (written_to writer.old writer.new ∷ []) result }
    ensures untouched { IsUntouched is_tool_write result writer.old writer.new }
{
    match fault {
        WordsFault::Refused(error) => {
            let Ok(text) = error.to_string(alloc) else {
                return Err(ToolFault::Files(FilesFault::NoMemory));
            };
            write_text(writer, text.as_str(), 2)
        }
        WordsFault::Page => write_text(writer, "refused: page\n", 2),
        WordsFault::Time => write_text(writer, "refused: time\n", 2),
        WordsFault::Seconds => write_text(writer, "refused: seconds\n", 2),
        WordsFault::Deadlines => write_text(writer, "refused: deadlines\n", 2),
        WordsFault::Within => write_text(writer, "refused: within\n", 2),
        WordsFault::Numbers => write_text(writer, "refused: numbers\n", 2),
        WordsFault::Clocks => write_text(writer, "refused: clocks\n", 2),
        WordsFault::Twice => write_text(writer, "refused: twice\n", 2),
        WordsFault::Forms => write_text(writer, "refused: forms\n", 2),
        WordsFault::Apart(conflict) => {
            let Ok(line) = conflict_line(alloc, *conflict) else {
                return Err(ToolFault::Files(FilesFault::NoMemory));
            };
            write_text(writer, line.as_str(), 2)
        }
        WordsFault::NoMemory => report_fault(
            alloc,
            &ToolFault::Files(FilesFault::NoMemory),
            writer,
        ),
    }
}
