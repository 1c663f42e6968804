//! `air`: a service on the air from its text, while an author changes it.

ghost use Rattle.std.specs.Prelude.{◌≡◌, ◌∷◌, [], ◌++◌, codes, IfOk, string_bytes};
ghost use Rattle.ttx_cycle.specs.Counters.{inner_of};
ghost use Rattle.ttx_files.specs.Answers.{IsUntouched};
ghost use Rattle.ttx_broadcast.specs.Broadcasts.{outs_of, wish_of, Broadcasts};
ghost use Rattle.ttx_broadcast.specs.declared.request.Request as asked;
ghost use Rattle.ttx_tool.specs.Air.{fields_in, name_in, air_text, air_status, Asks};
ghost use Rattle.ttx_faults.specs.Devices.{is_tool_write, Fails, written_to};
ghost use Rattle.ttx_faults.specs.Reports.{Reports};

use std::alloc::{AllocError, Global};
use std::io::Write;
use ttx_arguments::{AirOrder, Clock as AskedClock};
use ttx_broadcast::{BroadcastFault, ClockName, Demand, Outputs, Request, TextSource, broadcast};
use ttx_cycle::{Counted, TextFault};
use ttx_faults::{ToolFault, write_text};
use ttx_files::FilesFault;
use ttx_send::Clock;

fn fields_in(fields: Option<u32>) -> u32
    ensures { result ≡ fields_in fields }
{
    fields.unwrap_or(u32::MAX)
}

fn name_in<'a>(clock: &AskedClock<'a>) -> ClockName<'a>
    ensures { result ≡ name_in clock.now }
{
    match clock {
        AskedClock::Ahead(offset) => ClockName::Ahead(offset.seconds()),
        AskedClock::Zone(name) => ClockName::Zone(name),
    }
}

// The broadcast that the arguments ask for.
fn request<'a, C>(order: &AirOrder<'a>, clock: C) -> Request<'a, C>
    ensures { Asks order.now clock result }
{
    Request {
        demand: Demand {
            within: order.within.count(),
            repeat: order.repeat.count(),
            late: order.late,
            spread: order.spread,
        },
        clock,
        name: name_in(&order.timing.clock),
        fields: fields_in(order.fields),
    }
}

/// Puts the service on the air whose text the source holds. The log gets what was asked for, and a line for each event.
///
/// After `Write` exactly the first `written` bytes of the air went out; after any other fault nothing is sent.
pub fn run<C: Clock, S: TextSource + Drop, L: Write, W: Write>(
    alloc: Global,
    order: &AirOrder<'_>,
    clock: &C,
    source: S,
    outputs: &mut Outputs<L, W>,
) -> Result<(), BroadcastFault>
    ensures { (request : asked.Request C) × Asks order.now clock.now request
        × Broadcasts S.reads (wish_of C.shows request) source (outs_of L.contents W.contents outputs.old) (outs_of L.contents W.contents outputs.new) result }
{
    broadcast(alloc, &request(order, *clock), source, outputs)
}

// The line of a first text that has no edition.
fn refused_line(alloc: Global, words: &str) -> Result<String, AllocError>
    ensures { IfOk result (λ line. string_bytes line ≡ codes "refused: " ++ words.now ++ 10 ∷ []) }
{
    format!(in alloc; "refused: {words}\n")
}

// The line of a fault.
fn line_of(alloc: Global, fault: &BroadcastFault) -> Result<String, AllocError>
    ensures { IfOk result (λ line. string_bytes line ≡ air_text fault.now ++ 10 ∷ []) }
{
    match fault {
        BroadcastFault::Unread(TextFault::Read) => String::from_str(alloc, "fault: read\n"),
        BroadcastFault::Unread(TextFault::TooLong) => String::from_str(
            alloc,
            "refused: service too-long\n",
        ),
        BroadcastFault::Refused(words) => refused_line(alloc, words.as_str()),
        BroadcastFault::Unread(TextFault::NoMemory) | BroadcastFault::NoMemory => {
            String::from_str(alloc, "fault: memory\n")
        }
        BroadcastFault::Write(_) => String::from_str(alloc, "fault: write\n"),
    }
}

// The status of the program after a fault.
fn status(fault: &BroadcastFault) -> u8
    ensures { result ≡ air_status fault.now }
{
    match fault {
        BroadcastFault::Unread(TextFault::TooLong) | BroadcastFault::Refused(_) => 2,
        BroadcastFault::Unread(_) | BroadcastFault::NoMemory | BroadcastFault::Write(_) => 3,
    }
}

/// Writes the line that says why a broadcast ended, and returns the status of the program.
///
/// After `Write` exactly the first `written` bytes of the line went out; after any other fault the writer is unchanged.
pub fn report<W: Write>(
    alloc: Global,
    fault: &BroadcastFault,
    writer: &mut Counted<W>,
) -> Result<u8, ToolFault>
    ensures line { Reports (air_text fault.now ++ 10 ∷ []) (air_status fault.now) (W.contents (inner_of writer.old)) (W.contents (inner_of writer.new)) result }
    ensures faults { Fails (written_to writer.old writer.new ∷ []) result }
    ensures untouched { IsUntouched is_tool_write result writer.old writer.new }
{
    let Ok(line) = line_of(alloc, fault) else {
        return Err(ToolFault::Files(FilesFault::NoMemory));
    };
    write_text(writer, line.as_str(), status(fault))
}
