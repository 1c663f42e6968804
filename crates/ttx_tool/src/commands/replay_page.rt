//! `replay --as text`, `--as html`: what happened in a counter-run, and the page beside what its receiver shows.

ghost use Rattle.std.specs.Prelude.{◌∷◌, [], IfSome, IfOk, string_bytes};
ghost use Rattle.ttx_counter.specs.Counters.{counter_run_of};
ghost use Rattle.ttx_cycle.specs.Counters.{inner_of};
ghost use Rattle.ttx_cycle.specs.Cycles.{slots_of};
ghost use Rattle.ttx_files.specs.Answers.{IsUntouched};
ghost use Rattle.ttx_files.specs.Devices.{AtCycle, AtService, AtCounter};
ghost use Rattle.ttx_source.specs.Services.{pages_of};
ghost use Rattle.ttx_faults.specs.Devices.{is_tool_write, Fails, read_from, written_to};
ghost use Rattle.ttx_tool.specs.Replay.{Replays};
ghost use Rattle.ttx_tool.specs.ReplayPage.{IsShown};

use super::replay::{Teller, answer, tell_none};
use std::alloc::Global;
use std::io::{Read, Write};
use ttx_counter::Counter;
use ttx_cycle::{Counted, Cycle};
use ttx_failure::{FailureForm, tell_failure};
use ttx_faults::ToolFault;
use ttx_files::Told;
use ttx_source::Service;
use ttx_witness::NoMemory;

// What goes out for a cycle, the pages of a service and what may be a counter-run.
fn tell(
    alloc: Global,
    form: FailureForm,
    cycle: &Cycle,
    service: &Service,
    counter: &Counter,
) -> Result<Told<u8>, NoMemory>
    ensures { IfOk result (λ told. IsShown form (slots_of cycle.now) (pages_of service.now) (counter_run_of counter.now)
        (string_bytes told.line) told.verdict) }
{
    let pages = service.pages();
    let answer = tell_failure(alloc, form, cycle, pages, counter)?;
    match answer {
        Some(line) => Ok(Told { verdict: 0, line }),
        None => tell_none(alloc),
    }
}

// Tells in a form.
#[derive(Clone, Copy)]
struct Shown {
    form: FailureForm,
}

impl Teller for Shown {
    ghost says = { λ t. IsShown t.form };

    fn tell(
        &self,
        alloc: Global,
        cycle: &Cycle,
        service: &Service,
        counter: &Counter,
    ) -> Result<Told<u8>, NoMemory> {
        tell(alloc, self.form, cycle, service, counter)
    }
}

/// Reads a packet file, the text of a service and that of a counter-run, in this order, and writes in the form that is asked for what
/// happened, and the page as it was authored beside what the receiver shows: the status is 0. Where it is no counter-run of the cycle
/// and the service, writes a line that says so: the status is 1.
///
/// Nothing is written before all is replayed. At `Write` exactly the first `written` bytes went out; at each other fault the writer is
/// as it was.
pub fn run<A: Read, B: Read, C: Read, W: Write>(
    alloc: Global,
    cycle: &mut Counted<A>,
    service: &mut Counted<B>,
    counter: &mut Counted<C>,
    form: FailureForm,
    writer: &mut Counted<W>,
) -> Result<u8, ToolFault>
    ensures bytes { IfSome (A.remaining (inner_of cycle.old))
        (λ a. IfSome (B.remaining (inner_of service.old)) (λ b. IfSome (C.remaining (inner_of counter.old)) (λ c.
        Replays (IsShown form) a b c (W.contents (inner_of writer.old)) (W.contents (inner_of writer.new)) result))) }
    ensures faults { Fails (read_from AtCycle A.remaining cycle.old cycle.new ∷ read_from AtService B.remaining service.old service.new
        ∷ read_from AtCounter C.remaining counter.old counter.new ∷ written_to writer.old writer.new ∷ []) result }
    ensures untouched { IsUntouched is_tool_write result writer.old writer.new }
{
    answer(alloc, &Shown { form }, cycle, service, counter, writer)
}
