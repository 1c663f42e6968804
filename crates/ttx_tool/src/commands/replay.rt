//! `replay`: what a viewer sees after a counter-run.

ghost use Rattle.std.specs.Prelude.{◌≡◌, ◌<◌, ◌∷◌, [], ℕ, List, Some, IfSome, IfOk, length, map, slice_get, string_bytes};
ghost use Rattle.ttx_files.specs.Answers.{IsUntouched};
ghost use Rattle.ttx_files.specs.Devices.{AtCycle, AtService, AtCounter};
ghost use Rattle.ttx_counter.specs.Counters.{CounterRun, counter_run_of};
ghost use Rattle.ttx_cycle.specs.Counters.{inner_of};
ghost use Rattle.ttx_cycle.specs.Cycles.{slots_of};
ghost use Rattle.ttx_page.specs.Pages as definitions;
ghost use Rattle.ttx_page.specs.Views.{page_of, memory_of};
ghost use Rattle.ttx_source.specs.Services.{pages_of};
ghost use Rattle.ttx_faults.specs.Devices.{is_tool_write, Fails, Reads, read_from, written_to};
ghost use Rattle.ttx_tool.specs.Replay.{replay_text, none_text, IsReplay, ReadsCounter, ReplaysText, Replays};

use super::refute::counter_line;
use std::alloc::{AllocError, Global};
use std::io::{Read, Write};
use ttx_counter::{Counter, read_counter, replay as replay_counter};
use ttx_cycle::{Counted, Cycle, TextFault};
use ttx_faults::{CounterFileFault, ToolFault, write_text};
use ttx_files::{FilesFault, Told, read_served, read_text};
use ttx_lines::push_unlike_lines;
use ttx_page::{Page, PageMemory};
use ttx_render::render;
use ttx_source::Service;
use ttx_witness::NoMemory;

// Reads the text of a counter-run.
fn read_run<R: Read>(alloc: Global, reader: &mut Counted<R>) -> Result<Counter, ToolFault>
    ensures bytes { IfSome (R.remaining (inner_of reader.old)) (λ bytes. ReadsCounter bytes result) }
    ensures faults { Reads (read_from AtCounter R.remaining reader.old reader.new ∷ []) result }
{
    let text = match read_text(alloc, reader) {
        Ok(text) => text,
        Err(TextFault::Read) => return Err(ToolFault::Counter(CounterFileFault::Read)),
        Err(TextFault::TooLong) => return Err(ToolFault::Counter(CounterFileFault::TooLong)),
        Err(TextFault::NoMemory) => return Err(ToolFault::Files(FilesFault::NoMemory)),
    };
    match read_counter(alloc, text.as_slice()) {
        Ok(counter) => Ok(counter),
        Err(fault) => Err(ToolFault::Counter(CounterFileFault::Text(fault))),
    }
}

// What goes out for a counter-run of a page whose receiver holds this after it.
fn replay_text(
    alloc: Global,
    page: &Page,
    counter: &Counter,
    memory: &PageMemory,
) -> Result<String, AllocError>
    ensures { IfOk result (λ text. string_bytes text ≡ replay_text (page_of page.now) (counter_run_of counter.now) (memory_of memory.now)) }
{
    let mut text = counter_line(alloc, page.id(), counter)?;
    push_unlike_lines(
        alloc,
        &mut text,
        &render(memory),
        &render(&PageMemory::of(page)),
    )?;
    Ok(text)
}

// The same with the status, for the counter-run's page of a list.
fn tell_shown(
    alloc: Global,
    pages: &[Page],
    counter: &Counter,
    memory: &PageMemory,
) -> Result<Told<u8>, NoMemory>
    requires { counter.now.page < length pages.now }
    ensures text { IfOk result (λ told. (p : definitions.Page) → slice_get (map page_of pages.now) counter.now.page ≡ Some p →
        string_bytes told.line ≡ replay_text p (counter_run_of counter.now) (memory_of memory.now)) }
    ensures status { IfOk result (λ told. told.verdict ≡ 0) }
{
    match replay_text(alloc, &pages[counter.page as usize], counter, memory) {
        Ok(line) => Ok(Told { verdict: 0, line }),
        Err(_) => Err(NoMemory),
    }
}

/// What goes out if there is no counter-run.
pub(super) fn tell_none(alloc: Global) -> Result<Told<u8>, NoMemory>
    ensures text { IfOk result (λ told. string_bytes told.line ≡ none_text) }
    ensures status { IfOk result (λ told. told.verdict ≡ 1) }
{
    match String::from_str(alloc, "not a counter-run\n") {
        Ok(line) => Ok(Told { verdict: 1, line }),
        Err(_) => Err(NoMemory),
    }
}

// What goes out for a cycle, the pages of a service and what may be a counter-run.
fn tell(
    alloc: Global,
    cycle: &Cycle,
    service: &Service,
    counter: &Counter,
) -> Result<Told<u8>, NoMemory>
    ensures { IfOk result (λ told. IsReplay (slots_of cycle.now) (pages_of service.now) (counter_run_of counter.now)
        (string_bytes told.line) told.verdict) }
{
    let pages = service.pages();
    let held = replay_counter(alloc, cycle, pages, counter)?;
    match held {
        Some(memory) => tell_shown(alloc, pages, counter, &memory),
        None => tell_none(alloc),
    }
}

/// Tells of a cycle, the pages of a service and what may be a counter-run. `says` is what goes out, with the status.
pub(super) trait Teller {
    ghost says: { Self → List (List ℕ) → List definitions.Page → CounterRun → List ℕ → ℕ → Type 0 };

    /// What goes out.
    fn tell(
        &self,
        alloc: Global,
        cycle: &Cycle,
        service: &Service,
        counter: &Counter,
    ) -> Result<Told<u8>, NoMemory>
        ensures { IfOk result (λ told. says self.now (slots_of cycle.now) (pages_of service.now) (counter_run_of counter.now)
            (string_bytes told.line) told.verdict) };
}

// Tells in words.
struct InWords;

impl Teller for InWords {
    ghost says = { λ t. IsReplay };

    fn tell(
        &self,
        alloc: Global,
        cycle: &Cycle,
        service: &Service,
        counter: &Counter,
    ) -> Result<Told<u8>, NoMemory> {
        tell(alloc, cycle, service, counter)
    }
}

// What goes out of a packet file and the two texts.
fn replay_files<T: Teller, A: Read, B: Read, C: Read>(
    alloc: Global,
    teller: &T,
    cycle: &mut Counted<A>,
    service: &mut Counted<B>,
    counter: &mut Counted<C>,
) -> Result<Told<u8>, ToolFault>
    ensures bytes { IfSome (A.remaining (inner_of cycle.old))
        (λ a. IfSome (B.remaining (inner_of service.old)) (λ b. IfSome (C.remaining (inner_of counter.old))
        (λ c. ReplaysText (T.says teller.now) a b c result))) }
    ensures faults { Reads (read_from AtCycle A.remaining cycle.old cycle.new ∷ read_from AtService B.remaining service.old service.new
        ∷ read_from AtCounter C.remaining counter.old counter.new ∷ []) result }
{
    let inputs = match read_served(alloc, cycle, service) {
        Ok(inputs) => inputs,
        Err(fault) => return Err(ToolFault::Files(fault)),
    };
    let counter = match read_run(alloc, counter) {
        Ok(counter) => counter,
        Err(fault) => return Err(fault),
    };
    match teller.tell(alloc, &inputs.cycle, &inputs.service, &counter) {
        Ok(told) => Ok(told),
        Err(_) => Err(ToolFault::Files(FilesFault::NoMemory)),
    }
}

/// Reads a packet file, the text of a service and that of a counter-run, in this order, and writes the text about them.
///
/// Nothing is written before all is replayed. At `Write` exactly the first `written` bytes went out; at each other fault the writer is
/// as it was.
pub(super) fn answer<T: Teller, A: Read, B: Read, C: Read, W: Write>(
    alloc: Global,
    teller: &T,
    cycle: &mut Counted<A>,
    service: &mut Counted<B>,
    counter: &mut Counted<C>,
    writer: &mut Counted<W>,
) -> Result<u8, ToolFault>
    ensures bytes { IfSome (A.remaining (inner_of cycle.old))
        (λ a. IfSome (B.remaining (inner_of service.old)) (λ b. IfSome (C.remaining (inner_of counter.old)) (λ c.
        Replays (T.says teller.now) a b c (W.contents (inner_of writer.old)) (W.contents (inner_of writer.new)) result))) }
    ensures faults { Fails (read_from AtCycle A.remaining cycle.old cycle.new ∷ read_from AtService B.remaining service.old service.new
        ∷ read_from AtCounter C.remaining counter.old counter.new ∷ written_to writer.old writer.new ∷ []) result }
    ensures untouched { IsUntouched is_tool_write result writer.old writer.new }
{
    let told = match replay_files(alloc, teller, cycle, service, counter) {
        Ok(told) => told,
        Err(fault) => return Err(fault),
    };
    write_text(writer, told.line.as_str(), told.verdict)
}

/// Reads a packet file, the text of a service and that of a counter-run, in this order, and writes the line of the counter-run, and
/// each row and the links that its receiver shows differently from the page: the status is 0. If it is not a counter-run of the cycle
/// and the service, writes a line that says so: the status is 1.
///
/// Nothing is written before all is replayed. After `Write` exactly the first `written` bytes of the lines went out; after any other
/// fault the writer is unchanged.
pub fn run<A: Read, B: Read, C: Read, W: Write>(
    alloc: Global,
    cycle: &mut Counted<A>,
    service: &mut Counted<B>,
    counter: &mut Counted<C>,
    writer: &mut Counted<W>,
) -> Result<u8, ToolFault>
    ensures bytes { IfSome (A.remaining (inner_of cycle.old))
        (λ a. IfSome (B.remaining (inner_of service.old)) (λ b. IfSome (C.remaining (inner_of counter.old)) (λ c. Replays IsReplay a b c
        (W.contents (inner_of writer.old)) (W.contents (inner_of writer.new)) result))) }
    ensures faults { Fails (read_from AtCycle A.remaining cycle.old cycle.new ∷ read_from AtService B.remaining service.old service.new
        ∷ read_from AtCounter C.remaining counter.old counter.new ∷ written_to writer.old writer.new ∷ []) result }
    ensures untouched { IsUntouched is_tool_write result writer.old writer.new }
{
    answer(alloc, &InWords, cycle, service, counter, writer)
}
