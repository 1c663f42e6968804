//! Tells of what may be a counter-run.

ghost use Rattle.std.specs.Prelude.{◌≡◌, ◌<◌, Some, IfOk, length, map, slice_get, string_bytes};
ghost use Rattle.ttx_counter.specs.Counters.{counter_run_of};
ghost use Rattle.ttx_cycle.specs.Cycles.{slots_of};
ghost use Rattle.ttx_failure.specs.Failures.{failure_text};
ghost use Rattle.ttx_failure.specs.Sentences.{IsTellable};
ghost use Rattle.ttx_failure.specs.Tellings.{TellsFailure};
ghost use Rattle.ttx_page.specs.Views.{page_of, memory_of};

use crate::failures::{Failure, failure_text};
use crate::forms::FailureForm;
use std::alloc::Global;
use ttx_counter::{Counter, follow};
use ttx_cycle::Cycle;
use ttx_page::Page;
use ttx_witness::NoMemory;

// The page of a counter-run.
fn page_at(pages: &[Page], index: u32) -> &Page
    requires { index < length pages.now }
    ensures { slice_get (map page_of pages.now) index ≡ Some (page_of result.now) }
{
    &pages[index as usize]
}

// The text of a counter-run.
fn text_of(alloc: Global, form: FailureForm, failure: &Failure<'_>) -> Result<String, NoMemory>
    requires { IsTellable (counter_run_of failure.now.counter.now) }
    ensures { IfOk result (λ text. string_bytes text ≡ failure_text form (slots_of failure.now.cycle.now) (page_of failure.now.page.now)
        (counter_run_of failure.now.counter.now) failure.now.followed.now.taken.items (memory_of failure.now.followed.now.memory)) }
{
    match failure_text(alloc, form, failure) {
        Ok(text) => Ok(text),
        Err(_) => Err(NoMemory),
    }
}

/// What happened in a counter-run of a cycle and pages, in a form: the sentences, and the page as it was authored beside what the
/// receiver shows. At most twenty wrong bytes and twenty choices are listed, with the number of the others. `None` if this is not a
/// counter-run of the cycle and the pages.
pub fn tell_failure(
    alloc: Global,
    form: FailureForm,
    cycle: &Cycle,
    pages: &[Page],
    counter: &Counter,
) -> Result<Option<String>, NoMemory>
    ensures { IfOk result (TellsFailure string_bytes form (slots_of cycle.now) (map page_of pages.now) (counter_run_of counter.now)) }
{
    let answer = follow(alloc, cycle, pages, counter)?;
    match answer {
        Some(followed) => {
            let failure = Failure {
                cycle,
                page: page_at(pages, counter.page),
                counter,
                followed: &followed,
            };
            let text = text_of(alloc, form, &failure)?;
            Ok(Some(text))
        }
        None => Ok(None),
    }
}
