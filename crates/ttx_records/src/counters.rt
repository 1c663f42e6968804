//! The answer of `refute`.

ghost use Rattle.std.specs.Prelude.{◌≡◌, IfOk, string_bytes};
ghost use Rattle.ttx_counter.specs.Counters.{counter_run_of};
ghost use Rattle.ttx_records.specs.Counters as rule;

use crate::names::id_text;
use std::alloc::{AllocError, Global};
use ttx_counter::Counter;
use ttx_header::PageId;
use ttx_json::{count, object_line, word};

/// The object of a counter-run to a page.
#[tactic(auto, unfolding(crate::specs::Names::line))]
pub fn counter_record(alloc: Global, page: PageId, counter: &Counter) -> Result<String, AllocError>
    ensures { IfOk result (λ text. string_bytes text ≡ rule.counter_record page (counter_run_of counter.now)) }
{
    let page = id_text(alloc, page)?;
    let members = [
        word("answer", "counter"),
        word("page", page.as_str()),
        count("start", u64::from(counter.start)),
        count("slots", u64::from(counter.slots)),
        count("hits", counter.hits.len() as u64),
        count("choices", counter.choices.len() as u64),
    ];
    object_line(alloc, &members)
}

/// The object that says that there is no counter-run.
#[tactic(auto, unfolding(crate::specs::Names::line))]
pub fn none_record(alloc: Global) -> Result<String, AllocError>
    ensures { IfOk result (λ text. string_bytes text ≡ rule.none_record) }
{
    object_line(alloc, &[word("answer", "none")])
}
