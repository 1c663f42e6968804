//! What happened, in sentences.

ghost use Rattle.std.specs.Prelude.{◌≡◌, ◌≤◌, ◌*◌, ◌++◌, OnOk, length, string_bytes, take};
ghost use Rattle.ttx_counter.specs.Counters.{counter_run_of};
ghost use Rattle.ttx_cycle.specs.Cycles.{slots_of};
ghost use Rattle.ttx_failure.specs.Hits.{AreBits, most_listed};
ghost use Rattle.ttx_failure.specs.Sentences as rule;
ghost use Rattle.ttx_failure.specs.Sentences.{IsTellable};

use crate::choices::push_choice_items;
use crate::forms::{FailureForm, push_line_end, push_line_start, push_list_end, push_list_start};
use crate::hits::{MOST_LISTED, push_hit_items, push_rest};
use crate::places::{Tuned, push_place, push_time, slot_of_run};
use std::alloc::AllocError;
use ttx_counter::{Counter, Hit, Taken};
use ttx_cycle::Cycle;
use ttx_digits::{digit, push_byte, push_id};
use ttx_document::push_words;
use ttx_header::PageId;

#[tactic(auto, unfolding(crate::specs::Sentences::page_name))]
fn push_name(text: &mut String, id: PageId) -> Result<(), AllocError>
    ensures { OnOk result (string_bytes text.new ≡ string_bytes text.old ++ rule.page_name id) }
{
    push_id(text, id)
}

#[tactic(auto, unfolding(crate::specs::Sentences::number_name))]
fn push_number(text: &mut String, id: PageId) -> Result<(), AllocError>
    ensures { OnOk result (string_bytes text.new ≡ string_bytes text.old ++ rule.number_name id) }
{
    text.push(digit(id.mag()))?;
    push_byte(text, id.page())
}

// Appends what the receiver does not show.
#[tactic(auto, unfolding(crate::specs::Sentences::claim_text))]
fn push_claim(text: &mut String, id: PageId) -> Result<(), AllocError>
    ensures { OnOk result (string_bytes text.new ≡ string_bytes text.old ++ rule.claim_text id) }
{
    push_words(text, "A receiver that keeps all rules does not show page ")?;
    push_name(text, id)?;
    push_words(text, " as it was authored.")
}

#[tactic(auto, unfolding(crate::specs::Sentences::number_setting))]
fn push_number_setting(text: &mut String, id: PageId) -> Result<(), AllocError>
    ensures { OnOk result (string_bytes text.new ≡ string_bytes text.old ++ rule.number_setting id) }
{
    push_words(text, "It is set to page number ")?;
    push_number(text, id)?;
    push_words(text, ", whatever the subpage.")
}

#[tactic(auto, unfolding(crate::specs::Sentences::page_setting))]
fn push_page_setting(text: &mut String, id: PageId) -> Result<(), AllocError>
    ensures { OnOk result (string_bytes text.new ≡ string_bytes text.old ++ rule.page_setting id) }
{
    push_words(text, "It is set to page ")?;
    push_name(text, id)?;
    push_words(text, ".")
}

// Appends what the receiver is set to.
#[tactic(auto, unfolding(crate::specs::Sentences::setting_text))]
fn push_setting(text: &mut String, any_sub: bool, id: PageId) -> Result<(), AllocError>
    ensures { OnOk result (string_bytes text.new ≡ string_bytes text.old ++ rule.setting_text any_sub id) }
{
    if any_sub {
        push_number_setting(text, id)
    } else {
        push_page_setting(text, id)
    }
}

// Appends where the receiver is tuned.
#[tactic(auto, unfolding(crate::specs::Sentences::tuning_text))]
fn push_tuning(text: &mut String, tuned: &Tuned<'_>) -> Result<(), AllocError>
    ensures { OnOk result (string_bytes text.new ≡ string_bytes text.old
        ++ rule.tuning_text (length tuned.now.slots.now) tuned.now.lines tuned.now.start) }
{
    push_words(text, "It is tuned at ")?;
    push_place(text, tuned.lines, slot_of_run(tuned, 0))?;
    push_words(text, " of the cycle.")
}

// Appends why the receiver shows something else.
#[tactic(auto, unfolding(crate::specs::Sentences::memory_text))]
fn push_memory(text: &mut String) -> Result<(), AllocError>
    ensures { OnOk result (string_bytes text.new ≡ string_bytes text.old ++ rule.memory_text) }
{
    text.push_str("Anything that it has not received since then is left over from before.")
}

#[tactic(auto, unfolding(crate::specs::Sentences::fields_text))]
fn push_fields(text: &mut String, deadline: u32) -> Result<(), AllocError>
    ensures { OnOk result (string_bytes text.new ≡ string_bytes text.old ++ rule.fields_text deadline) }
{
    write!(text, "The deadline of {deadline} fields (")
}

// Appends the deadline up to where it passes.
#[tactic(auto, unfolding(crate::specs::Sentences::limit_text))]
fn push_limit(text: &mut String, deadline: u32) -> Result<(), AllocError>
    ensures { OnOk result (string_bytes text.new ≡ string_bytes text.old ++ rule.limit_text deadline) }
{
    push_fields(text, deadline)?;
    push_time(text, deadline)?;
    push_words(text, " s) passes at ")
}

#[tactic(auto, unfolding(crate::specs::Sentences::counted_text))]
fn push_counted(text: &mut String, limit: u32, slots: u32) -> Result<(), AllocError>
    ensures { OnOk result (string_bytes text.new ≡ string_bytes text.old ++ rule.counted_text limit slots) }
{
    write!(
        text,
        " of the cycle, {limit} slots after tuning; {slots} slots are received."
    )
}

// A deadline in slots, if so many slots are as long as it.
fn limit_of(deadline: u32, lines: u8, slots: u32) -> u32
    requires { deadline * lines ≤ slots }
    ensures { result ≡ deadline * lines }
{
    (u64::from(deadline) * u64::from(lines)) as u32
}

// Appends where the deadline passes in a run of so many slots.
#[tactic(auto, unfolding(crate::specs::Sentences::deadline_text))]
fn push_deadline(
    text: &mut String,
    tuned: &Tuned<'_>,
    deadline: u32,
    slots: u32,
) -> Result<(), AllocError>
    requires { deadline * tuned.now.lines ≤ slots }
    ensures { OnOk result (string_bytes text.new ≡ string_bytes text.old
        ++ rule.deadline_text (length tuned.now.slots.now) tuned.now.lines tuned.now.start deadline slots) }
{
    let limit = limit_of(deadline, tuned.lines, slots);
    push_limit(text, deadline)?;
    push_place(text, tuned.lines, slot_of_run(tuned, limit))?;
    push_counted(text, limit, slots)
}

// Appends how many bytes were received wrong.
#[tactic(auto, unfolding(crate::specs::Sentences::wrong_text))]
fn push_wrong(text: &mut String, count: usize) -> Result<(), AllocError>
    ensures { OnOk result (string_bytes text.new ≡ string_bytes text.old ++ rule.wrong_text count) }
{
    write!(text, "Bytes received wrong: {count}.")
}

// Appends the error rule.
#[tactic(auto, unfolding(crate::specs::Sentences::rule_text))]
fn push_rule(text: &mut String, repeat: u8) -> Result<(), AllocError>
    ensures { OnOk result (string_bytes text.new ≡ string_bytes text.old ++ rule.rule_text repeat) }
{
    if repeat == 1 {
        text.push_str("One bit of a byte may be wrong, but each character is received right.")
    } else {
        write!(
            text,
            "One bit of a byte may be wrong; of {repeat} successive transmissions of a character one is received right."
        )
    }
}

// Appends how many choices the receiver takes.
#[tactic(auto, unfolding(crate::specs::Sentences::count_text))]
fn push_count(text: &mut String, count: usize) -> Result<(), AllocError>
    ensures { OnOk result (string_bytes text.new ≡ string_bytes text.old ++ rule.count_text count) }
{
    write!(text, "Packets missed, and other choices: {count}.")
}

#[tactic(auto, unfolding(crate::specs::Sentences::miss_text))]
fn push_miss(text: &mut String, lines: u8) -> Result<(), AllocError>
    ensures { OnOk result (string_bytes text.new ≡ string_bytes text.old ++ rule.miss_text lines) }
{
    write!(
        text,
        "A receiver may miss a row or links up to {lines} slots behind their header, "
    )
}

#[tactic(auto, unfolding(crate::specs::Sentences::other_text))]
fn push_other(text: &mut String) -> Result<(), AllocError>
    ensures { OnOk result (string_bytes text.new ≡ string_bytes text.old ++ rule.other_text) }
{
    text.push_str(
        "clear what it holds at the first header of its page, and take a header of another magazine with C11 for the end of the page.",
    )
}

// Appends why a receiver may take its choices.
#[tactic(auto, unfolding(crate::specs::Sentences::may_text))]
fn push_may(text: &mut String, lines: u8) -> Result<(), AllocError>
    ensures { OnOk result (string_bytes text.new ≡ string_bytes text.old ++ rule.may_text lines) }
{
    push_miss(text, lines)?;
    push_other(text)
}

// The first hits, as many as are listed.
fn first_hits(hits: &[Hit]) -> &[Hit]
    ensures { result.now ≡ take most_listed hits.now }
{
    if hits.len() <= MOST_LISTED {
        hits
    } else {
        &hits[..MOST_LISTED]
    }
}

// The first choices, as many as are listed.
fn first_choices(taken: &[Taken]) -> &[Taken]
    ensures { result.now ≡ take most_listed taken.now }
{
    if taken.len() <= MOST_LISTED {
        taken
    } else {
        &taken[..MOST_LISTED]
    }
}

// Appends the list of what was received wrong.
#[tactic(auto, unfolding(crate::specs::Sentences::hit_list))]
fn push_hit_list(
    text: &mut String,
    form: FailureForm,
    tuned: &Tuned<'_>,
    hits: &[Hit],
) -> Result<(), AllocError>
    requires { AreBits hits.now }
    ensures { OnOk result (string_bytes text.new ≡ string_bytes text.old
        ++ rule.hit_list form tuned.now.slots.now tuned.now.lines tuned.now.start hits.now) }
{
    push_list_start(text, form)?;
    push_hit_items(text, form, tuned, first_hits(hits))?;
    push_rest(text, form, hits.len())?;
    push_list_end(text, form)
}

// Appends the error rule, and the list of what was received wrong.
#[tactic(auto, unfolding(crate::specs::Sentences::wrong_list))]
fn push_wrong_list(
    text: &mut String,
    form: FailureForm,
    tuned: &Tuned<'_>,
    repeat: u8,
    hits: &[Hit],
) -> Result<(), AllocError>
    requires { AreBits hits.now }
    ensures { OnOk result (string_bytes text.new ≡ string_bytes text.old
        ++ rule.wrong_list form tuned.now.slots.now tuned.now.lines tuned.now.start repeat hits.now) }
{
    push_line_start(text, form)?;
    push_rule(text, repeat)?;
    push_line_end(text, form)?;
    push_hit_list(text, form, tuned, hits)
}

// Appends what was received wrong.
#[tactic(auto, unfolding(crate::specs::Sentences::wrong_lines))]
fn push_wrong_lines(
    text: &mut String,
    form: FailureForm,
    tuned: &Tuned<'_>,
    repeat: u8,
    hits: &[Hit],
) -> Result<(), AllocError>
    requires { AreBits hits.now }
    ensures { OnOk result (string_bytes text.new ≡ string_bytes text.old
        ++ rule.wrong_lines form tuned.now.slots.now tuned.now.lines tuned.now.start repeat hits.now) }
{
    push_line_start(text, form)?;
    push_wrong(text, hits.len())?;
    push_line_end(text, form)?;
    if hits.is_empty() {
        Ok(())
    } else {
        push_wrong_list(text, form, tuned, repeat, hits)
    }
}

// Appends the list of the choices.
#[tactic(auto, unfolding(crate::specs::Sentences::choice_list))]
fn push_choice_list(
    text: &mut String,
    form: FailureForm,
    own: u8,
    tuned: &Tuned<'_>,
    taken: &[Taken],
) -> Result<(), AllocError>
    ensures { OnOk result (string_bytes text.new ≡ string_bytes text.old
        ++ rule.choice_list form own tuned.now.slots.now tuned.now.lines tuned.now.start taken.now) }
{
    push_list_start(text, form)?;
    push_choice_items(text, form, own, tuned, first_choices(taken))?;
    push_rest(text, form, taken.len())?;
    push_list_end(text, form)
}

// Appends why a receiver may take its choices, and the list of them.
#[tactic(auto, unfolding(crate::specs::Sentences::choices_made))]
fn push_choices_made(
    text: &mut String,
    form: FailureForm,
    own: u8,
    tuned: &Tuned<'_>,
    taken: &[Taken],
) -> Result<(), AllocError>
    ensures { OnOk result (string_bytes text.new ≡ string_bytes text.old
        ++ rule.choices_made form own tuned.now.slots.now tuned.now.lines tuned.now.start taken.now) }
{
    push_line_start(text, form)?;
    push_may(text, tuned.lines)?;
    push_line_end(text, form)?;
    push_choice_list(text, form, own, tuned, taken)
}

// Appends the choices.
#[tactic(auto, unfolding(crate::specs::Sentences::choice_lines))]
fn push_choice_lines(
    text: &mut String,
    form: FailureForm,
    own: u8,
    tuned: &Tuned<'_>,
    taken: &[Taken],
) -> Result<(), AllocError>
    ensures { OnOk result (string_bytes text.new ≡ string_bytes text.old
        ++ rule.choice_lines form own tuned.now.slots.now tuned.now.lines tuned.now.start taken.now) }
{
    push_line_start(text, form)?;
    push_count(text, taken.len())?;
    push_line_end(text, form)?;
    if taken.is_empty() {
        Ok(())
    } else {
        push_choices_made(text, form, own, tuned, taken)
    }
}

// Appends what the receiver does not show as a line.
fn push_claim_line(text: &mut String, form: FailureForm, id: PageId) -> Result<(), AllocError>
    ensures { OnOk result (string_bytes text.new ≡ string_bytes text.old ++ rule.line form (rule.claim_text id)) }
{
    push_line_start(text, form)?;
    push_claim(text, id)?;
    push_line_end(text, form)
}

// Appends what the receiver is set to as a line.
fn push_setting_line(
    text: &mut String,
    form: FailureForm,
    any_sub: bool,
    id: PageId,
) -> Result<(), AllocError>
    ensures { OnOk result (string_bytes text.new ≡ string_bytes text.old ++ rule.line form (rule.setting_text any_sub id)) }
{
    push_line_start(text, form)?;
    push_setting(text, any_sub, id)?;
    push_line_end(text, form)
}

// Appends the sentences on the receiver.
#[tactic(auto, unfolding(crate::specs::Sentences::who_lines))]
fn push_who(
    text: &mut String,
    form: FailureForm,
    any_sub: bool,
    id: PageId,
) -> Result<(), AllocError>
    ensures { OnOk result (string_bytes text.new ≡ string_bytes text.old ++ rule.who_lines form any_sub id) }
{
    push_claim_line(text, form, id)?;
    push_setting_line(text, form, any_sub, id)
}

// Appends where the receiver is tuned as a line.
fn push_tuning_line(
    text: &mut String,
    form: FailureForm,
    tuned: &Tuned<'_>,
) -> Result<(), AllocError>
    ensures { OnOk result (string_bytes text.new ≡ string_bytes text.old
        ++ rule.line form (rule.tuning_text (length tuned.now.slots.now) tuned.now.lines tuned.now.start)) }
{
    push_line_start(text, form)?;
    push_tuning(text, tuned)?;
    push_line_end(text, form)
}

// Appends why the receiver shows something else as a line.
fn push_memory_line(text: &mut String, form: FailureForm) -> Result<(), AllocError>
    ensures { OnOk result (string_bytes text.new ≡ string_bytes text.old ++ rule.line form rule.memory_text) }
{
    push_line_start(text, form)?;
    push_memory(text)?;
    push_line_end(text, form)
}

// Appends the sentence on the tuning, and that on the memory.
#[tactic(auto, unfolding(crate::specs::Sentences::where_lines))]
fn push_where(text: &mut String, form: FailureForm, tuned: &Tuned<'_>) -> Result<(), AllocError>
    ensures { OnOk result (string_bytes text.new ≡ string_bytes text.old
        ++ rule.where_lines form (length tuned.now.slots.now) tuned.now.lines tuned.now.start) }
{
    push_tuning_line(text, form, tuned)?;
    push_memory_line(text, form)
}

// Appends the sentence on the deadline.
fn push_limit_line(
    text: &mut String,
    form: FailureForm,
    tuned: &Tuned<'_>,
    deadline: u32,
    slots: u32,
) -> Result<(), AllocError>
    requires { deadline * tuned.now.lines ≤ slots }
    ensures { OnOk result (string_bytes text.new ≡ string_bytes text.old
        ++ rule.line form (rule.deadline_text (length tuned.now.slots.now) tuned.now.lines tuned.now.start deadline slots)) }
{
    push_line_start(text, form)?;
    push_deadline(text, tuned, deadline, slots)?;
    push_line_end(text, form)
}

/// A counter-run of a page of a cycle, and the choices that its receiver takes.
#[derive(Clone, Copy)]
pub(crate) struct Told<'a> {
    pub(crate) cycle: &'a Cycle,
    pub(crate) id: PageId,
    pub(crate) counter: &'a Counter,
    pub(crate) taken: &'a [Taken],
}

// Where the receiver of a counter-run is tuned.
fn tuned_of<'a>(told: &Told<'a>) -> Tuned<'a>
    requires { IsTellable (counter_run_of told.now.counter.now) }
    ensures slots { result.slots.now ≡ slots_of told.now.cycle.now }
    ensures lines { result.lines ≡ told.now.counter.now.lines }
    ensures start { result.start ≡ told.now.counter.now.start }
{
    Tuned {
        slots: told.cycle.slots(),
        lines: told.counter.lines,
        start: told.counter.start,
    }
}

/// Appends all sentences.
#[tactic(auto, unfolding(crate::specs::Sentences::sentences))]
pub(crate) fn push_sentences(
    text: &mut String,
    form: FailureForm,
    told: &Told<'_>,
) -> Result<(), AllocError>
    requires { IsTellable (counter_run_of told.now.counter.now) }
    ensures { OnOk result (string_bytes text.new ≡ string_bytes text.old
        ++ rule.sentences form told.now.id (slots_of told.now.cycle.now) (counter_run_of told.now.counter.now) told.now.taken.now) }
{
    let counter = told.counter;
    let tuned = tuned_of(told);
    push_who(text, form, counter.any_sub, told.id)?;
    push_where(text, form, &tuned)?;
    push_wrong_lines(text, form, &tuned, counter.repeat, &counter.hits)?;
    push_choice_lines(text, form, told.id.mag(), &tuned, told.taken)?;
    push_limit_line(text, form, &tuned, counter.deadline, counter.slots)
}
