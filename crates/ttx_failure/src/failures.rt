//! A failing reception in sentences and as a picture.

ghost use Rattle.std.specs.Prelude.{◌≡◌, ◌++◌, IfOk, OnOk, string_bytes};
ghost use Rattle.ttx_counter.specs.Counters.{counter_run_of};
ghost use Rattle.ttx_cycle.specs.Cycles.{slots_of};
ghost use Rattle.ttx_failure.specs.Failures as rule;
ghost use Rattle.ttx_failure.specs.Sentences.{IsTellable, line};
ghost use Rattle.ttx_failure.specs.Unlike.{unlike_text};
ghost use Rattle.ttx_page.specs.Views.{page_of, memory_of};

use crate::beside::push_beside;
use crate::figures::{push_figures, push_figures_style};
use crate::forms::{FailureForm, push_line_end, push_line_start};
use crate::sentences::{Told, push_sentences};
use crate::unlike::push_unlike;
use std::alloc::{AllocError, Global};
use ttx_counter::{Counter, Followed};
use ttx_cycle::Cycle;
use ttx_document::{push_body, push_end, push_start, push_style};
use ttx_page::{Page, PageMemory};
use ttx_picture::push_sheet;
use ttx_render::{View, render};

/// A counter-run of a page of a cycle, and what its receiver does and holds.
#[derive(Clone, Copy)]
pub(crate) struct Failure<'a> {
    pub(crate) cycle: &'a Cycle,
    pub(crate) page: &'a Page,
    pub(crate) counter: &'a Counter,
    pub(crate) followed: &'a Followed,
}

// What is shown, and the page as it was authored.
#[derive(Clone, Copy)]
struct Views<'a> {
    shown: &'a View,
    own: &'a View,
}

#[tactic(auto, unfolding(crate::specs::Failures::head_html))]
fn push_head(text: &mut String) -> Result<(), AllocError>
    ensures { OnOk result (string_bytes text.new ≡ string_bytes text.old ++ rule.head_html) }
{
    push_start(text, "A receiver that fails")?;
    push_sheet(text)?;
    push_style(text)?;
    push_figures_style(text)?;
    push_body(text, "A receiver that fails")
}

// Appends what differs as a line.
fn push_unlike_line(
    text: &mut String,
    form: FailureForm,
    shown: &View,
    own: &View,
) -> Result<(), AllocError>
    ensures { OnOk result (string_bytes text.new ≡ string_bytes text.old ++ line form (unlike_text shown.now own.now)) }
{
    push_line_start(text, form)?;
    push_unlike(text, shown, own)?;
    push_line_end(text, form)
}

// Appends what happened, and what differs.
#[tactic(auto, unfolding(crate::specs::Failures::failure_lines))]
fn push_lines(
    text: &mut String,
    form: FailureForm,
    told: &Told<'_>,
    views: Views<'_>,
) -> Result<(), AllocError>
    requires { IsTellable (counter_run_of told.now.counter.now) }
    ensures { OnOk result (string_bytes text.new ≡ string_bytes text.old
        ++ rule.failure_lines form told.now.id (slots_of told.now.cycle.now) (counter_run_of told.now.counter.now) told.now.taken.now
        views.entry.shown.now views.entry.own.now) }
{
    push_sentences(text, form, told)?;
    push_unlike_line(text, form, views.shown, views.own)
}

// Appends a failure as lines of text.
#[tactic(auto, unfolding(crate::specs::Failures::failure_of))]
fn push_text(
    alloc: Global,
    text: &mut String,
    told: &Told<'_>,
    views: Views<'_>,
) -> Result<(), AllocError>
    requires { IsTellable (counter_run_of told.now.counter.now) }
    ensures { OnOk result (string_bytes text.new ≡ string_bytes text.old
        ++ rule.failure_of FailureForm.Text told.now.id (slots_of told.now.cycle.now) (counter_run_of told.now.counter.now) told.now.taken.now
        views.entry.shown.now views.entry.own.now) }
{
    push_lines(text, FailureForm::Text, told, views)?;
    push_beside(alloc, text, views.shown, views.own)
}

// Appends a failure as an HTML document.
#[tactic(auto, unfolding(crate::specs::Failures::failure_of))]
fn push_html(text: &mut String, told: &Told<'_>, views: Views<'_>) -> Result<(), AllocError>
    requires { IsTellable (counter_run_of told.now.counter.now) }
    ensures { OnOk result (string_bytes text.new ≡ string_bytes text.old
        ++ rule.failure_of FailureForm.Html told.now.id (slots_of told.now.cycle.now) (counter_run_of told.now.counter.now) told.now.taken.now
        views.entry.shown.now views.entry.own.now) }
{
    push_head(text)?;
    push_lines(text, FailureForm::Html, told, views)?;
    push_figures(text, views.shown, views.own)?;
    push_end(text)
}

/// A failing reception in a form: what happened, in sentences, and the page as it was authored beside what the receiver shows. At most
/// twenty wrong bytes and twenty choices are listed, with the number of the others. `Err` if memory runs out.
pub(crate) fn failure_text(
    alloc: Global,
    form: FailureForm,
    failure: &Failure<'_>,
) -> Result<String, AllocError>
    requires { IsTellable (counter_run_of failure.now.counter.now) }
    ensures { IfOk result (λ text. string_bytes text ≡ rule.failure_text form (slots_of failure.now.cycle.now) (page_of failure.now.page.now)
        (counter_run_of failure.now.counter.now) failure.now.followed.now.taken.items (memory_of failure.now.followed.now.memory)) }
{
    let told = Told {
        cycle: failure.cycle,
        id: failure.page.id(),
        counter: failure.counter,
        taken: failure.followed.taken.as_slice(),
    };
    let shown = render(&failure.followed.memory);
    let own = render(&PageMemory::of(failure.page));
    let views = Views {
        shown: &shown,
        own: &own,
    };
    let mut text = String::new(alloc);
    match form {
        FailureForm::Text => push_text(alloc, &mut text, &told, views)?,
        FailureForm::Html => push_html(&mut text, &told, views)?,
    }
    Ok(text)
}
