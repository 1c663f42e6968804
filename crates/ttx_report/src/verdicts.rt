//! What a report says of the verdict.

ghost use Rattle.std.specs.Prelude.{◌≡◌, ◌++◌, OnOk, string_bytes};
ghost use Rattle.ttx_certify.specs.VerdictLines.{verdict_line};
ghost use Rattle.ttx_report.specs.Verdicts as rule;
ghost use Rattle.ttx_certificate.specs.Certificates.{fields_of};

use std::alloc::AllocError;
use ttx_certify::Verdict;
use ttx_document::{push_heading, push_words};
use ttx_page::Class;
use ttx_wait::push_seconds;
use ttx_witness::Certificate;

#[tactic(auto, unfolding(crate::specs::Verdicts::receivers_text))]
fn push_receivers(text: &mut String, class: Class) -> Result<(), AllocError>
    ensures { OnOk result (string_bytes text.new ≡ string_bytes text.old ++ rule.receivers_text class) }
{
    match class {
        Class::Any => text.push_str("every receiver that keeps the rules"),
        Class::Clearing => text.push_str(
            "every receiver that keeps the rules and surely clears what it holds when a page is selected",
        ),
    }
}

#[tactic(auto, unfolding(crate::specs::Verdicts::pages_text))]
fn push_pages(text: &mut String, pages: usize) -> Result<(), AllocError>
    ensures { OnOk result (string_bytes text.new ≡ string_bytes text.old ++ rule.pages_text pages) }
{
    write!(
        text,
        " shows each page of the service text ({pages} in all) as it was authored, at most "
    )
}

#[tactic(auto, unfolding(crate::specs::Verdicts::deadline_text))]
fn push_deadline(text: &mut String, deadline: u32) -> Result<(), AllocError>
    ensures { OnOk result (string_bytes text.new ≡ string_bytes text.old ++ rule.deadline_text deadline) }
{
    write!(text, "{deadline} fields (")?;
    push_seconds(text, 2 * u64::from(deadline))?;
    text.push_str(" s) after it is tuned to the page")
}

// Appends which receivers show which pages when.
#[tactic(auto, unfolding(crate::specs::Verdicts::shows_text))]
fn push_shows(text: &mut String, certificate: &Certificate, pages: usize) -> Result<(), AllocError>
    ensures { OnOk result (string_bytes text.new ≡ string_bytes text.old ++ rule.shows_text (fields_of certificate.now) pages) }
{
    push_receivers(text, certificate.class())?;
    push_pages(text, pages)?;
    push_deadline(text, certificate.deadline())
}

#[tactic(auto, unfolding(crate::specs::Verdicts::yes_words))]
fn push_yes(text: &mut String, certificate: &Certificate, pages: usize) -> Result<(), AllocError>
    ensures { OnOk result (string_bytes text.new ≡ string_bytes text.old ++ rule.yes_words (fields_of certificate.now) pages) }
{
    push_words(
        text,
        "<b>Yes</b>: as long as this cycle is repeated unchanged, ",
    )?;
    push_shows(text, certificate, pages)?;
    push_words(text, ", and ever after, the header clock aside.")
}

#[tactic(auto, unfolding(crate::specs::Verdicts::no_words))]
fn push_no(text: &mut String, certificate: &Certificate, pages: usize) -> Result<(), AllocError>
    ensures { OnOk result (string_bytes text.new ≡ string_bytes text.old ++ rule.no_words (fields_of certificate.now) pages) }
{
    push_words(text, "<b>No</b>: it is not certain that ")?;
    push_shows(text, certificate, pages)?;
    push_words(
        text,
        ". The line above gives the first reason, which ttx explain explains. It does not prove a failure: ttx refute looks for one.",
    )
}

// Appends what the verdict means.
#[tactic(auto, unfolding(crate::specs::Verdicts::verdict_words))]
fn push_meaning(
    text: &mut String,
    certificate: &Certificate,
    pages: usize,
    verdict: Verdict,
) -> Result<(), AllocError>
    ensures { OnOk result (string_bytes text.new ≡ string_bytes text.old ++ rule.verdict_words (fields_of certificate.now) pages verdict) }
{
    match verdict {
        Verdict::Yes => push_yes(text, certificate, pages),
        Verdict::No(_) => push_no(text, certificate, pages),
    }
}

/// Appends the line of `certify`, and what it means.
#[tactic(auto, unfolding(crate::specs::Verdicts::verdict_html))]
pub(crate) fn push_verdict(
    text: &mut String,
    certificate: &Certificate,
    pages: usize,
    verdict: Verdict,
    line: &str,
) -> Result<(), AllocError>
    requires { line.now ≡ verdict_line (fields_of certificate.now) pages verdict }
    ensures { OnOk result (string_bytes text.new ≡ string_bytes text.old ++ rule.verdict_html (fields_of certificate.now) pages verdict) }
{
    push_heading(text, "Verdict")?;
    text.push_str("<p><code>")?;
    text.push_str(line)?;
    text.push_str("</code></p>\n<p>")?;
    push_meaning(text, certificate, pages, verdict)?;
    text.push_str("</p>\n")
}

#[tactic(auto, unfolding(crate::specs::Verdicts::right_words))]
fn push_right(text: &mut String, repeat: u8) -> Result<(), AllocError>
    ensures { OnOk result (string_bytes text.new ≡ string_bytes text.old ++ rule.right_words repeat) }
{
    if repeat == 1 {
        text.push_str("each character is right. ")
    } else {
        write!(
            text,
            "of {repeat} successive transmissions of a character at least one is right. "
        )
    }
}

#[tactic(auto, unfolding(crate::specs::Verdicts::rule_words))]
fn push_rule(text: &mut String, repeat: u8) -> Result<(), AllocError>
    ensures { OnOk result (string_bytes text.new ≡ string_bytes text.old ++ rule.rule_words repeat) }
{
    text.push_str(
        "Assumed of the reception: no packet is lost, at most one bit of a byte is wrong, and ",
    )?;
    push_right(text, repeat)
}

#[tactic(auto, unfolding(crate::specs::Verdicts::lines_words))]
fn push_lines(text: &mut String, lines: u8, authored: u8) -> Result<(), AllocError>
    ensures { OnOk result (string_bytes text.new ≡ string_bytes text.old ++ rule.lines_words lines authored) }
{
    write!(
        text,
        "A field, a fiftieth of a second, has {lines} slots in the certificate, {authored}"
    )?;
    text.push_str(" in the service text.")
}

/// Appends what is assumed.
#[tactic(auto, unfolding(crate::specs::Verdicts::numbers_html))]
pub(crate) fn push_numbers(
    text: &mut String,
    certificate: &Certificate,
    authored: u8,
) -> Result<(), AllocError>
    ensures { OnOk result (string_bytes text.new ≡ string_bytes text.old ++ rule.numbers_html (fields_of certificate.now) authored) }
{
    text.push_str("<p>")?;
    push_rule(text, certificate.repeat())?;
    push_lines(text, certificate.lines(), authored)?;
    text.push_str("</p>\n")
}

#[tactic(auto, unfolding(crate::specs::Verdicts::nearest_rows))]
fn push_nearest(text: &mut String) -> Result<(), AllocError>
    ensures { OnOk result (string_bytes text.new ≡ string_bytes text.old ++ rule.nearest_rows) }
{
    text.push_str(
        "<table><tr><th>A decoder that</th><th>is covered by a yes</th></tr>\n\
          <tr><td>shows each row as it comes</td><td>yes</td></tr>\n\
          <tr><td>shows a page when the next one ends it, as libzvbi does</td><td>only by certify --late</td></tr>\n",
    )
}

#[tactic(auto, unfolding(crate::specs::Verdicts::further_rows))]
fn push_further(text: &mut String) -> Result<(), AllocError>
    ensures { OnOk result (string_bytes text.new ≡ string_bytes text.old ++ rule.further_rows) }
{
    text.push_str(
        "<tr><td>refuses a row with a wrong byte whole, or loses rows</td>\
          <td>if one of K successive transmissions of a row arrives whole, K being the repeat count</td></tr>\n\
          <tr><td>stores characters whatever their parity</td><td>if no row arrives with a wrong character</td></tr>\n",
    )
}

#[tactic(auto, unfolding(crate::specs::Verdicts::loss_words))]
fn push_loss(text: &mut String, class: Class) -> Result<(), AllocError>
    ensures { OnOk result (string_bytes text.new ≡ string_bytes text.old ++ rule.loss_words class) }
{
    match class {
        Class::Any => text.push_str("right again a deadline after the last loss"),
        Class::Clearing => text.push_str("only with a certificate of class any"),
    }
}

#[tactic(auto, unfolding(crate::specs::Verdicts::last_rows))]
fn push_last(text: &mut String, class: Class) -> Result<(), AllocError>
    ensures { OnOk result (string_bytes text.new ≡ string_bytes text.old ++ rule.last_rows class) }
{
    push_words(text, "<tr><td>loses page headers</td><td>")?;
    push_loss(text, class)?;
    push_words(
        text,
        "</td></tr>\n<tr><td>checks a page by its check word</td><td>no</td></tr></table>\n",
    )
}

/// Appends which decoders a yes to a certificate of this class covers.
#[tactic(auto, unfolding(crate::specs::Verdicts::decoders_html))]
pub(crate) fn push_decoders(text: &mut String, class: Class) -> Result<(), AllocError>
    ensures { OnOk result (string_bytes text.new ≡ string_bytes text.old ++ rule.decoders_html class) }
{
    push_heading(text, "To which decoders")?;
    push_nearest(text)?;
    push_further(text)?;
    push_last(text, class)
}
