//! The text of a service.

ghost use Rattle.std.specs.Prelude.{◌≡◌, ◌++◌, ◌∷◌, [], OnOk, codes, option_map, string_bytes, map, IfOk};
ghost use Rattle.ttx_extract.specs.Drafts.{authored_of, draft_of};
ghost use Rattle.std.specs.Fmt.{decimal};
ghost use Rattle.ttx_extract.specs.ServiceTexts.{clock_text, designation_text, info_heading, info_part, info_text, network_text, settings_text, pages_text, service_text, status_text, trimmed};

use crate::draft::Draft;
use crate::page_texts::{push_link, push_page};
use crate::sent_page::SentPage;
use crate::texts::{push_pair, push_quoted, trimmed};
use std::alloc::{AllocError, Global};
use ttx_info::Info;

// Adds the local offset, the date and the time.
#[tactic(auto, unfolding(crate::specs::ServiceTexts::clock_text))]
fn push_clock(text: &mut String, info: &Info) -> Result<(), AllocError>
    ensures { OnOk result (string_bytes text.new ≡ string_bytes text.old ++ clock_text info.now) }
{
    let (halves, mjd, utc) = (info.halves(), info.mjd(), info.utc());
    let sign = if info.west() { "-" } else { "" };
    writeln!(text, "halves = {sign}{halves}")?;
    writeln!(text, "mjd = {mjd}")?;
    writeln!(text, "utc = {utc}")
}

// Adds the initial page and the network.
#[tactic(auto, unfolding(crate::specs::ServiceTexts::network_text))]
fn push_network(text: &mut String, info: &Info) -> Result<(), AllocError>
    ensures { OnOk result (string_bytes text.new ≡ string_bytes text.old ++ network_text info.now) }
{
    text.push_str("initial = ")?;
    push_link(text, info.initial())?;
    text.push_str("\nnetwork = ")?;
    push_pair(text, info.network())?;
    text.push('\n')
}

// Adds the characters of the status display.
#[tactic(auto, unfolding(crate::specs::ServiceTexts::status_text))]
fn push_status(text: &mut String, info: &Info) -> Result<(), AllocError>
    ensures { OnOk result (string_bytes text.new ≡ string_bytes text.old ++ status_text info.now) }
{
    text.push_str("text = ")?;
    push_quoted(text, trimmed(info.text()))?;
    text.push('\n')
}

// Begins the table of a packet 8/30.
#[tactic(auto, unfolding(crate::specs::ServiceTexts::info_heading))]
fn push_info_heading(text: &mut String) -> Result<(), AllocError>
    ensures { OnOk result (string_bytes text.new ≡ string_bytes text.old ++ info_heading) }
{
    text.push_str("\n[info]\n")
}

// Adds the designation of a packet 8/30.
#[tactic(auto, unfolding(crate::specs::ServiceTexts::designation_text))]
fn push_designation(text: &mut String, info: &Info) -> Result<(), AllocError>
    ensures { OnOk result (string_bytes text.new ≡ string_bytes text.old ++ designation_text info.now.designation) }
{
    let designation = info.designation();
    writeln!(text, "designation = {designation}")
}

// Adds the table of a packet 8/30.
#[tactic(auto, unfolding(crate::specs::ServiceTexts::info_text))]
fn push_info(text: &mut String, info: &Info) -> Result<(), AllocError>
    ensures { OnOk result (string_bytes text.new ≡ string_bytes text.old ++ info_text info.now) }
{
    push_info_heading(text)?;
    push_designation(text, info)?;
    push_network(text, info)?;
    push_clock(text, info)?;
    push_status(text, info)
}

// Adds the lines of a field and whether magazines are sent one after another.
#[tactic(auto, unfolding(crate::specs::ServiceTexts::settings_text))]
fn push_settings(text: &mut String, lines: u8, serial: bool) -> Result<(), AllocError>
    ensures { OnOk result (string_bytes text.new ≡ string_bytes text.old ++ settings_text lines serial) }
{
    if serial {
        write!(text, "lines = {lines}\nserial = true\n")
    } else {
        write!(text, "lines = {lines}\nserial = false\n")
    }
}

// Adds the settings of a service and its packet 8/30.
fn push_head(
    text: &mut String,
    lines: u8,
    serial: bool,
    info: Option<&Info>,
) -> Result<(), AllocError>
    ensures { OnOk result (string_bytes text.new ≡ string_bytes text.old
        ++ settings_text lines serial ++ info_part (option_map (λ i. i.now) info.entry)) }
{
    push_settings(text, lines, serial)?;
    match info {
        Some(info) => push_info(text, info),
        None => Ok(()),
    }
}

// Adds the tables of pages.
fn push_pages(text: &mut String, pages: &[SentPage]) -> Result<(), AllocError>
    ensures { OnOk result (string_bytes text.new ≡ string_bytes text.old ++ pages_text (map authored_of pages.now)) }
{
    for page in pages {
        push_page(text, page)?;
    }
    Ok(())
}

/// The text of a service.
pub fn service_text(alloc: Global, draft: &Draft) -> Result<String, AllocError>
    ensures { IfOk result (λ text. string_bytes text ≡ service_text (draft_of draft.now)) }
{
    let mut text = String::new(alloc);
    push_head(&mut text, draft.lines, draft.serial, draft.info.as_ref())?;
    push_pages(&mut text, draft.pages.as_slice())?;
    Ok(text)
}
