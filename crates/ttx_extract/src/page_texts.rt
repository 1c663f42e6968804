//! The text of a page.

ghost use Rattle.std.specs.Prelude.{◌≡◌, ◌++◌, ◌∷◌, ◌≤◌, ◌<◌, Some, OnOk, string_bytes, flat_map, length, is_none, codes};
ghost use Rattle.std.specs.Fmt.{decimal};
ghost use Rattle.std.specs.List.{list_all};
ghost use Rattle.ttx_links.specs.Sets.{links_at, IsLink};
ghost use Rattle.ttx_extract.specs.Drafts.{authored_of};
ghost use Rattle.ttx_extract.specs.ServiceTexts.{link_word, name_text, lower_flags_text, upper_flags_text, links_text, six_text, crc_text, rows_text, page_text, separated, text_line, sub_of_link, sub_line, sub_text, sub_word, next_link, is_zero, target_word, page_heading, number_text, rows_heading, rows_table, c8, c9};

use crate::sent_page::SentPage;
use crate::texts::{
    push_flag, push_number, push_number_line, push_pair, push_quoted, push_text_line, trimmed,
};
use std::alloc::AllocError;
use ttx_digits::push_subcode;
use ttx_header::{Control, PageId};
use ttx_links::{Links, Target};

// The subcode of a link to any subpage.
const ANY_SUBPAGE: u16 = 0x3f7f;

// Adds the subcode of a link; nothing for any subpage.
#[tactic(auto, unfolding(crate::specs::ServiceTexts::sub_of_link))]
fn push_link_subcode(text: &mut String, sub: u16) -> Result<(), AllocError>
    ensures { OnOk result (string_bytes text.new ≡ string_bytes text.old ++ sub_of_link sub) }
{
    if sub != ANY_SUBPAGE {
        text.push('/')?;
        push_digits(text, sub)?;
    }
    Ok(())
}

// Adds the target of a link in quotation marks.
#[tactic(auto, unfolding(crate::specs::ServiceTexts::target_word))]
fn push_target(text: &mut String, target: &Target) -> Result<(), AllocError>
    ensures { OnOk result (string_bytes text.new ≡ string_bytes text.old ++ target_word target.now) }
{
    text.push('"')?;
    push_number(text, target.mag(), target.page())?;
    push_link_subcode(text, target.sub())?;
    text.push('"')
}

/// Adds a link in quotation marks; if it leads nowhere, there is nothing between them.
#[tactic(auto, unfolding(crate::specs::ServiceTexts::link_word))]
pub fn push_link(text: &mut String, link: &Option<Target>) -> Result<(), AllocError>
    ensures { OnOk result (string_bytes text.new ≡ string_bytes text.old ++ link_word link.now) }
{
    match link {
        Some(target) => push_target(text, target),
        None => text.push_str("\"\""),
    }
}

// Adds the four digits of a subcode.
#[tactic(auto, unfolding(crate::specs::ServiceTexts::sub_word))]
fn push_digits(text: &mut String, sub: u16) -> Result<(), AllocError>
    ensures { OnOk result (string_bytes text.new ≡ string_bytes text.old ++ sub_word sub) }
{
    push_subcode(text, sub)
}

// Adds the line of a subcode.
#[tactic(auto, unfolding(crate::specs::ServiceTexts::sub_text))]
fn push_sub_text(text: &mut String, sub: u16) -> Result<(), AllocError>
    ensures { OnOk result (string_bytes text.new ≡ string_bytes text.old ++ sub_text sub) }
{
    text.push_str("sub = \"")?;
    push_digits(text, sub)?;
    text.push_str("\"\n")
}

// Adds a subcode that isn't 0000.
#[tactic(auto, unfolding(crate::specs::ServiceTexts::sub_line))]
fn push_sub(text: &mut String, sub: u16) -> Result<(), AllocError>
    ensures { OnOk result (string_bytes text.new ≡ string_bytes text.old ++ sub_line sub) }
{
    if sub != 0 {
        push_sub_text(text, sub)?;
    }
    Ok(())
}

// Begins the table of a page.
#[tactic(auto, unfolding(crate::specs::ServiceTexts::page_heading))]
fn push_page_heading(text: &mut String) -> Result<(), AllocError>
    ensures { OnOk result (string_bytes text.new ≡ string_bytes text.old ++ page_heading) }
{
    text.push_str("\n[[page]]\n")
}

// Adds the number of a page.
#[tactic(auto, unfolding(crate::specs::ServiceTexts::number_text))]
fn push_number_text(text: &mut String, id: PageId) -> Result<(), AllocError>
    ensures { OnOk result (string_bytes text.new ≡ string_bytes text.old ++ number_text id) }
{
    text.push_str("number = \"")?;
    push_number(text, id.mag(), id.page())?;
    text.push_str("\"\n")
}

// Adds the page's number, its subcode and how often it is sent.
#[tactic(auto, unfolding(crate::specs::ServiceTexts::name_text))]
fn push_name(text: &mut String, id: PageId, often: u8) -> Result<(), AllocError>
    ensures { OnOk result (string_bytes text.new ≡ string_bytes text.old ++ name_text id often) }
{
    push_page_heading(text)?;
    push_number_text(text, id)?;
    push_sub(text, id.sub())?;
    push_number_line(text, "often", 1, often)
}

// Adds the national option and the control bits C5 to C7.
#[tactic(auto, unfolding(crate::specs::ServiceTexts::lower_flags_text))]
fn push_lower_flags(text: &mut String, control: Control) -> Result<(), AllocError>
    ensures { OnOk result (string_bytes text.new ≡ string_bytes text.old ++ lower_flags_text control.0) }
{
    push_number_line(text, "option", 0, control.option())?;
    push_flag(text, "newsflash", control.is_newsflash())?;
    push_flag(text, "subtitle", control.is_subtitle())?;
    push_flag(text, "suppress", control.suppresses_header())
}

// Whether the page is marked as updated (C8, update indicator).
#[tactic(auto, unfolding(crate::specs::ServiceTexts::c8))]
fn is_updated(control: &Control) -> bool
    ensures { result ≡ c8 control.now.0 }
{
    control.0 / 16 % 2 == 1
}

// Whether the page is out of sequence (C9, interrupted sequence).
#[tactic(auto, unfolding(crate::specs::ServiceTexts::c9))]
fn is_interrupted(control: &Control) -> bool
    ensures { result ≡ c9 control.now.0 }
{
    control.0 / 32 % 2 == 1
}

// Adds the control bits C8 to C10.
#[tactic(auto, unfolding(crate::specs::ServiceTexts::upper_flags_text))]
fn push_upper_flags(text: &mut String, control: Control) -> Result<(), AllocError>
    ensures { OnOk result (string_bytes text.new ≡ string_bytes text.old ++ upper_flags_text control.0) }
{
    push_flag(text, "update", is_updated(&control))?;
    push_flag(text, "interrupted", is_interrupted(&control))?;
    push_flag(text, "inhibit", control.inhibits_display())
}

// Adds the national option and the control bits.
fn push_flags(text: &mut String, control: Control) -> Result<(), AllocError>
    ensures { OnOk result (string_bytes text.new ≡ string_bytes text.old ++ (lower_flags_text control.0 ++ upper_flags_text control.0)) }
{
    push_lower_flags(text, control)?;
    push_upper_flags(text, control)
}

// Adds links, each after a comma.
fn push_next(text: &mut String, links: &[Option<Target>]) -> Result<(), AllocError>
    ensures { OnOk result (string_bytes text.new ≡ string_bytes text.old ++ flat_map next_link links.now) }
{
    for link in links {
        text.push_str(", ")?;
        push_link(text, link)?;
    }
    Ok(())
}

// Adds links with a comma between two.
fn push_each(text: &mut String, links: &[Option<Target>]) -> Result<(), AllocError>
    ensures { OnOk result (string_bytes text.new ≡ string_bytes text.old ++ separated links.now) }
{
    match links.split_first() {
        Some((first, others)) => {
            push_link(text, first)?;
            push_next(text, others)
        }
        None => Ok(()),
    }
}

// Whether there are no links.
fn are_none(links: &[Option<Target>]) -> bool
    ensures { result ≡ list_all is_none links.now }
{
    links.iter().all(|link| link.is_none())
}

// Adds six links if there is one.
#[tactic(auto, unfolding(crate::specs::ServiceTexts::six_text))]
fn push_six(text: &mut String, six: &[Option<Target>; 6]) -> Result<(), AllocError>
    ensures { OnOk result (string_bytes text.new ≡ string_bytes text.old ++ six_text six.now) }
{
    if are_none(six) {
        return Ok(());
    }
    text.push_str("links = [")?;
    push_each(text, six)?;
    text.push_str("]\n")
}

// Whether both bytes of a CRC are zero.
fn is_zero(crc: [u8; 2]) -> bool
    ensures { result ≡ is_zero crc }
{
    crc[0] == 0 && crc[1] == 0
}

// Adds a CRC that isn't zero.
#[tactic(auto, unfolding(crate::specs::ServiceTexts::crc_text))]
fn push_crc(text: &mut String, crc: [u8; 2]) -> Result<(), AllocError>
    ensures { OnOk result (string_bytes text.new ≡ string_bytes text.old ++ crc_text crc) }
{
    if is_zero(crc) {
        return Ok(());
    }
    text.push_str("crc = ")?;
    push_pair(text, crc)?;
    text.push('\n')
}

// Adds a packet X/27/0.
#[tactic(auto, unfolding(crate::specs::ServiceTexts::links_text))]
fn push_links(text: &mut String, links: &Links) -> Result<(), AllocError>
    ensures { OnOk result (string_bytes text.new ≡ string_bytes text.old
        ++ links_text links.now.set links.now.crc) }
{
    push_six(text, links.six())?;
    push_flag(text, "row24", links.show24())?;
    push_crc(text, links.crc())
}

// Adds a row that isn't all spaces.
#[tactic(auto, unfolding(crate::specs::ServiceTexts::text_line))]
fn push_row(text: &mut String, number: usize, row: &[u8; 40]) -> Result<(), AllocError>
    ensures { OnOk result (string_bytes text.new ≡ string_bytes text.old ++ text_line (decimal number) row.now) }
{
    let kept = trimmed(row);
    if kept.is_empty() {
        return Ok(());
    }
    write!(text, "{number} = ")?;
    push_quoted(text, kept)?;
    text.push('\n')
}

// Adds the rows of a page.
fn push_rows(text: &mut String, rows: &[[u8; 40]]) -> Result<(), AllocError>
    ensures { OnOk result (string_bytes text.new ≡ string_bytes text.old ++ rows_text 1 rows.now) }
{
    for i in 0..rows.len() {
        push_row(text, i + 1, &rows[i])?;
    }
    Ok(())
}

// Begins the table of rows.
#[tactic(auto, unfolding(crate::specs::ServiceTexts::rows_heading))]
fn push_rows_heading(text: &mut String) -> Result<(), AllocError>
    ensures { OnOk result (string_bytes text.new ≡ string_bytes text.old ++ rows_heading) }
{
    text.push_str("\n[page.rows]\n")
}

// Adds the table of rows.
#[tactic(auto, unfolding(crate::specs::ServiceTexts::rows_table))]
fn push_table(text: &mut String, rows: &[[u8; 40]]) -> Result<(), AllocError>
    ensures { OnOk result (string_bytes text.new ≡ string_bytes text.old ++ rows_table rows.now) }
{
    push_rows_heading(text)?;
    push_rows(text, rows)
}

/// Adds the table of a page.
#[tactic(auto, unfolding(crate::specs::ServiceTexts::page_text))]
pub fn push_page(text: &mut String, page: &SentPage) -> Result<(), AllocError>
    ensures { OnOk result (string_bytes text.new ≡ string_bytes text.old ++ page_text (authored_of page.now)) }
{
    push_name(text, page.id, page.often)?;
    push_flags(text, page.control)?;
    push_text_line(text, "head", &page.head)?;
    push_links(text, &page.links)?;
    push_table(text, &page.rows)
}
