//! The lines of warnings.

ghost use Rattle.std.specs.Prelude.{◌≡◌, ◌++◌, ◌∷◌, [], OnOk, codes, encode_utf8, string_bytes};
ghost use Rattle.std.specs.Fmt.{decimal};
ghost use Rattle.ttx_check.specs.WarningLines.{page_text, row_text, line_text, other_text, dead_link_text, itself_text, magazine_text};
ghost use Rattle.ttx_check.specs.WarningLines.{warning_text, warning_line, warning_lines};

use crate::warning::Warning;
use std::alloc::AllocError;
use ttx_digits::{push_decimal, push_id};
use ttx_header::PageId;

// The words of warnings, after their places.
const DEAD_INITIAL: &str = "info initial: the service has no such page";

const HIDDEN_ROW: &str = ": double height in the row above hides it";

const UNSHOWN_ROW: &str = " row 24: it is shown only with row24 = true";

const STRAY_TAB: &str = ": code 09 does nothing before a flash: is it a tab?";

const STRAY_BREAK: &str = ": code 0A does nothing before a box: is it a line break?";

const LITERAL_ESCAPE: &str = ": \\u is an escape only in double quotation marks";

const OPEN_BOX: &str = ": the box has no end: code 0A twice ends it";

const EMPTY_ROW: &str = " row24: row 24 is blank";

const LETTER_NUMBER: &str = " number: no remote control dials the digits A to F";

const LETTER_SUBCODE: &str = " sub: no remote control dials the digits A to F";

const NO_BOX: &str = ": a newsflash or subtitle without a box shows nothing";

const BEHIND_SUBPAGE: &str =
    ": sent directly behind another subpage, which receivers that show late then miss, but for plan --late";

const BEHIND_ITSELF: &str = ": often doesn't help: it is sent directly behind itself ";

const MOST_TRAFFIC: &str =
    ": it has more than half of all packets: compare ttx wait with serial = false";

// Adds the place of a page.
pub(crate) fn push_place(text: &mut String, page: PageId) -> Result<(), AllocError>
    ensures { OnOk result (string_bytes text.new ≡ string_bytes text.old ++ page_text page) }
{
    text.push_str("page ")?;
    push_id(text, page)
}

// Adds a number between two texts.
fn push_counted(
    text: &mut String,
    before: &str,
    number: usize,
    after: &str,
) -> Result<(), AllocError>
    ensures { OnOk result (string_bytes text.new ≡ string_bytes text.old ++ before.now ++ decimal number ++ after.now) }
{
    text.push_str(before)?;
    push_decimal(text, number)?;
    text.push_str(after)
}

// Adds the place of a row, and the words about it.
#[tactic(auto, unfolding(crate::specs::WarningLines::row_text))]
fn push_row(text: &mut String, page: PageId, row: u8, says: &str) -> Result<(), AllocError>
    ensures { OnOk result (string_bytes text.new ≡ string_bytes text.old ++ row_text page row ++ says.now) }
{
    push_place(text, page)?;
    push_counted(text, " row ", usize::from(row), says)
}

// Adds the place of a page, and the words about it.
fn push_page(text: &mut String, page: PageId, says: &str) -> Result<(), AllocError>
    ensures { OnOk result (string_bytes text.new ≡ string_bytes text.old ++ page_text page ++ says.now) }
{
    push_place(text, page)?;
    text.push_str(says)
}

// Adds the place of a row, or of `head`, 0.
#[tactic(auto, unfolding(crate::specs::WarningLines::line_text))]
fn push_line_place(text: &mut String, page: PageId, row: u8) -> Result<(), AllocError>
    ensures { OnOk result (string_bytes text.new ≡ string_bytes text.old ++ line_text page row) }
{
    push_place(text, page)?;
    if row == 0 {
        return text.push_str(" head");
    }
    push_counted(text, " row ", usize::from(row), "")
}

// Adds the place of a row, or of `head`, and the words about it.
fn push_about(text: &mut String, page: PageId, row: u8, says: &str) -> Result<(), AllocError>
    ensures { OnOk result (string_bytes text.new ≡ string_bytes text.old ++ line_text page row ++ says.now) }
{
    push_line_place(text, page, row)?;
    text.push_str(says)
}

// Adds words and a character.
fn push_sign(text: &mut String, before: &str, sign: char) -> Result<(), AllocError>
    ensures { OnOk result (string_bytes text.new ≡ string_bytes text.old ++ before.now ++ encode_utf8 sign) }
{
    text.push_str(before)?;
    text.push(sign)
}

// Adds a code and the character that it shows.
fn push_shown(text: &mut String, code: u8, shown: char) -> Result<(), AllocError>
    ensures { OnOk result (string_bytes text.new
        ≡ string_bytes text.old ++ codes ": " ++ encode_utf8 code ++ codes " is shown as " ++ encode_utf8 shown) }
{
    push_sign(text, ": ", char::from(code))?;
    push_sign(text, " is shown as ", shown)
}

#[tactic(auto, unfolding(crate::specs::WarningLines::other_text))]
fn push_other(
    text: &mut String,
    page: PageId,
    row: u8,
    other: (u8, char, u8),
) -> Result<(), AllocError>
    ensures { OnOk result (string_bytes text.new ≡ string_bytes text.old ++ other_text page row other.0 other.1 other.2) }
{
    push_line_place(text, page, row)?;
    push_shown(text, other.0, other.1)?;
    push_counted(text, " under option ", usize::from(other.2), "")
}

#[tactic(auto, unfolding(crate::specs::WarningLines::dead_link_text))]
fn push_link(text: &mut String, page: PageId, link: usize) -> Result<(), AllocError>
    ensures { OnOk result (string_bytes text.new ≡ string_bytes text.old ++ dead_link_text page link) }
{
    push_place(text, page)?;
    push_counted(text, " link ", link, ": the service has no such page")
}

#[tactic(auto, unfolding(crate::specs::WarningLines::itself_text))]
fn push_itself(text: &mut String, page: PageId, times: usize) -> Result<(), AllocError>
    ensures { OnOk result (string_bytes text.new ≡ string_bytes text.old ++ itself_text page times) }
{
    push_place(text, page)?;
    push_counted(text, BEHIND_ITSELF, times, " times")
}

// Adds the place of a magazine, and the words about it.
#[tactic(auto, unfolding(crate::specs::WarningLines::magazine_text))]
fn push_magazine(text: &mut String, mag: u8, says: &str) -> Result<(), AllocError>
    ensures { OnOk result (string_bytes text.new ≡ string_bytes text.old ++ magazine_text mag ++ says.now) }
{
    push_counted(text, "magazine ", usize::from(mag), says)
}

/// Adds the place and the words of a warning.
pub fn push_text(text: &mut String, warning: Warning) -> Result<(), AllocError>
    ensures { OnOk result (string_bytes text.new ≡ string_bytes text.old ++ warning_text warning) }
{
    match warning {
        Warning::DeadInitial => text.push_str(DEAD_INITIAL),
        Warning::DeadLink { page, link } => push_link(text, page, link),
        Warning::HiddenRow { page, row } => push_row(text, page, row, HIDDEN_ROW),
        Warning::UnshownRow { page } => push_page(text, page, UNSHOWN_ROW),
        Warning::StrayTab { page, row } => push_row(text, page, row, STRAY_TAB),
        Warning::StrayBreak { page, row } => push_row(text, page, row, STRAY_BREAK),
        Warning::OtherSign {
            page,
            row,
            column: _,
            code,
            shown,
            option,
        } => push_other(text, page, row, (code, shown, option)),
        Warning::LiteralEscape { page, row } => push_about(text, page, row, LITERAL_ESCAPE),
        Warning::OpenBox { page, row } => push_about(text, page, row, OPEN_BOX),
        Warning::EmptyRow { page } => push_page(text, page, EMPTY_ROW),
        Warning::LetterNumber { page } => push_page(text, page, LETTER_NUMBER),
        Warning::LetterSubcode { page } => push_page(text, page, LETTER_SUBCODE),
        Warning::NoBox { page } => push_page(text, page, NO_BOX),
        Warning::BehindSubpage { page } => push_page(text, page, BEHIND_SUBPAGE),
        Warning::BehindItself { page, times } => push_itself(text, page, times),
        Warning::MostTraffic { mag } => push_magazine(text, mag, MOST_TRAFFIC),
    }
}

// Adds the line of a warning.
fn push_line(text: &mut String, warning: Warning) -> Result<(), AllocError>
    ensures { OnOk result (string_bytes text.new ≡ string_bytes text.old ++ warning_line warning) }
{
    text.push_str("warning ")?;
    push_text(text, warning)?;
    text.push('\n')
}

/// Adds the lines of warnings.
pub fn push_warnings(text: &mut String, warnings: &[Warning]) -> Result<(), AllocError>
    ensures { OnOk result (string_bytes text.new ≡ string_bytes text.old ++ warning_lines warnings.now) }
{
    for warning in warnings {
        push_line(text, *warning)?;
    }
    Ok(())
}
