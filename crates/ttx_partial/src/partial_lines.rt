//! The lines about what is left out.

ghost use Rattle.std.specs.Prelude.{◌≡◌, ◌++◌, ◌∷◌, [], OnOk, codes, string_bytes};
ghost use Rattle.std.specs.Fmt.{decimal};
ghost use Rattle.ttx_numbers.specs.Numbers.{number_text};
ghost use Rattle.ttx_certify.specs.VerdictLines.{item_words, page_words};
ghost use Rattle.ttx_extract.specs.Refusals.{refusal_text};
ghost use Rattle.ttx_partial.specs.LeftOut.{fault_of};
ghost use Rattle.ttx_partial.specs.Lines.{start_text, left_line, left_lines, pages_line, others_line, partial_lines};

use crate::left_out::{LeftOut, Why};
use std::alloc::AllocError;
use ttx_certify::push_reason;
use ttx_digits::push_id;
use ttx_header::PageId;
use ttx_numbers::push_number;
use ttx_page::Item;
use ttx_witness::push_item;

// Appends words and a page number.
fn push_numbered(text: &mut String, words: &str, page: PageId) -> Result<(), AllocError>
    ensures { OnOk result (string_bytes text.new ≡ string_bytes text.old ++ (words.now ++ number_text page)) }
{
    text.push_str(words)?;
    push_number(text, page)
}

// Begins the line.
#[tactic(auto, unfolding(crate::specs::Lines::start_text))]
fn push_start(text: &mut String, page: PageId) -> Result<(), AllocError>
    ensures { OnOk result (string_bytes text.new ≡ string_bytes text.old ++ start_text page) }
{
    push_numbered(text, "left out ", page)
}

// Appends two slots, each after a space.
fn push_slots(text: &mut String, first: u32, second: u32) -> Result<(), AllocError>
    ensures { OnOk result (string_bytes text.new ≡ string_bytes text.old ++ 32 ∷ decimal first ++ 32 ∷ decimal second) }
{
    write!(text, " {first} {second}")
}

// Appends a name and a page.
fn push_page(text: &mut String, name: &str, page: PageId) -> Result<(), AllocError>
    ensures { OnOk result (string_bytes text.new ≡ string_bytes text.old ++ page_words name.now page) }
{
    text.push_str(name)?;
    text.push(' ')?;
    push_id(text, page)
}

// Appends a name, a page and an item.
fn push_of(text: &mut String, name: &str, page: PageId, item: Item) -> Result<(), AllocError>
    ensures { OnOk result (string_bytes text.new ≡ string_bytes text.old ++ item_words name.now page item) }
{
    push_page(text, name, page)?;
    push_item(text, item)
}

// Appends a name, a page, an item and the two slots that differ.
fn push_conflict(
    text: &mut String,
    name: &str,
    page: PageId,
    item: Item,
    slots: (u32, u32),
) -> Result<(), AllocError>
    ensures { OnOk result (string_bytes text.new ≡ string_bytes text.old
        ++ (item_words name.now page item ++ 32 ∷ decimal slots.0 ++ 32 ∷ decimal slots.1)) }
{
    push_of(text, name, page, item)?;
    push_slots(text, slots.0, slots.1)
}

// Appends why a page is left out.
fn push_why(text: &mut String, left: &LeftOut) -> Result<(), AllocError>
    ensures { OnOk result (string_bytes text.new ≡ string_bytes text.old ++ refusal_text (fault_of left.now)) }
{
    match left.why {
        Why::Conflict {
            item,
            first,
            second,
        } => push_conflict(text, "conflict", left.page, item, (first, second)),
        Why::Reason(reason) => {
            text.push_str("reason ")?;
            push_reason(text, reason)
        }
    }
}

// Appends the line about a page that is left out.
#[tactic(auto, unfolding(crate::specs::Lines::left_line))]
fn push_left(text: &mut String, left: &LeftOut) -> Result<(), AllocError>
    ensures { OnOk result (string_bytes text.new ≡ string_bytes text.old ++ left_line left.now) }
{
    push_start(text, left.page)?;
    text.push(' ')?;
    push_why(text, left)?;
    text.push('\n')
}

// Appends the lines about all of them.
#[tactic(auto, unfolding(crate::specs::Lines::left_lines))]
fn push_all(text: &mut String, left: &[LeftOut]) -> Result<(), AllocError>
    ensures { OnOk result (string_bytes text.new ≡ string_bytes text.old ++ left_lines left.now) }
{
    for page in left {
        push_left(text, page)?;
    }
    Ok(())
}

// Appends how many pages were extracted.
fn push_pages(text: &mut String, pages: usize) -> Result<(), AllocError>
    ensures { OnOk result (string_bytes text.new ≡ string_bytes text.old ++ pages_line pages) }
{
    writeln!(text, "extracted {pages} pages")
}

// Appends how many packets are in no service text.
fn push_others(text: &mut String, others: usize) -> Result<(), AllocError>
    ensures { OnOk result (string_bytes text.new ≡ string_bytes text.old ++ others_line others) }
{
    writeln!(text, "left out {others} other packets")
}

/// Appends a line for each page number that is left out, with the reason, such as `left out 100 reason 4 erased 100/0000 0`; then how many pages
/// were extracted, and how many other packets were left out.
pub fn push_partial(
    text: &mut String,
    left: &[LeftOut],
    pages: usize,
    others: usize,
) -> Result<(), AllocError>
    ensures { OnOk result (string_bytes text.new ≡ string_bytes text.old ++ partial_lines left.now pages others) }
{
    push_all(text, left)?;
    push_pages(text, pages)?;
    push_others(text, others)
}
