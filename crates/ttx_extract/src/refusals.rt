//! The words about a cycle that has no service text.

ghost use Rattle.std.specs.Prelude.{◌≡◌, ◌++◌, ◌∷◌, OnOk, string_bytes};
ghost use Rattle.std.specs.Fmt.{decimal};
ghost use Rattle.ttx_certify.specs.VerdictLines.{item_words, page_words};
ghost use Rattle.ttx_extract.specs.Refusals.{refusal_text};

use crate::faults::ExtractFault;
use std::alloc::AllocError;
use ttx_certify::push_reason;
use ttx_digits::push_id;
use ttx_header::PageId;
use ttx_page::Item;
use ttx_witness::push_item;

// Adds two slots, each after a space.
fn push_slots(text: &mut String, first: u32, second: u32) -> Result<(), AllocError>
    ensures { OnOk result (string_bytes text.new ≡ string_bytes text.old ++ 32 ∷ decimal first ++ 32 ∷ decimal second) }
{
    write!(text, " {first} {second}")
}

// Adds a name and a page.
fn push_page(text: &mut String, name: &str, page: PageId) -> Result<(), AllocError>
    ensures { OnOk result (string_bytes text.new ≡ string_bytes text.old ++ page_words name.now page) }
{
    text.push_str(name)?;
    text.push(' ')?;
    push_id(text, page)
}

// Adds a name, a page and an item.
fn push_of(text: &mut String, name: &str, page: PageId, item: Item) -> Result<(), AllocError>
    ensures { OnOk result (string_bytes text.new ≡ string_bytes text.old ++ item_words name.now page item) }
{
    push_page(text, name, page)?;
    push_item(text, item)
}

// Adds a name, a page, an item and two slots.
fn push_conflict(
    text: &mut String,
    name: &str,
    page: PageId,
    item: Item,
    slots: (u32, u32),
) -> Result<(), AllocError>
    ensures { OnOk result (string_bytes text.new ≡ string_bytes text.old
        ++ (item_words name.now page item ++ 32 ∷ decimal slots.0 ++ 32 ∷ decimal slots.1)) }
{
    push_of(text, name, page, item)?;
    push_slots(text, slots.0, slots.1)
}

/// Adds why a cycle has no service text; nothing for the faults of the text itself, and for lack of memory.
pub fn push_refusal(text: &mut String, fault: &ExtractFault) -> Result<(), AllocError>
    ensures { OnOk result (string_bytes text.new ≡ string_bytes text.old ++ refusal_text fault.now) }
{
    match fault {
        ExtractFault::Conflict {
            page,
            item,
            first,
            second,
        } => push_conflict(text, "conflict", *page, *item, (*first, *second)),
        ExtractFault::Reason(reason) => {
            text.push_str("reason ")?;
            push_reason(text, *reason)
        }
        ExtractFault::Info { slot } => write!(text, "info {slot}"),
        ExtractFault::Unsaid => text.push_str("unsaid"),
        ExtractFault::Service(_) | ExtractFault::TooLong | ExtractFault::NoMemory => Ok(()),
    }
}
