//! The names of pages on the command line.

ghost use Rattle.std.specs.Prelude.{◌≡◌, ◌≤◌, ◌≢◌, IfSome};
ghost use Rattle.ttx_arguments.specs.PageNames.{any_of, exact_of, selection_of};

use ttx_digits::{first_number, four_digits};
use ttx_header::PageId;
use ttx_page::Selection;

// The subcode that stands for any subpage and names none.
const ANY_SUBCODE: u16 = 0x3F7F;

// One subpage, if both parts of its name are numbers.
fn exact(number: Option<(u8, u8)>, sub: Option<u16>) -> Option<Selection>
    requires { IfSome number (λ n. (1 ≤ n.0) × (n.0 ≤ 8) × (n.1 ≢ 255)) }
    ensures { result ≡ exact_of number sub }
{
    let (Some((mag, page)), Some(sub)) = (number, sub) else {
        return None;
    };
    if sub == ANY_SUBCODE {
        return None;
    }
    match PageId::new(mag, page, sub) {
        None => None,
        Some(id) => Some(Selection::Exact(id)),
    }
}

// Any subpage of a page number.
fn any(number: Option<(u8, u8)>) -> Option<Selection>
    ensures { result ≡ any_of number }
{
    let (mag, page) = number?;
    Some(Selection::AnySub(mag, page))
}

/// The selection that `MPP` or `MPP/SSSS` names.
#[tactic(auto, unfolding(crate::specs::PageNames::selection_of))]
pub(crate) fn selection(text: &str) -> Option<Selection>
    ensures { result ≡ selection_of text.now }
{
    let text = text.as_bytes();
    match text.len() {
        3 => any(first_number(text)),
        8 if text[3] == b'/' => exact(first_number(text), four_digits(text, 4)),
        _ => None,
    }
}
