//! Page numbers and page ids as text.

ghost use Rattle.std.specs.Prelude.{◌≡◌, ◌≢◌, ◌≤◌, ◌<◌, ◌+◌, ◌++◌, length, option_map, IfSome, OnOk, string_bytes};
ghost use Rattle.ttx_header.specs.Ids.{id_at};
ghost use Rattle.ttx_digits.specs.PageIds as rule;
ghost use Rattle.ttx_digits.specs.PageIds.{id_text, id_in_word};

use crate::hexadecimals::{digit, four_digits, push_byte, push_subcode, two_digits};
use std::alloc::AllocError;
use ttx_header::PageId;

/// Appends the id of a page or of a link's target, given by its numbers: magazine and two digits, a slash, and the four
/// digits of the subcode, as in `100/3F7F`. `Err` if memory runs out.
pub fn push_numbers(text: &mut String, mag: u8, page: u8, sub: u16) -> Result<(), AllocError>
    requires { mag < 10 }
    ensures { OnOk result (string_bytes text.new ≡ string_bytes text.old ++ id_text (id_at mag page sub)) }
{
    text.push(digit(mag))?;
    push_byte(text, page)?;
    text.push('/')?;
    push_subcode(text, sub)
}

/// Appends the id of a page, as in `100/0000`. `Err` if memory runs out.
pub fn push_id(text: &mut String, id: PageId) -> Result<(), AllocError>
    ensures { OnOk result (string_bytes text.new ≡ string_bytes text.old ++ id_text id) }
{
    push_numbers(text, id.mag(), id.page(), id.sub())
}

/// The magazine, 1 to 8, and the page number from the first three characters. `None` if they are not a digit 1 to 8 and two
/// hexadecimal digits, or the page is FF.
#[tactic(auto, unfolding(crate::specs::PageIds::first_number))]
pub fn first_number(text: &[u8]) -> Option<(u8, u8)>
    requires { 3 ≤ length text.now }
    ensures value { result ≡ rule.first_number text.now }
    ensures ranges { IfSome result (λ n. (1 ≤ n.0) × (n.0 ≤ 8) × (n.1 ≢ 0xff)) }
{
    let page = two_digits(text, 1)?;
    if text[0] < b'1' || text[0] > b'8' || page == 0xFF {
        return None;
    }
    Some((text[0] - b'0', page))
}

/// Reads magazine, page number and subcode of an id such as `100/3F7F`. `None` if the word has another shape. The subcode
/// may have any bits.
pub fn id(word: &[u8]) -> Option<(u8, u8, u16)>
    ensures { option_map (λ id. id_at id.0 id.1 id.2) result ≡ id_in_word word.now }
{
    if word.len() != 8 || word[3] != b'/' {
        return None;
    }
    let page = two_digits(word, 1)?;
    let sub = four_digits(word, 4)?;
    match word[0] {
        b'1'..=b'8' => Some((word[0] - b'0', page, sub)),
        _ => None,
    }
}
