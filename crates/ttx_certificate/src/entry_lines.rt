//! The line of an entry, word by word.

ghost use Rattle.std.specs.Prelude.{◌≡◌, ◌++◌, Some, None, option_map, if◌then◌else◌, IfOk, MatchOption};
ghost use Rattle.ttx_header.specs.Ids.{id_at};
ghost use Rattle.ttx_certificate.specs.CertificateReading.{words_in, row_in, item_in, numbers_in, with_item, entry_in};
ghost use Rattle.ttx_certificate.specs.WrittenEntries.{written_item, written_with, followed};

use crate::entries::Starts;
use crate::line_words::cut_word;
use crate::no_memory::NoMemory;
use crate::number_words::next_number;
use crate::written::{Written, WrittenItem};
use ttx_digits::id;

// The id in the first word, and what follows the space after it.
fn page(line: &[u8]) -> Option<((u8, u8, u16), &[u8])>
    ensures { MatchOption result (entry_in (words_in line.now) ≡ None)
        (λ p. entry_in (words_in line.now) ≡ with_item (Some (id_at p.0.0 p.0.1 p.0.2)) (words_in p.1.now)) }
{
    if line.len() < 9 || line[8] != b' ' {
        return None;
    }
    match id(&line[..8]) {
        Some(id) => Some((id, &line[9..])),
        None => None,
    }
}

// The row with the number in the first word, and what follows the space after it.
fn row(text: &[u8]) -> Option<(WrittenItem, &[u8])>
    ensures { option_map (λ p. (written_item p.0, words_in p.1.now)) result ≡ followed (row_in (words_in text.now)) }
{
    match next_number(text) {
        Some((number, Some(rest))) => Some((WrittenItem::Row(number), rest)),
        _ => None,
    }
}

// The item in the first words, by the whole first word, and what follows the space after it.
fn named_item(text: &[u8]) -> Option<(WrittenItem, &[u8])>
    ensures { option_map (λ p. (written_item p.0, words_in p.1.now)) result ≡ followed (item_in (words_in text.now)) }
{
    let Some((word, rest)) = cut_word(text) else {
        return None;
    };
    if word == b"head".as_slice() {
        Some((WrittenItem::Head, rest))
    } else if word == b"links".as_slice() {
        Some((WrittenItem::Links, rest))
    } else if word == b"row".as_slice() {
        row(rest)
    } else {
        None
    }
}

// The item in the first words, and what follows the space after it. Most items are rows.
fn item(text: &[u8]) -> Option<(WrittenItem, &[u8])>
    ensures { option_map (λ p. (written_item p.0, words_in p.1.now)) result ≡ followed (item_in (words_in text.now)) }
{
    match text {
        [b'r', b'o', b'w', b' ', rest @ ..] => row(rest),
        _ => named_item(text),
    }
}

/// Appends the numbers of the words. `false` if one is not a number.
pub(crate) fn push_starts(starts: &mut Starts, text: &[u8]) -> Result<bool, NoMemory>
    ensures { IfOk result (λ all. (if all then Some starts.new.items else None) ≡ option_map (λ more. starts.old.items ++ more) (numbers_in (words_in text.now))) }
{
    let mut rest = Some(text);
    while let Some(text) = rest {
        let Some((number, more)) = next_number(text) else {
            return Ok(false);
        };
        if starts.push(number).is_err() {
            return Err(NoMemory);
        }
        rest = more;
    }
    Ok(true)
}

/// The page and the item of a line, and what follows the space after them. `None` if they have another shape, or no word follows.
pub(crate) fn names(line: &[u8]) -> Option<(Written, &[u8])>
    ensures { MatchOption result (entry_in (words_in line.now) ≡ None)
        (λ p. entry_in (words_in line.now) ≡ option_map (λ starts. written_with p.0 starts) (numbers_in (words_in p.1.now))) }
{
    let ((mag, page, sub), rest) = page(line)?;
    let (item, text) = item(rest)?;
    let written = Written {
        mag,
        page,
        sub,
        item,
    };
    Some((written, text))
}
