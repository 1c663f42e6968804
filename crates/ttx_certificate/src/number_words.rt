//! Numbers in the words of a line.

ghost use Rattle.std.specs.Prelude.{◌≡◌, ◌<◌, length, option_map, IfSome};
ghost use Rattle.ttx_certificate.specs.CertificateReading.{words_in};
ghost use Rattle.ttx_certificate.specs.WrittenEntries.{words_after, first_number};

use ttx_digits::leading_digits;

/// The number in the first word, and what follows the space after it. `None` if the word isn't a number.
pub(crate) fn next_number(text: &[u8]) -> Option<(u32, Option<&[u8]>)>
    ensures value { option_map (λ p. (p.0, words_after (option_map (λ t. t.now) p.1))) result ≡ first_number (words_in text.now) }
    ensures shorter { IfSome result (λ p. IfSome p.1 (λ t. length t.now < length text.now)) }
{
    let (count, number) = leading_digits(text);
    let rest = if count == text.len() {
        None
    } else if text[count] == b' ' {
        Some(&text[count + 1..])
    } else {
        return None;
    };
    if count == 0 || (1 < count && text[0] == b'0') {
        return None;
    }
    Some((number, rest))
}
