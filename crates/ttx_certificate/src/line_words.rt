//! The lines of a text, and the words of a line.

ghost use Rattle.std.specs.Prelude.{◌≡◌, ◌==◌, ◌<◌, [], ◌∷◌, length, IfSome, MatchOption};
ghost use Rattle.std.specs.List.{position};
ghost use Rattle.ttx_certificate.specs.CertificateReading.{lines_in, words_in};

use memchr::memchr_iter;

// The place of the first end of a line. It is near: an iterator looks there first.
fn line_end(text: &[u8]) -> Option<usize>
    ensures { result ≡ position (λ b. b == 10) text.now }
{
    memchr_iter(b'\n', text).next()
}

/// The first line, without its 0A, and what follows it. `None` if no line ends.
pub(crate) fn cut_line(text: &[u8]) -> Option<(&[u8], &[u8])>
    ensures parts { MatchOption result (lines_in text.now ≡ text.now ∷ []) (λ p. lines_in text.now ≡ p.0.now ∷ lines_in p.1.now) }
    ensures shorter { IfSome result (λ p. length p.1.now < length text.now) }
{
    match line_end(text) {
        Some(end) => Some((&text[..end], &text[end + 1..])),
        None => None,
    }
}

// The place of the first space. Words are too short for a search by vectors.
fn word_end(text: &[u8]) -> Option<usize>
    ensures { result ≡ position (λ b. b == 32) text.now }
{
    text.iter().position(|byte| *byte == b' ')
}

/// The first word, and what follows the space after it. `None` if there is no space.
pub(crate) fn cut_word(text: &[u8]) -> Option<(&[u8], &[u8])>
    ensures parts { MatchOption result (words_in text.now ≡ text.now ∷ []) (λ p. words_in text.now ≡ p.0.now ∷ words_in p.1.now) }
    ensures shorter { IfSome result (λ p. length p.1.now < length text.now) }
{
    match word_end(text) {
        Some(end) => Some((&text[..end], &text[end + 1..])),
        None => None,
    }
}
