//! The lines of a text of several lines.

ghost use Rattle.std.specs.Prelude.{◌≡◌, ◌==◌};
ghost use Rattle.std.specs.List.{position};
ghost use Rattle.ttx_desk.specs.Lines as rule;

fn feed_in(text: &[char]) -> Option<usize>
    ensures { result ≡ rule.feed_in text.now }
{
    text.iter().position(|c| *c == '\n')
}

#[tactic(auto, unfolding(crate::specs::Lines::after_feed))]
fn after_feed(text: &[char]) -> &[char]
    ensures { result.now ≡ rule.after_feed text.now }
{
    match feed_in(text) {
        None => &[],
        Some(place) => &text[place + 1..],
    }
}

#[tactic(auto, unfolding(crate::specs::Lines::before_feed))]
fn before_feed(text: &[char]) -> &[char]
    ensures { result.now ≡ rule.before_feed text.now }
{
    match feed_in(text) {
        None => text,
        Some(place) => &text[..place],
    }
}

/// The text after a number of line feeds.
pub fn rest_after(text: &[char], feeds: usize) -> &[char]
    ensures { result.now ≡ rule.rest_after feeds text.now }
{
    let mut rest = text;
    for _feed in 0..feeds {
        rest = after_feed(rest);
    }
    rest
}

#[tactic(auto, unfolding(crate::specs::Lines::without_return))]
fn without_return(text: &[char]) -> &[char]
    ensures { result.now ≡ rule.without_return text.now }
{
    match text {
        [line @ .., '\r'] => line,
        _ => text,
    }
}

/// A line, from 0, without the carriage return and the line feed after it; empty if the text has fewer lines.
pub fn line(text: &[char], number: usize) -> &[char]
    ensures { result.now ≡ rule.line number text.now }
{
    without_return(before_feed(rest_after(text, number)))
}

/// Whether there are only spaces.
pub fn is_blank(text: &[char]) -> bool
    ensures { result ≡ rule.is_blank text.now }
{
    text.iter().all(|c| *c == ' ')
}
