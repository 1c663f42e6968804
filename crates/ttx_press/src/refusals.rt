//! Refusals in words.

ghost use Rattle.std.specs.Prelude.{◌≡◌, ◌++◌, ◌∷◌, [], false, IfSome, string_bytes};
ghost use Rattle.ttx_press.specs.Refusals.{Says, IsCheckRefusalBy};

use std::alloc::Global;
use ttx_air::PressFault;
use ttx_check::report;

/// A refusal with these words.
pub fn refused(alloc: Global, words: &str) -> PressFault
    ensures { Says (λ said. said ≡ words.now) result }
{
    match String::from_str(alloc, words) {
        Ok(words) => PressFault::Refused(words),
        Err(_) => PressFault::NoMemory,
    }
}

// A line without its end; `None` if it has none.
fn without_end(line: String) -> Option<String>
    ensures { IfSome result (λ words. string_bytes line ≡ string_bytes words ++ 10 ∷ []) }
{
    let mut words = line;
    match words.pop() {
        Some('\n') => Some(words),
        _ => None,
    }
}

/// A refusal with the words of a line.
pub(crate) fn refused_line(line: String) -> PressFault
    ensures { Says (λ words. string_bytes line ≡ words ++ 10 ∷ []) result }
{
    match without_end(line) {
        Some(words) => PressFault::Refused(words),
        None => PressFault::NoMemory,
    }
}

/// The refusal of a service text that `check` refuses, or that cannot be read for lack of memory.
pub fn refused_text(alloc: Global, text: &[u8]) -> PressFault
    ensures { Says (IsCheckRefusalBy false text.now) result }
{
    match report(alloc, text) {
        Ok(checked) if checked.status == 2 => refused_line(checked.text),
        _ => PressFault::NoMemory,
    }
}
