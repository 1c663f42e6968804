//! Texts in HTML.

ghost use Rattle.std.specs.Prelude.{◌≡◌, ◌++◌, OnOk, string_bytes};
ghost use Rattle.ttx_document.specs.Escapes.{escaped, escaped_text};

use std::alloc::AllocError;

// Appends a character; a reserved one as its entity.
#[tactic(auto, unfolding(crate::specs::Escapes::escaped))]
fn push_character(text: &mut String, code: char) -> Result<(), AllocError>
    ensures { OnOk result (string_bytes text.new ≡ string_bytes text.old ++ escaped code) }
{
    match code {
        '<' => text.push_str("&lt;"),
        '>' => text.push_str("&gt;"),
        '&' => text.push_str("&amp;"),
        '"' => text.push_str("&quot;"),
        '\'' => text.push_str("&#39;"),
        _ => text.push(code),
    }
}

/// Appends words as text of HTML: reserved characters as their entities. `Err` if memory runs out.
pub fn push_escaped(text: &mut String, words: &str) -> Result<(), AllocError>
    ensures { OnOk result (string_bytes text.new ≡ string_bytes text.old ++ escaped_text words.now) }
{
    for code in words.chars() {
        push_character(text, code)?;
    }
    Ok(())
}
