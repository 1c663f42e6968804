//! The line about bytes that are no packets of 42 bytes: what they are, and what to do.

ghost use Rattle.std.specs.Prelude.{◌≡◌, ◌++◌, ◌-◌, ◌≤◌, OnOk, string_bytes};
ghost use Rattle.ttx_recognition.specs.Lines.{skip_text, order_text, framing_text, form_text, unlike_text, unlike_line};

use crate::form::{Form, Unlike};
use std::alloc::AllocError;

// Appends how many bytes to skip, if any.
fn push_skip(text: &mut String, off: usize) -> Result<(), AllocError>
    ensures { OnOk result (string_bytes text.new ≡ string_bytes text.old ++ skip_text off) }
{
    match off {
        0 => Ok(()),
        _ => write!(text, "; skip {off} at the start"),
    }
}

// Appends that bits are to be reversed, if they are.
fn push_order(text: &mut String, reversed: bool) -> Result<(), AllocError>
    ensures { OnOk result (string_bytes text.new ≡ string_bytes text.old ++ order_text reversed) }
{
    if reversed {
        return text.push_str("; reverse the bits of each byte");
    }
    Ok(())
}

// Appends how many bytes to drop before each packet, if any.
fn push_framing(text: &mut String, framing: usize) -> Result<(), AllocError>
    ensures { OnOk result (string_bytes text.new ≡ string_bytes text.old ++ framing_text framing) }
{
    match framing {
        0 => Ok(()),
        _ => write!(text, "; drop the first {framing} of each"),
    }
}

// Appends a form, and how to make packets of 42 bytes of it.
fn push_form(text: &mut String, form: Form) -> Result<(), AllocError>
    ensures { OnOk result (string_bytes text.new ≡ string_bytes text.old ++ form_text form) }
{
    let size = form.size;
    write!(text, "packets of {size} bytes")?;
    push_skip(text, form.off)?;
    push_order(text, form.reversed)?;
    push_framing(text, size.saturating_sub(42))
}

// Appends what was found.
fn push_found(text: &mut String, unlike: Unlike) -> Result<(), AllocError>
    ensures { OnOk result (string_bytes text.new ≡ string_bytes text.old ++ unlike_text unlike) }
{
    match unlike {
        Unlike::Form(form) => push_form(text, form),
        Unlike::NoTeletext => text.push_str("no teletext"),
    }
}

/// Appends the line `no slots: ..`: what was found, and the steps that make packets of 42 bytes of it.
pub fn push_unlike(text: &mut String, unlike: Unlike) -> Result<(), AllocError>
    ensures { OnOk result (string_bytes text.new ≡ string_bytes text.old ++ unlike_line unlike) }
{
    text.push_str("no slots: ")?;
    push_found(text, unlike)?;
    text.push('\n')
}
