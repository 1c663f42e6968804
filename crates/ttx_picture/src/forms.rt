//! The forms in which a View is written.

ghost use Rattle.std.specs.Prelude.{◌≡◌, ◌++◌, OnOk, string_bytes};
ghost use Rattle.ttx_picture.specs.Forms.{picture_of};

use crate::ansi::push_terminal;
use crate::html::push_html;
use crate::shown::Mosaics;
use crate::svg::push_svg;
use crate::text::push_text;
use std::alloc::AllocError;
use ttx_render::View;

/// A form in which a View is written.
#[derive(Clone, Copy)]
pub enum Form {
    /// Lines of characters.
    Text,
    /// Lines of characters with terminal codes for colours and flashing.
    Ansi,
    /// The same with quadrants and half blocks in place of sextants.
    Blocks,
    /// An SVG picture.
    Svg,
    /// An HTML page with the picture, its links and its text.
    Html,
}

/// Appends a View in this form. Concealed characters are shown only if `reveal` is true. `Err` if memory runs out.
#[tactic(auto, unfolding(crate::specs::Forms::picture_of))]
pub fn push_picture(
    text: &mut String,
    form: Form,
    reveal: bool,
    view: &View,
) -> Result<(), AllocError>
    ensures { OnOk result (string_bytes text.new ≡ string_bytes text.old ++ picture_of form reveal view.now) }
{
    match form {
        Form::Text => push_text(text, reveal, view),
        Form::Ansi => push_terminal(text, Mosaics::Sextants, reveal, view),
        Form::Blocks => push_terminal(text, Mosaics::Quadrants, reveal, view),
        Form::Svg => push_svg(text, reveal, view),
        Form::Html => push_html(text, reveal, view),
    }
}
