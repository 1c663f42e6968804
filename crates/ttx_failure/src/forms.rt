//! The forms in which a failure is written.

ghost use Rattle.std.specs.Prelude.{◌≡◌, ◌++◌, OnOk, string_bytes};
ghost use Rattle.ttx_failure.specs.Forms as rule;

use std::alloc::AllocError;

/// A form in which a failure is written.
#[derive(Clone, Copy)]
pub enum FailureForm {
    /// Lines of text.
    Text,
    /// An HTML document.
    Html,
}

/// Appends the start of a sentence.
#[tactic(auto, unfolding(crate::specs::Forms::line_start))]
pub(crate) fn push_line_start(text: &mut String, form: FailureForm) -> Result<(), AllocError>
    ensures { OnOk result (string_bytes text.new ≡ string_bytes text.old ++ rule.line_start form) }
{
    match form {
        FailureForm::Text => Ok(()),
        FailureForm::Html => text.push_str("<p>"),
    }
}

/// Appends the end of a sentence.
#[tactic(auto, unfolding(crate::specs::Forms::line_end))]
pub(crate) fn push_line_end(text: &mut String, form: FailureForm) -> Result<(), AllocError>
    ensures { OnOk result (string_bytes text.new ≡ string_bytes text.old ++ rule.line_end form) }
{
    match form {
        FailureForm::Text => text.push_str("\n"),
        FailureForm::Html => text.push_str("</p>\n"),
    }
}

/// Appends the start of a list.
#[tactic(auto, unfolding(crate::specs::Forms::list_start))]
pub(crate) fn push_list_start(text: &mut String, form: FailureForm) -> Result<(), AllocError>
    ensures { OnOk result (string_bytes text.new ≡ string_bytes text.old ++ rule.list_start form) }
{
    match form {
        FailureForm::Text => Ok(()),
        FailureForm::Html => text.push_str("<ul>\n"),
    }
}

/// Appends the end of a list.
#[tactic(auto, unfolding(crate::specs::Forms::list_end))]
pub(crate) fn push_list_end(text: &mut String, form: FailureForm) -> Result<(), AllocError>
    ensures { OnOk result (string_bytes text.new ≡ string_bytes text.old ++ rule.list_end form) }
{
    match form {
        FailureForm::Text => Ok(()),
        FailureForm::Html => text.push_str("</ul>\n"),
    }
}

/// Appends the start of an item of a list.
#[tactic(auto, unfolding(crate::specs::Forms::item_start))]
pub(crate) fn push_item_start(text: &mut String, form: FailureForm) -> Result<(), AllocError>
    ensures { OnOk result (string_bytes text.new ≡ string_bytes text.old ++ rule.item_start form) }
{
    match form {
        FailureForm::Text => text.push_str("  "),
        FailureForm::Html => text.push_str("<li>"),
    }
}

/// Appends the end of an item of a list.
#[tactic(auto, unfolding(crate::specs::Forms::item_end))]
pub(crate) fn push_item_end(text: &mut String, form: FailureForm) -> Result<(), AllocError>
    ensures { OnOk result (string_bytes text.new ≡ string_bytes text.old ++ rule.item_end form) }
{
    match form {
        FailureForm::Text => text.push_str("\n"),
        FailureForm::Html => text.push_str("</li>\n"),
    }
}
