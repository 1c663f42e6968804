//! The line about the lines of a field.

ghost use Rattle.std.specs.Prelude.{◌≡◌, ◌++◌, OnOk, codes, string_bytes};
ghost use Rattle.ttx_possible.specs.Lines.{range_text, values_line};

use crate::line_values::Values;
use std::alloc::AllocError;

// Appends one value, or the first and the last of several.
fn push_range(text: &mut String, values: Values) -> Result<(), AllocError>
    ensures { OnOk result (string_bytes text.new ≡ string_bytes text.old ++ range_text values) }
{
    let (first, last) = (values.first, values.last);
    if first == last {
        write!(text, "lines {first} gives a deadline\n")
    } else {
        write!(text, "lines {first} to {last} give a deadline\n")
    }
}

/// Appends the line `lines 1 to 12 give a deadline`, or `no lines give a deadline`.
pub fn push_values(text: &mut String, values: Option<Values>) -> Result<(), AllocError>
    ensures { OnOk result (string_bytes text.new ≡ string_bytes text.old ++ values_line values) }
{
    match values {
        Some(values) => push_range(text, values),
        None => text.push_str("no lines give a deadline\n"),
    }
}
