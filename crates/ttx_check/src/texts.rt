//! Texts that are put together from others.

ghost use Rattle.std.specs.Prelude.{◌≡◌, ◌++◌, OnOk, string_bytes};

use std::alloc::AllocError;

/// Appends two texts.
pub fn push_both(text: &mut String, first: &str, second: &str) -> Result<(), AllocError>
    ensures { OnOk result (string_bytes text.new ≡ string_bytes text.old ++ first.now ++ second.now) }
{
    text.push_str(first)?;
    text.push_str(second)
}
