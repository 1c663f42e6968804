//! The names of the control bits of a page header.

ghost use Rattle.std.specs.Prelude.{◌≡◌, ◌++◌, OnOk, map, string_bytes};
ghost use Rattle.ttx_digits.specs.ControlNames.{set_names, control_text};

use bitflags::{Flag, Flags};
use std::alloc::AllocError;
use ttx_header::Control;

// Appends the names of the set flags, each after a space.
fn push_flags(
    text: &mut String,
    control: Control,
    flags: &[Flag<Control>],
) -> Result<(), AllocError>
    ensures { OnOk result (string_bytes text.new ≡ string_bytes text.old ++ set_names control.0 (map (λ f. (f.name.now, f.value.0)) flags.now)) }
{
    for flag in flags {
        if control.contains(flag.value) {
            text.push(' ')?;
            text.push_str(flag.name)?;
        }
    }
    Ok(())
}

/// Appends the names of the control bits that are set, each after a space, C4 first. `Err` if memory runs out.
#[tactic(auto, unfolding(crate::specs::ControlNames::control_text))]
pub fn push_control(text: &mut String, control: Control) -> Result<(), AllocError>
    ensures { OnOk result (string_bytes text.new ≡ string_bytes text.old ++ control_text control.0) }
{
    push_flags(text, control, Control::flags())
}
