//! Empty slots.

ghost use Rattle.std.specs.Prelude.{◌≡◌, ◌≤◌, ◌++◌, replicate, length, IfOk};
ghost use Rattle.ttx_plan.specs.Turns.{missing};

use std::alloc::AllocError;

/// Appends empty slots up to the end of a field.
pub fn fill(slots: &mut Vec<[u8; 42]>, lines: usize) -> Result<(), AllocError>
    requires { (1 ≤ lines) × (lines ≤ 32) }
    ensures { IfOk result (λ _. slots.new.items ≡ slots.old.items ++ replicate (missing lines (length slots.old.items)) (replicate 42 0)) }
{
    let rest = (lines - slots.len() % lines) % lines;
    for _ in 0..rest {
        slots.push([0; 42])?;
    }
    Ok(())
}
