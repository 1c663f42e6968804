//! Where the slots of a run are.

ghost use Rattle.std.specs.Prelude.{◌≡◌, ◌≤◌, ◌<◌, ◌/◌, ◌++◌, OnOk, length, string_bytes};
ghost use Rattle.ttx_failure.specs.Places as rule;

use std::alloc::AllocError;
use ttx_document::push_words;
use ttx_wait::push_seconds;

/// The cycle of a run: its slots, how many make a field, and the slot at which the receiver is tuned.
#[derive(Clone, Copy)]
pub(crate) struct Tuned<'a> {
    pub(crate) slots: &'a [[u8; 42]],
    pub(crate) lines: u8,
    pub(crate) start: u32,
    ghost some: { 1 ≤ length slots.now },
    ghost lined: { 1 ≤ lines },
}

/// The slot of the cycle that slot `n` of a run is.
pub(crate) fn slot_of_run(tuned: &Tuned<'_>, n: u32) -> usize
    ensures value { result ≡ rule.slot_of_run (length tuned.now.slots.now) tuned.now.start n }
    ensures inside { result < length tuned.now.slots.now }
{
    ((u64::from(tuned.start) + u64::from(n)) % tuned.slots.len() as u64) as usize
}

/// Appends a slot of the cycle and its field.
#[tactic(auto, unfolding(crate::specs::Places::place_text))]
pub(crate) fn push_place(text: &mut String, lines: u8, slot: usize) -> Result<(), AllocError>
    requires { 1 ≤ lines }
    ensures { OnOk result (string_bytes text.new ≡ string_bytes text.old ++ rule.place_text lines slot) }
{
    let field = slot / usize::from(lines);
    write!(text, "slot {slot}, field {field}")
}

/// Appends a number of fields as seconds.
#[tactic(auto, unfolding(crate::specs::Places::time_text))]
pub(crate) fn push_time(text: &mut String, fields: u32) -> Result<(), AllocError>
    ensures { OnOk result (string_bytes text.new ≡ string_bytes text.old ++ rule.time_text fields) }
{
    push_seconds(text, 2 * u64::from(fields))
}

// How many whole fields so many slots are.
fn fields_of(slots: u32, lines: u8) -> u32
    requires { 1 ≤ lines }
    ensures { result ≡ slots / lines }
{
    slots / u32::from(lines)
}

/// Appends a slot of a run, and the seconds since the receiver was tuned.
#[tactic(auto, unfolding(crate::specs::Places::moment_text))]
pub(crate) fn push_moment(text: &mut String, tuned: &Tuned<'_>, n: u32) -> Result<(), AllocError>
    ensures { OnOk result (string_bytes text.new ≡ string_bytes text.old
        ++ rule.moment_text (length tuned.now.slots.now) tuned.now.lines tuned.now.start n) }
{
    push_place(text, tuned.lines, slot_of_run(tuned, n))?;
    push_words(text, ", ")?;
    push_time(text, fields_of(n, tuned.lines))?;
    push_words(text, " s after tuning")
}
