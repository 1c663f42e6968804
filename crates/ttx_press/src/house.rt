//! How editions are made.

ghost use Rattle.std.specs.Prelude.{◌≤◌};

use ttx_air::Receivers;

/// What all editions of an air have in common.
#[derive(Clone, Copy)]
pub struct House {
    /// The deadline of each certificate in fields, 1 to 1,000,000.
    pub deadline: u32,
    /// The repeat count of each certificate, 1 to 8.
    pub repeat: u8,
    /// The receivers that have to be served.
    pub receivers: Receivers,
    /// Whether plans are spread and keep the promises of pages.
    pub spread: bool,
    ghost some_fields: { 1 ≤ deadline },
    ghost few_fields: { deadline ≤ 1000000 },
    ghost some_repeats: { 1 ≤ repeat },
    ghost few_repeats: { repeat ≤ 8 },
}
