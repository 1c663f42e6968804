//! What is asked for of an air.

ghost use Rattle.std.specs.Prelude.{◌≤◌};

/// What is asked for of an air.
#[derive(Clone, Copy)]
pub struct Demand {
    /// After how many fields each viewer has to see each page, 1 to 1,000,000.
    pub within: u32,
    /// The repeat count, 1 to 8: of so many successive transmissions of a character one arrives right.
    pub repeat: u8,
    /// Whether receivers that show a page late have to be served, too.
    pub late: bool,
    /// Whether plans are spread and keep the promises of pages.
    pub spread: bool,
    ghost some_fields: { 1 ≤ within },
    ghost few_fields: { within ≤ 1000000 },
    ghost some_repeats: { 1 ≤ repeat },
    ghost few_repeats: { repeat ≤ 8 },
}
