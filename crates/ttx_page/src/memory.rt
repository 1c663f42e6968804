//! The memory of a receiver.

ghost use Rattle.std.specs.Prelude.{◌≡◌};
ghost use Rattle.ttx_page.specs.Memories.{IsMemory, memory_at};

use ttx_header::Control;
use ttx_links::Target;

/// What a receiver holds of the page that it is set to: rows 0 to 24, control bits and links; whether it is storing, the age
/// (slots since the page's latest header, at most 64), and whether it is fresh (no header has come since it was set to the page).
/// Every character is below 128.
#[derive(Clone, Copy)]
pub struct PageMemory {
    rows: [[u8; 40]; 25],
    control: Control,
    links: [Option<Target>; 6],
    show24: bool,
    storing: bool,
    age: u8,
    fresh: bool,
    ghost kept: { IsMemory (memory_at rows control.0 (record { six = links; show24 = show24 }) storing age fresh) },
}

mod constructors;
mod fields;
mod steps;
