//! The control bits of a page header.

ghost use Rattle.std.specs.Prelude.{⊤, ◌≡◌};
ghost use Rattle.ttx_header.specs.Control.{control_table, c4, c5, c6, c7, c10, c11, option_of};

use bitflags::{Flag, Flags};

/// The control bits C4 to C14 of a page header: bit 0 is C4, bit 10 is C14 (EN 300 706, 9.3.1.3).
#[derive(Clone, Copy, PartialEq, Eq)]
pub struct Control(pub u16);

impl Control {
    /// Erase page.
    pub const C4: Control = Control(1);

    /// Newsflash.
    pub const C5: Control = Control(2);

    /// Subtitle.
    pub const C6: Control = Control(4);

    /// Suppress header.
    pub const C7: Control = Control(8);

    /// Update indicator.
    pub const C8: Control = Control(16);

    /// Interrupted sequence.
    pub const C9: Control = Control(32);

    /// Inhibit display.
    pub const C10: Control = Control(64);

    /// Magazine serial.
    pub const C11: Control = Control(128);

    /// National option, upper bit.
    pub const C12: Control = Control(256);

    /// National option, middle bit.
    pub const C13: Control = Control(512);

    /// National option, lower bit.
    pub const C14: Control = Control(1024);

    /// The control bits by name, C4 first.
    pub const FLAGS: &'static [Flag<Control>] = &[
        Flag {
            name: "C4",
            value: Control::C4,
        },
        Flag {
            name: "C5",
            value: Control::C5,
        },
        Flag {
            name: "C6",
            value: Control::C6,
        },
        Flag {
            name: "C7",
            value: Control::C7,
        },
        Flag {
            name: "C8",
            value: Control::C8,
        },
        Flag {
            name: "C9",
            value: Control::C9,
        },
        Flag {
            name: "C10",
            value: Control::C10,
        },
        Flag {
            name: "C11",
            value: Control::C11,
        },
        Flag {
            name: "C12",
            value: Control::C12,
        },
        Flag {
            name: "C13",
            value: Control::C13,
        },
        Flag {
            name: "C14",
            value: Control::C14,
        },
    ];
}

impl Control {
    /// Whether a receiver erases the page's former contents (C4, erase page).
    pub fn erases_page(self) -> bool
        ensures { result ≡ c4 self.0 }
    {
        self.contains(Control::C4)
    }

    /// Whether the page is a newsflash (C5).
    pub fn is_newsflash(self) -> bool
        ensures { result ≡ c5 self.0 }
    {
        self.contains(Control::C5)
    }

    /// Whether the page is a subtitle (C6).
    pub fn is_subtitle(self) -> bool
        ensures { result ≡ c6 self.0 }
    {
        self.contains(Control::C6)
    }

    /// Whether row 0 is not shown (C7).
    pub fn suppresses_header(self) -> bool
        ensures { result ≡ c7 self.0 }
    {
        self.contains(Control::C7)
    }

    /// Whether rows 1 to 24 are not shown (C10).
    pub fn inhibits_display(self) -> bool
        ensures { result ≡ c10 self.0 }
    {
        self.contains(Control::C10)
    }

    /// Whether the page is sent in magazine serial transmission (C11).
    pub fn is_serial(self) -> bool
        ensures { result ≡ c11 self.0 }
    {
        self.contains(Control::C11)
    }

    /// The national option, 0 to 7 (C12 to C14).
    pub fn option(self) -> u8
        ensures { result ≡ option_of self.0 }
    {
        let upper = u8::from(self.contains(Control::C12));
        let middle = u8::from(self.contains(Control::C13));
        let lower = u8::from(self.contains(Control::C14));
        4 * upper + 2 * middle + lower
    }
}

impl Flags for Control {
    type Bits = u16;

    ghost exact = { ⊤ };

    ghost table = { control_table };

    ghost set_of = { λ c. c.0 };

    fn flags<'a>() -> &'a [Flag<Control>] {
        Control::FLAGS
    }

    fn bits(&self) -> u16
        ensures { result ≡ self.now.0 }
    {
        self.0
    }

    fn from_bits_retain(bits: u16) -> Control
        ensures { result.0 ≡ bits }
    {
        Control(bits)
    }
}
