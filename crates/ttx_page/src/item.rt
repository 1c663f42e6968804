//! The parts of a page.

ghost use Rattle.std.specs.Prelude.{◌≡◌, ◌≤◌, SomeIff};

use std::marker::Model;

/// The number of a row other than row 0: 1 to 24.
#[derive(Clone, Copy, PartialEq, Eq)]
pub struct RowNumber {
    number: u8,
}

impl Model for RowNumber {
    ghost use Rattle.std.specs.Prelude.{◌≤◌, ℕ};

    ghost Value = { ℕ };

    ghost view = { λ r. r.number };

    ghost inverse = { λ n. record { number = n } };

    ghost invariant = { λ r. (1 ≤ r.number) × (r.number ≤ 24) };
}

impl RowNumber {
    /// The row with this number. `None` if it is not 1 to 24.
    pub fn new(number: u8) -> Option<RowNumber>
        ensures { SomeIff result ((1 ≤ number) × (number ≤ 24)) number }
    {
        if 1 <= number && number <= 24 {
            Some(RowNumber { number })
        } else {
            None
        }
    }

    /// The number, 1 to 24.
    pub fn number(&self) -> u8
        ensures value { result ≡ self.now }
        ensures from { 1 ≤ result }
        ensures to { result ≤ 24 }
    {
        self.number
    }
}

/// An item: a part of a page that is sent by itself.
#[derive(Clone, Copy, PartialEq, Eq)]
pub enum Item {
    /// Columns 8 to 31 of row 0, sent in the page header.
    Head,
    /// A row, 1 to 24.
    Row(RowNumber),
    /// The links and whether row 24 is shown, sent in X/27/0.
    Links,
}
