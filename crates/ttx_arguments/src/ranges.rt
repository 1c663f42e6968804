//! Numbers of options, each within its range.

ghost use Rattle.std.specs.Prelude.{◌≡◌, ◌≤◌, ◌≤ℤ◌, ◌*ℤ◌, pos, negsuc};

use std::marker::Model;

/// A number from 1 to `MOST`.
#[derive(Clone, Copy)]
pub struct UpTo<const MOST: u8> {
    count: u8,
}

/// How many lines of a field carry teletext, 1 to 32.
pub type Lines = UpTo<32>;

/// The repeat count, 1 to 8: of so many successive transmissions of a character at least one is received right.
pub type Repeat = UpTo<8>;

impl<const MOST: u8> Model for UpTo<MOST> {
    ghost use Rattle.std.specs.Prelude.{◌≤◌, ℕ};

    ghost Value = { ℕ };

    ghost view = { λ n. n.count };

    ghost inverse = { λ n. record { count = n } };

    ghost invariant = { λ n. (1 ≤ n.count) × (n.count ≤ MOST) };
}

impl<const MOST: u8> UpTo<MOST> {
    // So many.
    pub(crate) fn new(count: u8) -> UpTo<MOST>
        requires { (1 ≤ count) × (count ≤ MOST) }
        ensures { result ≡ count }
    {
        UpTo { count }
    }

    /// The number, 1 to `MOST`.
    pub fn count(&self) -> u8
        ensures value { result ≡ self.now }
        ensures from { 1 ≤ result }
        ensures to { result ≤ MOST }
    {
        self.count
    }
}

/// A number of fields of 0.02 s, 1 to 1,000,000.
#[derive(Clone, Copy)]
pub struct Fields {
    number: u32,
}

impl Model for Fields {
    ghost use Rattle.std.specs.Prelude.{◌≤◌, ℕ};

    ghost Value = { ℕ };

    ghost view = { λ f. f.number };

    ghost inverse = { λ n. record { number = n } };

    ghost invariant = { λ f. (1 ≤ f.number) × (f.number ≤ 1000000) };
}

impl Fields {
    // So many fields.
    pub(crate) fn new(number: u32) -> Fields
        requires { (1 ≤ number) × (number ≤ 1000000) }
        ensures { result ≡ number }
    {
        Fields { number }
    }

    /// The number of fields, 1 to 1,000,000.
    pub fn count(&self) -> u32
        ensures value { result ≡ self.now }
        ensures from { 1 ≤ result }
        ensures to { result ≤ 1000000 }
    {
        self.number
    }
}

/// By how many half hours the clock in page headers is ahead of UTC, -24 to 47.
#[derive(Clone, Copy)]
pub struct Offset {
    half_hours: i8,
}

impl Model for Offset {
    ghost use Rattle.std.specs.Prelude.{◌≤ℤ◌, ℤ, pos, negsuc};

    ghost Value = { ℤ };

    ghost view = { λ o. o.half_hours };

    ghost inverse = { λ n. record { half_hours = n } };

    ghost invariant = { λ o. (negsuc 23 ≤ℤ o.half_hours) × (o.half_hours ≤ℤ pos 47) };
}

impl Offset {
    // So many half hours.
    pub(crate) fn new(half_hours: i8) -> Offset
        requires { (negsuc 23 ≤ℤ half_hours) × (half_hours ≤ℤ pos 47) }
        ensures { result ≡ half_hours }
    {
        Offset { half_hours }
    }

    /// The same in seconds, -43,200 to 84,600.
    pub fn seconds(&self) -> i32
        ensures value { result ≡ pos 1800 *ℤ self.now }
        ensures from { negsuc 43199 ≤ℤ result }
        ensures to { result ≤ℤ pos 84600 }
    {
        1800 * i32::from(self.half_hours)
    }
}
