//! The changes that slots make to a memory.

ghost use Rattle.std.specs.Prelude.{◌≡◌, ◌<◌, ◌≤◌, ◌+◌, ◌++◌, length, take, drop, replicate, false, Some, None};
ghost use Rattle.ttx_header.specs.Control.{IsControl};
ghost use Rattle.ttx_page.specs.Pages.{IsRow};
ghost use Rattle.ttx_page.specs.Memories.{memory_row};
ghost use Rattle.ttx_page.specs.Receivers.{stored_row, with_row, with_storing, with_links, older, erased, begun};
ghost use Rattle.ttx_page.specs.Views.{memory_of};

use super::PageMemory;
use super::constructors::{blank_rows, same_links};
use ttx_code::strip;
use ttx_header::{Control, Header};
use ttx_links::{Links, Target};

// The row after bytes are received in its place.
fn received_row(row: &[u8; 40], bytes: &[u8; 40]) -> [u8; 40]
    requires { IsRow row.now }
    ensures value { result ≡ stored_row row.now bytes.now }
    ensures row { IsRow result }
{
    let mut codes = *row;
    strip(bytes, &mut codes);
    codes
}

// Overwrites a part of the bytes.
#[tactic(auto, using(std::proofs::lemmas::Slice::overwrites))]
fn put(bytes: &mut [u8; 40], at: usize, part: &[u8])
    requires { at + length part.now ≤ 40 }
    ensures { take (at + length part.now) bytes.new ≡ take at bytes.old ++ part.now }
{
    bytes[at..at + part.len()].copy_from_slice(part);
}

// The bytes of a header for row 0. Zero bytes have even parity, so they leave columns 0 to 7 unchanged.
fn top_bytes(header: &Header) -> [u8; 40]
    ensures { result ≡ replicate 8 0 ++ header.now.text ++ header.now.clock }
{
    let mut bytes = [0; 40];
    put(&mut bytes, 8, header.text());
    put(&mut bytes, 32, header.clock());
    bytes
}

// Row 0 after a header: characters with odd parity go to columns 8 to 39.
fn received_top(row: &[u8; 40], header: &Header) -> [u8; 40]
    requires { IsRow row.now }
    ensures value { result ≡ take 8 row.now ++ stored_row (drop 8 row.now) (header.now.text ++ header.now.clock) }
    ensures row { IsRow result }
{
    received_row(row, &top_bytes(header))
}

// The control bits of a header.
fn control_bits(header: &Header) -> Control
    ensures value { result.0 ≡ header.now.control }
    ensures known { IsControl result.0 }
{
    let _id = header.id();
    header.control()
}

fn no_targets() -> [Option<Target>; 6]
    ensures { result ≡ replicate 6 None }
{
    [None; 6]
}

impl PageMemory {
    /// One more slot: the age grows by 1, up to 64.
    pub fn grow_older(&mut self)
        ensures { memory_of self.new ≡ older (memory_of self.old) }
    {
        self.age = (self.age + 1).min(64);
    }

    /// Ends storing.
    pub fn end_storing(&mut self)
        ensures { memory_of self.new ≡ with_storing (memory_of self.old) false }
    {
        self.storing = false;
    }

    /// Clears rows 1 to 24 and the links, and hides row 24.
    pub fn erase(&mut self)
        ensures { memory_of self.new ≡ erased (memory_of self.old) }
    {
        let mut rows = blank_rows();
        rows[0] = self.rows[0];
        self.rows = rows;
        self.links = no_targets();
        self.show24 = false;
    }

    /// Takes a header that the selection matches. Its characters with odd parity go to columns 8 to 39 of row 0, its control bits
    /// are taken, and storing begins at age 0 (EN 300 706, 9.3.1).
    pub fn begin(&mut self, header: &Header)
        ensures { memory_of self.new ≡ begun (memory_of self.old) header.now.control (header.now.text ++ header.now.clock) }
    {
        let row = self.rows[0];
        self.rows[0] = received_top(&row, header);
        self.control = control_bits(header);
        self.storing = true;
        self.age = 0;
        self.fresh = false;
    }

    /// Stores the characters of a row, 0 to 24, that have odd parity, and leaves the others unchanged (8.1).
    pub fn store_row(&mut self, number: u8, bytes: &[u8; 40])
        requires { number < 25 }
        ensures { memory_of self.new ≡ with_row (memory_of self.old) number (stored_row (memory_row (memory_of self.old) number) bytes.now) }
    {
        let row = self.rows[usize::from(number)];
        self.rows[usize::from(number)] = received_row(&row, bytes);
    }

    /// Stores the links, and whether row 24 is shown.
    pub fn store_links(&mut self, links: &Links)
        ensures { memory_of self.new ≡ with_links (memory_of self.old) (Some links.now.set) }
    {
        self.links = same_links(links.six());
        self.show24 = links.show24();
    }

    /// The memory with row `number`, 0 to 24, replaced.
    pub fn with_row(self, number: usize, row: &[u8; 40]) -> PageMemory
        requires number { number < 25 }
        requires row { IsRow row.now }
        ensures { memory_of result ≡ with_row (memory_of self) number row.now }
    {
        let mut memory = self;
        memory.rows[number] = *row;
        memory
    }
}
