//! The fields of a memory.

ghost use Rattle.std.specs.Prelude.{◌≡◌, ◌≤◌};
ghost use Rattle.ttx_page.specs.Memories.{IsMemory};
ghost use Rattle.ttx_page.specs.Views.{memory_of};

use super::PageMemory;
use ttx_header::Control;
use ttx_links::Target;

impl PageMemory {
    /// Rows 0 to 24.
    pub fn rows(&self) -> &[[u8; 40]; 25]
        ensures value { result.now ≡ (memory_of self.now).rows }
        ensures ranges { IsMemory (memory_of self.now) }
    {
        &self.rows
    }

    /// The control bits of the page's latest header (EN 300 706, 9.3.1.3).
    pub fn control(&self) -> Control
        ensures { result.0 ≡ (memory_of self.now).control }
    {
        self.control
    }

    /// The six links, those of the four coloured keys first.
    pub fn links(&self) -> &[Option<Target>; 6]
        ensures { result.now ≡ (memory_of self.now).links.six }
    {
        &self.links
    }

    /// Whether row 24 is shown.
    pub fn show24(&self) -> bool
        ensures { result ≡ (memory_of self.now).links.show24 }
    {
        self.show24
    }

    /// Whether rows and links of the magazine are being stored.
    pub fn storing(&self) -> bool
        ensures { result ≡ (memory_of self.now).storing }
    {
        self.storing
    }

    /// Slots since the page's latest header, at most 64.
    pub fn age(&self) -> u8
        ensures { result ≡ (memory_of self.now).age }
    {
        self.age
    }

    /// Whether no header of the page has come since the receiver was set to it.
    pub fn fresh(&self) -> bool
        ensures { result ≡ (memory_of self.now).fresh }
    {
        self.fresh
    }
}
