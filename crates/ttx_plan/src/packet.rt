//! Packets with what the scheduler has to know of them, and the slots of a cycle.

ghost use Rattle.std.specs.Prelude.{◌≡◌};
ghost use Rattle.ttx_plan.specs.Packets.{bytes_of, is_page_header, is_row_or_links, holds_packet};

/// How the rule of turns treats a packet.
#[derive(Clone, Copy)]
pub enum Kind {
    /// The page header of a block.
    PageHeader,
    /// A row or X/27/0 of a block.
    RowOrLinks,
    /// The time-filling header after a magazine's blocks, or between two blocks.
    TimeFilling,
}

/// A packet of a magazine.
#[derive(Clone, Copy)]
pub struct Packet {
    pub kind: Kind,
    pub bytes: [u8; 42],
}

/// The contents of a slot.
#[derive(Clone, Copy)]
pub enum Slot {
    Empty,
    /// Packet 8/30.
    Info([u8; 42]),
    /// A packet of the magazine queue of this number, 0 to 7.
    Sent(usize, Packet),
}

impl Kind {
    pub fn is_page_header(self) -> bool
        ensures { result ≡ is_page_header self }
    {
        matches!(self, Kind::PageHeader)
    }

    pub fn is_row_or_links(self) -> bool
        ensures { result ≡ is_row_or_links self }
    {
        matches!(self, Kind::RowOrLinks)
    }
}

impl Slot {
    pub fn bytes(self) -> [u8; 42]
        ensures { result ≡ bytes_of self }
    {
        match self {
            Slot::Empty => [0; 42],
            Slot::Info(bytes) => bytes,
            Slot::Sent(_, packet) => packet.bytes,
        }
    }

    pub fn holds_packet(self) -> bool
        ensures { result ≡ holds_packet self }
    {
        matches!(self, Slot::Sent(_, _))
    }
}
