//! What in a service is probably a mistake.

use ttx_header::PageId;

/// What in an accepted service is probably a mistake.
#[derive(Clone, Copy)]
pub enum Warning {
    /// The initial page of packet 8/30 is not in the service.
    DeadInitial,
    /// A link, 1 to 6, leads to no page of the service.
    DeadLink {
        page: PageId,
        link: usize,
    },
    /// Double height in the row above hides a row that is not blank.
    HiddenRow {
        page: PageId,
        row: u8,
    },
    /// Row 24 is not blank, but not shown.
    UnshownRow {
        page: PageId,
    },
    /// A row has the code 09 before any 08.
    StrayTab {
        page: PageId,
        row: u8,
    },
    /// A row has the code 0A before any 0B.
    StrayBreak {
        page: PageId,
        row: u8,
    },
    /// The national option shows another character for a code of a row, 1 to 24, or of `head`, 0, than ASCII has there; the first one.
    OtherSign {
        page: PageId,
        row: u8,
        column: usize,
        code: u8,
        shown: char,
        option: u8,
    },
    /// A row, or `head`, 0, has an escape of TOML as characters.
    LiteralEscape {
        page: PageId,
        row: u8,
    },
    /// A row, or `head`, 0, has a box that it does not end.
    OpenBox {
        page: PageId,
        row: u8,
    },
    /// Row 24 is blank, but asked for.
    EmptyRow {
        page: PageId,
    },
    /// The page number has a digit from A to F.
    LetterNumber {
        page: PageId,
    },
    /// The subcode has a digit from A to F.
    LetterSubcode {
        page: PageId,
    },
    /// A newsflash or subtitle page has no box.
    NoBox {
        page: PageId,
    },
    /// The page is sent directly behind another subpage of its number.
    BehindSubpage {
        page: PageId,
    },
    /// The page is sent directly behind itself, `times` times in a cycle.
    BehindItself {
        page: PageId,
        times: usize,
    },
    /// The magazine has more than half of all packets, in serial transmission.
    MostTraffic {
        mag: u8,
    },
}
