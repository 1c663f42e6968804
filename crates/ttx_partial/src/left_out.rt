//! The pages that are left out, and why.

ghost use Rattle.std.specs.Prelude.{◌≡◌, None, MatchOption};
ghost use Rattle.ttx_partial.specs.LeftOut.{reason_page, fault_page, IsReasonLeft, IsLeftBy};

use ttx_extract::ExtractFault;
use ttx_header::PageId;
use ttx_page::Item;
use ttx_witness::Reason;

/// Why no service text says a page.
#[derive(Clone, Copy)]
pub enum Why {
    /// Slot `second` sends the item with other contents than its first slot, `first`.
    Conflict { item: Item, first: u32, second: u32 },
    /// One of the certifier's reasons 2 to 7, and no two slots differ.
    Reason(Reason),
}

/// A page that no service text says, and why. All pages of its number are left out.
#[derive(Clone, Copy)]
pub struct LeftOut {
    pub page: PageId,
    pub why: Why,
}

// The page of a reason.
fn reason_page(reason: &Reason) -> Option<PageId>
    ensures { result ≡ reason_page reason.now }
{
    match reason {
        Reason::NoHeader { page }
        | Reason::OtherSubpage { page, .. }
        | Reason::Erased { page, .. }
        | Reason::HeadDiffers { page, .. }
        | Reason::RowDiffers { page, .. }
        | Reason::LinksDiffer { page, .. }
        | Reason::NoWitness { page, .. }
        | Reason::WitnessBad { page, .. }
        | Reason::Late { page, .. }
        | Reason::LateBlank { page, .. } => Some(*page),
        Reason::BadSlot { .. } | Reason::Unsteady => None,
    }
}

// The page of a reason, with the reason.
fn reason_left(reason: &Reason) -> Option<LeftOut>
    ensures { MatchOption result (reason_page reason.now ≡ None) (IsReasonLeft reason.now) }
{
    match reason_page(reason) {
        Some(page) => Some(LeftOut {
            page,
            why: Why::Reason(*reason),
        }),
        None => None,
    }
}

/// The page that is not sent unchanged, and why, if that is why a cycle has no service text.
pub fn left_by(fault: &ExtractFault) -> Option<LeftOut>
    ensures { MatchOption result (fault_page fault.now ≡ None) (IsLeftBy fault.now) }
{
    match fault {
        ExtractFault::Conflict {
            page,
            item,
            first,
            second,
        } => Some(LeftOut {
            page: *page,
            why: Why::Conflict {
                item: *item,
                first: *first,
                second: *second,
            },
        }),
        ExtractFault::Reason(reason) => reason_left(reason),
        _ => None,
    }
}
