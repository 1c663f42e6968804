//! Receivers that show a page late, as libzvbi's decoder does: what a cycle must send so that they show each page, and the
//! certifier's verdict for them.
//!
//! Three choices:
//! - The class of these receivers is as wide as possible. They may show what they have gathered at any slot, and must show it only when
//!   a header with another page number ends the page. So receivers that show each row as it comes belong to it, and one law serves both.
//!   At a header of its own page number a receiver may forget what it gathered; libzvbi does so with a page without C4.
//! - The condition is about the page's own headers, not about every header of its number. So it distinguishes subpages.
//! - Reason 13 (`NeverShown`) belongs to `certify_late` alone: the other reasons say why a cycle is not accepted, but with this one it
//!   is accepted. Without `--late` nothing changes.
#![tactic(auto)]

mod acceptance;
mod followers;
mod judge;
pub mod laws;
mod unshown;
mod verdict;
mod verdict_lines;

pub use acceptance::certify_late;
pub use followers::{first_unshown, gap_after, greatest_gap, heads, heads_another, place_of};
pub use judge::Late;
pub use unshown::Unshown;
pub use verdict::LateVerdict;
pub use verdict_lines::late_verdict_line;
