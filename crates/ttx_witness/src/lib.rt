//! When a cycle is accepted with a certificate, why it is not, and the certificate with the least deadline.
//!
//! The path of the data: slots come in. `sent` turns them into the transmissions of each item of each page in one period. `runs` makes
//! runs of these, and compares them with named starts or finds all starts of sure runs. The results are starts with a deadline
//! (`finding`), waits (`waiting`) or what is wrong (`faults`).
//!
//! - `runs`: transmissions of one item, as numbers; the runs they make, and which of them confirm a named start.
//! - `sent`: what the slots of a period send, under which header, item by item for all pages.
//! - `faults`: why a cycle is not accepted: bad slots, and slots that differ from a page.
//! - `finding`: the starts to name, and the least deadline.
//! - `waiting`: the least deadline of each page and of each item.
//! - `laws`: what holds for one period holds for the endless stream. Each law is a public call with an empty body.
//!
//! Two choices:
//! - `find` names every start of a sure run. A further start never hurts, so its deadline is the least of any certificate with the same
//!   class, lines and repeat count. To name starts for a blank item of class clearing is never better than to leave its entry out.
//! - `judge_item` holds a window of transmissions in an `ArrayVec` and allocates nothing. The search of `find` holds a ring
//!   (`circular_buffer`) as long as a run. It is emptied before each item, and made anew only where the run's length changes.
#![tactic(auto)]

mod faults;
pub mod laws;
mod runs;
mod search;
mod sent;
mod wait_times;

pub use faults::bad_slots::bad_slot;
pub use faults::other_subpages::{OtherSubpages, first_of, none_told, note_other};
pub use faults::page_faults::{fault_of, page_fault};
pub use faults::reason::{PageFault, Reason};
pub use faults::wrong_slots::{Check, is_wrong, same_links};
pub use faults::{first_slots, subcodes};
pub use laws::{cycle_laws, fault_laws, judging_laws, late_laws, sure_items, wait_laws};
pub use runs::confirmation::{Progress, late_at_end};
pub use runs::named_starts;
pub use runs::one_item::{judge_item, nothing_confirmed};
pub use runs::transmissions::Transmission;
pub use search::certificates::{Found, faults_in, find, find_for, find_in};
pub use search::survey::Survey;
pub use sent::collected::Collected;
pub use sent::collection::{collect, collect_after};
pub use sent::indexed_headers::{IndexedHeader, indexed_header};
pub use sent::one_slot;
pub use sent::owners::{Owner, note_owner};
pub use sent::packets::{header_in, heads_page, id_in, mine_after, row_in, sends};
pub use sent::page_index::{PageIndex, index_of, place_of};
pub use sent::page_items::{item_of, run_length};
pub use ttx_certificate::{
    CertFault, Certificate, Entry, NoMemory, Starts, certificate_laws, digit, limit, push_id,
    push_item, push_numbers, read_certificate, write_certificate,
};
pub use wait_times::item_waits::item_waits;
pub use wait_times::page_waits::waits;
pub use wait_times::wait::{ItemWait, Losses, OwnWait, PageWait, Wait};
