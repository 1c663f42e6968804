//! Playout: editions of a service that are sent one after another, and what receivers see of them.
#![tactic(auto)]

mod edition;
mod faults;
mod late_change;
pub mod laws;
mod on_air;
mod state;
mod unfollowed_pages;

pub use edition::Edition;
pub use faults::{ChangeFault, StartFault};
pub use late_change::LateChange;
pub use state::OnAir;
pub use unfollowed_pages::{first_unfollowed, is_followed_across};
