//! The place of a value in a TOML text, as line and column, from its path.
//!
//! A path is `/page/3/rows/4`: the value at `rows`, `4` of the third table `[[page]]`. Elements of arrays are counted from 1. In a key
//! `~` is written `~0` and a slash `~1`, as in a JSON Pointer, so a path is that of one list of keys.
//!
//! The crate `toml` keeps no positions of values, so this crate finds a value again in the text, by the grammar of that crate.
#![tactic(auto)]

mod documents;
mod keys;
pub mod laws;
mod positions;
mod signs;
mod values;

pub use documents::place_of;
pub use keys::{key_path, page_path, push_number, push_part};
pub use positions::{Position, last_line, position_of};
pub use signs::character_place;
