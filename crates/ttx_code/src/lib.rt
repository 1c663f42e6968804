//! The two codes of teletext bytes: odd parity for characters, Hamming 8/4 for everything else.
#![tactic(auto)]

mod hamming;
mod lanes;
pub mod laws;
mod parity;
mod plain;

pub use hamming::{are_readable, are_words, ham, ham_pair, is_word, number_of, unham};
pub use parity::{all_odd, odd, odd_of, strip};
