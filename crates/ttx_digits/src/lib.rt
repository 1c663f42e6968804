//! Numbers, page ids and the names of control bits as text. Hexadecimal digits are 0 to 9 and A to F.
#![tactic(auto)]

mod control_names;
mod decimals;
mod hexadecimals;
pub mod laws;
mod page_ids;

pub use control_names::push_control;
pub use decimals::{decimal_in, leading_digits, number, push_decimal, push_digit, two_decimals};
pub use hexadecimals::{digit, four_digits, push_byte, push_subcode, two_digits};
pub use page_ids::{first_number, id, push_id, push_numbers};
