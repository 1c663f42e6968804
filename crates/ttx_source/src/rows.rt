//! The rows of a page.

ghost use Rattle.std.specs.Prelude.{◌≡◌, ◌<◌, [], length, nat_le, None, if◌then◌else◌, map, option_map, is_some, replicate, slice_index_or, IfOk, IfSome};
ghost use Rattle.ttx_digits.specs.Digits.{number_in_word};
ghost use Rattle.toml.specs.View.{table_view, view};
ghost use Rattle.ttx_page.specs.Pages.{IsRow};
ghost use Rattle.ttx_source.specs.Keys as rule;
ghost use Rattle.ttx_source.specs.Keys.{AreRows};
ghost use Rattle.ttx_source.specs.Entries.{AreFound};
ghost use Rattle.ttx_source.specs.KeyFaults.{key_outcome};

use crate::key_faults::KeyFault;
use crate::keys::Key;
use crate::page_entries::PageEntries;
use crate::texts::{characters, write_characters};
use crate::values::{table_of, text_of};
use toml::{Table, Value};
use ttx_digits::{decimal_in, two_decimals};

// The number in a word of one or two digits, without a leading zero; `None` for other words.
#[tactic(auto, unfolding(ttx_digits::specs::Digits::decimal_in, ttx_digits::specs::Digits::two_decimals))]
fn short_number(word: &[u8]) -> Option<u8>
    ensures { result ≡ (if nat_le (length word.now) 2 then number_in_word word.now else None) }
{
    match word {
        [unit] => decimal_in(*unit),
        [b'0', _] => None,
        [_, _] => two_decimals(word, 0),
        _ => None,
    }
}

// The index of a row's key, 0 to 23; `None` if the key is not the number of a row, 1 to 24.
fn row_index(key: &str) -> Option<usize>
    ensures among { is_some result ≡ rule.is_row_key key.now }
    ensures place { IfSome result (λ i. (i < 24) × (slice_index_or rule.row_keys i [] ≡ key.now)) }
{
    ttx_digits::laws::read_numbers_are_written();
    match short_number(key.as_bytes()) {
        Some(row) if 1 <= row && row <= 24 => Some(row as usize - 1),
        _ => None,
    }
}

fn blank_row() -> [u8; 40]
    ensures value { result ≡ replicate 40 32 }
    ensures row { IsRow result }
{
    [b' '; 40]
}

/// The row in a value; spaces if there is none.
pub fn row_of(value: Option<&Value>) -> Result<[u8; 40], KeyFault>
    ensures value { key_outcome (λ r. r) result ≡ rule.row_of (option_map (λ v. view v.now) value.entry) }
    ensures row { IfOk result IsRow }
{
    match value {
        None => Ok(blank_row()),
        Some(value) => characters(text_of(value, Key::Rows)?),
    }
}

// Writes the row in a value; spaces if there is none.
fn write_row(row: &mut [u8; 40], value: Option<&Value>) -> Result<(), KeyFault>
    ensures value { key_outcome (λ _. row.new) result ≡ rule.row_of (option_map (λ v. view v.now) value.entry) }
    ensures row { IfOk result (λ _. IsRow row.new) }
{
    match value {
        None => {
            *row = blank_row();
            Ok(())
        }
        Some(value) => write_characters(row, text_of(value, Key::Rows)?),
    }
}

/// Rows 1 to 24 of a page that has no `rows`.
pub fn blank_rows() -> [[u8; 40]; 24]
    ensures value { result ≡ replicate 24 (replicate 40 32) }
    ensures rows { AreRows result }
{
    [[b' '; 40]; 24]
}

// Writes the 24 rows of these values.
fn write_values(values: &[Option<&Value>; 24], rows: &mut [[u8; 40]; 24]) -> Result<(), KeyFault>
    ensures value { key_outcome (λ _. rows.new) result ≡ rule.rows_of (map (option_map (λ v. view v.now)) values.now) }
    ensures rows { IfOk result (λ _. AreRows rows.new) }
{
    for (index, value) in values.iter().enumerate() {
        write_row(&mut rows[index], *value)?;
    }
    Ok(())
}

// Writes the rows in the table `rows`. Its keys are tested before its texts.
fn write_table(table: &Table, rows: &mut [[u8; 40]; 24]) -> Result<(), KeyFault>
    ensures value { key_outcome (λ _. rows.new) result ≡ rule.rows_in (table_view table.now) }
    ensures rows { IfOk result (λ _. AreRows rows.new) }
{
    let mut values = [None; 24];
    for (key, value) in table.iter() {
        match row_index(key.as_str()) {
            None => return Err(KeyFault::Range { key: Key::Rows }),
            Some(index) => values[index] = Some(value),
        }
    }
    write_values(&values, rows)
}

/// Writes rows 1 to 24 of a page; index 0 is row 1.
pub(crate) fn write_rows(page: &PageEntries, rows: &mut [[u8; 40]; 24]) -> Result<(), KeyFault>
    requires { AreFound page.now }
    ensures value { key_outcome (λ _. rows.new) result ≡ rule.rows (table_view page.now.table.now) }
    ensures rows { IfOk result (λ _. AreRows rows.new) }
{
    match page.member(Key::Rows) {
        None => {
            *rows = blank_rows();
            Ok(())
        }
        Some(value) => write_table(table_of(value, Key::Rows)?, rows),
    }
}
