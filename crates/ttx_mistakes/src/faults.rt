//! The fault of the value at a key.

ghost use Rattle.std.specs.Prelude.{◌≡◌, ◌≢◌, ◌≤◌, option_map, codes, IfOk};
ghost use Rattle.toml.specs.View.{table_view};
ghost use Rattle.ttx_header.specs.Ids.{IsSubcode};
ghost use Rattle.ttx_check.specs.Parts.{number_of, sub_of};
ghost use Rattle.ttx_mistakes.specs.Mistakes.{fault_in, key_fault};
ghost use Rattle.ttx_source.specs.KeyFaults.{key_fault_of, key_name, key_outcome};
ghost use Rattle.ttx_source.specs.Keys as keys;
ghost use Rattle.ttx_source.specs.Promises.{promise_of};

use toml::Table;
use ttx_source::controls::option;
use ttx_source::info_table::{designation, halves, initial, network, status};
use ttx_source::key_faults::KeyFault;
use ttx_source::keys::Key;
use ttx_source::links::crc;
use ttx_source::page_table::{head, often};
use ttx_source::promises::promise_of;
use ttx_source::texts::{page_number, subcode};
use ttx_source::values::{boolean, flag, integer, text, text_or};

fn lines_fault(table: &Table) -> Option<KeyFault>
    ensures { option_map key_fault_of result ≡ fault_in (keys.lines (table_view table.now)) }
{
    match integer(table, Key::Lines, 1, 32) {
        Ok(_) => None,
        Err(fault) => Some(fault),
    }
}

fn serial_fault(table: &Table) -> Option<KeyFault>
    ensures { option_map key_fault_of result ≡ fault_in (keys.serial (table_view table.now)) }
{
    match boolean(table, Key::Serial) {
        Ok(_) => None,
        Err(fault) => Some(fault),
    }
}

fn designation_fault(table: &Table) -> Option<KeyFault>
    ensures { option_map key_fault_of result ≡ fault_in (keys.designation (table_view table.now)) }
{
    match designation(table) {
        Ok(_) => None,
        Err(fault) => Some(fault),
    }
}

fn initial_fault(table: &Table) -> Option<KeyFault>
    ensures { option_map key_fault_of result ≡ fault_in (keys.initial (table_view table.now)) }
{
    match initial(table) {
        Ok(_) => None,
        Err(fault) => Some(fault),
    }
}

fn network_fault(table: &Table) -> Option<KeyFault>
    ensures { option_map key_fault_of result ≡ fault_in (keys.network (table_view table.now)) }
{
    match network(table) {
        Ok(_) => None,
        Err(fault) => Some(fault),
    }
}

fn halves_fault(table: &Table) -> Option<KeyFault>
    ensures { option_map key_fault_of result ≡ fault_in (keys.halves (table_view table.now)) }
{
    match halves(table) {
        Ok(_) => None,
        Err(fault) => Some(fault),
    }
}

fn mjd_fault(table: &Table) -> Option<KeyFault>
    ensures { option_map key_fault_of result ≡ fault_in (keys.mjd (table_view table.now)) }
{
    match integer(table, Key::Mjd, 0, 99_999) {
        Ok(_) => None,
        Err(fault) => Some(fault),
    }
}

fn utc_fault(table: &Table) -> Option<KeyFault>
    ensures { option_map key_fault_of result ≡ fault_in (keys.utc (table_view table.now)) }
{
    match integer(table, Key::Utc, 0, 999_999) {
        Ok(_) => None,
        Err(fault) => Some(fault),
    }
}

fn text_fault(table: &Table) -> Option<KeyFault>
    ensures { option_map key_fault_of result ≡ fault_in (keys.text (table_view table.now)) }
{
    match status(table) {
        Ok(_) => None,
        Err(fault) => Some(fault),
    }
}

fn often_fault(table: &Table) -> Option<KeyFault>
    ensures { option_map key_fault_of result ≡ fault_in (keys.often (table_view table.now)) }
{
    match often(table) {
        Ok(_) => None,
        Err(fault) => Some(fault),
    }
}

fn option_fault(table: &Table) -> Option<KeyFault>
    ensures { option_map key_fault_of result ≡ fault_in (keys.option (table_view table.now)) }
{
    match option(table) {
        Ok(_) => None,
        Err(fault) => Some(fault),
    }
}

fn head_fault(table: &Table) -> Option<KeyFault>
    ensures { option_map key_fault_of result ≡ fault_in (keys.head (table_view table.now)) }
{
    match head(table) {
        Ok(_) => None,
        Err(fault) => Some(fault),
    }
}

fn crc_fault(table: &Table) -> Option<KeyFault>
    ensures { option_map key_fault_of result ≡ fault_in (keys.crc (table_view table.now)) }
{
    match crc(table) {
        Ok(_) => None,
        Err(fault) => Some(fault),
    }
}

/// The magazine and the page number at `number`.
pub fn number(table: &Table) -> Result<(u8, u8), KeyFault>
    ensures value { key_outcome (λ n. n) result ≡ number_of (table_view table.now) }
    ensures ranges { IfOk result (λ n. (1 ≤ n.0) × (n.0 ≤ 8) × (n.1 ≢ 0xff)) }
{
    page_number(text(table, Key::Number)?)
}

/// The subcode at `sub`.
pub fn sub(table: &Table) -> Result<u16, KeyFault>
    ensures value { key_outcome (λ n. n) result ≡ sub_of (table_view table.now) }
    ensures ranges { IfOk result (λ sub. IsSubcode sub × (sub ≢ 0x3f7f)) }
{
    subcode(text_or(table, Key::Sub, "0000")?)
}

fn number_fault(table: &Table) -> Option<KeyFault>
    ensures { option_map key_fault_of result ≡ fault_in (number_of (table_view table.now)) }
{
    match number(table) {
        Ok(_) => None,
        Err(fault) => Some(fault),
    }
}

fn sub_fault(table: &Table) -> Option<KeyFault>
    ensures { option_map key_fault_of result ≡ fault_in (sub_of (table_view table.now)) }
{
    match sub(table) {
        Ok(_) => None,
        Err(fault) => Some(fault),
    }
}

fn flag_fault(table: &Table, key: Key) -> Option<KeyFault>
    ensures { option_map key_fault_of result ≡ fault_in (keys.flag_at (key_name key) (table_view table.now)) }
{
    match flag(table, key) {
        Ok(_) => None,
        Err(fault) => Some(fault),
    }
}

fn promise_fault(table: &Table, key: Key) -> Option<KeyFault>
    ensures { option_map key_fault_of result ≡ fault_in (promise_of (key_name key) 0 (table_view table.now)) }
{
    match promise_of(key, 0, table) {
        Ok(_) => None,
        Err(fault) => Some(fault),
    }
}

/// The fault of the value at a key of the service, of `info` or of a page. `info`, `page`, `rows` and `links` have parts of their own.
pub fn key_fault(key: Key, table: &Table) -> Option<KeyFault>
    ensures { option_map key_fault_of result ≡ key_fault key (table_view table.now) }
{
    match key {
        Key::Lines => lines_fault(table),
        Key::Serial => serial_fault(table),
        Key::Designation => designation_fault(table),
        Key::Initial => initial_fault(table),
        Key::Network => network_fault(table),
        Key::Halves => halves_fault(table),
        Key::Mjd => mjd_fault(table),
        Key::Utc => utc_fault(table),
        Key::Text => text_fault(table),
        Key::Number => number_fault(table),
        Key::Sub => sub_fault(table),
        Key::Often => often_fault(table),
        Key::Option => option_fault(table),
        Key::Newsflash
        | Key::Subtitle
        | Key::Suppress
        | Key::Update
        | Key::Interrupted
        | Key::Inhibit
        | Key::Row24 => flag_fault(table, key),
        Key::Head => head_fault(table),
        Key::Crc => crc_fault(table),
        Key::Within | Key::Stays => promise_fault(table, key),
        Key::Info | Key::Page | Key::Rows | Key::Links => None,
    }
}
