//! The keys of a page for its packet X/27/0 (EN 300 706, 9.6.1).

ghost use Rattle.std.specs.Prelude.{◌≡◌, ◌≤◌, length, codes, Ok};
ghost use Rattle.toml.specs.Data.{no_items};
ghost use Rattle.toml.specs.View.{table_view, items_view, view};
ghost use Rattle.ttx_source.specs.Keys as rule;
ghost use Rattle.ttx_source.specs.Entries.{AreFound};
ghost use Rattle.ttx_source.specs.KeyFaults.{key_outcome};

use crate::key_faults::KeyFault;
use crate::keys::Key;
use crate::page_entries::PageEntries;
use crate::texts::{byte_pair, link};
use crate::values::{array_of, text_of, text_or};
use toml::{Table, Value};
use ttx_links::{Links, Target};

/// The link in one value of the array.
pub fn link_of(value: &Value) -> Result<Option<Target>, KeyFault>
    ensures { key_outcome (λ l. l) result ≡ rule.link_of (view value.now) }
{
    link(text_of(value, Key::Links)?)
}

// The six links of an array of at most six values; missing ones lead nowhere.
fn six_of(values: &[Value]) -> Result<[Option<Target>; 6], KeyFault>
    requires { length values.now ≤ 6 }
    ensures { key_outcome (λ l. l) result ≡ rule.six_of (items_view values.now) }
{
    let mut six = [None; 6];
    for (place, value) in values.iter().enumerate() {
        match link_of(value) {
            Ok(link) => six[place] = link,
            Err(fault) => return Err(fault),
        }
    }
    Ok(six)
}

/// The number of values in an array, as the definitions count them.
pub fn count(values: &[Value]) -> usize
    ensures count { result ≡ rule.count (items_view values.now) }
    ensures length { result ≡ length values.now }
{
    values.len()
}

fn no_links() -> [Option<Target>; 6]
    ensures { Ok result ≡ rule.six_of no_items }
{
    [None; 6]
}

// The six links of a page.
fn six_links(page: &PageEntries) -> Result<[Option<Target>; 6], KeyFault>
    requires { AreFound page.now }
    ensures { key_outcome (λ l. l) result ≡ rule.six_links (table_view page.now.table.now) }
{
    let Some(value) = page.member(Key::Links) else {
        return Ok(no_links());
    };
    let values = array_of(value, Key::Links)?.as_slice();
    if count(values) > 6 {
        return Err(KeyFault::Range { key: Key::Links });
    }
    six_of(values)
}

/// The two bytes of the page CRC.
pub fn crc(page: &Table) -> Result<[u8; 2], KeyFault>
    ensures { key_outcome (λ b. b) result ≡ rule.crc (table_view page.now) }
{
    byte_pair(text_or(page, Key::Crc, "0000")?, Key::Crc)
}

// The two bytes of the page CRC of a page.
fn crc_in(page: &PageEntries) -> Result<[u8; 2], KeyFault>
    requires { AreFound page.now }
    ensures { key_outcome (λ b. b) result ≡ rule.crc (table_view page.now.table.now) }
{
    byte_pair(page.text_or(Key::Crc, "0000")?, Key::Crc)
}

/// The links of a page, whether row 24 is shown, and the two bytes of the page CRC.
#[tactic(auto, unfolding(crate::specs::Keys::links_of_table))]
pub(crate) fn links(page: &PageEntries) -> Result<Links, KeyFault>
    requires { AreFound page.now }
    ensures { key_outcome (λ l. l) result ≡ rule.links_of_table (table_view page.now.table.now) }
{
    let six = match six_links(page) {
        Ok(six) => six,
        Err(fault) => return Err(fault),
    };
    let show24 = page.flag(Key::Row24)?;
    let crc = crc_in(page)?;
    Ok(Links::new(six, show24, crc))
}
