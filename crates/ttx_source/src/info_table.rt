//! The table `info` of a service: its packet 8/30 format 1.

ghost use Rattle.std.specs.Prelude.{◌≡◌, ◌≤◌, ◌<◌, ℕ, codes, slice_index, IfOk};
ghost use Rattle.toml.specs.View.{table_view};
ghost use Rattle.ttx_source.specs.Keys as rule;
ghost use Rattle.ttx_source.specs.KeyFaults.{key_outcome};

use crate::key_faults::KeyFault;
use crate::keys::Key;
use crate::texts::{byte_pair, characters, link};
use crate::values::{integer, integer_or, member, table_of, text, text_or, within};
use toml::Table;
use ttx_info::Info;
use ttx_links::Target;

/// The designation of packet 8/30, 0 or 1.
pub fn designation(info: &Table) -> Result<u8, KeyFault>
    ensures value { key_outcome (λ n. n) result ≡ rule.designation (table_view info.now) }
    ensures range { IfOk result (λ n. n < 2) }
{
    let number = within(
        integer_or(info, Key::Designation, 0)?,
        Key::Designation,
        0,
        1,
    )?;
    Ok(number as u8)
}

/// The page that a receiver shows first, if there is one.
pub fn initial(info: &Table) -> Result<Option<Target>, KeyFault>
    ensures { key_outcome (λ l. l) result ≡ rule.initial (table_view info.now) }
{
    link(text_or(info, Key::Initial, "")?)
}

/// The code of the network.
pub fn network(info: &Table) -> Result<[u8; 2], KeyFault>
    ensures { key_outcome (λ b. b) result ≡ rule.network (table_view info.now) }
{
    byte_pair(text(info, Key::Network)?, Key::Network)
}

/// The local offset in half hours, and whether it is negative.
pub fn halves(info: &Table) -> Result<(u8, bool), KeyFault>
    ensures value { key_outcome (λ h. h) result ≡ rule.halves (table_view info.now) }
    ensures range { IfOk result (λ h. h.0 < 32) }
{
    let number = integer_or(info, Key::Halves, 0)?;
    if number < -31 || number > 31 {
        return Err(KeyFault::Range { key: Key::Halves });
    }
    if number < 0 {
        Ok(((-number) as u8, true))
    } else {
        Ok((number as u8, false))
    }
}

// The local offset, as `halves` returns it, then the date and the time.
#[tactic(auto, unfolding(crate::specs::Keys::clock_of))]
fn clock(info: &Table) -> Result<((u8, bool), (u32, u32)), KeyFault>
    ensures value { key_outcome (λ c. c) result ≡ rule.clock_of (table_view info.now) }
    ensures offset { IfOk result (λ c. c.0.0 < 32) }
    ensures date { IfOk result (λ c. c.1.0 ≤ 99999) }
    ensures time { IfOk result (λ c. c.1.1 ≤ 999999) }
{
    let offset = halves(info)?;
    let mjd = integer(info, Key::Mjd, 0, 99_999)?;
    let utc = integer(info, Key::Utc, 0, 999_999)?;
    Ok((offset, (mjd, utc)))
}

/// The status display.
pub fn status(info: &Table) -> Result<[u8; 20], KeyFault>
    ensures value { key_outcome (λ t. t) result ≡ rule.text (table_view info.now) }
    ensures codes { IfOk result (λ t. (c : ℕ) → slice_index t c < 128) }
{
    characters::<20>(text_or(info, Key::Text, "")?)
}

// The packet of an `info` table.
#[tactic(auto, unfolding(crate::specs::Keys::info_of_table))]
fn info_of(table: &Table) -> Result<Info, KeyFault>
    ensures { key_outcome (λ i. i) result ≡ rule.info_of_table (table_view table.now) }
{
    let designation = designation(table)?;
    let initial = match initial(table) {
        Ok(initial) => initial,
        Err(fault) => return Err(fault),
    };
    let network = network(table)?;
    let ((halves, west), (mjd, utc)) = clock(table)?;
    let text = status(table)?;
    let info = Info::new(designation, initial, network, halves, west, mjd, utc, text);
    Ok(info.unwrap())
}

/// The packet 8/30 of a service; `None` if the service has no table `info`.
pub fn info(service: &Table) -> Result<Option<Info>, KeyFault>
    ensures { key_outcome (λ i. i) result ≡ rule.info (table_view service.now) }
{
    match member(service, Key::Info) {
        None => Ok(None),
        Some(value) => match info_of(table_of(value, Key::Info)?) {
            Ok(info) => Ok(Some(info)),
            Err(fault) => Err(fault),
        },
    }
}
