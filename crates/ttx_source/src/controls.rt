//! The keys of a page that set control bits (EN 300 706, 9.3.1.3).

ghost use Rattle.std.specs.Prelude.{◌≡◌, ◌≤◌, ◌%◌, codes, false, IfOk};
ghost use Rattle.ttx_header.specs.Control.{IsControl, c4, c11};
ghost use Rattle.toml.specs.View.{table_view};
ghost use Rattle.ttx_source.specs.Keys as rule;
ghost use Rattle.ttx_source.specs.Entries.{AreFound};
ghost use Rattle.ttx_source.specs.KeyFaults.{key_outcome};

use crate::key_faults::KeyFault;
use crate::keys::Key;
use crate::page_entries::PageEntries;
use crate::values::{integer_or, within};
use toml::Table;
use ttx_header::Control;

/// The national option, 0 to 7.
pub fn option(page: &Table) -> Result<u32, KeyFault>
    ensures value { key_outcome (λ n. n) result ≡ rule.option (table_view page.now) }
    ensures most { IfOk result (λ n. n ≤ 7) }
{
    within(integer_or(page, Key::Option, 0)?, Key::Option, 0, 7)
}

// The national option of a page, 0 to 7.
fn option_in(page: &PageEntries) -> Result<u32, KeyFault>
    requires { AreFound page.now }
    ensures value { key_outcome (λ n. n) result ≡ rule.option (table_view page.now.table.now) }
    ensures most { IfOk result (λ n. n ≤ 7) }
{
    within(page.integer_or(Key::Option, 0)?, Key::Option, 0, 7)
}

// The value of a control bit if it is set, otherwise 0.
fn bit_at(bit: Control, set: bool) -> u16
    ensures { result ≡ rule.bit_at bit.0 set }
{
    if set { bit.0 } else { 0 }
}

// The control bits of a national option. C12 is its upper bit.
fn national(option: u32) -> u16
    requires { option ≤ 7 }
    ensures value { result ≡ rule.national option }
    ensures place { result % 256 ≡ 0 }
    ensures most { result ≤ 1792 }
{
    bit_at(Control::C12, option / 4 == 1)
        + bit_at(Control::C13, option / 2 % 2 == 1)
        + bit_at(Control::C14, option % 2 == 1)
}

// The control bits C5 to C7 of a page.
#[tactic(auto, unfolding(crate::specs::Keys::lower_flags_of))]
fn lower_flags(page: &PageEntries) -> Result<u16, KeyFault>
    requires { AreFound page.now }
    ensures value { key_outcome (λ n. n) result ≡ rule.lower_flags_of (table_view page.now.table.now) }
    ensures place { IfOk result (λ n. n % 2 ≡ 0) }
    ensures most { IfOk result (λ n. n ≤ 14) }
{
    let newsflash = page.flag(Key::Newsflash)?;
    let subtitle = page.flag(Key::Subtitle)?;
    let suppress = page.flag(Key::Suppress)?;
    Ok(
        bit_at(Control::C5, newsflash)
            + bit_at(Control::C6, subtitle)
            + bit_at(Control::C7, suppress),
    )
}

// The control bits C8 to C10 of a page.
#[tactic(auto, unfolding(crate::specs::Keys::upper_flags_of))]
fn upper_flags(page: &PageEntries) -> Result<u16, KeyFault>
    requires { AreFound page.now }
    ensures value { key_outcome (λ n. n) result ≡ rule.upper_flags_of (table_view page.now.table.now) }
    ensures place { IfOk result (λ n. n % 16 ≡ 0) }
    ensures most { IfOk result (λ n. n ≤ 112) }
{
    let update = page.flag(Key::Update)?;
    let interrupted = page.flag(Key::Interrupted)?;
    let inhibit = page.flag(Key::Inhibit)?;
    Ok(
        bit_at(Control::C8, update)
            + bit_at(Control::C9, interrupted)
            + bit_at(Control::C10, inhibit),
    )
}

/// The control bits of a page. C11 is `serial`, as the service has it; C4 is clear.
#[tactic(auto, unfolding(crate::specs::Keys::control_of_table))]
pub(crate) fn control(page: &PageEntries, serial: bool) -> Result<Control, KeyFault>
    requires { AreFound page.now }
    ensures value { key_outcome (λ c. c.0) result ≡ rule.control_of_table serial (table_view page.now.table.now) }
    ensures ranges { IfOk result (λ c. IsControl c.0 × (c4 c.0 ≡ false) × (c11 c.0 ≡ serial)) }
{
    let option = option_in(page)?;
    let flags = lower_flags(page)? + upper_flags(page)?;
    Ok(Control(flags + bit_at(Control::C11, serial) + national(option)))
}
