//! Texts of numbers, links, dates and times.

ghost use Rattle.std.specs.Fmt.{decimal};
ghost use Rattle.std.specs.Prelude.{◌≡◌, ◌++◌, OnOk, string_bytes};
ghost use Rattle.ttx_lines.specs.Texts.{link_id_text, link_ids_text, last_two_digits, date_text, time_text};

use std::alloc::AllocError;
use ttx_digits::{digit, push_decimal, push_numbers};
use ttx_links::Target;

/// Adds a text, and then a number.
pub fn push_numbered(text: &mut String, name: &str, number: usize) -> Result<(), AllocError>
    ensures { OnOk result (string_bytes text.new ≡ string_bytes text.old ++ name.now ++ decimal number) }
{
    text.push_str(name)?;
    push_decimal(text, number)
}

// Adds a space and where a link leads.
fn push_link(text: &mut String, link: &Option<Target>) -> Result<(), AllocError>
    ensures { OnOk result (string_bytes text.new ≡ string_bytes text.old ++ link_id_text link.now) }
{
    match link {
        Some(target) => {
            text.push(' ')?;
            push_numbers(text, target.mag(), target.page(), target.sub())
        }
        None => text.push_str(" -"),
    }
}

/// Adds links, each after a space.
pub(crate) fn push_links(text: &mut String, links: &[Option<Target>]) -> Result<(), AllocError>
    ensures { OnOk result (string_bytes text.new ≡ string_bytes text.old ++ link_ids_text links.now) }
{
    for link in links {
        push_link(text, link)?;
    }
    Ok(())
}

// Adds two decimal digits, the last two of the number.
fn push_pair(text: &mut String, number: u32) -> Result<(), AllocError>
    ensures { OnOk result (string_bytes text.new ≡ string_bytes text.old ++ last_two_digits number) }
{
    text.push(digit((number / 10 % 10) as u8))?;
    text.push(digit((number % 10) as u8))
}

/// Adds a Modified Julian Date in five digits.
pub(crate) fn push_date(text: &mut String, mjd: u32) -> Result<(), AllocError>
    ensures { OnOk result (string_bytes text.new ≡ string_bytes text.old ++ date_text mjd) }
{
    text.push(digit((mjd / 10_000 % 10) as u8))?;
    push_pair(text, mjd / 100)?;
    push_pair(text, mjd)
}

/// Adds a time of day in six digits.
pub(crate) fn push_time(text: &mut String, utc: u32) -> Result<(), AllocError>
    ensures { OnOk result (string_bytes text.new ≡ string_bytes text.old ++ time_text utc) }
{
    push_pair(text, utc / 10_000)?;
    push_pair(text, utc / 100)?;
    push_pair(text, utc)
}
