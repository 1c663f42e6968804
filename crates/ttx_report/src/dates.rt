//! The date of a report.

ghost use Rattle.std.specs.Prelude.{◌≡◌, ◌↔◌, ◌≤◌, ◌<◌, length, pos, IfSome, IsTrue};
ghost use Rattle.ttx_report.specs.Dates as rule;
ghost use Rattle.jiff.specs.Words.{IsDate};

use jiff::civil::Date;
use ttx_digits::two_decimals;

// The year in the first four digits of a text.
#[tactic(auto, unfolding(crate::specs::Dates::year_in))]
fn year_in(text: &[u8]) -> Option<u16>
    requires { 4 ≤ length text.now }
    ensures value { result ≡ rule.year_in text.now }
    ensures range { IfSome result (λ year. year < 10000) }
{
    let century = two_decimals(text, 0)?;
    let year = two_decimals(text, 2)?;
    Some(100 * u16::from(century) + u16::from(year))
}

// Whether the calendar has this day.
fn is_day(year: u16, month: u8, day: u8) -> bool
    requires year { year < 10000 }
    requires month { month < 100 }
    requires day { day < 100 }
    ensures { IsTrue result ↔ IsDate (pos year) (pos month) (pos day) }
{
    Date::new(year as i16, month as i8, day as i8).is_ok()
}

/// Whether a text is a day of the calendar, as 2026-11-25: four digits of the year, two of the month and two of the day.
pub fn is_date(text: &str) -> bool
    ensures { IsTrue result ↔ rule.IsDateText text.now }
{
    let text = text.as_bytes();
    if text.len() != 10 || text[4] != b'-' || text[7] != b'-' {
        return false;
    }
    let year = year_in(text);
    let month = two_decimals(text, 5);
    let day = two_decimals(text, 8);
    match (year, month, day) {
        (Some(year), Some(month), Some(day)) => is_day(year, month, day),
        _ => false,
    }
}
