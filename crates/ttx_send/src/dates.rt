//! Dates of the Gregorian calendar.

ghost use Rattle.std.specs.Prelude.{◌≡◌, ◌<◌, ◌≤◌};
ghost use Rattle.ttx_send.specs.IsoTexts.{date_at, date_of};

/// A day of the Gregorian calendar.
#[derive(Clone, Copy)]
pub(crate) struct Date {
    pub(crate) year: u32,
    pub(crate) month: u32,
    pub(crate) day: u32,
    ghost year_fits: { year < 10000 },
    ghost month_fits: { month < 100 },
    ghost day_fits: { day < 100 },
}

// The date of a Modified Julian Date. Years are counted from March on, so that a leap day is the last one; 400 years have 146,097 days.
#[tactic(auto, using(crate::proofs::Calendar::is_date))]
pub(crate) fn date_of(mjd: u32) -> Date
    requires { mjd ≤ 100000 }
    ensures { date_at result.year result.month result.day ≡ date_of mjd }
{
    let days = mjd + 678_881;
    let (era, of_era) = (days / 146_097, days % 146_097);
    let leaps = of_era / 1_460 + of_era / 146_096;
    let year = (of_era + of_era / 36_524 - leaps) / 365;
    let of_year = of_era - (365 * year + year / 4 - year / 100);
    let fifth = (5 * of_year + 2) / 153;
    Date {
        year: 400 * era + year + fifth / 10,
        month: (fifth + 2) % 12 + 1,
        day: of_year - (153 * fifth + 2) / 5 + 1,
    }
}
