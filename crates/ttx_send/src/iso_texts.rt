//! Moments as ISO texts: `2026-11-25`, `12:00:00` and `+01:00`.

ghost use Rattle.std.specs.Prelude.{◌≡◌, ◌∷◌, ◌+◌, ◌%◌, ◌<◌, ◌≤◌};
ghost use Rattle.ttx_send.specs.Times as times;
ghost use Rattle.ttx_send.specs.IsoTexts as iso;

use crate::dates::date_of;
use crate::moments::Moment;

fn two_digits(n: u32) -> [u8; 2]
    requires { n < 100 }
    ensures { result ≡ iso.two_digits n }
{
    [b'0' + (n / 10) as u8, b'0' + (n % 10) as u8]
}

// Whether the clock is behind UTC.
fn is_behind(moment: &Moment) -> bool
    ensures { result ≡ iso.is_behind moment.now moment.now.offset }
{
    match moment.offset() {
        Some(offset) => offset.is_west(),
        None => moment.ahead() > 46_800,
    }
}

// The Modified Julian Date that the clock shows.
fn local_day(moment: &Moment) -> u32
    ensures value { result ≡ iso.local_day moment.now }
    ensures range { result ≤ 100000 }
{
    let day = moment.mjd() + (moment.second() + moment.ahead()) / 86_400;
    if is_behind(moment) {
        day.saturating_sub(1)
    } else {
        day
    }
}

/// The date that the clock shows, as `YYYY-MM-DD`.
pub fn date_text(moment: &Moment) -> [u8; 10]
    ensures { result ≡ iso.date_text (iso.date_of (iso.local_day moment.now)) }
{
    let date = date_of(local_day(moment));
    let [a, b] = two_digits(date.year / 100);
    let [c, d] = two_digits(date.year % 100);
    let [e, f] = two_digits(date.month);
    let [g, h] = two_digits(date.day);
    [a, b, c, d, b'-', e, f, b'-', g, h]
}

/// The time that the clock shows, as `HH:MM:SS`.
pub fn clock_text(moment: &Moment) -> [u8; 8]
    ensures { result ≡ times.clock_text ((moment.now.second + moment.now.ahead) % 86400) }
{
    let second = (moment.second() + moment.ahead()) % 86_400;
    let [a, b] = two_digits(second / 3_600);
    let [c, d] = two_digits(second / 60 % 60);
    let [e, f] = two_digits(second % 60);
    [a, b, b':', c, d, b':', e, f]
}

// The minutes of an offset, after its sign.
fn signed(sign: u8, seconds: u32) -> [u8; 6]
    requires { seconds ≤ 86400 }
    ensures { result ≡ sign ∷ iso.hours_and_minutes seconds }
{
    let [a, b] = two_digits(seconds / 3_600);
    let [c, d] = two_digits(seconds / 60 % 60);
    [sign, a, b, b':', c, d]
}

/// How far the clock is from UTC, as `+HH:MM`.
pub fn offset_text(moment: &Moment) -> [u8; 6]
    ensures { result ≡ iso.offset_text moment.now }
{
    let ahead = moment.ahead();
    if is_behind(moment) {
        signed(b'-', 86_400 - ahead)
    } else {
        signed(b'+', ahead)
    }
}
