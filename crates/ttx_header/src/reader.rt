//! Reads page headers.

ghost use Rattle.std.specs.Prelude.{◌≡◌, true, IfSome, SomeIff, slice_range};
ghost use Rattle.ttx_header.specs.Control.{IsControl};
ghost use Rattle.ttx_header.specs.Headers.{is_header, id_of, control_of, header_fields_of};

use crate::control::Control;
use crate::headers::Header;
use crate::ids::PageId;
use crate::parts::{is_readable, number_at};

fn text_of(bytes: &[u8; 42]) -> [u8; 24]
    ensures { result ≡ slice_range bytes.now 10 34 }
{
    let mut text = [0; 24];
    text.copy_from_slice(&bytes[10..34]);
    text
}

fn clock_of(bytes: &[u8; 42]) -> [u8; 8]
    ensures { result ≡ slice_range bytes.now 34 42 }
{
    let mut clock = [0; 8];
    clock.copy_from_slice(&bytes[34..42]);
    clock
}

/// Reads the id and the control bits of the page header in the 42 bytes of a slot (EN 300 706, 9.3.1). `None` if one of bytes 0
/// to 9 is unreadable, or the packet number is not 0.
#[inline(always)]
pub fn read_id(bytes: &[u8; 42]) -> Option<(PageId, Control)>
    ensures value { SomeIff result (is_header bytes.now ≡ true) (id_of bytes.now, record { 0 = control_of bytes.now }) }
    ensures control { IfSome result (λ heading. IsControl heading.1.0) }
{
    // Most packets are rows, so the packet number is looked at first, and its upper bits before the lowest one.
    let low = number_at(bytes, 0);
    if number_at(bytes, 1) != 0 || low >= 8 || !is_readable(&bytes[0..10]) {
        return None;
    }
    let [s1, s2, s3, s4] = [
        number_at(bytes, 4),
        number_at(bytes, 5),
        number_at(bytes, 6),
        number_at(bytes, 7),
    ];
    let mag = if low % 8 == 0 { 8 } else { low % 8 };
    let sub = u16::from(s1)
        + 16 * u16::from(s2 % 8)
        + 256 * u16::from(s3)
        + 4096 * u16::from(s4 % 4);
    let control = u16::from(s2 / 8)
        + 2 * u16::from(s4 / 4)
        + 8 * u16::from(number_at(bytes, 8))
        + 128 * u16::from(number_at(bytes, 9));
    let id = PageId::new(mag, number_at(bytes, 2) + 16 * number_at(bytes, 3), sub)?;
    Some((id, Control(control)))
}

/// Reads the page header in the 42 bytes of a slot (EN 300 706, 9.3.1). `None` if one of bytes 0 to 9 is unreadable, or the
/// packet number is not 0.
#[inline(always)]
pub fn read_header(bytes: &[u8; 42]) -> Option<Header>
    ensures { SomeIff result (is_header bytes.now ≡ true) (header_fields_of bytes.now) }
{
    let (id, control) = read_id(bytes)?;
    Header::new(id, control, text_of(bytes), clock_of(bytes))
}
