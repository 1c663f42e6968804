//! Writes the address of a packet.

ghost use Rattle.std.specs.Prelude.{◌≡◌, ◌<◌, ◌≤◌};
ghost use Rattle.ttx_packet.specs.Slots.{address_bytes};

use ttx_code::ham;

/// Bytes 0 and 1 of a packet: the Hamming 8/4 words of its magazine (1 to 8; 8 is sent as 0) and its packet number (0 to
/// 31).
pub fn address(mag: u8, number: u8) -> [u8; 2]
    requires low { 1 ≤ mag }
    requires high { mag ≤ 8 }
    requires number { number < 32 }
    ensures { result ≡ address_bytes mag number }
{
    [ham(mag % 8 + 8 * (number % 2)), ham(number / 2)]
}
