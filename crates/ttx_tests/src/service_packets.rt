//! A packet 8/30 format 1 by its bytes. The case `inspect-each-kind` has what is read of it, and its faults; `plan-info` has its bytes
//! as they are sent.

use ttx_info::{Info, read_info};
use ttx_links::Target;

// Initial page 100/3F7F, network 12 34, two half hours, MJD 46000, UTC 12:30:45, and TEST.
pub(crate) const SENT: [u8; 42] = [
    0x15, 0xea, 0x15, 0x15, 0x15, 0xea, 0xea, 0xea, 0x5e, 0x12, 0x34, 0x85, 0x05, 0x71, 0x11, 0x23,
    0x41, 0x56, 0x00, 0x00, 0x00, 0x00, 0x54, 0x45, 0xd3, 0x54, 0x20, 0x20, 0x20, 0x20, 0x20, 0x20,
    0x20, 0x20, 0x20, 0x20, 0x20, 0x20, 0x20, 0x20, 0x20, 0x20,
];

// Bytes with other values in bits that are not read.
static IGNORED: [(usize, u8); 4] = [(11, 0x04), (12, 0xf5), (18, 0xff), (0, 0x00)];

fn info() -> Option<Info> {
    let initial = Target::new(1, 0x00, 0x3f7f);
    let text = *b"TEST                ";
    Info::new(0, initial, [0x12, 0x34], 2, false, 46_000, 123_045, text)
}

// What is read if byte `at` is another.
fn read_with(at: usize, byte: u8) -> Option<Info> {
    let mut bytes = SENT;
    if at < 42 {
        bytes[at] = byte;
    }
    read_info(&bytes).ok()
}

#[test]
fn ignored_bits(rt: HostRuntime) {
    for (at, byte) in &IGNORED {
        assert!(rt; read_with(*at, *byte) == info(), "byte {at}");
    }
}
