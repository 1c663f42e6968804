//! Page headers by their bytes.

use bitflags::Flags;
use ttx_header::{Control, Header, PageId, read_header, read_id, write_header};

// Control bits, magazine, page number and subcode, and the bytes that the header begins with.
#[rattlefmt::skip]
static HEADERS: [(u16, u8, u8, u16, [u8; 10]); 4] = [
    (0x7ff, 8, 0xef, 0x3f7f, [0x15, 0x15, 0xea, 0xfd, 0xea, 0xea, 0xea, 0xea, 0xea, 0xea]),
    (0x081, 1, 0x00, 0x0000, [0x02, 0x15, 0x15, 0x15, 0x15, 0xd0, 0x15, 0x15, 0x15, 0x02]),
    (0x080, 1, 0xff, 0x3f7f, [0x02, 0x15, 0xea, 0xea, 0xea, 0x2f, 0xea, 0x5e, 0x15, 0x02]),
    (0x480, 1, 0x00, 0x0000, [0x02, 0x15, 0x15, 0x15, 0x15, 0x15, 0x15, 0x15, 0x15, 0xc7]),
];

fn header(control: Control, mag: u8, page: u8, sub: u16) -> Option<Header> {
    match PageId::new(mag, page, sub) {
        Some(id) => Header::new(id, control, [0x20; 24], [0x20; 8]),
        None => None,
    }
}

#[test]
fn headers_by_their_bytes(rt: HostRuntime) {
    for (bits, mag, page, sub, first) in &HEADERS {
        let control = Control::from_bits_retain(*bits);
        assert!(rt; control.bits() == *bits);
        let Some(header) = header(control, *mag, *page, *sub) else {
            panic!(rt; "there is no header");
        };
        let mut bytes = write_header(&header);
        assert!(rt;
            bytes.starts_with(first) && bytes[10..] == [0x20; 32],
            "{bits}"
        );
        // one wrong bit is corrected
        bytes[5] = bytes[5] ^ 1;
        assert!(rt; read_header(&bytes) == Some(header), "{bits}");
        assert!(rt; read_id(&bytes) == Some((header.id(), control)), "{bits}");
    }
}
