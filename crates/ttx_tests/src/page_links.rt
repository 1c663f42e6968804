//! A packet X/27/0 by its bytes.

use ttx_links::{Links, Target, links_are_exact, read_links};

// The link 205/3F7F and five times none, in magazine 1.
const SENT: [u8; 42] = [
    0xc7, 0xb6, 0x15, 0x73, 0x15, 0xea, 0xea, 0xea, 0x2f, 0xea, 0xea, 0xea, 0x2f, 0xea, 0x5e, 0xea,
    0xea, 0xea, 0x2f, 0xea, 0x5e, 0xea, 0xea, 0xea, 0x2f, 0xea, 0x5e, 0xea, 0xea, 0xea, 0x2f, 0xea,
    0x5e, 0xea, 0xea, 0xea, 0x2f, 0xea, 0x5e, 0x2f, 0x00, 0x00,
];

// Another byte at a place, and whether row 24 is shown. In the link of page FF and in the last byte some bits are not read.
static READ: [(usize, u8, bool); 5] = [
    (39, 0x2f, false),
    (39, 0xea, true),
    (39, 0x15, false),
    (12, 0xea, false),
    (14, 0xea, false),
];

// The packet with another byte at a place.
fn sent(at: usize, byte: u8) -> [u8; 42] {
    let mut bytes = SENT;
    if at < 42 {
        bytes[at] = byte;
    }
    bytes
}

fn one_link(show24: bool) -> Links {
    let link = Target::new(2, 0x05, 0x3f7f);
    Links::new([link, None, None, None, None, None], show24, [0, 0])
}

#[test]
fn links_of_a_page(rt: HostRuntime) {
    for (at, byte, show24) in &READ {
        assert!(rt;
            read_links(1, &sent(*at, *byte)) == Some(one_link(*show24)),
            "byte {at}"
        );
    }
    assert!(rt; read_links(1, &sent(39, 0x16)).is_none());
}

#[test]
fn links_byte_for_byte(rt: HostRuntime) {
    for (at, byte, show24) in &READ {
        assert!(rt;
            links_are_exact(1, &sent(*at, *byte), &one_link(*show24)),
            "byte {at}"
        );
    }
    // one wrong bit, another link, and the other answer about row 24
    assert!(rt; !links_are_exact(1, &sent(3, 0x72), &one_link(false)));
    assert!(rt; !links_are_exact(1, &sent(3, 0x64), &one_link(false)));
    assert!(rt; !links_are_exact(1, &SENT, &one_link(true)));
}
