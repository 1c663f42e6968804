//! Slots with the time of a moment.

use crate::base::{HEADER, beginning};
use crate::service_packets::SENT;
use ttx_send::{Moment, timed};

// MJD 46000, 12:30:45 UTC, and a clock an hour ahead: 13:30:45 in odd parity.
const CLOCK: [u8; 8] = [0x31, 0xb3, 0xba, 0xb3, 0xb0, 0xba, 0x34, 0xb5];

#[test]
fn slots_at_a_moment(rt: HostRuntime) {
    let Some(moment) = Moment::new(46_000, 45_045, 3_600) else {
        panic!(rt; "there is no moment");
    };
    let mut header = beginning(&HEADER);
    let is_timed = timed(&header, moment);
    header[34..].copy_from_slice(&CLOCK);
    assert!(rt; is_timed == header);
    // the packet 8/30 of this date and time, sent with another one
    let mut info = SENT;
    info[12..18].copy_from_slice(&[0x01, 0x11, 0x11, 0x11, 0x11, 0x11]);
    assert!(rt; timed(&info, moment) == SENT);
}
