//! Packet files of each length, devices that fail, and a counting writer above a buffer. tests/refused_calls.py shows what the commands
//! do if any call of `read` or `write` fails.

use crate::base;
use std::alloc::Global;
use std::io::{BufWriter, Write};
use std::test::Fail;
use ttx_cycle::faulty::{Failure, FaultyReader, FaultyWriter};
use ttx_cycle::{Counted, Cycle, CycleFault, read_cycle, write_cycle};

// How a writer of five bytes a call fails, if it does, at which call, and how many bytes of the worked cycle have gone out then.
static WRITINGS: [(Option<Failure>, u64, usize); 3] = [
    (Some(Failure::Error { at: 4 }), 4, 15),
    (Some(Failure::Nothing { at: 1 }), 1, 0),
    (None, 236, 1176),
];

// Whether the writing of a cycle ends so, and exactly its first bytes have gone out.
fn writes(cycle: &Cycle, failure: Option<Failure>, call: u64, count: usize) -> bool {
    let mut room = [0; 1200];
    let mut writer = Counted::new(FaultyWriter::new(&mut room, 5, failure));
    let is_told = match write_cycle(&mut writer, cycle) {
        Err(fault) => failure.is_some() && fault.written == count && writer.faults() == 1,
        Ok(()) => failure.is_none() && writer.faults() == 0,
    };
    let is_called = writer.calls() == call;
    let inner = writer.into_inner();
    let wanted = cycle.slots().as_flattened().get(..count);
    is_told && is_called && wanted == Some(inner.taken())
}

#[test]
fn written_in_pieces(rt: HostRuntime) -> Result<(), Fail> {
    let Some(cycle) = Cycle::of(base::slots(rt.alloc())?) else {
        panic!(rt; "there is no cycle");
    };
    for (failure, call, count) in &WRITINGS {
        assert!(rt; writes(&cycle, *failure, *call, *count), "call {call}");
    }
    Ok(())
}

// Whether bytes of the worked cycle are read as its whole slots, or refused because bytes are left over or there is no slot.
fn is_read(alloc: Global, bytes: &[u8], piece: usize) -> bool {
    let mut reader = Counted::new(FaultyReader::new(bytes, piece, None));
    match read_cycle(alloc, &mut reader) {
        Ok(cycle) => cycle.slots().as_flattened() == bytes,
        Err(CycleFault::Truncated { rest }) => 0 < rest && rest < 42 && rest == bytes.len() % 42,
        Err(CycleFault::Empty) => bytes.is_empty(),
        Err(_) => false,
    }
}

#[test]
fn read_in_pieces(rt: HostRuntime) -> Result<(), Fail> {
    let slots = base::slots(rt.alloc())?;
    let bytes = slots.as_slice().as_flattened();
    assert!(rt; bytes.len() == 1176);
    for count in 0..=bytes.len() {
        for piece in 1..44usize {
            assert!(rt;
                is_read(rt.alloc(), &bytes[..count], piece),
                "{count} bytes by {piece}"
            );
        }
    }
    Ok(())
}

// Whether a packet file of two slots is refused if its second slot cannot be read.
fn is_refused(alloc: Global) -> bool {
    let mut reader = Counted::new(FaultyReader::new(&[0x20; 84], 42, Some(2)));
    matches!(read_cycle(alloc, &mut reader), Err(CycleFault::Read)) && reader.calls() == 2
}

#[test]
fn a_reader_that_fails(rt: HostRuntime) {
    assert!(rt; is_refused(rt.alloc()));
}

// Whether a writer takes all of these bytes.
fn takes<W: Write>(writer: &mut W, bytes: &[u8]) -> bool {
    matches!(writer.write(bytes), Ok(taken) if taken == bytes.len())
}

// Whether what a buffer above a slice has taken reaches the slice when it is flushed, and not before.
fn is_flushed(alloc: Global, room: &mut [u8]) -> bool {
    let Ok(buffer) = BufWriter::new(alloc, FaultyWriter::new(room, 9, None)) else {
        return false;
    };
    let mut writer = Counted::new(buffer);
    takes(&mut writer, b"abc")
        && writer.get_ref().get_ref().taken().is_empty()
        && writer.flush().is_ok()
        && writer.get_ref().get_ref().taken() == b"abc".as_slice()
}

#[test]
fn flush_reaches_the_inner_writer(rt: HostRuntime) {
    assert!(rt; is_flushed(rt.alloc(), &mut [0; 3]));
}
