//! Files that are certified through devices that fail.

use crate::base::{self, SERVICE, certificate_text};
use std::alloc::Global;
use std::test::Fail;
use ttx_certify::{FilesFault, TextFile, Verdict, certify_files};
use ttx_cycle::Counted;
use ttx_cycle::faulty::{Failure, FaultyReader, FaultyWriter};

// At which call the reader of the service fails, how a writer of seven bytes a call fails, and how many bytes of the line go out.
static FAILURES: [(Option<u64>, Option<Failure>, usize); 4] = [
    (None, None, 41),
    (None, Some(Failure::Error { at: 2 }), 7),
    (None, Some(Failure::Nothing { at: 2 }), 7),
    (Some(1), None, 0),
];

// What is returned for the worked cycle, and how many bytes of the room are written.
fn certified(
    alloc: Global,
    files: [&[u8]; 2],
    service_at: Option<u64>,
    failure: Option<Failure>,
    room: &mut [u8],
) -> (Result<Verdict, FilesFault>, usize) {
    let [cycle, certificate] = files;
    let mut cycle = Counted::new(FaultyReader::new(cycle, 41, None));
    let mut service = Counted::new(FaultyReader::new(SERVICE, 9, service_at));
    let mut certificate = Counted::new(FaultyReader::new(certificate, 10, None));
    let mut writer = Counted::new(FaultyWriter::new(room, 7, failure));
    let answer = certify_files(
        alloc,
        &mut cycle,
        &mut service,
        &mut certificate,
        &mut writer,
    );
    (answer, writer.get_ref().taken().len())
}

// Whether the answer is that of so many written bytes.
fn is_told(answer: &Result<Verdict, FilesFault>, count: usize) -> bool {
    match answer {
        Ok(Verdict::Yes) => count == 41,
        Err(FilesFault::Write { written }) => *written == count && count == 7,
        Err(
            FilesFault::Read {
                which: TextFile::Service,
            },
        ) => count == 0,
        _ => false,
    }
}

#[test]
fn certified_through_devices_that_fail(rt: HostRuntime) -> Result<(), Fail> {
    let slots = base::slots(rt.alloc())?;
    let text = certificate_text(rt.alloc(), 27)?;
    let line = b"yes lines 2 repeat 1 deadline 27 pages 1\n";
    for (service_at, failure, count) in &FAILURES {
        let mut room = [0; 100];
        let files = [slots.as_slice().as_flattened(), text.as_bytes()];
        let (answer, written) = certified(rt.alloc(), files, *service_at, *failure, &mut room);
        assert!(rt; is_told(&answer, *count) && written == *count, "{count}");
        assert!(rt; room.get(..*count) == line.get(..*count), "{count}");
    }
    Ok(())
}
