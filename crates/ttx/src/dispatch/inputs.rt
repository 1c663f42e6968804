//! The opened inputs of a command.

use crate::devices::{Input, open_input};
use crate::reports::told;
use std::io;
use std::io::BufReader;
use ttx_cycle::Counted;
use ttx_files::FilesFault;
use ttx_kinds::Place;
use ttx_recognition::Recorded;
use ttx_tool::ToolFault;

// What inputs are read through: the first bytes are kept.
type Source = Recorded<BufReader<Input>>;

/// A reader of an input, of which the first bytes are kept.
pub type RecordedInput = Counted<Source>;

/// A buffered reader of an input.
pub fn buffered(rt: &HostRuntime, input: Input) -> Result<Counted<BufReader<Input>>, ToolFault> {
    match BufReader::new(rt.alloc(), input) {
        Ok(reader) => Ok(Counted::new(reader)),
        Err(_) => Err(ToolFault::Files(FilesFault::NoMemory)),
    }
}

/// A buffered reader of an input, which keeps the first bytes that are read through it.
pub fn recorded(rt: &HostRuntime, input: Input) -> Result<RecordedInput, ToolFault> {
    Ok(Counted::new(Recorded::new(buffered(rt, input)?.into_inner())))
}

/// The readers of a cycle and of the service that it is to send.
#[derive(Drop)]
pub struct SentServiceReaders {
    pub cycle: RecordedInput,
    pub service: RecordedInput,
}

impl SentServiceReaders {
    /// The status of a command on both; says which of them is of another kind than its place takes.
    pub fn told(&self, rt: &HostRuntime, status: u8) -> u8 {
        let status = told(rt, Place::Cycle, self.cycle.get_ref().kept(), status);
        told(rt, Place::Service, self.service.get_ref().kept(), status)
    }
}

/// A cycle, and the service that it is to send.
#[derive(Drop)]
pub struct SentService {
    pub cycle: Input,
    pub service: Input,
}

impl SentService {
    /// Opens both, the cycle first.
    pub fn open(rt: &HostRuntime, cycle: &str, service: &str) -> io::Result<SentService> {
        let cycle = open_input(rt, cycle)?;
        let service = open_input(rt, service)?;
        Ok(SentService { cycle, service })
    }

    /// Buffered readers of both.
    pub fn readers(self, rt: &HostRuntime) -> Result<SentServiceReaders, ToolFault> {
        let cycle = recorded(rt, self.cycle)?;
        let service = recorded(rt, self.service)?;
        Ok(SentServiceReaders { cycle, service })
    }
}

/// The readers of a claim.
#[derive(Drop)]
pub struct ClaimReaders {
    pub cycle: RecordedInput,
    pub service: RecordedInput,
    pub text: RecordedInput,
}

impl ClaimReaders {
    /// The status of a command on the three, of which the text is a certificate; says which of them is of another kind than its place takes.
    pub fn told(&self, rt: &HostRuntime, status: u8) -> u8 {
        let status = told(rt, Place::Cycle, self.cycle.get_ref().kept(), status);
        let status = told(rt, Place::Service, self.service.get_ref().kept(), status);
        told(rt, Place::Certificate, self.text.get_ref().kept(), status)
    }
}

/// A cycle, the service that it is to send, and a third text on both: a certificate, or a counter-run.
#[derive(Drop)]
pub struct Claim {
    pub cycle: Input,
    pub service: Input,
    pub text: Input,
}

impl Claim {
    /// Opens the three, in this order.
    pub fn open(rt: &HostRuntime, cycle: &str, service: &str, text: &str) -> io::Result<Claim> {
        let cycle = open_input(rt, cycle)?;
        let service = open_input(rt, service)?;
        let text = open_input(rt, text)?;
        Ok(Claim {
            cycle,
            service,
            text,
        })
    }

    /// Buffered readers of the three.
    pub fn readers(self, rt: &HostRuntime) -> Result<ClaimReaders, ToolFault> {
        let cycle = recorded(rt, self.cycle)?;
        let service = recorded(rt, self.service)?;
        let text = recorded(rt, self.text)?;
        Ok(ClaimReaders {
            cycle,
            service,
            text,
        })
    }

    /// Buffered readers of the three, where the third is a certificate.
    pub fn claim(
        self,
        rt: &HostRuntime,
    ) -> Result<ttx_tool::Claim<Source, Source, Source>, ToolFault> {
        let readers = self.readers(rt)?;
        Ok(ttx_tool::Claim {
            cycle: readers.cycle,
            service: readers.service,
            certificate: readers.text,
        })
    }
}
