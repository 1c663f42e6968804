//! Why a command fails.

use std::alloc::AllocError;
use ttx_counter::CounterFault;
use ttx_extract::ExtractFault;
use ttx_files::{FeedFault, FilesFault};
use ttx_plan::PlanFault;

/// Why the text of a counter-run isn't read.
#[derive(Clone, Copy)]
pub enum CounterFileFault {
    /// A read failed.
    Read,
    /// The text is longer than 4,194,304 bytes.
    TooLong,
    /// The text isn't that of a counter-run.
    Text(CounterFault),
}

/// Why a command fails. The faults are numbered: 1 to 7 those of `FilesFault`, 8 `Plan`, 9 `Class`, 10 `Same`, 11 `Counter`, 12 `Feed`.
#[derive(Clone, Copy)]
pub enum ToolFault {
    /// 1 to 7. A file isn't read or written, or a growth was refused. After `Write` exactly the first `written` bytes of all that a
    /// command writes went out; where it writes a file, the file's bytes come before those of the output. Where lines are written while a
    /// feed comes, `written` counts the bytes of the latest lines.
    Files(FilesFault),
    /// 8. There is no plan.
    Plan(PlanFault),
    /// 9. The certificate is for receivers that surely clear, to which there are no counter-runs.
    Class,
    /// 10. The file to write is one of the inputs.
    Same,
    /// 11. The text of a counter-run isn't read.
    Counter(CounterFileFault),
    /// 12. A read of a feed failed.
    Feed,
}

impl From<AllocError> for ToolFault {
    ghost use Rattle.std.specs.Prelude.{◌≡◌};
    ghost use Rattle.ttx_files.specs.declared.faults.FilesFault.TheVariants.{NoMemory};
    ghost use Rattle.ttx_faults.specs.declared.faults.ToolFault.TheVariants.{Files};

    ghost from_gives = { λ fault tool. tool ≡ Files NoMemory };

    fn from(_fault: AllocError) -> ToolFault {
        ToolFault::Files(FilesFault::NoMemory)
    }
}

impl From<FeedFault> for ToolFault {
    ghost use Rattle.std.specs.Prelude.{◌≡◌};
    ghost use Rattle.ttx_faults.specs.Feeds.{of_feed};

    ghost from_gives = { λ fault tool. tool ≡ of_feed fault };

    fn from(fault: FeedFault) -> ToolFault {
        match fault {
            FeedFault::Read => ToolFault::Feed,
            FeedFault::NoMemory => ToolFault::Files(FilesFault::NoMemory),
        }
    }
}

impl From<FilesFault> for ToolFault {
    ghost use Rattle.std.specs.Prelude.{◌≡◌};
    ghost use Rattle.ttx_faults.specs.declared.faults.ToolFault.TheVariants.{Files};

    ghost from_gives = { λ fault tool. tool ≡ Files fault };

    fn from(fault: FilesFault) -> ToolFault {
        ToolFault::Files(fault)
    }
}

/// Why `extract` writes nothing. The refusals of a cycle stand apart from all other faults.
#[derive(Clone, Copy)]
pub enum ExtractionFault {
    /// The cycle isn't read, a write failed, or a growth was refused.
    Tool(ToolFault),
    /// The cycle has no service text.
    Refused(ExtractFault),
}

/// Why nothing is sent, found before an input is opened.
#[derive(Clone, Copy)]
pub enum AirRefusal {
    /// A text names no time on the air, or the machine's clock cannot be read.
    Time,
    /// There is no time zone of this name.
    Zone,
    /// Packets would go to a terminal.
    Terminal,
}
