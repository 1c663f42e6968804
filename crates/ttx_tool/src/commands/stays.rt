//! What is read of the text of a service with promises and stays.

ghost use Rattle.std.specs.Prelude.{◌∷◌, [], IfSome, codes};
ghost use Rattle.toml.specs.View.{table_view};
ghost use Rattle.ttx_cycle.specs.Counters.{inner_of};
ghost use Rattle.ttx_files.specs.Devices.{AtService};
ghost use Rattle.ttx_source.specs.Promises.{promises_of};
ghost use Rattle.ttx_source.specs.Services.{service_of};
ghost use Rattle.ttx_faults.specs.Devices.{Reads, read_from};
ghost use Rattle.ttx_tool.specs.SpreadPlans.{DefinesStaying, DefinesStayingBy, ReadsStaying};

use super::promised::{Promised, define_table};
use std::alloc::Global;
use std::io::Read;
use toml::Table;
use ttx_cycle::Counted;
use ttx_faults::ToolFault;
use ttx_files::{FilesFault, read_service_text};
use ttx_source::{Promise, SourceError, read_table, stays_of_table};

/// A service with its promises, and its stays.
#[derive(Drop)]
pub(super) struct Staying {
    pub promised: Promised,
    pub stays: Vec<Promise>,
}

// The service, the promises and the stays in the table of a text.
fn staying_table(alloc: Global, table: &Table) -> Result<Staying, SourceError>
    ensures { DefinesStayingBy (service_of (table_view table.now)) (promises_of (codes "within") (table_view table.now))
        (promises_of (codes "stays") (table_view table.now)) result }
{
    let promised = define_table(alloc, table)?;
    let stays = stays_of_table(alloc, table)?;
    Ok(Staying { promised, stays })
}

// The service, the promises and the stays of a text.
fn define_stays(alloc: Global, text: &[u8]) -> Result<Staying, SourceError>
    ensures { DefinesStaying text.now result }
{
    let table = read_table(alloc, text)?;
    staying_table(alloc, &table)
}

/// Reads the text of a service with its promises and its stays. A fault of the service comes before one of the promises, and this before
/// one of the stays.
pub(super) fn read_staying<R: Read>(
    alloc: Global,
    reader: &mut Counted<R>,
) -> Result<Staying, ToolFault>
    ensures bytes { IfSome (R.remaining (inner_of reader.old)) (λ bytes. ReadsStaying bytes result) }
    ensures faults { Reads (read_from AtService R.remaining reader.old reader.new ∷ []) result }
{
    let text = match read_service_text(alloc, reader) {
        Ok(text) => text,
        Err(fault) => return Err(ToolFault::Files(fault)),
    };
    match define_stays(alloc, text.as_slice()) {
        Ok(staying) => Ok(staying),
        Err(error) => Err(ToolFault::Files(FilesFault::Service(error))),
    }
}
