//! What is read of the text of a service with promises, alone and after a packet file.

ghost use Rattle.std.specs.Prelude.{◌∷◌, [], IfSome, codes};
ghost use Rattle.toml.specs.View.{table_view};
ghost use Rattle.ttx_cycle.specs.Counters.{inner_of};
ghost use Rattle.ttx_files.specs.Devices.{AtCycle, AtService};
ghost use Rattle.ttx_source.specs.Promises.{promises_of};
ghost use Rattle.ttx_source.specs.Services.{service_of};
ghost use Rattle.ttx_faults.specs.Devices.{Reads, read_from};
ghost use Rattle.ttx_tool.specs.Promised.{DefinesBy, DefinesPromised, ReadsDefined, ReadsPromisedInputs};

use std::alloc::Global;
use std::io::Read;
use toml::Table;
use ttx_cycle::{Counted, Cycle};
use ttx_faults::ToolFault;
use ttx_files::{FilesFault, read_packets, read_service_text};
use ttx_source::{Promise, Service, SourceError, promises_of_table, read_table, service_of_table};

/// A service, and its promises.
#[derive(Drop)]
pub(super) struct Promised {
    pub service: Service,
    pub promises: Vec<Promise>,
}

/// A service with its promises, and its text.
#[derive(Drop)]
pub(super) struct Defined {
    pub promised: Promised,
    pub text: Vec<u8>,
}

/// A cycle, and a service with its promises.
#[derive(Drop)]
pub(super) struct PromisedInputs {
    pub cycle: Cycle,
    pub promised: Promised,
}

/// The service and the promises in the table of a text.
pub(super) fn define_table(alloc: Global, table: &Table) -> Result<Promised, SourceError>
    ensures { DefinesBy (service_of (table_view table.now)) (promises_of (codes "within") (table_view table.now)) result }
{
    let service = service_of_table(alloc, table)?;
    let promises = promises_of_table(alloc, table)?;
    Ok(Promised { service, promises })
}

// The service and the promises of a text.
fn define(alloc: Global, text: &[u8]) -> Result<Promised, SourceError>
    ensures { DefinesPromised text.now result }
{
    let table = read_table(alloc, text)?;
    define_table(alloc, &table)
}

/// Reads the text of a service with its promises. A fault of the service comes before one of the promises.
pub(super) fn read_defined<R: Read>(
    alloc: Global,
    reader: &mut Counted<R>,
) -> Result<Defined, ToolFault>
    ensures bytes { IfSome (R.remaining (inner_of reader.old)) (λ bytes. ReadsDefined bytes result) }
    ensures faults { Reads (read_from AtService R.remaining reader.old reader.new ∷ []) result }
{
    let text = match read_service_text(alloc, reader) {
        Ok(text) => text,
        Err(fault) => return Err(ToolFault::Files(fault)),
    };
    match define(alloc, text.as_slice()) {
        Ok(promised) => Ok(Defined { promised, text }),
        Err(error) => Err(ToolFault::Files(FilesFault::Service(error))),
    }
}

/// Reads a packet file and the text of a service with its promises, in this order.
pub(super) fn read_promised_inputs<A: Read, B: Read>(
    alloc: Global,
    cycle: &mut Counted<A>,
    service: &mut Counted<B>,
) -> Result<PromisedInputs, ToolFault>
    ensures bytes { IfSome (A.remaining (inner_of cycle.old))
        (λ a. IfSome (B.remaining (inner_of service.old)) (λ b. ReadsPromisedInputs a b result)) }
    ensures faults { Reads (read_from AtCycle A.remaining cycle.old cycle.new ∷ read_from AtService B.remaining service.old service.new ∷ []) result }
{
    let cycle = read_packets(alloc, cycle)?;
    match read_defined(alloc, service) {
        Ok(Defined { promised, text: _ }) => Ok(PromisedInputs { cycle, promised }),
        Err(fault) => Err(fault),
    }
}
