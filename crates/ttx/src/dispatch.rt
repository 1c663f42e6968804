//! Runs an order: opens what it names, and gives it to its command.

mod air_replays;
mod airs;
mod certificates;
mod counter_runs;
mod cycles;
mod desks;
mod feeds;
mod inputs;
mod screens;
mod sends;
mod services;
mod splices;
mod zones;

use crate::reports::status_of;
use std::io;
use ttx_arguments::Order;
use ttx_cycle::Counted;
use ttx_reasons::REASONS;
use ttx_tool::{ToolFault, commands};

// The status of a command, whose fault has been reported. An error is that of a file that cannot be opened, or memory ran out.
type Outcome = io::Result<u8>;

// Writes the version, the kit and the logic.
fn version(rt: &HostRuntime) -> Result<u8, ToolFault> {
    let mut writer = Counted::new(io::writer(rt));
    commands::version::run(&mut writer).map(|()| 0)
}

// Explains a reason. If a word is not one, standard error gets the nearest reason.
fn explain(rt: &HostRuntime, reason: &str) -> Result<u8, ToolFault> {
    let mut writer = Counted::new(io::writer(rt));
    let mut errors = Counted::new(rt.stderr());
    commands::explain::run(rt.alloc(), &REASONS, reason, &mut writer, &mut errors)
}

/// Opens the inputs in the order of the arguments, makes the output file anew unless it is an input, and runs the command. An
/// error is that of a file that cannot be opened, or memory ran out.
pub fn run_order(rt: &HostRuntime, order: &Order<'_>) -> Outcome {
    match order {
        Order::Inspect { file } => cycles::inspect(rt, file),
        Order::Plan(order) => services::plan(rt, order),
        Order::Find(order) => certificates::find(rt, order),
        Order::Certify(order) => certificates::certify(rt, order),
        Order::Refute(order) => counter_runs::refute(rt, order),
        Order::Replay(order) => counter_runs::replay(rt, order),
        Order::Receive { cycle, tuning } => screens::receive(rt, cycle, tuning),
        Order::Show {
            cycle,
            tuning,
            look,
        } => screens::show(rt, cycle, tuning, look),
        Order::Preview {
            service,
            selection,
            look,
        } => screens::preview(rt, service, selection, look),
        Order::PreviewAll { service, look } => screens::preview_all(rt, service, look),
        Order::Splice(order) => splices::splice(rt, order),
        Order::Wait(order) => certificates::wait(rt, order),
        Order::Send(order) => sends::send(rt, order),
        Order::Air(order) => airs::air(rt, order),
        Order::AirReplay(order) => air_replays::replay_air(rt, order),
        Order::Report(order) => certificates::report_on(rt, order),
        Order::Compose { author, out } => desks::compose(rt, author, out),
        Order::Decompose { service, out } => desks::decompose(rt, service, out),
        Order::Explain { reason } => Ok(status_of(rt, explain(rt, reason))),
        Order::Monitor(order) => feeds::monitor(rt, order),
        Order::Pages { cycle, json } => cycles::pages(rt, cycle, *json),
        Order::Book { cycle, out } => cycles::book(rt, cycle, out),
        Order::Extract {
            cycle,
            out,
            lines,
            partial,
        } => cycles::extract(rt, cycle, out, lines, *partial),
        Order::Check(order) => services::check(rt, order),
        Order::Version => Ok(status_of(rt, version(rt))),
    }
}
