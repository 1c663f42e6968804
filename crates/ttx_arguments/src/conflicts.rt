//! Arguments of a command that cannot be combined.

ghost use Rattle.std.specs.Prelude.{◌≡◌, ◌++◌, IfOk, OnOk, string_bytes};
ghost use Rattle.clap.specs.Words.{rows_of, found_of};
ghost use Rattle.ttx_arguments.specs.Conflicts as rule;
ghost use Rattle.ttx_arguments.specs.Conflicts.{conflicts_of, conflict_in, conflict_at, label_of, conflict_line};

use crate::arguments::{Argument, Takes};
use crate::command_names::CommandName;
use crate::values::{given, is_set};
use clap::ArgMatches;
use std::alloc::{AllocError, Global};

/// Two arguments of which at most one is given.
#[derive(Clone, Copy)]
pub struct Conflict {
    pub one: Argument,
    pub other: Argument,
}

// The conflicts of a command.
#[rattlefmt::skip]
fn conflicts<'a>(command: CommandName) -> &'a [Conflict]
    ensures { result.now ≡ conflicts_of command }
{
    match command {
        CommandName::Certify => &[
            Conflict { one: Argument::CertifyAll, other: Argument::Late },
            Conflict { one: Argument::CertifyAll, other: Argument::Numbers },
            Conflict { one: Argument::CertifyAll, other: Argument::Twice },
            Conflict { one: Argument::CertifyAll, other: Argument::Within },
        ],
        CommandName::Monitor => &[
            Conflict { one: Argument::Rows, other: Argument::MonitorAll },
            Conflict { one: Argument::Rows, other: Argument::Every },
        ],
        CommandName::Check => &[Conflict { one: Argument::Json, other: Argument::Long }],
        CommandName::Preview => &[Conflict { one: Argument::PreviewAll, other: Argument::SomePage }],
        CommandName::Air => &[
            Conflict { one: Argument::AirLate, other: Argument::AtOnce },
            Conflict { one: Argument::AirReplay, other: Argument::AirWithin },
            Conflict { one: Argument::AirReplay, other: Argument::Repeat },
            Conflict { one: Argument::AirReplay, other: Argument::AirAt },
            Conflict { one: Argument::AirReplay, other: Argument::Zone },
            Conflict { one: Argument::AirReplay, other: Argument::Offset },
            Conflict { one: Argument::AirReplay, other: Argument::AirFields },
            Conflict { one: Argument::AirReplay, other: Argument::AirLate },
            Conflict { one: Argument::AirReplay, other: Argument::AtOnce },
            Conflict { one: Argument::AirReplay, other: Argument::Spread },
            Conflict { one: Argument::AirReplay, other: Argument::AirLog },
        ],
        _ => &[],
    }
}

// Whether an argument is given.
fn is_there(values: &ArgMatches<'_>, argument: Argument) -> bool
    ensures { result ≡ rule.is_there argument (rows_of (found_of values.now)) }
{
    match argument.takes() {
        Takes::Nothing => is_set(values, argument),
        _ => given(values, argument).is_some(),
    }
}

fn is_met(values: &ArgMatches<'_>, conflict: Conflict) -> bool
    ensures { result ≡ rule.is_met conflict (rows_of (found_of values.now)) }
{
    is_there(values, conflict.one) && is_there(values, conflict.other)
}

// The first of these conflicts that is met.
fn first_met(values: &ArgMatches<'_>, conflicts: &[Conflict]) -> Option<Conflict>
    ensures { result ≡ conflict_in conflicts.now (rows_of (found_of values.now)) }
{
    for conflict in conflicts {
        if is_met(values, *conflict) {
            return Some(*conflict);
        }
    }
    None
}

/// The first two given arguments of a command that cannot be combined.
pub(crate) fn conflict_of(command: CommandName, values: &ArgMatches<'_>) -> Option<Conflict>
    ensures { result ≡ conflict_at command (rows_of (found_of values.now)) }
{
    first_met(values, conflicts(command))
}

// Appends an option as it is written, or PAGE.
fn push_label(text: &mut String, argument: Argument) -> Result<(), AllocError>
    ensures { OnOk result (string_bytes text.new ≡ string_bytes text.old ++ label_of argument) }
{
    match argument {
        Argument::SomePage => text.push_str("PAGE"),
        _ => {
            text.push_str("--")?;
            text.push_str(argument.id())
        }
    }
}

/// The line that says which arguments cannot be combined, with its end of line. `Err` if memory runs out.
pub fn conflict_line(alloc: Global, conflict: Conflict) -> Result<String, AllocError>
    ensures { IfOk result (λ line. string_bytes line ≡ conflict_line conflict) }
{
    let mut line = String::from_str(alloc, "refused: ")?;
    push_label(&mut line, conflict.one)?;
    line.push_str(" with ")?;
    push_label(&mut line, conflict.other)?;
    line.push('\n')?;
    Ok(line)
}
