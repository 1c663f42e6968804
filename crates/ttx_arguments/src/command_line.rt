//! From the arguments of the program to an order.

ghost use Rattle.std.specs.Prelude.{◌≡◌, [], true, IfOk, IfErr, Some, Result, is_some, map, option_map};
ghost use Rattle.clap.specs.Words.{rows_of, found_of, subcommand_rows_of, subcommand_of, fault_of};
ghost use Rattle.ttx_arguments.specs.Grammar.{ttx_app};
ghost use Rattle.ttx_arguments.specs.Orders.{OrderView, Unfit, order_by, order_at, once, IsOrderOf, AnswersBy, Answers, IsFaultOf};
ghost use Rattle.ttx_arguments.specs.Orders.{IsRefusalOf, IsSettled};
ghost use Rattle.ttx_arguments.specs.Arguments.{named_in, command_named};

use crate::airings::air_of;
use crate::command_names::{COMMANDS, CommandName};
use crate::commands::{
    book_of, certify_of, check_of, compose_of, decompose_of, explain_of, extract_of, find_of,
    inspect_of, is_twice, monitor_of, pages_of, plan_of, preview_of, receive_of, refute_of,
    replay_of, report_of, send_of, show_of, splice_of, wait_of,
};
use crate::conflicts::conflict_of;
use crate::grammar::{Names, option_names, ttx};
use crate::orders::{Order, WordsFault};
use clap::ArgMatches;
use clap::error::ErrorKind;
use std::alloc::Global;

// The first of these commands that has this name, or `inspect`.
fn named<'a>(commands: &[CommandName], name: &'a str) -> CommandName
    ensures { result ≡ named_in name.now commands.now }
{
    for command in commands {
        let own: &'a str = command.name();
        if name == own {
            return *command;
        }
    }
    CommandName::Inspect
}

// The command of this name; `clap` takes no others.
fn command_of(name: &str) -> CommandName
    ensures { result ≡ command_named name.now }
{
    named(COMMANDS.as_slice(), name)
}

// The order of a command with its values.
fn order_by<'a>(command: CommandName, values: &ArgMatches<'a>) -> Result<Order<'a>, WordsFault>
    ensures { IsOrderOf result (order_by command (rows_of (found_of values.now))) }
{
    match command {
        CommandName::Inspect => Ok(inspect_of(values)),
        CommandName::Plan => Ok(plan_of(values)),
        CommandName::Find => find_of(values),
        CommandName::Certify => certify_of(values),
        CommandName::Refute => Ok(refute_of(values)),
        CommandName::Replay => Ok(replay_of(values)),
        CommandName::Receive => receive_of(values),
        CommandName::Show => show_of(values),
        CommandName::Preview => preview_of(values),
        CommandName::Splice => Ok(splice_of(values)),
        CommandName::Wait => Ok(wait_of(values)),
        CommandName::Send => send_of(values),
        CommandName::Monitor => Ok(monitor_of(values)),
        CommandName::Pages => Ok(pages_of(values)),
        CommandName::Book => Ok(book_of(values)),
        CommandName::Extract => Ok(extract_of(values)),
        CommandName::Check => Ok(check_of(values)),
        CommandName::Version => Ok(Order::Version),
        CommandName::Air => air_of(values),
        CommandName::Compose => Ok(compose_of(values)),
        CommandName::Decompose => Ok(decompose_of(values)),
        CommandName::Report => Ok(report_of(values)),
        CommandName::Explain => Ok(explain_of(values)),
    }
}

// The same. Only one input may be standard input, and no two arguments may be in conflict.
fn once<'a>(command: CommandName, values: &ArgMatches<'a>) -> Result<Order<'a>, WordsFault>
    ensures { IsOrderOf result (once command (rows_of (found_of values.now))) }
{
    if is_twice(command, values) {
        return Err(WordsFault::Twice);
    }
    match conflict_of(command, values) {
        None => order_by(command, values),
        Some(conflict) => Err(WordsFault::Apart(conflict)),
    }
}

// The order of the command of this name.
#[tactic(auto, unfolding(crate::specs::Orders::order_at))]
fn order_of<'a>(name: &str, values: &ArgMatches<'a>) -> Result<Order<'a>, WordsFault>
    ensures { IsOrderOf result (order_at name.now (rows_of (found_of values.now))) }
{
    once(command_of(name), values)
}

// The order that the matches stand for.
fn chosen<'a>(matches: &ArgMatches<'a>) -> Result<Order<'a>, WordsFault>
    requires { is_some (subcommand_rows_of matches.now) ≡ true }
    ensures { (answer : Result OrderView Unfit) × (option_map (λ p. order_at p.0 p.1) (subcommand_rows_of matches.now) ≡ Some answer)
        × IsOrderOf result answer }
{
    let (name, values) = matches.subcommand().unwrap();
    order_of(name, values)
}

// Lack of memory has its own name.
fn fault(error: clap::Error) -> WordsFault
    ensures { IsFaultOf result error }
{
    match error.kind() {
        ErrorKind::OutOfMemory => WordsFault::NoMemory,
        _ => WordsFault::Refused(error),
    }
}

// The result of `clap`.
fn parsed<'a>(
    alloc: Global,
    names: Names<'a>,
    words: &'a [&'a str],
) -> Result<ArgMatches<'a>, WordsFault>
    ensures rows { IfOk result (λ m. subcommand_rows_of m ≡ subcommand_of (ttx_app names.entry) (map (λ w. w.now) words.entry.now)) }
    ensures no_fault { IfOk result (λ _. fault_of (ttx_app names.entry) (map (λ w. w.now) words.entry.now) ≡ []) }
    ensures refused { IfErr result (λ e. IsRefusalOf e (fault_of (ttx_app names.entry) (map (λ w. w.now) words.entry.now))) }
{
    let command = match ttx(alloc, names) {
        Ok(command) => command,
        Err(_) => return Err(WordsFault::NoMemory),
    };
    match command.try_get_matches_from(words) {
        Ok(matches) => Ok(matches),
        Err(error) => Err(fault(error)),
    }
}

// `--version` is an order. Everything else that `clap` refuses stays refused.
fn settled<'a>(fault: WordsFault) -> Result<Order<'a>, WordsFault>
    ensures { IsSettled fault result }
{
    match fault {
        WordsFault::Refused(error) => match error.kind() {
            ErrorKind::DisplayVersion => Ok(Order::Version),
            _ => Err(WordsFault::Refused(error)),
        },
        fault => Err(fault),
    }
}

// The order of the words.
fn asked<'a>(alloc: Global, names: Names<'a>, words: &'a [&'a str]) -> Result<Order<'a>, WordsFault>
    ensures { AnswersBy (ttx_app names.entry) (map (λ w. w.now) words.entry.now) result }
{
    if words.is_empty() {
        return Ok(Order::Inspect { file: "-" });
    }
    match parsed(alloc, names, words) {
        Ok(matches) => chosen(&matches),
        Err(fault) => settled(fault),
    }
}

/// The order that the words after the program's name ask for. No words at all are `inspect -`.
pub fn words<'a>(alloc: Global, words: &'a [&'a str]) -> Result<Order<'a>, WordsFault>
    ensures { Answers (map (λ w. w.now) words.entry.now) result }
{
    asked(alloc, option_names(), words)
}
