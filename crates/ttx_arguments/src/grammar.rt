//! The commands and their arguments, as `clap` reads them.

ghost use Rattle.std.specs.Prelude.{◌≡◌, false};
ghost use Rattle.clap.specs.Words.{rule_of, new_app};
ghost use Rattle.ttx_arguments.specs.Grammar as rule;
ghost use Rattle.ttx_arguments.specs.Grammar.{AreNames, HasNames, IsBuiltAs, Builds, bare_app, ttx_app};
ghost use Rattle.ttx_arguments.specs.Grammar.{parser_taking, option_rule, rule_of_argument, app_of_command, with_commands};
ghost use Rattle.ttx_arguments.specs.Arguments.{id_of, is_needed, name_of};

use crate::arguments::{Argument, Takes};
use crate::command_names::{COMMANDS, CommandName};
use crate::help;
use clap::builder::ValueParser;
use clap::{Arg, ArgAction, Command};
use std::alloc::{AllocError, Global};

// A command, unless memory runs out.
type Building<'a> = Result<Command<'a>, AllocError>;

/// The names that `--kind`, `--class` and `--as` take, also that of `replay`.
#[derive(Clone, Copy)]
pub struct Names<'a> {
    pub kinds: &'a [&'a str],
    pub classes: &'a [&'a str],
    pub forms: &'a [&'a str],
    pub replays: &'a [&'a str],
}

// What the value of an option has to be.
fn parser_of<'a>(takes: Takes, names: Names<'a>) -> Option<ValueParser<'a>>
    ensures { result ≡ parser_taking names.entry takes }
{
    match takes {
        Takes::Number(low, high) => Some(ValueParser::unsigned(low, high)),
        Takes::HalfHours => Some(ValueParser::signed(-24, 47)),
        Takes::Kind => Some(ValueParser::Names(names.kinds)),
        Takes::Class => Some(ValueParser::Names(names.classes)),
        Takes::Form => Some(ValueParser::Names(names.forms)),
        Takes::ReplayForm => Some(ValueParser::Names(names.replays)),
        _ => None,
    }
}

// An option with a value.
fn option_of<'a>(alloc: Global, argument: Argument, parser: Option<ValueParser<'a>>) -> Arg<'a>
    ensures rule { rule_of result ≡ option_rule (id_of argument) (is_needed argument) parser.entry }
    ensures local { result.global ≡ false }
{
    let id = argument.id();
    let option = Arg::new(alloc, id)
        .long(id)
        .value_name(argument.value_name())
        .help(argument.help())
        .required(argument.is_needed());
    match parser {
        Some(parser) => option.value_parser(parser),
        None => option,
    }
}

// An argument as `clap` reads it.
fn argument_of<'a>(alloc: Global, argument: Argument, names: Names<'a>) -> Arg<'a>
    ensures rule { rule_of result ≡ rule_of_argument names.entry argument }
    ensures local { result.global ≡ false }
{
    let id = argument.id();
    let help = argument.help();
    match argument.takes() {
        Takes::Operand => Arg::new(alloc, id)
            .value_name(argument.value_name())
            .help(help)
            .required(true),
        Takes::Optional => Arg::new(alloc, id)
            .value_name(argument.value_name())
            .help(help),
        Takes::Nothing => Arg::new(alloc, id)
            .long(id)
            .help(help)
            .action(ArgAction::SetTrue),
        takes => option_of(alloc, argument, parser_of(takes, names)),
    }
}

// A command without arguments.
fn bare_command<'a>(alloc: Global, name: CommandName) -> Command<'a>
    ensures { IsBuiltAs result (new_app (name_of name)) }
{
    let command = Command::new(alloc, name.name()).about(name.about());
    if name.has_whole_help() {
        command.override_help(name.help())
    } else {
        command.after_help(name.help())
    }
}

// A command with its arguments.
fn command_of<'a>(alloc: Global, name: CommandName, names: Names<'a>) -> Building<'a>
    ensures { Builds result (app_of_command names.entry name) }
{
    let arguments = name.arguments();
    let mut command = bare_command(alloc, name);
    for argument in arguments {
        command = command.arg(argument_of(alloc, *argument, names))?;
    }
    Ok(command)
}

// `ttx` without its commands, for the words after its name.
fn bare<'a>(alloc: Global) -> Building<'a>
    ensures { Builds result bare_app }
{
    Command::new(alloc, "ttx")
        .no_binary_name(true)
        .subcommand_required(true)
        .version("")
        .override_help(help::TTX)
        .bin_name("ttx")
}

// The names that `--kind` takes.
fn kind_names<'a>() -> &'a [&'a str]
    ensures { AreNames result rule.kind_names }
{
    &["eager", "careful", "cleared"]
}

// The names that `--class` takes.
fn class_names<'a>() -> &'a [&'a str]
    ensures { AreNames result rule.class_names }
{
    &["any", "clearing"]
}

// The names that `--as` takes.
fn form_names<'a>() -> &'a [&'a str]
    ensures { AreNames result rule.form_names }
{
    &["text", "ansi", "blocks", "svg", "html"]
}

// The names that `--as` of `replay` takes.
fn replay_names<'a>() -> &'a [&'a str]
    ensures { AreNames result rule.replay_names }
{
    &["words", "text", "html"]
}

/// The names that options take.
pub(crate) fn option_names<'a>() -> Names<'a>
    ensures { HasNames result }
{
    Names {
        kinds: kind_names(),
        classes: class_names(),
        forms: form_names(),
        replays: replay_names(),
    }
}

// `ttx` with these commands.
fn with_commands<'a>(alloc: Global, commands: &[CommandName], names: Names<'a>) -> Building<'a>
    ensures { Builds result (with_commands names.entry commands.now bare_app) }
{
    let mut ttx = bare(alloc)?;
    for name in commands {
        ttx = ttx.subcommand(command_of(alloc, *name, names)?)?;
    }
    Ok(ttx)
}

/// `ttx` with its commands.
pub(crate) fn ttx<'a>(alloc: Global, names: Names<'a>) -> Building<'a>
    ensures { Builds result (ttx_app names.entry) }
{
    with_commands(alloc, COMMANDS.as_slice(), names)
}
