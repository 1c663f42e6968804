//! The values of arguments.

ghost use Rattle.std.specs.Prelude.{◌≡◌, IfSome, option_map};
ghost use Rattle.clap.specs.Words.{rows_of, found_of};
ghost use Rattle.ttx_arguments.specs.Arguments.{takes_of};
ghost use Rattle.ttx_arguments.specs.Numbers.{numeral};
ghost use Rattle.ttx_arguments.specs.Orders as rule;
ghost use Rattle.ttx_arguments.specs.Orders.{look_view, kind_named, class_named, form_named, replay_form_named, tuning_asked, look_at, sending_at};
ghost use Rattle.ttx_arguments.specs.Orders.{IsInside, number_given, number_at, lines_at, repeat_at};
ghost use Rattle.ttx_arguments.specs.Values.{given_at, text_at, is_set};
ghost use Rattle.ttx_arguments.specs.declared.arguments.Argument.TheVariants as argument;

use crate::arguments::{Argument, Takes};
use crate::orders::{Look, ReceiverKind, ReplayForm, Sending, Tuning};
use crate::ranges::{Fields, Lines, Repeat};
use clap::ArgMatches;
use ttx_page::{Class, Selection};
use ttx_picture::Form;

// The text given to an argument.
pub(crate) fn given<'a>(values: &ArgMatches<'a>, argument: Argument) -> Option<&'a str>
    ensures { option_map (λ s. s.now) result ≡ given_at argument (rows_of (found_of values.now)) }
{
    values.get_str(argument.id())
}

pub(crate) fn text_of<'a>(values: &ArgMatches<'a>, argument: Argument) -> &'a str
    ensures { result.now ≡ text_at argument (rows_of (found_of values.now)) }
{
    match given(values, argument) {
        Some(text) => text,
        None => "",
    }
}

// The number that a text is.
fn numeral(text: &str) -> Option<u32>
    ensures { result ≡ numeral text.now }
{
    text.parse().ok()
}

// A number, if it is in the range that an option takes.
fn inside(takes: Takes, number: u32) -> Option<u32>
    ensures value { result ≡ rule.inside takes number }
    ensures range { IfSome result (λ n. IsInside takes n) }
{
    match takes {
        Takes::Number(low, high) if low <= u64::from(number) && u64::from(number) <= high => {
            Some(number)
        }
        _ => None,
    }
}

// The number given to an option.
pub(crate) fn given_number(values: &ArgMatches<'_>, argument: Argument) -> Option<u32>
    ensures value { result ≡ number_given argument (rows_of (found_of values.now)) }
    ensures range { IfSome result (λ n. IsInside (takes_of argument) n) }
{
    match given(values, argument) {
        Some(text) => inside(argument.takes(), numeral(text)?),
        None => None,
    }
}

// The number given to an option, or its default.
fn number_of(values: &ArgMatches<'_>, argument: Argument, default: u32) -> u32
    requires { IsInside (takes_of argument) default }
    ensures value { result ≡ number_at argument default (rows_of (found_of values.now)) }
    ensures inside { IsInside (takes_of argument) result }
{
    match given_number(values, argument) {
        Some(number) => number,
        None => default,
    }
}

pub(crate) fn repeat_of(values: &ArgMatches<'_>) -> Repeat
    ensures { result ≡ repeat_at (rows_of (found_of values.now)) }
{
    Repeat::new(number_of(values, Argument::Repeat, 1) as u8)
}

pub(crate) fn lines_of(values: &ArgMatches<'_>) -> Lines
    ensures { result ≡ lines_at (rows_of (found_of values.now)) }
{
    Lines::new(number_of(values, Argument::Lines, 16) as u8)
}

// The lines given to `--lines`.
pub(crate) fn given_lines_of(values: &ArgMatches<'_>) -> Option<Lines>
    ensures { result ≡ number_given argument.GivenLines (rows_of (found_of values.now)) }
{
    match given_number(values, Argument::GivenLines) {
        Some(count) => Some(Lines::new(count as u8)),
        None => None,
    }
}

// The deadline given to `--deadline`.
pub(crate) fn deadline_of(values: &ArgMatches<'_>) -> Option<Fields>
    ensures { result ≡ number_given argument.Deadline (rows_of (found_of values.now)) }
{
    match given_number(values, Argument::Deadline) {
        Some(count) => Some(Fields::new(count)),
        None => None,
    }
}

// The fields given to `--every`.
pub(crate) fn every_of(values: &ArgMatches<'_>) -> Option<Fields>
    ensures { result ≡ number_given argument.Every (rows_of (found_of values.now)) }
{
    match given_number(values, Argument::Every) {
        Some(count) => Some(Fields::new(count)),
        None => None,
    }
}

fn kind_of(values: &ArgMatches<'_>) -> ReceiverKind
    ensures { result ≡ kind_named (text_at argument.Kind (rows_of (found_of values.now))) }
{
    let name = text_of(values, Argument::Kind);
    if name == "careful" {
        ReceiverKind::Careful
    } else if name == "cleared" {
        ReceiverKind::Cleared
    } else {
        ReceiverKind::Eager
    }
}

pub(crate) fn class_of(values: &ArgMatches<'_>) -> Class
    ensures { result ≡ class_named (text_at argument.Class (rows_of (found_of values.now))) }
{
    if text_of(values, Argument::Class) == "clearing" {
        Class::Clearing
    } else {
        Class::Any
    }
}

pub(crate) fn form_of(values: &ArgMatches<'_>) -> Form
    ensures { result ≡ form_named (text_at argument.Form (rows_of (found_of values.now))) }
{
    let name = text_of(values, Argument::Form);
    if name == "text" {
        Form::Text
    } else if name == "blocks" {
        Form::Blocks
    } else if name == "svg" {
        Form::Svg
    } else if name == "html" {
        Form::Html
    } else {
        Form::Ansi
    }
}

pub(crate) fn replay_form_of(values: &ArgMatches<'_>) -> ReplayForm
    ensures { result ≡ replay_form_named (text_at argument.ReplayForm (rows_of (found_of values.now))) }
{
    let name = text_of(values, Argument::ReplayForm);
    if name == "text" {
        ReplayForm::Text
    } else if name == "html" {
        ReplayForm::Html
    } else {
        ReplayForm::Words
    }
}

pub(crate) fn is_set(values: &ArgMatches<'_>, argument: Argument) -> bool
    ensures { result ≡ is_set argument (rows_of (found_of values.now)) }
{
    text_of(values, argument) == "true"
}

// How a page is asked for.
pub(crate) fn look_of<'a>(values: &ArgMatches<'a>) -> Look<'a>
    ensures { look_view result ≡ look_at (rows_of (found_of values.now)) }
{
    Look {
        page: text_of(values, Argument::Page),
        form: form_of(values),
        given: given(values, Argument::Form).is_some(),
        reveal: is_set(values, Argument::Reveal),
    }
}

// The receiver of `receive`, set to this page.
pub(crate) fn tuning_of(values: &ArgMatches<'_>, selection: Selection) -> Tuning
    ensures { result ≡ tuning_asked selection (rows_of (found_of values.now)) }
{
    Tuning {
        selection,
        lines: lines_of(values),
        start: number_of(values, Argument::Start, 0) as u16,
        slots: number_of(values, Argument::Slots, 5000),
        kind: kind_of(values),
    }
}

// The fields that `send` has to send.
pub(crate) fn sending_of(values: &ArgMatches<'_>) -> Sending
    ensures { result ≡ sending_at (rows_of (found_of values.now)) }
{
    Sending {
        lines: lines_of(values),
        phase: number_of(values, Argument::Phase, 0),
        fields: number_of(values, Argument::Fields, 0),
    }
}
