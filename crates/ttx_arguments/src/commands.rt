//! The orders of the commands.

ghost use Rattle.std.specs.Prelude.{◌≡◌, count_by, ◌&&◌};
ghost use Rattle.clap.specs.Words.{rows_of, found_of};
ghost use Rattle.ttx_arguments.specs.Arguments.{is_input};
ghost use Rattle.ttx_arguments.specs.Orders as rule;
ghost use Rattle.ttx_arguments.specs.Orders.{order_view, inspect_at, plan_at, find_at, certify_at, refute_at, replay_at, receive_at, show_at};
ghost use Rattle.ttx_arguments.specs.Orders.{preview_at, splice_asked, wait_at, send_at, monitor_at, pages_at, book_at, extract_at, check_at, IsOrderOf};
ghost use Rattle.ttx_arguments.specs.Orders.{compose_at, decompose_at, report_at, explain_at};
ghost use Rattle.ttx_arguments.specs.Orders.{is_standard, is_cycle_twice};

use crate::arguments::Argument;
use crate::command_names::CommandName;
use crate::orders::{
    CertifyOrder, CheckOrder, FindOrder, MonitorOrder, Order, PlanOrder, RefuteOrder, ReplayOrder,
    ReportOrder, SendOrder, SpliceOrder, Timing, WaitOrder, WordsFault,
};
use crate::page_names::selection;
use crate::ranges::Fields;
use crate::seconds::fields_of;
use crate::timings::{clock_of, start_of};
use crate::values::{
    class_of, deadline_of, every_of, given, given_lines_of, given_number, is_set, look_of,
    repeat_of, replay_form_of, sending_of, text_of, tuning_of,
};
use clap::ArgMatches;
use ttx_picture::Form;

fn is_standard(values: &ArgMatches<'_>, argument: Argument) -> bool
    ensures { result ≡ is_standard argument (rows_of (found_of values.now)) }
{
    text_of(values, argument) == "-"
}

// How many of these arguments are inputs and name standard input.
fn standard_inputs(values: &ArgMatches<'_>, arguments: &[Argument]) -> usize
    ensures { result ≡ count_by (λ a. is_input a && is_standard a (rows_of (found_of values.now))) arguments.now }
{
    let mut count: usize = 0;
    for argument in arguments {
        if argument.is_input() && is_standard(values, *argument) {
            count += 1;
        }
    }
    count
}

// Whether a cycle that is read twice is standard input.
fn is_cycle_twice(values: &ArgMatches<'_>) -> bool
    ensures { result ≡ is_cycle_twice (rows_of (found_of values.now)) }
{
    is_set(values, Argument::Twice) && is_standard(values, Argument::Cycle)
}

// Whether more than one input of a command is standard input, or a cycle that is read twice.
pub(crate) fn is_twice(command: CommandName, values: &ArgMatches<'_>) -> bool
    ensures { result ≡ rule.is_twice command (rows_of (found_of values.now)) }
{
    standard_inputs(values, command.arguments()) > 1 || is_cycle_twice(values)
}

pub(crate) fn receive_of<'a>(values: &ArgMatches<'a>) -> Result<Order<'a>, WordsFault>
    ensures { IsOrderOf result (receive_at (rows_of (found_of values.now))) }
{
    match selection(text_of(values, Argument::Page)) {
        None => Err(WordsFault::Page),
        Some(selection) => Ok(Order::Receive {
            cycle: text_of(values, Argument::Cycle),
            tuning: tuning_of(values, selection),
        }),
    }
}

pub(crate) fn show_of<'a>(values: &ArgMatches<'a>) -> Result<Order<'a>, WordsFault>
    ensures { IsOrderOf result (show_at (rows_of (found_of values.now))) }
{
    match selection(text_of(values, Argument::Page)) {
        None => Err(WordsFault::Page),
        Some(selection) => Ok(Order::Show {
            cycle: text_of(values, Argument::Cycle),
            tuning: tuning_of(values, selection),
            look: look_of(values),
        }),
    }
}

// Whether a form is that of one page.
fn is_of_one_page(form: Form) -> bool
    ensures { result ≡ rule.is_of_one_page form }
{
    matches!(form, Form::Svg | Form::Html)
}

// All pages.
fn preview_all_of<'a>(values: &ArgMatches<'a>) -> Result<Order<'a>, WordsFault>
    ensures { IsOrderOf result (rule.preview_all_at (rows_of (found_of values.now))) }
{
    let look = look_of(values);
    if is_of_one_page(look.form) {
        return Err(WordsFault::Forms);
    }
    Ok(Order::PreviewAll {
        service: text_of(values, Argument::Service),
        look,
    })
}

pub(crate) fn preview_of<'a>(values: &ArgMatches<'a>) -> Result<Order<'a>, WordsFault>
    ensures { IsOrderOf result (preview_at (rows_of (found_of values.now))) }
{
    if is_set(values, Argument::PreviewAll) {
        return preview_all_of(values);
    }
    match selection(text_of(values, Argument::Page)) {
        None => Err(WordsFault::Page),
        Some(selection) => Ok(Order::Preview {
            service: text_of(values, Argument::Service),
            selection,
            look: look_of(values),
        }),
    }
}

pub(crate) fn plan_of<'a>(values: &ArgMatches<'a>) -> Order<'a>
    ensures { order_view result ≡ plan_at (rows_of (found_of values.now)) }
{
    Order::Plan(PlanOrder {
        service: text_of(values, Argument::Service),
        out: text_of(values, Argument::Planned),
        class: class_of(values),
        late: is_set(values, Argument::PlannedLate),
        spread: is_set(values, Argument::Spread),
    })
}

pub(crate) fn inspect_of<'a>(values: &ArgMatches<'a>) -> Order<'a>
    ensures { order_view result ≡ inspect_at (rows_of (found_of values.now)) }
{
    Order::Inspect {
        file: text_of(values, Argument::File),
    }
}

// What `find` is asked for with this deadline.
fn find_with<'a>(values: &ArgMatches<'a>, deadline: Option<Fields>) -> Order<'a>
    ensures { order_view result ≡ rule.find_with deadline (rows_of (found_of values.now)) }
{
    Order::Find(FindOrder {
        cycle: text_of(values, Argument::Cycle),
        service: text_of(values, Argument::Service),
        out: text_of(values, Argument::Found),
        repeat: repeat_of(values),
        class: class_of(values),
        deadline,
    })
}

pub(crate) fn find_of<'a>(values: &ArgMatches<'a>) -> Result<Order<'a>, WordsFault>
    ensures { IsOrderOf result (find_at (rows_of (found_of values.now))) }
{
    match (deadline_of(values), given(values, Argument::Within)) {
        (deadline, None) => Ok(find_with(values, deadline)),
        (Some(_), Some(_)) => Err(WordsFault::Deadlines),
        (None, Some(text)) => match fields_of(text) {
            None => Err(WordsFault::Seconds),
            Some(fields) => Ok(find_with(values, Some(fields))),
        },
    }
}

// What `certify` is asked for with this requirement.
fn certify_with<'a>(values: &ArgMatches<'a>, within: Option<Fields>) -> Order<'a>
    ensures { order_view result ≡ rule.certify_with within (rows_of (found_of values.now)) }
{
    Order::Certify(CertifyOrder {
        cycle: text_of(values, Argument::Cycle),
        service: text_of(values, Argument::Service),
        certificate: text_of(values, Argument::Certificate),
        late: is_set(values, Argument::Late),
        numbers: is_set(values, Argument::Numbers),
        twice: is_set(values, Argument::Twice),
        within,
        all: is_set(values, Argument::CertifyAll),
        json: is_set(values, Argument::Json),
    })
}

// The same with a requirement in seconds, which cannot be combined with late receivers or a cycle that is read twice.
fn certify_within<'a>(values: &ArgMatches<'a>, seconds: &str) -> Result<Order<'a>, WordsFault>
    ensures { IsOrderOf result (rule.certify_within seconds.now (rows_of (found_of values.now))) }
{
    if is_set(values, Argument::Late) || is_set(values, Argument::Twice) {
        return Err(WordsFault::Within);
    }
    match fields_of(seconds) {
        None => Err(WordsFault::Seconds),
        Some(fields) => Ok(certify_with(values, Some(fields))),
    }
}

// The same for page numbers, which require late receivers, and cannot be combined with a cycle that is read twice.
fn certify_numbers<'a>(values: &ArgMatches<'a>) -> Result<Order<'a>, WordsFault>
    ensures { IsOrderOf result (rule.certify_numbers (rows_of (found_of values.now))) }
{
    if is_set(values, Argument::Late) && !is_set(values, Argument::Twice) {
        Ok(certify_with(values, None))
    } else {
        Err(WordsFault::Numbers)
    }
}

pub(crate) fn certify_of<'a>(values: &ArgMatches<'a>) -> Result<Order<'a>, WordsFault>
    ensures { IsOrderOf result (certify_at (rows_of (found_of values.now))) }
{
    match (
        is_set(values, Argument::Numbers),
        given(values, Argument::Within),
    ) {
        (false, None) => Ok(certify_with(values, None)),
        (false, Some(text)) => certify_within(values, text),
        (true, None) => certify_numbers(values),
        (true, Some(_)) => Err(WordsFault::Numbers),
    }
}

pub(crate) fn refute_of<'a>(values: &ArgMatches<'a>) -> Order<'a>
    ensures { order_view result ≡ refute_at (rows_of (found_of values.now)) }
{
    Order::Refute(RefuteOrder {
        cycle: text_of(values, Argument::Cycle),
        service: text_of(values, Argument::Service),
        certificate: text_of(values, Argument::Certificate),
        save: given(values, Argument::Save),
        json: is_set(values, Argument::Json),
    })
}

pub(crate) fn replay_of<'a>(values: &ArgMatches<'a>) -> Order<'a>
    ensures { order_view result ≡ replay_at (rows_of (found_of values.now)) }
{
    Order::Replay(ReplayOrder {
        cycle: text_of(values, Argument::Cycle),
        service: text_of(values, Argument::Service),
        counter: text_of(values, Argument::Counter),
        form: replay_form_of(values),
    })
}

pub(crate) fn splice_of<'a>(values: &ArgMatches<'a>) -> Order<'a>
    ensures { order_view result ≡ splice_asked (rows_of (found_of values.now)) }
{
    Order::Splice(SpliceOrder {
        old: text_of(values, Argument::Old),
        new: text_of(values, Argument::New),
        old_service: text_of(values, Argument::OldService),
        new_service: text_of(values, Argument::NewService),
        old_certificate: text_of(values, Argument::OldCertificate),
        new_certificate: text_of(values, Argument::NewCertificate),
        sent: given_number(values, Argument::Sent),
        late: is_set(values, Argument::SplicedLate),
    })
}

pub(crate) fn wait_of<'a>(values: &ArgMatches<'a>) -> Order<'a>
    ensures { order_view result ≡ wait_at (rows_of (found_of values.now)) }
{
    Order::Wait(WaitOrder {
        cycle: text_of(values, Argument::Cycle),
        service: text_of(values, Argument::Service),
        repeat: repeat_of(values),
        class: class_of(values),
        items: is_set(values, Argument::Items),
        numbers: is_set(values, Argument::WaitNumbers),
        json: is_set(values, Argument::Json),
    })
}

pub(crate) fn monitor_of<'a>(values: &ArgMatches<'a>) -> Order<'a>
    ensures { order_view result ≡ monitor_at (rows_of (found_of values.now)) }
{
    Order::Monitor(MonitorOrder {
        cycle: text_of(values, Argument::Cycle),
        service: text_of(values, Argument::Service),
        certificate: text_of(values, Argument::Certificate),
        feed: text_of(values, Argument::Feed),
        start: given_number(values, Argument::FeedStart),
        all: is_set(values, Argument::MonitorAll),
        every: every_of(values),
        rows: is_set(values, Argument::Rows),
        json: is_set(values, Argument::Json),
    })
}

pub(crate) fn report_of<'a>(values: &ArgMatches<'a>) -> Order<'a>
    ensures { order_view result ≡ report_at (rows_of (found_of values.now)) }
{
    Order::Report(ReportOrder {
        cycle: text_of(values, Argument::Cycle),
        service: text_of(values, Argument::Service),
        certificate: text_of(values, Argument::Certificate),
        out: text_of(values, Argument::Reported),
        date: given(values, Argument::Date),
    })
}

pub(crate) fn pages_of<'a>(values: &ArgMatches<'a>) -> Order<'a>
    ensures { order_view result ≡ pages_at (rows_of (found_of values.now)) }
{
    Order::Pages {
        cycle: text_of(values, Argument::Cycle),
        json: is_set(values, Argument::Json),
    }
}

pub(crate) fn book_of<'a>(values: &ArgMatches<'a>) -> Order<'a>
    ensures { order_view result ≡ book_at (rows_of (found_of values.now)) }
{
    Order::Book {
        cycle: text_of(values, Argument::Cycle),
        out: text_of(values, Argument::Book),
    }
}

pub(crate) fn extract_of<'a>(values: &ArgMatches<'a>) -> Order<'a>
    ensures { order_view result ≡ extract_at (rows_of (found_of values.now)) }
{
    Order::Extract {
        cycle: text_of(values, Argument::Cycle),
        out: text_of(values, Argument::Extracted),
        lines: given_lines_of(values),
        partial: is_set(values, Argument::Partial),
    }
}

pub(crate) fn check_of<'a>(values: &ArgMatches<'a>) -> Order<'a>
    ensures { order_view result ≡ check_at (rows_of (found_of values.now)) }
{
    Order::Check(CheckOrder {
        service: text_of(values, Argument::Service),
        long: is_set(values, Argument::Long),
        strict: is_set(values, Argument::Strict),
        json: is_set(values, Argument::Json),
    })
}

pub(crate) fn compose_of<'a>(values: &ArgMatches<'a>) -> Order<'a>
    ensures { order_view result ≡ compose_at (rows_of (found_of values.now)) }
{
    Order::Compose {
        author: text_of(values, Argument::Author),
        out: text_of(values, Argument::Composed),
    }
}

pub(crate) fn decompose_of<'a>(values: &ArgMatches<'a>) -> Order<'a>
    ensures { order_view result ≡ decompose_at (rows_of (found_of values.now)) }
{
    Order::Decompose {
        service: text_of(values, Argument::Service),
        out: text_of(values, Argument::Decomposed),
    }
}

pub(crate) fn explain_of<'a>(values: &ArgMatches<'a>) -> Order<'a>
    ensures { order_view result ≡ explain_at (rows_of (found_of values.now)) }
{
    Order::Explain {
        reason: text_of(values, Argument::Reason),
    }
}

pub(crate) fn send_of<'a>(values: &ArgMatches<'a>) -> Result<Order<'a>, WordsFault>
    ensures { IsOrderOf result (send_at (rows_of (found_of values.now))) }
{
    let start = start_of(text_of(values, Argument::At));
    match (start, clock_of(values)) {
        (None, _) => Err(WordsFault::Time),
        (Some(_), None) => Err(WordsFault::Clocks),
        (Some(start), Some(clock)) => Ok(Order::Send(SendOrder {
            cycle: text_of(values, Argument::Cycle),
            timing: Timing { start, clock },
            sending: sending_of(values),
            force: is_set(values, Argument::Force),
        })),
    }
}
