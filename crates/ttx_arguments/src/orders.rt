//! What a command line asks for, and why it is refused.

ghost use Rattle.std.specs.Prelude.{◌≡◌};
ghost use Rattle.ttx_arguments.specs.Orders.{look_view, look_seen, seen_form};

use crate::conflicts::Conflict;
use crate::moments::Moment;
use crate::ranges::{Fields, Lines, Offset, Repeat};
use ttx_page::{Class, Selection};
use ttx_picture::Form;

/// How a receiver takes its choices, and whether it surely clears.
#[derive(Clone, Copy)]
pub enum ReceiverKind {
    Eager,
    Careful,
    Cleared,
}

/// The receiver that `receive` simulates, and the slots that it gets.
#[derive(Clone, Copy)]
pub struct Tuning {
    pub selection: Selection,
    pub lines: Lines,
    /// The slot to begin at, modulo the cycle's length.
    pub start: u16,
    /// How many slots are received, up to 1,000,000.
    pub slots: u32,
    pub kind: ReceiverKind,
}

/// How a page is shown.
#[derive(Clone, Copy)]
pub struct Look<'a> {
    /// The name by which it is asked for; with `--all` none.
    pub page: &'a str,
    pub form: Form,
    /// Whether the form is asked for.
    pub given: bool,
    /// Whether concealed characters are shown.
    pub reveal: bool,
}

impl<'a> Look<'a> {
    /// The same where colours are shown or not: where they are not, a form that is not asked for is text.
    pub fn seen(self, colours: bool) -> Look<'a>
        ensures { look_view result ≡ look_seen colours (look_view self.entry) }
    {
        Look {
            form: seen_form(self.given, colours, self.form),
            ..self
        }
    }
}

// A form that is asked for, or that of an output.
fn seen_form(given: bool, colours: bool, form: Form) -> Form
    ensures { result ≡ seen_form given colours form }
{
    if given || colours { form } else { Form::Text }
}

/// When the first field is sent.
#[derive(Clone, Copy)]
pub enum Start<'a> {
    /// When the program asks the machine's clock.
    Now,
    /// At this date and second of its day, in UTC.
    Utc(Moment),
    /// At the time that a text names, in UTC or by the clock of the sending.
    Named(&'a str),
}

/// The clock in page headers.
#[derive(Clone, Copy)]
pub enum Clock<'a> {
    /// It is ahead of UTC by so much, all year round.
    Ahead(Offset),
    /// It keeps the rules of the time zone of this name.
    Zone(&'a str),
}

/// When a sending begins, and which clock its page headers show.
#[derive(Clone, Copy)]
pub struct Timing<'a> {
    pub start: Start<'a>,
    pub clock: Clock<'a>,
}

/// Which fields `send` sends.
#[derive(Clone, Copy)]
pub struct Sending {
    pub lines: Lines,
    /// The field of the repeated cycle to begin at.
    pub phase: u32,
    /// How many fields are sent.
    pub fields: u32,
}

/// What `send` is asked for.
#[derive(Clone, Copy)]
pub struct SendOrder<'a> {
    pub cycle: &'a str,
    pub timing: Timing<'a>,
    pub sending: Sending,
    /// Whether packets are written to a terminal, too.
    pub force: bool,
}

/// What `plan` is asked for.
#[derive(Clone, Copy)]
pub struct PlanOrder<'a> {
    pub service: &'a str,
    pub out: &'a str,
    pub class: Class,
    /// Also for receivers that may show pages late.
    pub late: bool,
    /// Whether the copies of a page are spread evenly, and pages with a promise are sent as often as it requires.
    pub spread: bool,
}

/// What `find` is asked for.
#[derive(Clone, Copy)]
pub struct FindOrder<'a> {
    pub cycle: &'a str,
    pub service: &'a str,
    pub out: &'a str,
    pub repeat: Repeat,
    pub class: Class,
    /// The deadline of the certificate; without it, the least one.
    pub deadline: Option<Fields>,
}

/// What `certify` is asked for.
#[derive(Clone, Copy)]
pub struct CertifyOrder<'a> {
    pub cycle: &'a str,
    pub service: &'a str,
    pub certificate: &'a str,
    /// Also for receivers that may show pages late.
    pub late: bool,
    /// Also for viewers who key only a page number; only with `late`.
    pub numbers: bool,
    /// Whether the cycle is read twice, slot by slot; not with `late`.
    pub twice: bool,
    /// The deadline that the certificate has to promise, for the lines of the service; without it, any. Not with `late` or `twice`.
    pub within: Option<Fields>,
    /// Whether each page has a line with its first reason; not with `late`, `twice` or `within`.
    pub all: bool,
    /// Whether the answer is written as JSON.
    pub json: bool,
}

/// What `refute` is asked for.
#[derive(Clone, Copy)]
pub struct RefuteOrder<'a> {
    pub cycle: &'a str,
    pub service: &'a str,
    pub certificate: &'a str,
    /// The file that the counter-run goes to.
    pub save: Option<&'a str>,
    /// Whether the answer is written as JSON.
    pub json: bool,
}

/// How a counter-run is shown.
#[derive(Clone, Copy)]
pub enum ReplayForm {
    /// The cells of each row that differs, a word each.
    Words,
    /// What happened, and the page as authored beside what is shown, in characters.
    Text,
    /// The same as an HTML page.
    Html,
}

/// What `replay` is asked for.
#[derive(Clone, Copy)]
pub struct ReplayOrder<'a> {
    pub cycle: &'a str,
    pub service: &'a str,
    pub counter: &'a str,
    pub form: ReplayForm,
}

/// What `splice` is asked for.
#[derive(Clone, Copy)]
pub struct SpliceOrder<'a> {
    pub old: &'a str,
    pub new: &'a str,
    pub old_service: &'a str,
    pub new_service: &'a str,
    pub old_certificate: &'a str,
    pub new_certificate: &'a str,
    /// For how many whole periods OLD has been on the air; without it, for any time.
    pub sent: Option<u32>,
    /// Also for receivers that show a page only where it ends.
    pub late: bool,
}

/// What `wait` is asked for.
#[derive(Clone, Copy)]
pub struct WaitOrder<'a> {
    pub cycle: &'a str,
    pub service: &'a str,
    pub repeat: Repeat,
    pub class: Class,
    /// Whether each item of a page has a line, too.
    pub items: bool,
    /// Whether each number with several pages has a line, too.
    pub numbers: bool,
    /// Whether the answer is written as JSON.
    pub json: bool,
}

/// What `monitor` is asked for.
#[derive(Clone, Copy)]
pub struct MonitorOrder<'a> {
    pub cycle: &'a str,
    pub service: &'a str,
    pub certificate: &'a str,
    /// What a receiver got.
    pub feed: &'a str,
    /// The slot of the cycle with which the feed begins; without it, it is found from the feed.
    pub start: Option<u32>,
    /// Whether the feed is judged to its end, and each breach has a line.
    pub all: bool,
    /// Every so many fields there is a line of state; without it, none.
    pub every: Option<Fields>,
    /// Whether the rule by rows is asked for; not with `all` or `every`.
    pub rows: bool,
    /// Whether the answer is written as JSON; not with `all` or `every`.
    pub json: bool,
}

/// What `report` is asked for.
#[derive(Clone, Copy)]
pub struct ReportOrder<'a> {
    pub cycle: &'a str,
    pub service: &'a str,
    pub certificate: &'a str,
    pub out: &'a str,
    /// The date that stands in the report; without it, none.
    pub date: Option<&'a str>,
}

/// What `check` is asked for.
#[derive(Clone, Copy)]
pub struct CheckOrder<'a> {
    pub service: &'a str,
    /// Whether each line is followed by the line of the text that is meant.
    pub long: bool,
    /// Whether a warning makes the status 1.
    pub strict: bool,
    /// Whether all mistakes are written as JSON; not with `long`.
    pub json: bool,
}

/// What `air` is asked for.
#[derive(Clone, Copy)]
pub struct AirOrder<'a> {
    /// The file that is looked at for changes.
    pub service: &'a str,
    /// The deadline of each edition.
    pub within: Fields,
    pub repeat: Repeat,
    pub timing: Timing<'a>,
    /// How many fields are sent; without it, 4,294,967,295.
    pub fields: Option<u32>,
    /// Also for receivers that may show pages late.
    pub late: bool,
    pub spread: bool,
    /// The file that the log goes to, too.
    pub log: Option<&'a str>,
    /// Whether packets are written to a terminal, too.
    pub force: bool,
}

/// What `air --replay` is asked for.
#[derive(Clone, Copy)]
pub struct AirReplayOrder<'a> {
    /// The log of an airing.
    pub log: &'a str,
    /// The folder with the texts that it names.
    pub texts: &'a str,
    /// Whether packets are written to a terminal, too.
    pub force: bool,
}

/// A command with its values.
#[derive(Clone, Copy)]
pub enum Order<'a> {
    /// Show the slots of a packet file.
    Inspect {
        file: &'a str,
    },
    /// Lay a service out in a cycle.
    Plan(PlanOrder<'a>),
    /// Find a certificate of a cycle.
    Find(FindOrder<'a>),
    /// Judge a cycle by a certificate.
    Certify(CertifyOrder<'a>),
    /// Look for a receiver that fails to show a page.
    Refute(RefuteOrder<'a>),
    /// Show where the page is wrong after a counter-run.
    Replay(ReplayOrder<'a>),
    /// Show what a receiver holds of a page.
    Receive {
        cycle: &'a str,
        tuning: Tuning,
    },
    /// Show a page as a receiver shows it.
    Show {
        cycle: &'a str,
        tuning: Tuning,
        look: Look<'a>,
    },
    /// Show a page of a service before it is sent.
    Preview {
        service: &'a str,
        selection: Selection,
        look: Look<'a>,
    },
    /// Show all pages of a service before they are sent.
    PreviewAll {
        service: &'a str,
        look: Look<'a>,
    },
    /// Judge the change from an old cycle to a new one.
    Splice(SpliceOrder<'a>),
    /// Report how long viewers of each page of a service wait.
    Wait(WaitOrder<'a>),
    /// Send a cycle again and again, with the time.
    Send(SendOrder<'a>),
    /// Keep a service on the air from its text, and follow its changes.
    Air(AirOrder<'a>),
    /// Send again what was on the air by its log.
    AirReplay(AirReplayOrder<'a>),
    /// Judge whether a received feed is a cycle.
    Monitor(MonitorOrder<'a>),
    /// Write a report of a verdict.
    Report(ReportOrder<'a>),
    /// List the pages of a cycle.
    Pages {
        cycle: &'a str,
        /// Whether the answer is written as JSON.
        json: bool,
    },
    /// Write all pages of a cycle as one HTML file.
    Book {
        cycle: &'a str,
        out: &'a str,
    },
    /// Write the service definition that a cycle sends.
    Extract {
        cycle: &'a str,
        out: &'a str,
        /// Without them, those are named with which its pages have a deadline.
        lines: Option<Lines>,
        /// Whether pages that no service text can have are left out.
        partial: bool,
    },
    /// Report what is wrong, or probably wrong, in the text of a service.
    Check(CheckOrder<'a>),
    /// Turn an author's text into a service text. `-` as `out` is standard output.
    Compose {
        author: &'a str,
        out: &'a str,
    },
    /// Turn a service text into an author's text. `-` as `out` is standard output.
    Decompose {
        service: &'a str,
        out: &'a str,
    },
    /// Explain a reason, by its number or its name.
    Explain {
        reason: &'a str,
    },
    /// Print the version, the kit and the logic.
    Version,
}

/// Why a command line is refused.
#[derive(Drop)]
pub enum WordsFault {
    /// 1. `clap` refuses them, or they ask for help.
    Refused(clap::Error),
    /// 2. A page is not `MPP` or `MPP/SSSS`, or cannot be shown.
    Page,
    /// 3. More than one input is standard input.
    Twice,
    /// 4. Memory ran out.
    NoMemory,
    /// 5. A moment isn't `MJD/HHMMSS`, `now` or an ISO date and time.
    Time,
    /// 6. Seconds aren't a number from 0.02 to 20000 with at most two decimals.
    Seconds,
    /// 7. A deadline is given both in fields and in seconds.
    Deadlines,
    /// 8. `certify --within` with `--late` or `--twice`; `air` without `--within` and `--replay`.
    Within,
    /// 9. `certify --numbers` without `--late`, or with `--within` or `--twice`.
    Numbers,
    /// 10. The clock in page headers is given both in half hours and by a time zone.
    Clocks,
    /// 11. Two arguments of the command cannot be combined.
    Apart(Conflict),
    /// 12. All pages are asked for in a form of one page.
    Forms,
}
