//! The commands.

ghost use Rattle.std.specs.Prelude.{◌≡◌};
ghost use Rattle.ttx_arguments.specs.Arguments.{name_of, arguments_of};

use crate::arguments::Argument;
use crate::help;

/// A command by its name.
#[derive(Clone, Copy)]
pub enum CommandName {
    Inspect,
    Plan,
    Find,
    Certify,
    Refute,
    Replay,
    Receive,
    Show,
    Preview,
    Splice,
    Wait,
    Send,
    Monitor,
    Pages,
    Book,
    Extract,
    Check,
    Version,
    Air,
    Compose,
    Decompose,
    Report,
    Explain,
}

/// The commands, as help lists them.
pub static COMMANDS: [CommandName; 23] = [
    CommandName::Inspect,
    CommandName::Plan,
    CommandName::Find,
    CommandName::Certify,
    CommandName::Refute,
    CommandName::Replay,
    CommandName::Receive,
    CommandName::Show,
    CommandName::Preview,
    CommandName::Splice,
    CommandName::Wait,
    CommandName::Send,
    CommandName::Monitor,
    CommandName::Pages,
    CommandName::Book,
    CommandName::Extract,
    CommandName::Check,
    CommandName::Version,
    CommandName::Air,
    CommandName::Compose,
    CommandName::Decompose,
    CommandName::Report,
    CommandName::Explain,
];

// The arguments of each command, in the order of `CommandName`.
#[rattlefmt::skip]
static ARGUMENTS: [&[Argument]; 23] = [
    &[Argument::File],
    &[Argument::Service, Argument::Planned, Argument::Class, Argument::PlannedLate, Argument::Spread],
    &[Argument::Cycle, Argument::Service, Argument::Found, Argument::Repeat, Argument::Class, Argument::Deadline, Argument::Within],
    &[
        Argument::Cycle, Argument::Service, Argument::Certificate, Argument::Late, Argument::Numbers, Argument::Twice,
        Argument::Within, Argument::CertifyAll, Argument::Json,
    ],
    &[Argument::Cycle, Argument::Service, Argument::Certificate, Argument::Save, Argument::Json],
    &[Argument::Cycle, Argument::Service, Argument::Counter, Argument::ReplayForm],
    &[Argument::Cycle, Argument::Page, Argument::Lines, Argument::Start, Argument::Slots, Argument::Kind],
    &[Argument::Cycle, Argument::Page, Argument::Lines, Argument::Start, Argument::Slots, Argument::Kind, Argument::Form, Argument::Reveal],
    &[Argument::Service, Argument::SomePage, Argument::PreviewAll, Argument::Form, Argument::Reveal],
    &[
        Argument::Old, Argument::New, Argument::OldService, Argument::NewService, Argument::OldCertificate, Argument::NewCertificate,
        Argument::Sent, Argument::SplicedLate,
    ],
    &[Argument::Cycle, Argument::Service, Argument::Repeat, Argument::Class, Argument::Items, Argument::WaitNumbers, Argument::Json],
    &[
        Argument::Cycle, Argument::At, Argument::Fields, Argument::NeededLines, Argument::Phase, Argument::Offset, Argument::Zone,
        Argument::Force,
    ],
    &[
        Argument::Cycle, Argument::Service, Argument::Certificate, Argument::Feed, Argument::FeedStart, Argument::MonitorAll,
        Argument::Every, Argument::Rows, Argument::Json,
    ],
    &[Argument::Cycle, Argument::Json],
    &[Argument::Cycle, Argument::Book],
    &[Argument::Cycle, Argument::Extracted, Argument::GivenLines, Argument::Partial],
    &[Argument::Service, Argument::Long, Argument::Strict, Argument::Json],
    &[],
    &[
        Argument::Watched, Argument::AirWithin, Argument::Repeat, Argument::AirAt, Argument::Zone, Argument::Offset,
        Argument::AirFields, Argument::AirLate, Argument::AtOnce, Argument::Spread, Argument::AirLog,
        Argument::AirReplay, Argument::Force,
    ],
    &[Argument::Author, Argument::Composed],
    &[Argument::Service, Argument::Decomposed],
    &[Argument::Cycle, Argument::Service, Argument::Certificate, Argument::Reported, Argument::Date],
    &[Argument::Reason],
];

impl CommandName {
    /// Its name.
    pub(crate) fn name<'a>(self) -> &'a str
        ensures { result.now ≡ name_of self }
    {
        match self {
            CommandName::Inspect => "inspect",
            CommandName::Plan => "plan",
            CommandName::Find => "find",
            CommandName::Certify => "certify",
            CommandName::Refute => "refute",
            CommandName::Replay => "replay",
            CommandName::Receive => "receive",
            CommandName::Show => "show",
            CommandName::Preview => "preview",
            CommandName::Splice => "splice",
            CommandName::Wait => "wait",
            CommandName::Send => "send",
            CommandName::Monitor => "monitor",
            CommandName::Pages => "pages",
            CommandName::Book => "book",
            CommandName::Extract => "extract",
            CommandName::Check => "check",
            CommandName::Version => "version",
            CommandName::Air => "air",
            CommandName::Compose => "compose",
            CommandName::Decompose => "decompose",
            CommandName::Report => "report",
            CommandName::Explain => "explain",
        }
    }

    /// The first line of its help.
    pub(crate) fn about<'a>(self) -> &'a str {
        match self {
            CommandName::Inspect =>
                "Writes one line for each slot of a packet file to standard output",
            CommandName::Plan => "Lays out a service as a cycle of slots, and writes it to OUT",
            CommandName::Find =>
                "Finds the certificate with the least deadline, and writes it to OUT",
            CommandName::Certify => "Judges a cycle and its service by a certificate, yes or no",
            CommandName::Refute => "Looks for a receiver that fails to show a page (a counter-run)",
            CommandName::Replay =>
                "Replays a counter-run of refute, and shows where the page is wrong",
            CommandName::Receive =>
                "Receives a page of a cycle, and writes the cells that are displayed",
            CommandName::Show => "Receives a page of a cycle, and writes it as it is displayed",
            CommandName::Preview =>
                "Writes a page of a service as it is displayed when received whole",
            CommandName::Splice => "Judges the change from an old cycle to a new one, yes or no",
            CommandName::Wait =>
                "Prints the longest wait for each page, and the item that causes it",
            CommandName::Send => "Sends a cycle again and again, with the time, to standard output",
            CommandName::Monitor => "Judges whether a received feed is the cycle, yes or no",
            CommandName::Pages =>
                "Lists the pages of a cycle, and what is sent under their headers",
            CommandName::Book => "Writes all pages of a cycle to OUT, as one HTML file",
            CommandName::Extract =>
                "Recovers the service definition of a cycle, and writes it to OUT",
            CommandName::Check =>
                "Reports what is wrong, or probably wrong, in the text of a service",
            CommandName::Version =>
                "Writes the version, and the proof kit and logic that proved it",
            CommandName::Air => "Keeps a service on the air from its text, and follows its changes",
            CommandName::Compose => "Turns an author's text into a service definition",
            CommandName::Decompose => "Turns a service definition into an author's text",
            CommandName::Report => "Writes the verdict and the wait for each page to OUT, as HTML",
            CommandName::Explain => "Explains a reason of a verdict, by its number or its name",
        }
    }

    /// Its help below the arguments, or its whole help.
    pub(crate) fn help<'a>(self) -> &'a str {
        match self {
            CommandName::Inspect => help::INSPECT_MORE,
            CommandName::Plan => help::PLAN_MORE,
            CommandName::Find => help::FIND_MORE,
            CommandName::Certify => help::CERTIFY_MORE,
            CommandName::Refute => help::REFUTE_MORE,
            CommandName::Replay => help::REPLAY_MORE,
            CommandName::Receive => help::RECEIVE_MORE,
            CommandName::Show => help::SHOW_MORE,
            CommandName::Preview => help::PREVIEW_MORE,
            CommandName::Splice => help::SPLICE,
            CommandName::Wait => help::WAIT_MORE,
            CommandName::Send => help::SEND_MORE,
            CommandName::Monitor => help::MONITOR_MORE,
            CommandName::Pages => help::PAGES_MORE,
            CommandName::Book => help::BOOK_MORE,
            CommandName::Extract => help::EXTRACT_MORE,
            CommandName::Check => help::CHECK_MORE,
            CommandName::Version => help::VERSION_MORE,
            CommandName::Air => help::AIR_MORE,
            CommandName::Compose => help::COMPOSE_MORE,
            CommandName::Decompose => help::DECOMPOSE_MORE,
            CommandName::Report => help::REPORT_MORE,
            CommandName::Explain => help::EXPLAIN_MORE,
        }
    }

    /// Whether that is its whole help, since the usage line that `clap` would write is too long.
    pub(crate) fn has_whole_help(self) -> bool {
        matches!(self, CommandName::Splice)
    }

    /// Its arguments.
    pub(crate) fn arguments<'a>(self) -> &'a [Argument]
        ensures { result.now ≡ arguments_of self }
    {
        ARGUMENTS[self as usize]
    }
}
