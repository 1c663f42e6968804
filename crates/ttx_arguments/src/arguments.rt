//! The arguments of commands.

ghost use Rattle.std.specs.Prelude.{◌≡◌};
ghost use Rattle.ttx_arguments.specs.Arguments as rule;

use crate::help;

/// What an argument takes: it is an operand, which may be optional, or an option with any text, a number from low to high, half
/// hours, with a name of a list, or without a value.
#[derive(Clone, Copy)]
pub enum Takes {
    Operand,
    Optional,
    Text,
    Number(u64, u64),
    HalfHours,
    Kind,
    Class,
    Form,
    ReplayForm,
    Nothing,
}

/// An argument of a command.
#[derive(Clone, Copy)]
pub enum Argument {
    File,
    Cycle,
    Service,
    Certificate,
    Counter,
    Feed,
    Page,
    Planned,
    Found,
    Book,
    Extracted,
    Old,
    New,
    OldService,
    NewService,
    OldCertificate,
    NewCertificate,
    Class,
    Kind,
    Form,
    ReplayForm,
    Repeat,
    Lines,
    NeededLines,
    GivenLines,
    Start,
    FeedStart,
    Slots,
    Fields,
    Phase,
    Offset,
    Zone,
    Sent,
    Deadline,
    Within,
    Save,
    At,
    PlannedLate,
    Spread,
    Late,
    SplicedLate,
    Numbers,
    WaitNumbers,
    Twice,
    Reveal,
    Items,
    Force,
    Author,
    Composed,
    Decomposed,
    Reported,
    Reason,
    Watched,
    AirWithin,
    AirAt,
    AirFields,
    AirLog,
    AirReplay,
    Every,
    Date,
    AirLate,
    AtOnce,
    Json,
    MonitorAll,
    CertifyAll,
    Rows,
    SomePage,
    PreviewAll,
    Long,
    Strict,
    Partial,
}

// The name of each argument in the order of `Argument`, what help calls its value, and what help says of it.
#[rattlefmt::skip]
static TEXTS: [(&str, &str, &str); 71] = [
    ("file", "FILE", help::CYCLE_OPERAND),
    ("cycle", "CYCLE", help::CYCLE_OPERAND),
    ("service", "SERVICE", help::SERVICE_OPERAND),
    ("certificate", "CERT", help::CERTIFICATE_OPERAND),
    ("counter", "COUNTER", help::COUNTER_OPERAND),
    ("feed", "FEED", help::FEED_OPERAND),
    ("page", "PAGE", help::PAGE_OPERAND),
    ("out", "OUT", help::PLANNED_OPERAND),
    ("out", "OUT", help::FOUND_OPERAND),
    ("out", "OUT", help::BOOK_OPERAND),
    ("out", "OUT", help::EXTRACTED_OPERAND),
    ("old", "OLD", help::OLD_OPERAND),
    ("new", "NEW", help::NEW_OPERAND),
    ("old_service", "OLDSERVICE", help::OLD_SERVICE_OPERAND),
    ("new_service", "NEWSERVICE", help::NEW_SERVICE_OPERAND),
    ("old_certificate", "OLDCERT", help::OLD_CERTIFICATE_OPERAND),
    ("new_certificate", "NEWCERT", help::NEW_CERTIFICATE_OPERAND),
    ("class", "CLASS", help::CLASS_OPTION),
    ("kind", "KIND", help::KIND_OPTION),
    ("as", "FORM", help::FORM_OPTION),
    ("as", "FORM", help::REPLAY_FORM_OPTION),
    ("repeat", "K", help::REPEAT_OPTION),
    ("lines", "L", help::LINES_OPTION),
    ("lines", "L", help::NEEDED_LINES_OPTION),
    ("lines", "L", help::GIVEN_LINES_OPTION),
    ("start", "S", help::START_OPTION),
    ("start", "S", help::FEED_START_OPTION),
    ("slots", "N", help::SLOTS_OPTION),
    ("fields", "N", help::FIELDS_OPTION),
    ("phase", "F", help::PHASE_OPTION),
    ("offset", "HALVES", help::OFFSET_OPTION),
    ("zone", "ZONE", help::ZONE_OPTION),
    ("sent", "PERIODS", help::SENT_OPTION),
    ("deadline", "FIELDS", help::DEADLINE_OPTION),
    ("within", "SECONDS", help::WITHIN_OPTION),
    ("save", "OUT", help::SAVE_OPTION),
    ("at", "TIME", help::AT_OPTION),
    ("late", "", help::PLANNED_LATE_OPTION),
    ("spread", "", help::SPREAD_OPTION),
    ("late", "", help::LATE_OPTION),
    ("late", "", help::SPLICED_LATE_OPTION),
    ("numbers", "", help::NUMBERS_OPTION),
    ("numbers", "", help::WAIT_NUMBERS_OPTION),
    ("twice", "", help::TWICE_OPTION),
    ("reveal", "", help::REVEAL_OPTION),
    ("items", "", help::ITEMS_OPTION),
    ("force", "", help::FORCE_OPTION),
    ("author", "AUTHOR", help::AUTHOR_OPERAND),
    ("out", "OUT", help::COMPOSED_OPERAND),
    ("out", "OUT", help::DECOMPOSED_OPERAND),
    ("out", "OUT", help::REPORTED_OPERAND),
    ("reason", "REASON", help::REASON_OPERAND),
    ("service", "SERVICE", help::WATCHED_OPERAND),
    ("within", "SECONDS", help::AIR_WITHIN_OPTION),
    ("at", "TIME", help::AIR_AT_OPTION),
    ("fields", "N", help::AIR_FIELDS_OPTION),
    ("log", "FILE", help::AIR_LOG_OPTION),
    ("replay", "LOG", help::AIR_REPLAY_OPTION),
    ("every", "FIELDS", help::EVERY_OPTION),
    ("date", "DATE", help::DATE_OPTION),
    ("late", "", help::AIR_LATE_OPTION),
    ("at-once", "", help::AT_ONCE_OPTION),
    ("json", "", help::JSON_OPTION),
    ("all", "", help::MONITOR_ALL_OPTION),
    ("all", "", help::CERTIFY_ALL_OPTION),
    ("rows", "", help::ROWS_OPTION),
    ("page", "PAGE", help::SOME_PAGE_OPERAND),
    ("all", "", help::PREVIEW_ALL_OPTION),
    ("long", "", help::LONG_OPTION),
    ("strict", "", help::STRICT_OPTION),
    ("partial", "", help::PARTIAL_OPTION),
];

impl Argument {
    // Its row of `TEXTS`.
    fn texts<'a>(self) -> (&'a str, &'a str, &'a str)
        ensures { result.0.now ≡ rule.id_of self }
    {
        TEXTS[self as usize]
    }

    /// Its name.
    pub(crate) fn id<'a>(self) -> &'a str
        ensures { result.now ≡ rule.id_of self }
    {
        self.texts().0
    }

    /// The name of its value in help.
    pub(crate) fn value_name<'a>(self) -> &'a str {
        self.texts().1
    }

    /// Its text in help.
    pub(crate) fn help<'a>(self) -> &'a str {
        self.texts().2
    }

    /// What it takes.
    pub(crate) fn takes(self) -> Takes
        ensures { result ≡ rule.takes_of self }
    {
        match self {
            Argument::Class => Takes::Class,
            Argument::Kind => Takes::Kind,
            Argument::Form => Takes::Form,
            Argument::ReplayForm => Takes::ReplayForm,
            Argument::Repeat => Takes::Number(1, 8),
            Argument::Lines | Argument::NeededLines | Argument::GivenLines => {
                Takes::Number(1, 32)
            },
            Argument::Start | Argument::FeedStart => Takes::Number(0, 65_535),
            Argument::Slots => Takes::Number(0, 1_000_000),
            Argument::Fields | Argument::AirFields | Argument::Phase | Argument::Sent => {
                Takes::Number(0, 4_294_967_295)
            }
            Argument::Offset => Takes::HalfHours,
            Argument::Deadline | Argument::Every => Takes::Number(1, 1_000_000),
            Argument::Within
            | Argument::AirWithin
            | Argument::Save
            | Argument::At
            | Argument::AirAt
            | Argument::AirLog
            | Argument::AirReplay
            | Argument::Date
            | Argument::Zone => Takes::Text,
            Argument::PlannedLate
            | Argument::Spread
            | Argument::Late
            | Argument::SplicedLate
            | Argument::Numbers
            | Argument::WaitNumbers
            | Argument::Twice
            | Argument::Reveal
            | Argument::Items
            | Argument::Force
            | Argument::AirLate
            | Argument::AtOnce
            | Argument::Json
            | Argument::MonitorAll
            | Argument::CertifyAll
            | Argument::Rows
            | Argument::PreviewAll
            | Argument::Long
            | Argument::Strict
            | Argument::Partial => Takes::Nothing,
            Argument::SomePage => Takes::Optional,
            _ => Takes::Operand,
        }
    }

    /// Whether the option is required.
    pub(crate) fn is_needed(self) -> bool
        ensures { result ≡ rule.is_needed self }
    {
        match self {
            Argument::At | Argument::Fields | Argument::NeededLines => true,
            _ => false,
        }
    }

    /// Whether it names an input.
    pub(crate) fn is_input(self) -> bool
        ensures { result ≡ rule.is_input self }
    {
        match self {
            Argument::File
            | Argument::Cycle
            | Argument::Service
            | Argument::Certificate
            | Argument::Counter
            | Argument::Feed
            | Argument::Author
            | Argument::Old
            | Argument::New
            | Argument::OldService
            | Argument::NewService
            | Argument::OldCertificate
            | Argument::NewCertificate => true,
            _ => false,
        }
    }
}
