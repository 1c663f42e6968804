//! What a log says.

ghost use Rattle.std.specs.Prelude.{◌≤◌, ◌<◌, ◌^◌};

/// What viewers are promised.
#[derive(Clone, Copy)]
pub struct Promise {
    /// After how many fields each viewer has to see each page, 1 to 1,000,000.
    pub within: u32,
    /// The repeat count, 1 to 8.
    pub repeat: u8,
    /// Whether receivers that show a page late are served, too.
    pub late: bool,
    /// Whether plans are spread.
    pub spread: bool,
    ghost some_fields: { 1 ≤ within },
    ghost few_fields: { within ≤ 1000000 },
    ghost some_repeats: { 1 ≤ repeat },
    ghost few_repeats: { repeat ≤ 8 },
}

/// The lines of a field, and how many fields are sent.
#[derive(Clone, Copy)]
pub struct Size {
    pub lines: u32,
    pub fields: u32,
}

/// The Modified Julian Date of the first field, and its second of the day, in UTC.
#[derive(Clone, Copy)]
pub struct Begin {
    pub mjd: u32,
    pub second: u32,
}

/// How the clock of an air is named.
#[derive(Clone, Copy)]
pub enum ClockName<'a> {
    /// The time zone of this name.
    Zone(&'a str),
    /// So many seconds ahead of UTC.
    Ahead(i32),
}

/// What an air was asked for: the first line of its log.
#[derive(Clone, Copy)]
pub struct Settings<'a> {
    pub promise: Promise,
    pub size: Size,
    pub begin: Begin,
    pub clock: ClockName<'a>,
}

/// What happened at the end of a period, or of the air. A text is named by the hexadecimal digits of its SHA-256.
#[derive(Clone, Copy)]
pub enum Event<'a> {
    /// This text took over.
    Changed { digest: &'a str, words: &'a str },
    /// This text did not take over.
    Kept { digest: &'a str, words: &'a str },
    /// No text could be read.
    Unread { words: &'a str },
    /// All fields were sent.
    End,
}

/// The second line of a log: the first text went on the air.
#[derive(Clone, Copy)]
pub struct Start<'a> {
    pub field: u32,
    pub time: &'a str,
    pub digest: &'a str,
    pub words: &'a str,
}

/// Another line of a log: what happened before a field, and the time that the clock showed.
#[derive(Clone, Copy)]
pub struct Entry<'a> {
    pub field: u32,
    pub time: &'a str,
    pub event: Event<'a>,
}
