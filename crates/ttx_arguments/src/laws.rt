//! What some command lines ask for, computed from the definitions: examples that compare the grammar and the orders with what a user types.

ghost use Rattle.ttx_arguments.specs.Examples.{VersionWords, CertifyWords, SendWords, PlanWords, SecondsTexts, FindWords, RepeatWords, SpliceWords, WaitWords, MonitorWords, ExplainWords, AirWords, ComposeWords, TwiceWords, RefuteWords, ReplayWords, PreviewWords, CheckWords, ExtractWords};

/// `--version` and `-V` ask for the version, also before other words.
pub fn version_words()
    ensures { VersionWords }
{}

/// `certify` with `--late` asks for the verdict on late receivers, and not to read the cycle twice; half a second is 25 fields, and is refused
/// with neither `--twice` nor `--late`; `--numbers` goes with `--late`, and `--all` and `--twice` with `--json`.
pub fn certify_words()
    ensures { CertifyWords }
{}

/// `send` takes a moment, `now` or another text for a time, half hours from -24 to 47 or the name of a time zone, and the defaults of the others; second 60
/// is refused, and so are two clocks. It needs the lines of a field.
pub fn send_words()
    ensures { SendWords }
{}

/// `plan` takes `--late` and `--spread`, alone and together.
pub fn plan_words()
    ensures { PlanWords }
{}

/// Seconds have at most two decimals, and are whole fields of 0.02 s, rounded down.
pub fn seconds_texts()
    ensures { SecondsTexts }
{}

/// `find` takes a deadline in fields or in seconds, but not both.
pub fn find_words()
    ensures { FindWords }
{}

/// A repeat count of 8 is taken, and one of 9 is refused.
pub fn repeat_words()
    ensures { RepeatWords }
{}

/// `splice` takes the periods for which OLD has been on the air (no number is not the same as 0), and `--late`.
pub fn splice_words()
    ensures { SpliceWords }
{}

/// `wait` takes `--items` and `--numbers`, alone and together, and `--json` beside them.
pub fn wait_words()
    ensures { WaitWords }
{}

/// `monitor` takes the slot with which the feed begins (none is not 0); the feed is an input. `--all` and `--every` go together and with
/// `--json`, but neither with `--rows`.
pub fn monitor_words()
    ensures { MonitorWords }
{}

/// `refute` takes a file for the counter-run, and `--json`.
pub fn refute_words()
    ensures { RefuteWords }
{}

/// `preview` takes a page or `--all`, not both and not neither.
pub fn preview_words()
    ensures { PreviewWords }
{}

/// `check` takes `--long` or `--json`, not both, and `--strict`.
pub fn check_words()
    ensures { CheckWords }
{}

/// `extract` takes the lines of a field, which need not be there, and `--partial`.
pub fn extract_words()
    ensures { ExtractWords }
{}

/// `explain` takes a reason, and `pages` an option without a value.
pub fn explain_words()
    ensures { ExplainWords }
{}

/// `replay` writes words if nothing else is asked for.
pub fn replay_words()
    ensures { ReplayWords }
{}

/// `air` begins now, has no end and is late unless the words say otherwise; it takes the seconds within which pages are seen, or a log, not both.
pub fn air_words()
    ensures { AirWords }
{}

/// `compose` reads standard input and writes standard output.
pub fn compose_words()
    ensures { ComposeWords }
{}

/// Two inputs cannot both be standard input, nor can a cycle that is read twice.
pub fn twice_words()
    ensures { TwiceWords }
{}
