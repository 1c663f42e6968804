//! The status of a verdict on a feed, by bytes or by rows.

ghost use Rattle.std.specs.Prelude.{◌≡◌};
ghost use Rattle.ttx_tool.specs.Monitor.{feed_status, row_status};

use super::certify::Status;
use ttx_files::Told;
use ttx_monitor::FeedVerdict;
use ttx_row_monitor::RowVerdict;

impl Status for FeedVerdict {
    ghost status = { feed_status };

    fn status(&self) -> u8 {
        match self {
            FeedVerdict::Yes { .. } => 0,
            FeedVerdict::Unlike(_) | FeedVerdict::No { .. } | FeedVerdict::Shifted { .. } => 1,
        }
    }
}

impl Status for RowVerdict {
    ghost status = { row_status };

    fn status(&self) -> u8 {
        match self {
            RowVerdict::Yes { .. } => 0,
            RowVerdict::Unlike(_) | RowVerdict::No { .. } | RowVerdict::Shifted { .. } => 1,
        }
    }
}

/// The text of a verdict, and its status.
pub(super) fn answered<V: Status + Copy>(told: Told<V>) -> Told<u8>
    ensures verdict { result.verdict ≡ V.status told.verdict }
    ensures line { result.line ≡ told.line }
{
    Told {
        verdict: told.verdict.status(),
        line: told.line,
    }
}
