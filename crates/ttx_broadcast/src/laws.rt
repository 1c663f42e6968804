//! The laws of replays. A call costs nothing and gives the caller's proof the law.

ghost use Rattle.ttx_broadcast.specs.Laws.{EndingsAreReplayed, AirIsReplayed};

use ttx_air::Newsroom;

/// If a newsroom answers what the log of an airing records, the same editions take over at the same fields, and the log has the same lines.
pub fn endings_are_replayed()
    ensures { EndingsAreReplayed }
{
    ttx_air::laws::endings_are_decided();
}

/// Then the packets are the same, too.
pub fn air_is_replayed<N: Newsroom, M: Newsroom>()
    ensures { AirIsReplayed N.gives M.gives }
{
    endings_are_replayed();
    ttx_page::laws::each_slot_turns();
}
