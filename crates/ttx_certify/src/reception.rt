//! Runs a receiver over a list of slots.

ghost use Rattle.std.specs.Prelude.{◌≡◌};
ghost use Rattle.ttx_page.specs.Receivers.{Run};

use ttx_receiver::Receiver;

/// Gives the slots to the receiver, one after the other.
pub fn receive<R: Receiver>(receiver: &mut R, slots: &[[u8; 42]])
    ensures run { Run (R.kind receiver.old) (R.field receiver.old) (R.tuned receiver.old) (R.held receiver.old) slots.now (R.held receiver.new) }
    ensures selection { R.tuned receiver.new ≡ R.tuned receiver.old }
    ensures lines { R.field receiver.new ≡ R.field receiver.old }
    ensures class { R.kind receiver.new ≡ R.kind receiver.old }
{
    ttx_page::laws::runs_go_on();
    for slot in slots {
        receiver.step(Some(slot));
    }
}
