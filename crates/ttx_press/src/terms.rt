//! What is asked for of each edition.

ghost use Rattle.std.specs.Prelude.{◌≡◌};
ghost use Rattle.ttx_press.specs.Houses as rule;

use crate::house::House;
use ttx_air::Receivers;
use ttx_deadline::Asked;
use ttx_page::Class;
use ttx_plan::Receivers as PlanReceivers;
use ttx_promise::Viewers;

// Whether receivers that show a page late have to be served.
fn is_late(receivers: Receivers) -> bool
    ensures { result ≡ rule.is_late receivers }
{
    match receivers {
        Receivers::AtOnce => false,
        Receivers::Late { gap: _ } => true,
    }
}

/// The certificate that is asked for of each edition.
pub(crate) fn asked_of(house: House) -> Asked
    ensures { result ≡ rule.asked_of house }
{
    Asked {
        class: Class::Any,
        repeat: house.repeat,
        deadline: house.deadline,
    }
}

/// The viewers for whom plans are made.
pub(crate) fn viewers_of(house: House) -> Viewers
    ensures { result ≡ rule.viewers_of house }
{
    Viewers {
        receivers: PlanReceivers {
            class: Class::Any,
            late: is_late(house.receivers),
        },
        repeat: house.repeat,
    }
}
