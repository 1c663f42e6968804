//! A service on the air from its text.

ghost use Rattle.std.specs.Prelude.{◌≡◌, ℕ, List};
ghost use Rattle.ttx_air.specs.Newsrooms.{candidate_of};
ghost use Rattle.ttx_press.specs.Openings.{IsOpening};
ghost use Rattle.ttx_broadcast.specs.Broadcasts.{outs_of, wish_of, fault_of, MayEnd, ended, ReadsFirst, Opens, Sends, Broadcasts};

use crate::faults::BroadcastFault;
use crate::log_copy::note;
use crate::request::Request;
use crate::settings::settings_text;
use std::alloc::Global;
use std::io::Write;
use ttx_air::{AirFault, Airtime, Outputs, PressFault, TextNewsroom, TextSource, air};
use ttx_playout::StartFault;
use ttx_press::{Demand, House, Opening, opened};
use ttx_send::Clock;

// The first text.
fn first_text<S: TextSource>(alloc: Global, source: &mut S) -> Result<Vec<u8>, BroadcastFault>
    ensures { ReadsFirst S.reads source.old source.new result }
{
    match source.text(alloc) {
        Ok(text) => Ok(text),
        Err(fault) => Err(BroadcastFault::Unread(fault)),
    }
}

fn fault_of(fault: PressFault) -> BroadcastFault
    ensures { result ≡ fault_of fault }
{
    match fault {
        PressFault::Refused(words) => BroadcastFault::Refused(words),
        PressFault::NoMemory => BroadcastFault::NoMemory,
    }
}

// The house and the edition of the first text.
fn first_opened(alloc: Global, demand: Demand, text: &[u8]) -> Result<Opening, BroadcastFault>
    ensures { Opens demand text.now result }
{
    match opened(alloc, demand, text) {
        Ok(opening) => Ok(opening),
        Err(fault) => Err(fault_of(fault)),
    }
}

// How an airing ends.
fn ended(aired: Result<(), AirFault>) -> Result<(), BroadcastFault>
    requires { MayEnd aired }
    ensures { result ≡ ended aired }
{
    match aired {
        Ok(()) => Ok(()),
        Err(AirFault::Write(fault)) => Err(BroadcastFault::Write(fault)),
        Err(AirFault::Start(StartFault::NoMemory)) => Err(BroadcastFault::NoMemory),
        Err(AirFault::Start(StartFault::Refused(_))) => unreachable!(),
        Err(AirFault::Start(StartFault::Clearing)) => unreachable!(),
        Err(AirFault::NeverShown { page: _, slot: _ }) => unreachable!(),
        Err(AirFault::TooFar { gap: _ }) => unreachable!(),
    }
}

// Notes what was asked for, and puts the first edition on the air.
fn sent<C: Clock, S: TextSource, L: Write, W: Write>(
    alloc: Global,
    request: &Request<'_, C>,
    opening: Opening,
    newsroom: &mut TextNewsroom<S, House>,
    outputs: &mut Outputs<L, W>,
) -> Result<(), BroadcastFault>
    requires { (text : List ℕ) × IsOpening request.now.demand text opening.house (candidate_of opening.first) }
    ensures { Sends S.reads (wish_of C.shows request.now) opening.house (candidate_of opening.first) newsroom.old newsroom.new
        (outs_of L.contents W.contents outputs.old) (outs_of L.contents W.contents outputs.new) result }
{
    ttx_certify::verdict_laws::verdicts_are_one();
    ttx_witness::certificate_laws::certificates_keep_their_rules();
    let Opening { house, first } = opening;
    let lines = first.edition.certificate.lines();
    let Ok(line) = settings_text(alloc, request, lines) else {
        return Err(BroadcastFault::NoMemory);
    };
    note(&mut outputs.log, line.as_bytes());
    let airtime = Airtime {
        clock: request.clock,
        fields: request.fields,
        receivers: house.receivers,
    };
    ended(air(alloc, first, &airtime, newsroom, outputs))
}

/// Puts the service on the air whose text the source holds, for as many fields as are asked for.
///
/// The first text is read and planned, and the time within which viewers have to see a page is shared between its deadline and its gap. The log
/// begins with what was asked for. Then follows the airing, whose newsroom looks at the source again, at most once a second: a new text takes
/// over if it serves the receivers, with the same deadline and the same gap. If the first text is refused, nothing is written.
///
/// Of what is sent for late receivers `ttx_press::laws::airings_are_whole` says that they show old pages or new ones, and no mixture.
pub fn broadcast<C: Clock, S: TextSource + Drop, L: Write, W: Write>(
    alloc: Global,
    request: &Request<'_, C>,
    source: S,
    outputs: &mut Outputs<L, W>,
) -> Result<(), BroadcastFault>
    ensures { Broadcasts S.reads (wish_of C.shows request.now) source (outs_of L.contents W.contents outputs.old)
        (outs_of L.contents W.contents outputs.new) result }
{
    let mut source = source;
    let text = first_text(alloc, &mut source)?;
    let opening = first_opened(alloc, request.demand, &text)?;
    let mut newsroom = TextNewsroom::new(source, opening.house, text);
    sent(alloc, request, opening, &mut newsroom, outputs)
}
