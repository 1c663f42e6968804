//! The service and the promises of a text.

ghost use Rattle.std.specs.Prelude.{true, false, Ok, IfOk, IfErr, map};
ghost use Rattle.ttx_desk.specs.Composing.{author_in, Composes};
ghost use Rattle.ttx_source.specs.PromiseViews.{promise_view};
ghost use Rattle.ttx_press.specs.AuthorRefusals.{IsAuthorRefusal};
ghost use Rattle.ttx_press.specs.Refusals.{Says, IsCheckRefusalBy, IsCheckRefusal};
ghost use Rattle.ttx_press.specs.Editions.{IsScriptBy, IsScript};

use crate::author_refusals::refused_author;
use crate::refusals::refused_text;
use std::alloc::Global;
use ttx_air::PressFault;
use ttx_author_files::is_author_text;
use ttx_desk::{ComposeFault, Composed, compose};
use ttx_source::{Promise, Service, SourceError, SourceFault, read_promises, read_service};

// The name of an author's text in the first comment of its service text, which nobody sees.
const SOURCE: &str = "-";

/// A service and its promises.
#[derive(Drop)]
pub struct Script {
    pub service: Service,
    pub promises: Vec<Promise>,
}

// The service and the promises of a service text.
fn read_plain(alloc: Global, text: &[u8]) -> Result<Script, PressFault>
    ensures script { IfOk result (λ script. IsScriptBy false text.now script.service (map promise_view script.promises.items)) }
    ensures refused { IfErr result (Says (IsCheckRefusalBy false text.now)) }
{
    let Ok(service) = read_service(alloc, text) else {
        return Err(refused_text(alloc, text));
    };
    match read_promises(alloc, text) {
        Ok(promises) => Ok(Script { service, promises }),
        Err(_) => Err(refused_text(alloc, text)),
    }
}

// The service and the promises of the service text that an author's text is composed into.
fn read_composed(alloc: Global, text: &[u8], composed: Composed) -> Result<Script, PressFault>
    requires { Composes (author_in text.now) (Ok composed) }
    ensures script { IfOk result (λ script. IsScriptBy true text.now script.service (map promise_view script.promises.items)) }
    ensures refused { IfErr result (Says (IsAuthorRefusal text.now)) }
{
    let Composed {
        text: said,
        service,
    } = composed;
    match read_promises(alloc, said.as_bytes()) {
        Ok(promises) => Ok(Script { service, promises }),
        Err(
            SourceError {
                fault: SourceFault::NoMemory,
                page: _,
            },
        ) => Err(PressFault::NoMemory),
        Err(error) => Err(refused_author(alloc, text, &ComposeFault::Service(error))),
    }
}

// The service and the promises of an author's text.
fn read_author(alloc: Global, text: &[u8]) -> Result<Script, PressFault>
    ensures script { IfOk result (λ script. IsScriptBy true text.now script.service (map promise_view script.promises.items)) }
    ensures refused { IfErr result (Says (IsCheckRefusalBy true text.now)) }
{
    match compose(alloc, text, SOURCE) {
        Ok(composed) => read_composed(alloc, text, composed),
        Err(why) => Err(refused_author(alloc, text, &why)),
    }
}

/// The service and the promises of a text: a service text, or an author's text, which is composed into one. An author's text with a mistake is
/// refused for the first one, at its place in the author's text.
pub fn read(alloc: Global, text: &[u8]) -> Result<Script, PressFault>
    ensures script { IfOk result (λ script. IsScript text.now script.service (map promise_view script.promises.items)) }
    ensures refused { IfErr result (Says (IsCheckRefusal text.now)) }
{
    match is_author_text(alloc, text) {
        Ok(true) => read_author(alloc, text),
        Ok(false) => read_plain(alloc, text),
        Err(_) => Err(PressFault::NoMemory),
    }
}
