//! What a word that holds no session writes.

ghost use Rattle.std.specs.Prelude.{◌≡◌};
ghost use Rattle.pot_outside.specs.Accounts.{Faults, transition};
ghost use Rattle.pot_session.specs.Telling.{Tells};

use crate::ending::status::Status;
use pot_commands::write_out;
use pot_outside::{Failed, Sink};

/// A text, and whether it says that something was refused.
#[derive(Drop)]
pub(crate) struct Telling {
    pub text: Vec<u8>,
    pub refused: bool,
}

/// Writes the text, and answers whether something was refused, or that the sink failed.
pub(crate) fn tell<K: Sink>(telling: &Telling, sink: &mut K) -> Status
    ensures told { Tells (transition K.account sink.old sink.new) telling.now
        result }
    ensures cause { Faults K.account sink.old sink.new (result ≡ Status.SinkFault) }
{
    match write_out(sink, &telling.text) {
        Ok(()) => {
            if telling.refused {
                Status::Refusals
            } else {
                Status::Good
            }
        }
        Err(Failed) => Status::SinkFault,
    }
}
