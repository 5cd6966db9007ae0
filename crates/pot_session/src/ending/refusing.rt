//! Writes why a call of the program stops.

ghost use Rattle.std.specs.Prelude.{◌≡◌};
ghost use Rattle.pot_outside.specs.Accounts.{Faults, transition};
ghost use Rattle.pot_session.specs.Stops.{Refuses};

use crate::ending::status::Status;
use crate::ending::stop::{Stop, text_of};
use pot_commands::write_out;
use pot_outside::{Failed, Sink};
use std::alloc::Global;

/// Writes the text of a stop, and answers its status, or that the sink failed, or that memory ran
/// out.
pub(crate) fn refuse<K: Sink>(alloc: Global, stop: Stop, sink: &mut K) -> Status
    ensures told { Refuses (transition K.account sink.old sink.new) stop result }
    ensures cause { Faults K.account sink.old sink.new (result ≡ Status.SinkFault) }
{
    let Ok(text) = text_of(alloc, stop) else {
        return Status::NoMemory;
    };
    match write_out(sink, &text) {
        Ok(()) => stop.status(),
        Err(Failed) => Status::SinkFault,
    }
}
