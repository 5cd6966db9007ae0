//! The lines of a script, each by the words after its first.

ghost use Rattle.std.specs.Prelude.{◌≢◌};
ghost use Rattle.pot_script.specs.Lines.{ReadsLine};
ghost use Rattle.pot_script.specs.declared.kind.Kind.TheVariants as kinds;

mod archives;
mod bare;
mod fetch;
mod group;
mod renew;
mod store;
mod together;

use crate::command::Command;
use crate::kind::Kind;
use crate::words::Words;
use archives::{read_migrate, read_replace};
use bare::{read_end, read_list, read_quit, read_status};
use fetch::read_fetch;
use group::{read_repair, read_scrub};
use pot_bytes::Rack;
use renew::read_renew;
pub use store::read_store;
use together::read_together;

/// The command of a line of this kind that has these words after the first. The bytes that follow a
/// `store` line are no part of it, and `read_store` reads it.
pub fn read_line(kind: Kind, words: Words, rack: &Rack) -> Option<Command>
    requires { kind ≢ kinds.Store }
    ensures { ReadsLine rack.now kind words.entry result }
{
    match kind {
        Kind::Store => unreachable!(),
        Kind::Fetch => read_fetch(words),
        Kind::List => read_list(words),
        Kind::Status => read_status(words),
        Kind::Scrub => read_scrub(words, rack),
        Kind::Repair => read_repair(words, rack),
        Kind::Replace => read_replace(words),
        Kind::Migrate => read_migrate(words),
        Kind::Together => read_together(words),
        Kind::End => read_end(words),
        Kind::Renew => read_renew(words, rack),
        Kind::Quit => read_quit(words),
    }
}
