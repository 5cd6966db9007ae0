//! Who makes the calls of a vault.
ghost use Rattle.std.specs.Prelude.{◌≡◌, ◌<◌};
ghost use Rattle.pot_rows.specs.Rows.{HasMoreParts};
ghost use Rattle.pot_shared.specs.Callers.{CanCall};
ghost use Rattle.pot_shared.specs.Connections.{bound, knows};

use crate::connection::Connection;
use crate::vault::{Passes, Vault};
use pot_outside::Archive;
use std::alloc::Global;
use std::mem::replace;

/// A job at work over a vault: what all its calls have in common.
#[derive(Drop)]
pub struct Caller<'a, A: Archive, X> {
    /// The handle by which it waits for a turn.
    pub rt: &'a X,
    /// Where its memory is from.
    pub alloc: Global,
    /// The vault.
    pub vault: &'a Vault<A>,
    /// The number of the job.
    pub job: u32,
}

impl<'a, A: Archive, X> Caller<'a, A, X> {
    /// A connection of its job, to which the passes go: `*passes = connection.end();` brings them
    /// back.
    pub fn connection(&self, passes: &mut Passes<A>) -> Connection<'a, A, X>
        requires can { CanCall self.now.vault.now passes.old }
        requires parts { HasMoreParts 1 passes.old.groups }
        requires job { 0 < self.now.job }
        ensures bound { bound result ≡ record { vault = self.now.vault.now; job = self.now.job } }
        ensures passes { knows result ≡ passes.old }
    {
        let own = replace(passes, Passes::none(self.alloc));
        Connection::new(self.rt, self.alloc, self.vault, own, self.job)
    }
}
