//! A job's connection to a vault: its passes are its own, and it makes the locked calls.
ghost use Rattle.std.specs.Prelude.{◌≡◌, ◌<◌, length};
ghost use Rattle.std.proofs.Props.{props};
ghost use Rattle.pot_bytes.specs.Rack.{IsRack};
ghost use Rattle.pot_rows.specs.Rows.{HasMoreParts};
ghost use Rattle.pot_shared.specs.Ready.{AreReady};
ghost use Rattle.pot_shared.specs.Catalogs.{IsIndexReady};

use crate::caller::Caller;
use crate::vault::{Passes, Vault};
use pot_bytes::Rack;
use pot_outside::Archive;
use pot_turn::NoMemory;
use std::alloc::Global;

/// A job at work over a vault, with passes of its own. What each call of a vault asks of its caller
/// is a fact of this type: the vault has a turn for each group of its rack, and the passes can call
/// all of its turns.
#[derive(Drop)]
pub struct Connection<'v, A: Archive, R> {
    // The handle by which it waits for a turn.
    pub(crate) rt: &'v R,
    // Where its memory is from.
    pub(crate) alloc: Global,
    pub(crate) vault: &'v Vault<A>,
    /// Its passes, which whoever writes them leaves as able to call.
    pub passes: Passes<A>,
    // The number of the job.
    pub(crate) job: u32,
    pub ghost is_rack: { IsRack vault.now.rack },
    pub ghost whole: { length vault.now.groups ≡ vault.now.rack.groups },
    pub ghost ready: { AreReady vault.now.rack vault.now.groups passes.groups } by { Prim.hlevel props },
    pub ghost index_ready: { IsIndexReady vault.now.rack vault.now.groups vault.now.index
        passes.index } by { Prim.hlevel props },
    pub ghost parts: { HasMoreParts 1 passes.groups },
    pub ghost numbered: { 0 < job },
}

impl<'v, A: Archive, R> Connection<'v, A, R> {
    ghost use Rattle.std.specs.Prelude.{◌+◌, IfOk, IfErr};
    ghost use Rattle.pot_rows.specs.Parts.{RowCut};
    ghost use Rattle.pot_shared.specs.Callers.{CanCall, HaveParts};
    ghost use Rattle.pot_shared.specs.Sharing.{SamePasses};
    ghost use Rattle.pot_shared.specs.Connections.{IsConnectionSplit, bound, knows, rack_of};

    /// A connection of this job to a vault, with these passes, which `end` hands out again.
    pub fn new(
        rt: &'v R,
        alloc: Global,
        vault: &'v Vault<A>,
        passes: Passes<A>,
        job: u32,
    ) -> Connection<'v, A, R>
        requires can { CanCall vault.now passes }
        requires parts { HasMoreParts 1 passes.groups }
        requires job { 0 < job }
        ensures bound { bound result ≡ record { vault = vault.now; job = job } }
        ensures passes { knows result ≡ passes }
    {
        Connection {
            rt,
            alloc,
            vault,
            passes,
            job,
        }
    }

    /// Its passes, which it hands out at its end.
    pub fn end(self) -> Passes<A>
        ensures passes { result ≡ knows self.entry }
        ensures can { CanCall (bound self.entry).vault result }
    {
        let Connection { passes, .. } = self;
        passes
    }

    /// From now on it works for this job.
    pub fn begin(&mut self, job: u32)
        requires { 0 < job }
        ensures bound { bound self.new ≡ record { vault = (bound self.old).vault; job = job } }
        ensures passes { knows self.new ≡ knows self.old }
    {
        self.job = job;
    }

    /// A connection for one more job, whose passes take these parts of each pass.
    ///
    /// # Errors
    /// Want of memory alone; each pass is then as it was.
    pub fn split(&mut self, job: u32, parts: u64) -> Result<Connection<'v, A, R>, NoMemory>
        requires job { 0 < job }
        requires some { 1 < parts }
        requires parts { HaveParts (parts + 1) (knows self.old) }
        ensures same { bound self.new ≡ bound self.old }
        ensures given { IfOk result (IsConnectionSplit job parts self.old) }
        ensures left { IfOk result (λ s. RowCut parts (knows self.old).groups (knows self.new).groups
            × RowCut parts (knows self.old).index (knows self.new).index) }
        ensures refused { IfErr result (λ e. SamePasses (knows self.old).groups
            (knows self.new).groups
            × SamePasses (knows self.old).index (knows self.new).index) }
    {
        let (rt, alloc, vault) = (self.rt, self.alloc, self.vault);
        match vault.split(alloc, &mut self.passes, parts) {
            Ok(passes) => Ok(Connection {
                rt,
                alloc,
                vault,
                passes,
                job,
            }),
            Err(NoMemory) => Err(NoMemory),
        }
    }

    /// The shape of the archive.
    pub fn rack(&self) -> &'v Rack
        ensures { result.now ≡ rack_of self.now }
    {
        let vault = self.vault;
        vault.rack()
    }

    /// Where its memory is from.
    pub fn alloc(&self) -> Global {
        self.alloc
    }

    /// Who makes its calls, for what takes the passes apart.
    pub fn caller(&self) -> Caller<'v, A, R>
        ensures vault { result.vault.now ≡ (bound self.now).vault }
        ensures job { result.job ≡ (bound self.now).job }
    {
        Caller {
            rt: self.rt,
            alloc: self.alloc,
            vault: self.vault,
            job: self.job,
        }
    }
}
