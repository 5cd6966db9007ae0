//! How the passes of a vault are shared out among jobs.
ghost use Rattle.std.specs.Prelude.{◌≡◌, ◌<◌, IfOk, IfErr};
ghost use Rattle.pot_rows.specs.Rows.{HasMoreParts};
ghost use Rattle.pot_rows.specs.Parts.{RowCut, RowNew, RowJoined};

use crate::vault::{Passes, Vault};
use pot_outside::Archive;
use pot_turn::NoMemory;
use std::alloc::Global;

impl<A: Archive> Vault<A> {
    ghost use Rattle.pot_shared.specs.Ready.{AreReady};
    ghost use Rattle.pot_shared.specs.Catalogs.{IsIndexReady};
    ghost use Rattle.pot_shared.specs.Sharing.{SamePasses};

    /// Passes for one more job. Each has seen what the old one of its turn has, and takes these
    /// parts of it.
    ///
    /// # Errors
    /// Want of memory alone; each pass is then as it was.
    pub fn split(
        &self,
        alloc: Global,
        passes: &mut Passes<A>,
        parts: u64,
    ) -> Result<Passes<A>, NoMemory>
        requires ready { AreReady self.now.rack self.now.groups passes.old.groups }
        requires index { IsIndexReady self.now.rack self.now.groups self.now.index
            passes.old.index }
        requires some { 0 < parts }
        requires parts { HasMoreParts parts passes.old.groups
            × HasMoreParts parts passes.old.index }
        ensures ready { AreReady self.now.rack self.now.groups passes.new.groups }
        ensures index { IsIndexReady self.now.rack self.now.groups self.now.index passes.new.index }
        ensures left { IfOk result
            (λ p.
            RowCut parts passes.old.groups passes.new.groups
            × RowCut parts passes.old.index passes.new.index) }
        ensures given { IfOk result
            (λ p. RowNew parts passes.old.groups p.groups × RowNew parts passes.old.index p.index) }
        ensures given_ready { IfOk result
            (λ p.
            AreReady self.now.rack self.now.groups p.groups
            × IsIndexReady self.now.rack self.now.groups self.now.index p.index) }
        ensures refused { IfErr result
            (λ _.
            SamePasses passes.old.groups passes.new.groups
            × SamePasses passes.old.index passes.new.index) }
    {
        let index = self.index.split(alloc, &mut passes.index, parts)?;
        match self.groups.split(alloc, &mut passes.groups, parts) {
            Ok(groups) => Ok(Passes { groups, index }),
            Err(NoMemory) => {
                self.index.join(&mut passes.index, index);
                Err(NoMemory)
            }
        }
    }

    /// Takes in the passes of another job: each pass has then seen what either had, and has the
    /// parts of both.
    pub fn join(&self, passes: &mut Passes<A>, other: Passes<A>)
        requires ready { AreReady self.now.rack self.now.groups passes.old.groups }
        requires index { IsIndexReady self.now.rack self.now.groups self.now.index
            passes.old.index }
        requires other { AreReady self.now.rack self.now.groups other.groups }
        requires other_index { IsIndexReady self.now.rack self.now.groups self.now.index
            other.index }
        ensures ready { AreReady self.now.rack self.now.groups passes.new.groups }
        ensures index { IsIndexReady self.now.rack self.now.groups self.now.index passes.new.index }
        ensures joined { RowJoined passes.old.groups other.groups passes.new.groups }
        ensures joined_index { RowJoined passes.old.index other.index passes.new.index }
    {
        let Passes { groups, index } = other;
        self.groups.join(&mut passes.groups, groups);
        self.index.join(&mut passes.index, index);
    }
}
