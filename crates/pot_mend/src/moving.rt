//! A column moves to its end.
ghost use Rattle.std.specs.Prelude.{◌≡◌, ◌<◌, ◌+◌, length};
ghost use Rattle.pot_rows.specs.Works.{RowOnlyWriterOf, RowWroteOnlyFor};
ghost use Rattle.pot_shared.specs.Ready.{AreReady};
ghost use Rattle.pot_replies.specs.Settings.{Setting};
ghost use Rattle.pot_shared.specs.Works.{IsSettingOf, known, of_job, section_of};
ghost use Rattle.pot_mend.specs.Moves.{MoveRow};

use crate::fault::MendFault;
use pot_group::{MoveFault, MoveStep};
use pot_outside::Archive;
use pot_shared::{ColumnAt, Passes, Vault};
use std::sync::Wait;

/// Steps the move of a column until it ends, or until the column moves no more: how many blocks
/// were copied. It ends, since each step that goes on logs an entry.
///
/// # Errors
/// `Faulted` where an archive of the column failed, and `LogFull` where the log of the group has no
/// room. The move stays where it is.
pub fn migrate<A: Archive, R: Wait>(
    rt: &R,
    vault: &Vault<A>,
    passes: &mut Passes<A>,
    group: u8,
    job: u32,
    column: u8,
) -> Result<u32, MendFault>
    requires ready { AreReady vault.now.rack vault.now.groups passes.old.groups }
    requires group { group < length vault.now.groups }
    requires column { column < vault.now.rack.columns + vault.now.rack.parity }
    requires job { 0 < job }
    ensures ready { AreReady vault.now.rack vault.now.groups passes.new.groups }
    ensures index { passes.new.index ≡ passes.old.index }
    ensures worked { RowWroteOnlyFor (of_job job) passes.old.groups passes.new.groups }
    ensures says { RowOnlyWriterOf (of_job job) passes.old.groups passes.new.groups
        → (s : Setting) → IsSettingOf s vault.now.rack (known passes.old.groups passes.old.index)
        → MoveRow s job group column result
        (section_of (known passes.old.groups passes.old.index)
        (known passes.new.groups passes.new.index)) }
{
    let mut copied = 0;
    'steps: loop {
        match vault.move_step(rt, passes, job, ColumnAt { group, column }) {
            Ok(MoveStep::Copied) => copied += 1,
            Ok(MoveStep::Passed) => {}
            Ok(MoveStep::Ended) => return Ok(copied),
            Err(MoveFault::Idle) => return Ok(copied),
            Err(MoveFault::Faulted { column }) => return Err(MendFault::Faulted { group, column }),
            Err(MoveFault::LogFull) => return Err(MendFault::LogFull { group }),
        }
    }
}
