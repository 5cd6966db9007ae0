//! Whether a column can move, and whether its archive can be replaced.
ghost use Rattle.std.specs.Prelude.{◌≡◌, ◌<◌, ◌+◌, IfOk, length};
ghost use Rattle.pot_shared.specs.Ready.{AreReady};
ghost use Rattle.pot_replies.specs.Settings.{Setting};
ghost use Rattle.pot_shared.specs.Works.{known, IsSettingOf};
ghost use Rattle.pot_mend.specs.Moves.{IsOnlyAsked, MigrateChecked, ReplaceChecked, seen_in};

use pot_outside::Archive;
use pot_shared::{Passes, Vault};
use std::sync::Wait;

/// The column that a line moves, or whose archive it replaces.
#[derive(Clone, Copy, PartialEq, Eq, Debug)]
pub struct MoveAt {
    pub group: u8,
    pub column: u8,
    /// Whether the column moves to the archive already.
    pub resumes: bool,
}

/// Why an archive can't take the place of another.
#[derive(Clone, Copy, PartialEq, Eq, Debug)]
pub enum UseFault {
    /// No column has this archive as its home.
    NoSuchArchive { number: u32 },
    /// The archive is in use: its column moves elsewhere, or it is the home or the target of a
    /// column, or was.
    InUse { number: u32 },
}

/// Where the archive `from` can move to `to`: the column whose home it is. Every group is asked, in
/// order, and nothing is logged.
///
/// # Errors
/// `NoSuchArchive` of `from` exactly where it is no column's home. `InUse` of `from` exactly where
/// its column moves to another archive than `to`. Of a column that does not move `InUse` of `to`
/// exactly where that is or was a home or a target.
pub fn check_migrate<A: Archive, R: Wait>(
    rt: &R,
    vault: &Vault<A>,
    passes: &mut Passes<A>,
    from: u32,
    to: u32,
) -> Result<MoveAt, UseFault>
    requires ready { AreReady vault.now.rack vault.now.groups passes.old.groups }
    requires count { length vault.now.groups ≡ vault.now.rack.groups }
    ensures ready { AreReady vault.now.rack vault.now.groups passes.new.groups }
    ensures index { passes.new.index ≡ passes.old.index }
    ensures asked { IsOnlyAsked passes.old.groups passes.new.groups }
    ensures place { IfOk result
        (λ at.
        (at.group < length vault.now.groups)
        × (at.column < vault.now.rack.columns + vault.now.rack.parity)) }
    ensures says { (s : Setting)
        → IsSettingOf s vault.now.rack (known passes.old.groups passes.old.index)
        → MigrateChecked s (seen_in passes.new.groups) from to result }
{
    let told = vault.trace(rt, passes, from, to);
    let Some(home) = told.home else {
        return Err(UseFault::NoSuchArchive { number: from });
    };
    let resumes = match home.moving {
        Some(target) => {
            if target != to {
                return Err(UseFault::InUse { number: from });
            }
            true
        }
        None => {
            if told.taken {
                return Err(UseFault::InUse { number: to });
            }
            false
        }
    };
    Ok(MoveAt {
        group: home.group,
        column: home.column,
        resumes,
    })
}

/// Where the archive `to` can replace `from`: the column whose home that is, be it that it moves.
/// Every group is asked, in order, and nothing is logged.
///
/// # Errors
/// `NoSuchArchive` of `from` exactly where it is no column's home, and else `InUse` of `to` exactly
/// where that is or was a home or a target.
pub fn check_replace<A: Archive, R: Wait>(
    rt: &R,
    vault: &Vault<A>,
    passes: &mut Passes<A>,
    from: u32,
    to: u32,
) -> Result<MoveAt, UseFault>
    requires ready { AreReady vault.now.rack vault.now.groups passes.old.groups }
    requires count { length vault.now.groups ≡ vault.now.rack.groups }
    ensures ready { AreReady vault.now.rack vault.now.groups passes.new.groups }
    ensures index { passes.new.index ≡ passes.old.index }
    ensures asked { IsOnlyAsked passes.old.groups passes.new.groups }
    ensures place { IfOk result
        (λ at.
        (at.group < length vault.now.groups)
        × (at.column < vault.now.rack.columns + vault.now.rack.parity)) }
    ensures says { (s : Setting)
        → IsSettingOf s vault.now.rack (known passes.old.groups passes.old.index)
        → ReplaceChecked s (seen_in passes.new.groups) from to result }
{
    let told = vault.trace(rt, passes, from, to);
    match told.home {
        None => Err(UseFault::NoSuchArchive { number: from }),
        Some(_) if told.taken => Err(UseFault::InUse { number: to }),
        Some(home) => Ok(MoveAt {
            group: home.group,
            column: home.column,
            resumes: false,
        }),
    }
}
