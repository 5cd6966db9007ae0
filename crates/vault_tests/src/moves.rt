//! Checks and a move over a group.
ghost use Rattle.std.specs.Prelude.{◌≡◌, ◌<◌, ◌+◌, length};
ghost use Rattle.pot_shared.specs.Ready.{AreReady};

use crate::scene::{filled, rack, shelf, vault};
use pot_doubles::LossyArchive;
use pot_mend::*;
use pot_shared::{ColumnAt, Passes, Vault};
use std::alloc::Global;
use std::sync::Wait;
use std::test::Fail;

/// The first column begins to move to an empty archive of this number.
fn begin<R: Wait>(
    rt: &R,
    alloc: Global,
    vault: &Vault<LossyArchive>,
    passes: &mut Passes<LossyArchive>,
    number: u32,
) -> Result<bool, Fail>
    requires ready { AreReady vault.now.rack vault.now.groups passes.old.groups }
    requires group { 0 < length vault.now.groups }
    requires column { 0 < vault.now.rack.columns + vault.now.rack.parity }
    ensures ready { AreReady vault.now.rack vault.now.groups passes.new.groups }
{
    let target = shelf(alloc, number, &[], &[])?;
    Ok(
        vault
            .move_begin(
                rt,
                passes,
                2,
                ColumnAt {
                    group: 0,
                    column: 0,
                },
                target,
            )
            .is_ok(),
    )
}

/// Asks whether the one archive can move to the other.
fn may_move<R: Wait>(
    rt: &R,
    vault: &Vault<LossyArchive>,
    passes: &mut Passes<LossyArchive>,
    from: u32,
    to: u32,
) -> Result<MoveAt, UseFault>
    requires ready { AreReady vault.now.rack vault.now.groups passes.old.groups }
    requires count { length vault.now.groups ≡ vault.now.rack.groups }
    ensures ready { AreReady vault.now.rack vault.now.groups passes.new.groups }
{
    check_migrate(rt, vault, passes, from, to)
}

/// Asks whether the one archive can be replaced by the other.
fn may_replace<R: Wait>(
    rt: &R,
    vault: &Vault<LossyArchive>,
    passes: &mut Passes<LossyArchive>,
    from: u32,
    to: u32,
) -> Result<MoveAt, UseFault>
    requires ready { AreReady vault.now.rack vault.now.groups passes.old.groups }
    requires count { length vault.now.groups ≡ vault.now.rack.groups }
    ensures ready { AreReady vault.now.rack vault.now.groups passes.new.groups }
{
    check_replace(rt, vault, passes, from, to)
}

/// Moves the first column to its end.
fn move_all<R: Wait>(
    rt: &R,
    vault: &Vault<LossyArchive>,
    passes: &mut Passes<LossyArchive>,
) -> Result<u32, MendFault>
    requires ready { AreReady vault.now.rack vault.now.groups passes.old.groups }
    requires group { 0 < length vault.now.groups }
    requires column { 0 < vault.now.rack.columns + vault.now.rack.parity }
    ensures ready { AreReady vault.now.rack vault.now.groups passes.new.groups }
{
    migrate(rt, vault, passes, 0, 2, 0)
}

/// The first column.
const fn at(resumes: bool) -> Result<MoveAt, UseFault> {
    Ok(MoveAt {
        group: 0,
        column: 0,
        resumes,
    })
}

const fn absent(number: u32) -> Result<MoveAt, UseFault> {
    Err(UseFault::NoSuchArchive { number })
}

const fn in_use(number: u32) -> Result<MoveAt, UseFault> {
    Err(UseFault::InUse { number })
}

/// The archives 0 and 1 are homes, 7 is the target of the first column, and 9 has no use.
#[test]
fn archives_are_checked(rt: HostRuntime) -> Result<(), Fail> {
    let rack = rack(2)?;
    let (vault, mut passes) = vault(rt.alloc(), &rack, &[], &[])?;
    assert_eq!(rt; may_move(&rt, &vault, &mut passes, 0, 7), at(false));
    assert_eq!(rt; may_replace(&rt, &vault, &mut passes, 0, 7), at(false));
    assert!(rt; begin(&rt, rt.alloc(), &vault, &mut passes, 7)?);
    for (from, to, move_wants, replace_wants) in [
        (0, 7, at(true), in_use(7)),
        (0, 9, in_use(0), at(false)),
        (0, 1, in_use(0), in_use(1)),
        (7, 9, absent(7), absent(7)),
        (9, 7, absent(9), absent(9)),
        (1, 7, in_use(7), in_use(7)),
    ] {
        assert_eq!(rt; may_move(&rt, &vault, &mut passes, from, to), move_wants);
        assert_eq!(rt;
            may_replace(&rt, &vault, &mut passes, from, to),
            replace_wants
        );
    }
    Ok(())
}

/// Of the two stripes the first has a block, which stands in the archive 0. Archive 0 is retired
/// then.
#[test]
fn a_column_moves_to_its_end(rt: HostRuntime) -> Result<(), Fail> {
    let rack = rack(2)?;
    let (vault, mut passes) = filled(&rt, rt.alloc(), &rack, 1, &[], &[])?;
    assert_eq!(rt; move_all(&rt, &vault, &mut passes), Ok(0));
    assert!(rt; begin(&rt, rt.alloc(), &vault, &mut passes, 7)?);
    assert_eq!(rt; move_all(&rt, &vault, &mut passes), Ok(1));
    assert_eq!(rt; move_all(&rt, &vault, &mut passes), Ok(0));
    assert_eq!(rt; may_move(&rt, &vault, &mut passes, 7, 0), in_use(0));
    assert_eq!(rt; may_move(&rt, &vault, &mut passes, 7, 9), at(false));
    Ok(())
}
