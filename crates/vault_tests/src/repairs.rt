//! Scrubs and repairs of a group.
ghost use Rattle.std.specs.Prelude.{◌<◌, ◌+◌, length};
ghost use Rattle.pot_shared.specs.Ready.{AreReady};

use crate::scene::{filled, rack, shelf};
use pot_doubles::{Loss, LossyArchive};
use pot_mend::*;
use pot_pads::PadStream;
use pot_shared::{ColumnAt, Passes, Vault};
use std::alloc::Global;
use std::sync::Wait;
use std::test::Fail;

/// A scrub of four stripes over an archive with these failing calls and losses. Its calls 0 to 3
/// are the writes, and then come the reads of the looks.
fn scrubbed<R: Wait>(
    rt: &R,
    alloc: Global,
    failing: &[u32],
    lost: &[Loss],
) -> Result<Result<Scrubbed, MendFault>, Fail> {
    let rack = rack(8)?;
    let (vault, mut passes) = filled(rt, alloc, &rack, 4, failing, lost)?;
    Ok(scrub_group(rt, &vault, &mut passes, 0, 2))
}

#[test]
fn scrubs_of_a_group(rt: HostRuntime) -> Result<(), Fail> {
    let alloc = rt.alloc();
    let whole = scrubbed(&rt, alloc, &[], &[])?;
    assert_eq!(rt; whole, Ok(Scrubbed { seen: 8, gone: 0 }));
    let one_gone = scrubbed(&rt, alloc, &[], &[Loss { call: 5, slot: 1 }])?;
    assert_eq!(rt; one_gone, Ok(Scrubbed { seen: 7, gone: 1 }));
    let first_gone = scrubbed(&rt, alloc, &[], &[Loss { call: 4, slot: 0 }])?;
    assert_eq!(rt; first_gone, Ok(Scrubbed { seen: 7, gone: 1 }));
    let failed = scrubbed(&rt, alloc, &[6], &[])?;
    assert_eq!(rt;
        failed,
        Err(MendFault::Faulted {
            group: 0,
            column: 0
        })
    );
    Ok(())
}

/// An empty archive replaces the home of a column: how many slots were Live, if it does.
fn replace<R: Wait>(
    rt: &R,
    alloc: Global,
    vault: &Vault<LossyArchive>,
    passes: &mut Passes<LossyArchive>,
    column: u8,
    number: u32,
) -> Result<Option<u32>, Fail>
    requires ready { AreReady vault.now.rack vault.now.groups passes.old.groups }
    requires group { 0 < length vault.now.groups }
    requires column { column < vault.now.rack.columns + vault.now.rack.parity }
    ensures ready { AreReady vault.now.rack vault.now.groups passes.new.groups }
{
    let home = shelf(alloc, number, &[], &[])?;
    Ok(
        vault
            .swap(rt, passes, 2, ColumnAt { group: 0, column }, home)
            .ok(),
    )
}

/// Two stripes whose archives were replaced in these columns: what a repair comes to, and a scrub
/// after it. Calls 0 and 1 of the first archive are the writes.
fn repaired<R: Wait>(
    rt: &R,
    alloc: Global,
    failing: &[u32],
    first: bool,
    second: bool,
) -> Result<(Result<Repaired, MendFault>, Result<Scrubbed, MendFault>), Fail> {
    let rack = rack(8)?;
    let (vault, mut passes) = filled(rt, alloc, &rack, 2, failing, &[])?;
    if first && replace(rt, alloc, &vault, &mut passes, 0, 6)? != Some(2) {
        return Err(Fail::from("the first archive was not replaced"));
    }
    if second && replace(rt, alloc, &vault, &mut passes, 1, 7)? != Some(2) {
        return Err(Fail::from("the second archive was not replaced"));
    }
    let mut pads = PadStream::new(&[0; 32], 0, 3);
    let repaired = repair_group(rt, &vault, &mut passes, 0, 3, &mut pads);
    Ok((repaired, scrub_group(rt, &vault, &mut passes, 0, 4)))
}

#[test]
fn repairs_of_a_group(rt: HostRuntime) -> Result<(), Fail> {
    let alloc = rt.alloc();
    let whole = repaired(&rt, alloc, &[], false, false)?;
    assert_eq!(rt; whole.0, Ok(Repaired { mended: 0, left: 0 }));
    assert_eq!(rt; whole.1, Ok(Scrubbed { seen: 4, gone: 0 }));
    let one = repaired(&rt, alloc, &[], true, false)?;
    assert_eq!(rt; one.0, Ok(Repaired { mended: 2, left: 0 }));
    assert_eq!(rt; one.1, Ok(Scrubbed { seen: 4, gone: 0 }));
    let parity = repaired(&rt, alloc, &[], false, true)?;
    assert_eq!(rt; parity.0, Ok(Repaired { mended: 2, left: 0 }));
    assert_eq!(rt; parity.1, Ok(Scrubbed { seen: 4, gone: 0 }));
    let both = repaired(&rt, alloc, &[], true, true)?;
    assert_eq!(rt; both.0, Ok(Repaired { mended: 0, left: 4 }));
    assert_eq!(rt; both.1, Ok(Scrubbed { seen: 0, gone: 0 }));
    let failed = repaired(&rt, alloc, &[2], false, true)?;
    assert_eq!(rt;
        failed.0,
        Err(MendFault::Faulted {
            group: 0,
            column: 0
        })
    );
    assert_eq!(rt; failed.1, Ok(Scrubbed { seen: 2, gone: 0 }));
    Ok(())
}
