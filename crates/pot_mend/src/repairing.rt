//! The repair of a group.
ghost use Rattle.std.specs.Prelude.{◌≡◌, ◌<◌, length};
ghost use Rattle.pot_rows.specs.Works.{RowWroteOnlyFor, RowOnlyWriterOf};
ghost use Rattle.pot_replies.specs.Settings.{Setting};
ghost use Rattle.pot_shared.specs.Ready.{AreReady, HasSlot};
ghost use Rattle.pot_shared.specs.Blinds.{Blinds, most_dropped};
ghost use Rattle.pot_shared.specs.Works.{of_job, known, section_of, IsSettingOf};
ghost use Rattle.pot_mend.specs.Repairs.{RepairsPlace, RepairRow, Draws};

use crate::fault::MendFault;
use pot_bytes::Place;
use pot_group::{Kind, Mend};
use pot_outside::Archive;
use pot_pads::PadStream;
use pot_shared::{Passes, Vault};
use std::sync::Wait;

/// What a repair came to: how many slots it mended, and how many it left as they were.
#[derive(Clone, Copy, PartialEq, Eq, Debug)]
pub struct Repaired {
    pub mended: u32,
    pub left: u32,
}

/// Mends each slot of a group that is Lost or Broken as far as that goes, in order of stripe and
/// column, each once. A relay of another slot that stands in the way is driven on, and its end
/// counts too. A blind is drawn for each slot, and one after each relay that began: each relay has
/// the next blind of the stream.
///
/// # Errors
/// At the first step that fails, or that the log has no room for.
pub fn repair_group<A: Archive, R: Wait>(
    rt: &R,
    vault: &Vault<A>,
    passes: &mut Passes<A>,
    group: u8,
    job: u32,
    pads: &mut PadStream,
) -> Result<Repaired, MendFault>
    requires ready { AreReady vault.now.rack vault.now.groups passes.old.groups }
    requires group { group < length vault.now.groups }
    requires job { 0 < job }
    ensures ready { AreReady vault.now.rack vault.now.groups passes.new.groups }
    ensures index { passes.new.index ≡ passes.old.index }
    ensures worked { RowWroteOnlyFor (of_job job) passes.old.groups passes.new.groups }
    ensures says { RowOnlyWriterOf (of_job job) passes.old.groups passes.new.groups
        → (s : Setting) → IsSettingOf s vault.now.rack (known passes.old.groups passes.old.index)
        → RepairRow s job group result
        (section_of (known passes.old.groups passes.old.index)
        (known passes.new.groups passes.new.index)) }
    ensures stream { Draws job group pads.old pads.new passes.old.groups passes.new.groups }
    ensures blinds { Blinds job most_dropped pads.old pads.new passes.old.groups
        passes.new.groups }
{
    let mut repaired = Repaired { mended: 0, left: 0 };
    let mut from = Place {
        group,
        column: 0,
        stripe: 0,
    };
    'places: while let Some(place) = vault.next(rt, passes, from, Kind::Unsound) {
        let more = repair_place(rt, vault, passes, job, place, pads)?;
        repaired.mended += more.mended;
        repaired.left += more.left;
        from.stripe = place.stripe;
        from.column = place.column + 1;
    }
    Ok(repaired)
}

/// Mends one slot as far as that goes, and counts the slots that are mended and left on the way.
///
/// # Errors
/// At the first step that fails, or that the log has no room for.
fn repair_place<A: Archive, R: Wait>(
    rt: &R,
    vault: &Vault<A>,
    passes: &mut Passes<A>,
    job: u32,
    place: Place,
    pads: &mut PadStream,
) -> Result<Repaired, MendFault>
    requires ready { AreReady vault.now.rack vault.now.groups passes.old.groups }
    requires place { HasSlot vault.now.rack vault.now.groups place }
    requires job { 0 < job }
    ensures ready { AreReady vault.now.rack vault.now.groups passes.new.groups }
    ensures index { passes.new.index ≡ passes.old.index }
    ensures repairs { RepairsPlace job place result pads.old pads.new passes.old.groups
        passes.new.groups }
    ensures blinds { Blinds job 1 pads.old pads.new passes.old.groups
        passes.new.groups }
{
    let mending = vault.mend_place(rt, passes, job, place, pads);
    let mut repaired = Repaired {
        mended: mending.mended,
        left: mending.passed,
    };
    match mending.end {
        Mend::Whole => Ok(repaired),
        Mend::TwoGone {
            first: _,
            second: _,
        } => {
            repaired.left += 1;
            Ok(repaired)
        }
        Mend::Odd {
            wanted: _,
            found: _,
        } => {
            repaired.left += 1;
            Ok(repaired)
        }
        Mend::Faulted { column } => Err(MendFault::Faulted {
            group: place.group,
            column,
        }),
        Mend::LogFull => Err(MendFault::LogFull { group: place.group }),
        Mend::Began => unreachable!(),
        Mend::Extends => unreachable!(),
        Mend::Mended => unreachable!(),
        Mend::Passed => unreachable!(),
    }
}
