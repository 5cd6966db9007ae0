//! The puts of a store.
ghost use Rattle.std.specs.Prelude.{◌≡◌, ◌<◌, ◌≤◌, [], IfOk, IfErr, length};
ghost use Rattle.std.specs.Vec.{vec_capacity};
ghost use Rattle.pot_bytes.specs.Rack.{IsGeometry};
ghost use Rattle.pot_rows.specs.Works.{RowWroteOnlyFor, RowOnlyWriterOf};
ghost use Rattle.pot_shared.specs.Connections.{InGroups, job_of, knows, names_of, rack_of};
ghost use Rattle.pot_shared.specs.Works.{of_job, OnlySaw};
ghost use Rattle.pot_store.specs.Drawing.{all_blocks, count_of};
ghost use Rattle.pot_store.specs.Puts.{ArePut, PutsEnd};

use crate::sealing::SealedDrawing;
use pot_bytes::{Geometry, Place};
use pot_group::PutFault;
use pot_index::group_of;
use pot_outside::Archive;
use pot_shared::Connection;
use std::sync::Wait;

/// The put that a store ended at.
#[derive(Clone, Copy, PartialEq, Eq, Debug)]
pub(crate) struct Stopped {
    pub group: u8,
    pub cause: PutFault,
}

/// Sees where the groups of the next two puts stand, each in one turn, where others put into a
/// group in between. It logs nothing.
fn look_ahead<A: Archive, R: Wait>(
    connection: &mut Connection<'_, A, R>,
    drawing: &mut SealedDrawing,
    groups: (u8, u8),
)
    requires first { groups.0 < length (names_of connection.old) }
    requires second { groups.1 < length (names_of connection.old) }
    ensures saw { InGroups (λ b. OnlySaw) connection.old connection.new }
    ensures drawing { drawing.new ≡ drawing.old }
{
    if !drawing.looks_ahead() {
        return;
    }
    let first = connection.standing(groups.0);
    drawing.see(groups.0, &first);
    let second = connection.standing(groups.1);
    drawing.see(groups.1, &second);
}

/// Puts the blocks of a split of this geometry, each into its own group, in order, and notes where
/// they stand.
///
/// # Errors
/// The first put that is refused.
pub(crate) fn put_all<A: Archive, R: Wait>(
    connection: &mut Connection<'_, A, R>,
    geometry: &Geometry,
    drawing: &mut SealedDrawing,
    count: u32,
    places: &mut Vec<Place>,
) -> Result<(), Stopped>
    requires geometry { IsGeometry geometry.now }
    requires drawing { drawing.old.geometry ≡ geometry.now }
    requires first { drawing.old.next ≡ 0 }
    requires count { count ≡ count_of drawing.old }
    requires few { count ≤ 131072 }
    requires room { (places.old.items ≡ []) × (count ≤ vec_capacity places.old) }
    ensures worked { InGroups (λ b. RowWroteOnlyFor (of_job b.job)) connection.old connection.new }
    ensures put { IfOk result (λ _. (length places.new.items ≡ count)
        × ArePut (rack_of connection.old) geometry.now (job_of connection.old) (all_blocks drawing.old)
        places.new.items (knows connection.old).groups (knows connection.new).groups) }
    ensures ends { IfErr result (λ e.
        RowOnlyWriterOf (of_job (job_of connection.old)) (knows connection.old).groups (knows connection.new).groups
        → PutsEnd (rack_of connection.old) geometry.now (job_of connection.old) (all_blocks drawing.old)
        e.group e.cause (knows connection.old).groups (knows connection.new).groups) }
{
    let rack = connection.rack();
    for number in 0..count {
        let group = group_of(rack, geometry, number);
        let groups = (group, group_of(rack, geometry, number + 1));
        look_ahead(connection, drawing, groups);
        let next = drawing.next(groups);
        match connection.put(group, &next) {
            Ok(place) => {
                drawing.note(place, &next);
                places.push_reserved(place);
            }
            Err(cause) => return Err(Stopped { group, cause }),
        }
    }
    Ok(())
}
