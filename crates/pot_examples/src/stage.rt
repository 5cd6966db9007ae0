//! The stage of a test: a vault of one group over archives in memory.
ghost use Rattle.std.specs.Prelude.{◌≡◌, ◌≤◌, [], IfOk, length};
ghost use Rattle.pot_bytes.specs.Rack.{IsRack};
ghost use Rattle.pot_doubles.specs.Archives.{meaning_in};
ghost use Rattle.pot_group.specs.Group.{view_of};
ghost use Rattle.pot_rows.specs.Ends.{HasAllParts};
ghost use Rattle.pot_shared.specs.Ready.{AreReady};
ghost use Rattle.pot_shared.specs.Catalogs.{IsIndexReady};
ghost use Rattle.pot_shared.specs.Sharing.{HasAllButKept, IsRackGroup};

use pot_bytes::{Geometry, Rack};
use pot_doubles::LossyArchive;
use pot_execution::TrackedGroup;
use pot_group::{StartRefused, are_homes};
use pot_index::Index;
use pot_machine::GroupTable;
use pot_outside::Shelf;
use pot_shared::{Member, Passes, Spaces, Vault};
use std::alloc::Global;
use std::test::Fail;

/// A rack of one group with one data column and one parity column, of two stripes.
pub(crate) fn rack() -> Result<Rack, Fail>
    ensures fits { IfOk result IsRack }
    ensures one { IfOk result (λ r. r.groups ≡ 1) }
    ensures parity { IfOk result (λ r. r.parity ≡ 1) }
{
    let geometry = Geometry {
        fragments: 2,
        need: 1,
        shards: 1,
        blur: 0,
    };
    let rack = Rack {
        groups: 1,
        columns: 1,
        parity: 1,
        stripes: 2,
        geometry,
    };
    if rack.fits() {
        Ok(rack)
    } else {
        Err(Fail::from("the rack does not fit"))
    }
}

/// An empty archive.
fn shelf(alloc: Global, number: u32) -> Shelf<LossyArchive>
    ensures { result.number ≡ number }
{
    let archive = LossyArchive::new(alloc, Vec::new(alloc), Vec::new(alloc));
    Shelf { number, archive }
}

/// The group of such a rack, over empty archives.
fn member(alloc: Global, rack: &Rack) -> Result<Member<LossyArchive>, Fail>
    requires fits { IsRack rack.now }
    requires one { rack.now.groups ≡ 1 }
    requires parity { rack.now.parity ≡ 1 }
    ensures { IfOk result (λ m. IsRackGroup rack.now 0 (view_of meaning_in m.group)) }
{
    let Ok(table) = GroupTable::empty(alloc, rack, 0) else {
        return Err(Fail::from("no memory"));
    };
    let shelves = vec![in alloc; shelf(alloc, 0), shelf(alloc, 1)]?;
    if !are_homes(table.columns(), &shelves) {
        return Err(Fail::from("the table is another one"));
    }
    match TrackedGroup::start(alloc, 0, table, shelves) {
        Ok(group) => Ok(Member { group }),
        Err(
            StartRefused {
                table: _,
                shelves: _,
            },
        ) => Err(Fail::from("no memory")),
    }
}

/// A vault of that group and an empty index.
pub(crate) fn vault(
    alloc: Global,
    rack: &Rack,
) -> Result<
    (
        Vault<LossyArchive>,
        Passes<LossyArchive>,
        Spaces<LossyArchive>,
    ),
    Fail,
>
    requires fits { IsRack rack.now }
    requires one { rack.now.groups ≡ 1 }
    requires parity { rack.now.parity ≡ 1 }
    ensures rack { IfOk result (λ p. p.0.rack ≡ rack.now) }
    ensures count { IfOk result (λ p. length p.0.groups ≡ rack.now.groups) }
    ensures ready { IfOk result (λ p. AreReady rack.now p.0.groups p.1.groups
        × IsIndexReady rack.now p.0.groups p.0.index p.1.index) }
    ensures parts { IfOk result (λ p. HasAllButKept p.1.groups × HasAllParts p.1.index) }
    ensures room { IfOk result (λ p. length p.0.groups ≤ p.2) }
{
    let Ok(index) = Index::start(alloc, rack, Vec::new(alloc)) else {
        return Err(Fail::from("no memory"));
    };
    let mut members = Vec::new(alloc);
    members.push(member(alloc, rack)?)?;
    match Vault::start(alloc, rack, members, index) {
        Ok(made) => Ok(made),
        Err(_) => Err(Fail::from("no memory")),
    }
}
