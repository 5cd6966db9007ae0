//! The stage of the tests: a vault of one group of one data column and one parity column, over
//! archives in memory.
ghost use Rattle.std.specs.Prelude.{◌≡◌, ◌<◌, IfOk, length};
ghost use Rattle.pot_bytes.specs.Rack.{IsRack};
ghost use Rattle.pot_doubles.specs.Archives.{meaning_in};
ghost use Rattle.pot_group.specs.Group.{view_of};
ghost use Rattle.pot_shared.specs.Ready.{AreReady};
ghost use Rattle.pot_shared.specs.Sharing.{IsRackGroup};

use pot_bytes::{Block, Geometry, Rack};
use pot_doubles::{Loss, LossyArchive};
use pot_execution::TrackedGroup;
use pot_group::{StartRefused, are_homes};
use pot_index::Index;
use pot_machine::GroupTable;
use pot_outside::Shelf;
use pot_sealed::Sealed;
use pot_shared::{Member, Passes, SealedPut, Vault};
use std::alloc::Global;
use std::sync::Wait;
use std::test::Fail;

/// A rack of one group with one data column and one parity column.
pub(crate) fn rack(stripes: u32) -> Result<Rack, Fail>
    ensures fits { IfOk result IsRack }
    ensures one { IfOk result (λ r. r.groups ≡ 1) }
    ensures parity { IfOk result (λ r. r.parity ≡ 1) }
{
    let geometry = Geometry {
        fragments: 2,
        need: 1,
        shards: 1,
        blur: 0,
    };
    let rack = Rack {
        groups: 1,
        columns: 1,
        parity: 1,
        stripes,
        geometry,
    };
    if rack.fits() {
        Ok(rack)
    } else {
        Err(Fail::from("the rack does not fit"))
    }
}

/// An empty archive with these failing calls and losses.
pub(crate) fn shelf(
    alloc: Global,
    number: u32,
    failing: &[u32],
    lost: &[Loss],
) -> Result<Shelf<LossyArchive>, Fail>
    ensures { IfOk result (λ s. s.number ≡ number) }
{
    let archive = LossyArchive::new(alloc, failing.to_vec(alloc)?, lost.to_vec(alloc)?);
    Ok(Shelf { number, archive })
}

/// The first group of a rack with one parity column, over empty archives, of which the first has
/// these failing calls and losses.
fn member(
    alloc: Global,
    rack: &Rack,
    failing: &[u32],
    lost: &[Loss],
) -> Result<Member<LossyArchive>, Fail>
    requires fits { IsRack rack.now }
    requires one { rack.now.groups ≡ 1 }
    requires parity { rack.now.parity ≡ 1 }
    ensures { IfOk result (λ m. IsRackGroup rack.now 0 (view_of meaning_in m.group)) }
{
    let Ok(table) = GroupTable::empty(alloc, rack, 0) else {
        return Err(Fail::from("no memory"));
    };
    let mut shelves = Vec::new(alloc);
    shelves.push(shelf(alloc, 0, failing, lost)?)?;
    for number in 1..u32::from(rack.columns) + 1 {
        shelves.push(shelf(alloc, number, &[], &[])?)?;
    }
    if !are_homes(table.columns(), &shelves) {
        return Err(Fail::from("the table is another one"));
    }
    match TrackedGroup::start(alloc, 0, table, shelves) {
        Ok(group) => Ok(Member { group }),
        Err(
            StartRefused {
                table: _,
                shelves: _,
            },
        ) => Err(Fail::from("no memory")),
    }
}

/// A vault of that group and an empty index.
pub(crate) fn vault(
    alloc: Global,
    rack: &Rack,
    failing: &[u32],
    lost: &[Loss],
) -> Result<(Vault<LossyArchive>, Passes<LossyArchive>), Fail>
    requires fits { IsRack rack.now }
    requires one { rack.now.groups ≡ 1 }
    requires parity { rack.now.parity ≡ 1 }
    ensures rack { IfOk result (λ p. p.0.rack ≡ rack.now) }
    ensures count { IfOk result (λ p. length p.0.groups ≡ rack.now.groups) }
    ensures ready { IfOk result (λ p. AreReady rack.now p.0.groups p.1.groups) }
{
    let Ok(index) = Index::start(alloc, rack, Vec::new(alloc)) else {
        return Err(Fail::from("no memory"));
    };
    let mut members = Vec::new(alloc);
    members.push(member(alloc, rack, failing, lost)?)?;
    match Vault::start(alloc, rack, members, index) {
        Ok((vault, passes, _spaces)) => Ok((vault, passes)),
        Err(_) => Err(Fail::from("no memory")),
    }
}

/// Puts so many blocks.
fn put_blocks<R: Wait>(
    rt: &R,
    vault: &Vault<LossyArchive>,
    passes: &mut Passes<LossyArchive>,
    count: u8,
) -> Result<(), Fail>
    requires ready { AreReady vault.now.rack vault.now.groups passes.old.groups }
    requires group { 0 < length vault.now.groups }
    requires parity { vault.now.rack.parity ≡ 1 }
    ensures ready { AreReady vault.now.rack vault.now.groups passes.new.groups }
{
    for number in 0..count {
        let block = Sealed::new(&Block::from_bytes([number.wrapping_add(0x11); 1024]));
        let parity = block;
        let next = SealedPut {
            block,
            parity,
            column: 0,
        };
        if vault.put(rt, passes, 0, 1, &next).is_err() {
            return Err(Fail::from("the block was not put"));
        }
    }
    Ok(())
}

/// The vault where so many blocks were put.
pub(crate) fn filled<R: Wait>(
    rt: &R,
    alloc: Global,
    rack: &Rack,
    puts: u8,
    failing: &[u32],
    lost: &[Loss],
) -> Result<(Vault<LossyArchive>, Passes<LossyArchive>), Fail>
    requires fits { IsRack rack.now }
    requires one { rack.now.groups ≡ 1 }
    requires parity { rack.now.parity ≡ 1 }
    ensures rack { IfOk result (λ p. p.0.rack ≡ rack.now) }
    ensures count { IfOk result (λ p. length p.0.groups ≡ rack.now.groups) }
    ensures ready { IfOk result (λ p. AreReady rack.now p.0.groups p.1.groups) }
{
    let (vault, mut passes) = vault(alloc, rack, failing, lost)?;
    put_blocks(rt, &vault, &mut passes, puts)?;
    Ok((vault, passes))
}
