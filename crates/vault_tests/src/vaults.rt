//! A vault of one group over archives in memory.
ghost use Rattle.std.specs.Prelude.{◌≡◌, ◌<◌, ◌+◌, ◌≤◌, [], IfOk, length};
ghost use Rattle.pot_bytes.specs.Rack.{IsRack};
ghost use Rattle.pot_doubles.specs.Archives.{meaning_in};
ghost use Rattle.pot_group.specs.Group.{view_of};
ghost use Rattle.pot_rows.specs.Ends.{HasAllParts};
ghost use Rattle.pot_rows.specs.Rows.{HasMoreParts};
ghost use Rattle.pot_shared.specs.Ready.{AreReady, HasSlot};
ghost use Rattle.pot_shared.specs.Catalogs.{IsIndexReady};
ghost use Rattle.pot_shared.specs.Sharing.{HasAllButKept, IsRackGroup};

use pot_bytes::{Block, Geometry, Name, Place, Rack};
use pot_doubles::{Loss, LossyArchive};
use pot_execution::TrackedGroup;
use pot_group::{Kind, Looked, Mend, MoveFault, MoveStep, Role, StartRefused, are_homes};
use pot_index::{FindFault, Index};
use pot_machine::GroupTable;
use pot_outside::Shelf;
use pot_pads::PadStream;
use pot_sealed::Sealed;
use pot_shared::*;
use std::alloc::Global;
use std::sync::Wait;
use std::test::Fail;

/// An empty archive with these losses.
fn shelf(alloc: Global, number: u32, lost: &[Loss]) -> Result<Shelf<LossyArchive>, Fail>
    ensures { IfOk result (λ s. s.number ≡ number) }
{
    let archive = LossyArchive::new(alloc, Vec::new(alloc), lost.to_vec(alloc)?);
    Ok(Shelf { number, archive })
}

/// The first group of a rack with one parity column, over empty archives, of which the first has
/// these losses.
fn member(alloc: Global, rack: &Rack, lost: &[Loss]) -> Result<Member<LossyArchive>, Fail>
    requires fits { IsRack rack.now }
    requires one { rack.now.groups ≡ 1 }
    requires parity { rack.now.parity ≡ 1 }
    ensures { IfOk result (λ m. IsRackGroup rack.now 0 (view_of meaning_in m.group)) }
{
    let Ok(table) = GroupTable::empty(alloc, rack, 0) else {
        return Err(Fail::from("no memory"));
    };
    let mut shelves = Vec::new(alloc);
    shelves.push(shelf(alloc, 0, lost)?)?;
    for number in 1..u32::from(rack.columns) + 1 {
        shelves.push(shelf(alloc, number, &[])?)?;
    }
    if !are_homes(table.columns(), &shelves) {
        return Err(Fail::from("the table is another one"));
    }
    match TrackedGroup::start(alloc, 0, table, shelves) {
        Ok(group) => Ok(Member { group }),
        Err(
            StartRefused {
                table: _,
                shelves: _,
            },
        ) => Err(Fail::from("no memory")),
    }
}

/// A vault of that group and an empty index.
fn vault(
    alloc: Global,
    rack: &Rack,
    lost: &[Loss],
) -> Result<
    (
        Vault<LossyArchive>,
        Passes<LossyArchive>,
        Spaces<LossyArchive>,
    ),
    Fail,
>
    requires fits { IsRack rack.now }
    requires one { rack.now.groups ≡ 1 }
    requires parity { rack.now.parity ≡ 1 }
    ensures rack { IfOk result (λ p. p.0.rack ≡ rack.now) }
    ensures count { IfOk result (λ p. length p.0.groups ≡ rack.now.groups) }
    ensures ready { IfOk result
        (λ p.
        AreReady rack.now p.0.groups p.1.groups
        × IsIndexReady rack.now p.0.groups p.0.index p.1.index) }
    ensures parts { IfOk result (λ p. HasAllButKept p.1.groups × HasAllParts p.1.index) }
    ensures room { IfOk result (λ p. length p.0.groups ≤ p.2) }
{
    let Ok(index) = Index::start(alloc, rack, Vec::new(alloc)) else {
        return Err(Fail::from("no memory"));
    };
    let mut members = Vec::new(alloc);
    members.push(member(alloc, rack, lost)?)?;
    match Vault::start(alloc, rack, members, index) {
        Ok(made) => Ok(made),
        Err(_) => Err(Fail::from("no memory")),
    }
}

/// The column that moves and is replaced.
const FIRST: ColumnAt = ColumnAt {
    group: 0,
    column: 0,
};

/// The first slot.
const PLACE: Place = Place {
    group: 0,
    column: 0,
    stripe: 0,
};

/// A rack of one group with one data column and one parity column.
fn rack() -> Result<Rack, Fail>
    ensures fits { IfOk result IsRack }
    ensures one { IfOk result (λ r. r.groups ≡ 1) }
    ensures parity { IfOk result (λ r. r.parity ≡ 1) }
{
    let geometry = Geometry {
        fragments: 2,
        need: 1,
        shards: 1,
        blur: 0,
    };
    let rack = Rack {
        groups: 1,
        columns: 1,
        parity: 1,
        stripes: 2,
        geometry,
    };
    if rack.fits() {
        Ok(rack)
    } else {
        Err(Fail::from("the rack does not fit"))
    }
}

#[test]
fn begins_and_ends(rt: HostRuntime) -> Result<(), Fail> {
    let rack = rack()?;
    let (vault, passes, spaces) = vault(rt.alloc(), &rack, &[])?;
    let Closed { members, index } = vault.close(passes, spaces);
    assert_eq!(rt; members.len(), 1);
    assert_eq!(rt; index.logged(), 0);
    Ok(())
}

#[test]
fn calls_of_a_job(rt: HostRuntime) -> Result<(), Fail> {
    let rack = rack()?;
    let alloc = rt.alloc();
    let (vault, mut passes, _spaces) = vault(alloc, &rack, &[])?;
    let Some(name) = Name::read(b"a") else {
        return Err(Fail::from("no name"));
    };
    assert!(rt; vault.reserve(&rt, &mut passes, 1, &name).is_ok());
    assert!(rt; vault.reserve(&rt, &mut passes, 2, &name).is_err());
    let listed = vault
        .names(&rt, alloc, &mut passes, 2)
        .map_err(|_| Fail::from("no memory"))?;
    assert_eq!(rt; listed.len(), 0);
    assert!(rt; vault.find(&rt, alloc, &mut passes, 2, &name).is_err());
    let block = Sealed::new(&Block::zero());
    let parity = block;
    let next = SealedPut {
        block,
        parity,
        column: 0,
    };
    assert_eq!(rt; vault.put(&rt, &mut passes, 0, 1, &next), Ok(PLACE));
    assert_eq!(rt;
        vault.next(&rt, &mut passes, PLACE, Kind::Live),
        Some(PLACE)
    );
    let swept = vault.sweep(&rt, &mut passes, 2, PLACE);
    assert_eq!(rt; (swept.seen, swept.gone), (2, 0));
    let mut into = Block::zero();
    assert_eq!(rt;
        vault.look(&rt, &mut passes, 2, PLACE, &mut into),
        Looked::Seen
    );
    let Ok(counts) = vault.count(&rt, &mut passes, 0, 3) else {
        return Err(Fail::from("the log is full"));
    };
    assert_eq!(rt; (counts.live, counts.lost, counts.stripe), (2, 0, 1));
    Ok(())
}

#[test]
fn passes_shared_out(rt: HostRuntime) -> Result<(), Fail> {
    let rack = rack()?;
    let alloc = rt.alloc();
    let (vault, mut passes, _spaces) = vault(alloc, &rack, &[])?;
    let Ok(mut given) = vault.split(alloc, &mut passes, 4) else {
        return Err(Fail::from("no memory"));
    };
    let Some(name) = Name::read(b"a") else {
        return Err(Fail::from("no name"));
    };
    assert!(rt; vault.reserve(&rt, &mut given, 1, &name).is_ok());
    assert!(rt; vault.reserve(&rt, &mut passes, 2, &name).is_err());
    vault.join(&mut passes, given);
    Ok(())
}

/// A vault of the rack whose first archive has these losses, and where a first block was put.
fn filled<R: Wait>(
    rt: &R,
    alloc: Global,
    rack: &Rack,
    lost: &[Loss],
) -> Result<(Vault<LossyArchive>, Passes<LossyArchive>), Fail>
    requires fits { IsRack rack.now }
    requires one { rack.now.groups ≡ 1 }
    requires parity { rack.now.parity ≡ 1 }
    ensures rack { IfOk result (λ p. p.0.rack ≡ rack.now) }
    ensures count { IfOk result (λ p. length p.0.groups ≡ rack.now.groups) }
    ensures ready { IfOk result (λ p. AreReady rack.now p.0.groups p.1.groups) }
{
    let (vault, mut passes, _spaces) = vault(alloc, rack, lost)?;
    let block = Sealed::new(&Block::from_bytes([0x11; 1024]));
    let parity = block;
    let next = SealedPut {
        block,
        parity,
        column: 0,
    };
    match vault.put(rt, &mut passes, 0, 1, &next) {
        Ok(_) => Ok((vault, passes)),
        Err(_) => Err(Fail::from("the block was not put")),
    }
}

#[test]
fn where_a_group_stands(rt: HostRuntime) -> Result<(), Fail> {
    let rack = rack()?;
    let (vault, mut passes) = filled(&rt, rt.alloc(), &rack, &[])?;
    assert_eq!(rt; cursor(&rt, &vault, &mut passes), (1, 0));
    Ok(())
}

/// The stripe and the column at which the first group stands.
fn cursor<R: Wait>(
    rt: &R,
    vault: &Vault<LossyArchive>,
    passes: &mut Passes<LossyArchive>,
) -> (u32, u8)
    requires ready { AreReady vault.now.rack vault.now.groups passes.old.groups }
    requires group { 0 < length vault.now.groups }
    ensures ready { AreReady vault.now.rack vault.now.groups passes.new.groups }
{
    let cursor = vault.standing(rt, passes, 0).cursor;
    (cursor.stripe, cursor.column)
}

/// Looks at the first slot: whether it is seen, with its first byte.
fn look<R: Wait>(
    rt: &R,
    vault: &Vault<LossyArchive>,
    passes: &mut Passes<LossyArchive>,
) -> (Looked, u8)
    requires ready { AreReady vault.now.rack vault.now.groups passes.old.groups }
    requires place { HasSlot vault.now.rack vault.now.groups
        (record { group = 0; column = 0; stripe = 0 }) }
    ensures ready { AreReady vault.now.rack vault.now.groups passes.new.groups }
{
    let mut into = Block::zero();
    let answer = vault.look(rt, passes, 2, PLACE, &mut into);
    (answer, into.bytes()[0])
}

/// Mends the first slot.
fn mend<R: Wait>(rt: &R, vault: &Vault<LossyArchive>, passes: &mut Passes<LossyArchive>) -> Mending
    requires ready { AreReady vault.now.rack vault.now.groups passes.old.groups }
    requires place { HasSlot vault.now.rack vault.now.groups
        (record { group = 0; column = 0; stripe = 0 }) }
    ensures ready { AreReady vault.now.rack vault.now.groups passes.new.groups }
{
    let mut pads = PadStream::new(&[0; 32], 0, 2);
    vault.mend_place(rt, passes, 2, PLACE, &mut pads)
}

/// The first column is to move to an empty archive.
fn begin_move<R: Wait>(
    rt: &R,
    alloc: Global,
    vault: &Vault<LossyArchive>,
    passes: &mut Passes<LossyArchive>,
    number: u32,
) -> Result<bool, Fail>
    requires ready { AreReady vault.now.rack vault.now.groups passes.old.groups }
    requires group { 0 < length vault.now.groups }
    requires column { 0 < vault.now.rack.columns + vault.now.rack.parity }
    ensures ready { AreReady vault.now.rack vault.now.groups passes.new.groups }
{
    let target = shelf(alloc, number, &[])?;
    Ok(vault.move_begin(rt, passes, 2, FIRST, target).is_ok())
}

/// One step of that move.
fn go_on<R: Wait>(
    rt: &R,
    vault: &Vault<LossyArchive>,
    passes: &mut Passes<LossyArchive>,
) -> Result<MoveStep, MoveFault>
    requires ready { AreReady vault.now.rack vault.now.groups passes.old.groups }
    requires group { 0 < length vault.now.groups }
    requires column { 0 < vault.now.rack.columns + vault.now.rack.parity }
    ensures ready { AreReady vault.now.rack vault.now.groups passes.new.groups }
{
    vault.move_step(rt, passes, 2, FIRST)
}

/// An empty archive replaces the home of the first column: how many slots were Live, if it does.
fn replace<R: Wait>(
    rt: &R,
    alloc: Global,
    vault: &Vault<LossyArchive>,
    passes: &mut Passes<LossyArchive>,
    number: u32,
) -> Result<Option<u32>, Fail>
    requires ready { AreReady vault.now.rack vault.now.groups passes.old.groups }
    requires group { 0 < length vault.now.groups }
    requires column { 0 < vault.now.rack.columns + vault.now.rack.parity }
    ensures ready { AreReady vault.now.rack vault.now.groups passes.new.groups }
{
    let home = shelf(alloc, number, &[])?;
    Ok(vault.swap(rt, passes, 2, FIRST, home).ok())
}

/// What the archive of a number is to its column.
fn role<R: Wait>(
    rt: &R,
    vault: &Vault<LossyArchive>,
    passes: &mut Passes<LossyArchive>,
    number: u32,
) -> Option<Role>
    requires ready { AreReady vault.now.rack vault.now.groups passes.old.groups }
    ensures ready { AreReady vault.now.rack vault.now.groups passes.new.groups }
{
    match vault.use_of(rt, passes, number) {
        Some(found) => Some(found.role),
        None => None,
    }
}

/// The column whose home the first archive is, and whether the second is in use.
fn trace<R: Wait>(
    rt: &R,
    vault: &Vault<LossyArchive>,
    passes: &mut Passes<LossyArchive>,
    from: u32,
    to: u32,
) -> (Option<u8>, bool)
    requires ready { AreReady vault.now.rack vault.now.groups passes.old.groups }
    ensures ready { AreReady vault.now.rack vault.now.groups passes.new.groups }
{
    let told = vault.trace(rt, passes, from, to);
    match told.home {
        Some(home) => (Some(home.column), told.taken),
        None => (None, told.taken),
    }
}

/// Archive 0 loses its block at its second call, which is the first look's read.
#[test]
fn a_place_is_mended(rt: HostRuntime) -> Result<(), Fail> {
    let rack = rack()?;
    let (vault, mut passes) = filled(&rt, rt.alloc(), &rack, &[Loss { call: 1, slot: 0 }])?;
    assert_eq!(rt; look(&rt, &vault, &mut passes).0, Looked::Gone);
    let mending = mend(&rt, &vault, &mut passes);
    assert_eq!(rt;
        (mending.end, mending.mended, mending.passed),
        (Mend::Whole, 1, 0)
    );
    assert_eq!(rt; look(&rt, &vault, &mut passes), (Looked::Seen, 0x11));
    Ok(())
}

#[test]
fn a_column_moves(rt: HostRuntime) -> Result<(), Fail> {
    let rack = rack()?;
    let (vault, mut passes) = filled(&rt, rt.alloc(), &rack, &[])?;
    assert!(rt; begin_move(&rt, rt.alloc(), &vault, &mut passes, 7)?);
    assert_eq!(rt; go_on(&rt, &vault, &mut passes), Ok(MoveStep::Copied));
    assert_eq!(rt; go_on(&rt, &vault, &mut passes), Ok(MoveStep::Passed));
    assert_eq!(rt; go_on(&rt, &vault, &mut passes), Ok(MoveStep::Ended));
    assert_eq!(rt; go_on(&rt, &vault, &mut passes), Err(MoveFault::Idle));
    Ok(())
}

#[test]
fn an_archive_is_replaced(rt: HostRuntime) -> Result<(), Fail> {
    let rack = rack()?;
    let (vault, mut passes) = filled(&rt, rt.alloc(), &rack, &[])?;
    assert_eq!(rt; replace(&rt, rt.alloc(), &vault, &mut passes, 9)?, Some(1));
    assert_eq!(rt; role(&rt, &vault, &mut passes, 0), Some(Role::Retired));
    assert_eq!(rt; role(&rt, &vault, &mut passes, 5), None);
    assert_eq!(rt; trace(&rt, &vault, &mut passes, 9, 0), (Some(0), true));
    Ok(())
}
