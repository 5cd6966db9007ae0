//! Runs of worlds as tables of steps, with places and files worked out by hand.
ghost use Rattle.std.specs.Prelude.{◌≡◌};
ghost use Rattle.pot_bytes.specs.Rack.{IsRack};

use pot_actors::{Step, World, WorldFault};
use pot_bytes::{Block, Bytes, Geometry, Name, Place, Rack};
use std::alloc::Global;
use std::test::Fail;

/// One group of two data columns and one parity column, archives 0 to 2. A file of one piece has
/// two blocks, and its store takes 976 random bytes; one of two pieces has four, and takes 1,936.
const RACK: Rack = Rack {
    groups: 1,
    columns: 2,
    parity: 1,
    stripes: 8,
    geometry: Geometry {
        fragments: 2,
        need: 1,
        shards: 1,
        blur: 16,
    },
};

/// The same with a third data column.
const WIDE: Rack = Rack { columns: 3, ..RACK };

/// A step. Names are one byte, and a file is so many times one byte.
#[derive(Clone, Copy)]
enum Row {
    Store {
        actor: u32,
        name: u8,
        len: usize,
        random: usize,
    },
    Put(u32),
    Publish(u32),
    Abandon(u32),
    Fetch(u32, u8),
    Look(u32, u32, u8),
    Mend(u32, u8),
    Swap(u8, u32),
    Renew(u32, u8),
    Lose(u32, u32),
}

fn begin(alloc: Global, rack: &Rack) -> Result<World, Fail>
    requires { IsRack rack.now }
{
    match World::new(alloc, rack) {
        Ok(world) => Ok(world),
        Err(_) => Err(Fail::from("no memory")),
    }
}

fn name_of(byte: u8) -> Result<Name, Fail> {
    Ok(Name::read(&[byte]).ok_or("no name")?)
}

fn bytes(alloc: Global, byte: u8, len: usize) -> Result<Bytes, Fail> {
    Ok(Bytes::from_vec(vec![in alloc; byte; len]?))
}

fn place(stripe: u32, column: u8) -> Place {
    Place {
        group: 0,
        column,
        stripe,
    }
}

/// The store of a file whose bytes are its name.
fn store(alloc: Global, actor: u32, name: u8, len: usize, random: usize) -> Result<Step, Fail> {
    let named = name_of(name)?;
    let file = bytes(alloc, name, len)?;
    let random = bytes(alloc, 7, random)?;
    Ok(Step::Store {
        actor,
        name: named,
        file,
        random,
    })
}

/// The start of a renewal of a file of one piece.
fn renew(alloc: Global, actor: u32, name: u8) -> Result<Step, Fail> {
    let name = name_of(name)?;
    let random = bytes(alloc, 8, 976)?;
    Ok(Step::Renew {
        actor,
        name,
        geometry: RACK.geometry,
        random,
    })
}

fn step_of(alloc: Global, row: Row) -> Result<Step, Fail> {
    match row {
        Row::Store {
            actor,
            name,
            len,
            random,
        } => store(alloc, actor, name, len, random),
        Row::Put(actor) => Ok(Step::PutNext { actor }),
        Row::Publish(actor) => Ok(Step::Publish { actor }),
        Row::Abandon(actor) => Ok(Step::Abandon { actor }),
        Row::Fetch(actor, name) => Ok(Step::Fetch {
            actor,
            name: name_of(name)?,
        }),
        Row::Look(actor, stripe, column) => Ok(Step::LookAt {
            actor,
            place: place(stripe, column),
        }),
        Row::Mend(stripe, column) => Ok(Step::Mend {
            actor: 3,
            place: place(stripe, column),
            blind: Block::from_bytes([9; 1024]),
        }),
        Row::Swap(column, to) => Ok(Step::Swap {
            actor: 3,
            group: 0,
            column,
            to,
        }),
        Row::Renew(actor, name) => renew(alloc, actor, name),
        Row::Lose(archive, slot) => Ok(Step::Lose { archive, slot }),
    }
}

/// Runs the steps. It answers where they stopped.
fn play(alloc: Global, world: &mut World, rows: &[Row]) -> Result<Option<usize>, Fail> {
    let mut steps = Vec::new(alloc);
    for row in rows {
        steps.push(step_of(alloc, *row)?)?;
    }
    match world.run(alloc, &steps) {
        Ok(()) => Ok(None),
        Err(WorldFault::NotLegal { at }) => Ok(Some(at)),
        Err(WorldFault::NoMemory { at: _ }) => Err(Fail::from("no memory")),
    }
}

/// Whether all steps were made, and the actor then has a file of so many times the byte, or none
/// where that is 0.
fn gives(
    alloc: Global,
    world: &mut World,
    rows: &[Row],
    actor: u32,
    byte: u8,
    len: usize,
) -> Result<bool, Fail> {
    let stopped = play(alloc, world, rows)?;
    Ok(stopped.is_none() && has(world, actor, byte, len))
}

fn has(world: &World, actor: u32, byte: u8, len: usize) -> bool {
    match world.fetched(actor) {
        Some(file) => file.as_slice().len() == len && is_all(file.as_slice(), byte),
        None => byte == 0,
    }
}

fn is_all(bytes: &[u8], byte: u8) -> bool {
    bytes.iter().all(|b| *b == byte)
}

/// Two blocks in stripe 0, of which the first is lost. While it is mended, the blocks of `b` go on
/// in stripe 1.
const RELAY: [Row; 16] = [
    Row::Store {
        actor: 1,
        name: b'a',
        len: 5,
        random: 976,
    },
    Row::Put(1),
    Row::Put(1),
    Row::Publish(1),
    Row::Lose(0, 0),
    Row::Look(1, 0, 0),
    Row::Mend(0, 0),
    Row::Store {
        actor: 2,
        name: b'b',
        len: 865,
        random: 1936,
    },
    Row::Put(2),
    Row::Mend(0, 0),
    Row::Put(2),
    Row::Mend(0, 0),
    Row::Put(2),
    Row::Mend(0, 0),
    Row::Put(2),
    Row::Publish(2),
];

#[test]
fn puts_beside_a_relay(rt: HostRuntime) -> Result<(), Fail> {
    let alloc = rt.alloc();
    let mut world = begin(alloc, &WIDE)?;
    assert!(rt; play(alloc, &mut world, &RELAY)? == None);
    let first = [Row::Fetch(1, b'a'), Row::Look(1, 0, 0), Row::Look(1, 0, 1)];
    assert!(rt; gives(alloc, &mut world, &first, 1, b'a', 5)?);
    let most = [
        Row::Fetch(2, b'b'),
        Row::Look(2, 1, 0),
        Row::Look(2, 1, 1),
        Row::Look(2, 1, 2),
    ];
    assert!(rt; gives(alloc, &mut world, &most, 2, 0, 0)?);
    assert!(rt; gives(alloc, &mut world, &[Row::Look(2, 2, 0)], 2, b'b', 865)?);
    Ok(())
}

/// Two stores in turn, of which one is published a block too early.
const EARLY: [Row; 6] = [
    Row::Store {
        actor: 1,
        name: b'a',
        len: 5,
        random: 976,
    },
    Row::Store {
        actor: 2,
        name: b'b',
        len: 6,
        random: 976,
    },
    Row::Put(1),
    Row::Put(2),
    Row::Publish(1),
    Row::Put(1),
];

#[test]
fn alternating_puts(rt: HostRuntime) -> Result<(), Fail> {
    let alloc = rt.alloc();
    let mut world = begin(alloc, &RACK)?;
    assert!(rt; play(alloc, &mut world, &EARLY)? == Some(4));
    let rest = [
        Row::Put(1),
        Row::Put(2),
        Row::Publish(1),
        Row::Publish(2),
        Row::Fetch(1, b'a'),
        Row::Fetch(2, b'b'),
        Row::Look(1, 0, 0),
        Row::Look(2, 0, 1),
        Row::Look(1, 1, 0),
        Row::Look(2, 1, 1),
    ];
    assert!(rt; gives(alloc, &mut world, &rest, 1, b'a', 5)?);
    assert!(rt; has(&world, 2, b'b', 6));
    Ok(())
}

/// Actors 1 and 2 find a file, and one reads each block; the archive of the first column is
/// exchanged.
const SWAPPED: [Row; 9] = [
    Row::Store {
        actor: 3,
        name: b'a',
        len: 5,
        random: 976,
    },
    Row::Put(3),
    Row::Put(3),
    Row::Publish(3),
    Row::Fetch(1, b'a'),
    Row::Fetch(2, b'a'),
    Row::Swap(0, 3),
    Row::Look(1, 0, 0),
    Row::Look(2, 0, 1),
];

#[test]
fn two_that_fetch(rt: HostRuntime) -> Result<(), Fail> {
    let alloc = rt.alloc();
    let mut world = begin(alloc, &RACK)?;
    assert!(rt; gives(alloc, &mut world, &SWAPPED, 1, 0, 0)?);
    let mended = [
        Row::Mend(0, 0),
        Row::Mend(0, 0),
        Row::Mend(0, 0),
        Row::Mend(0, 0),
        Row::Look(1, 0, 0),
    ];
    assert!(rt; gives(alloc, &mut world, &mended, 1, 0, 0)?);
    assert!(rt; gives(alloc, &mut world, &[Row::Look(2, 0, 0)], 2, b'a', 5)?);
    let lost = [Row::Lose(1, 0), Row::Look(1, 0, 1)];
    assert!(rt; gives(alloc, &mut world, &lost, 1, 0, 0)?);
    assert!(rt; has(&world, 2, b'a', 5));
    assert!(rt; gives(alloc, &mut world, &[Row::Fetch(2, b'a')], 2, 0, 0)?);
    Ok(())
}

/// A store, of which an actor has read one block.
const HALF: [Row; 6] = [
    Row::Store {
        actor: 1,
        name: b'a',
        len: 5,
        random: 976,
    },
    Row::Put(1),
    Row::Put(1),
    Row::Publish(1),
    Row::Fetch(2, b'a'),
    Row::Look(2, 0, 0),
];

#[test]
fn a_renewal(rt: HostRuntime) -> Result<(), Fail> {
    let alloc = rt.alloc();
    let mut world = begin(alloc, &RACK)?;
    assert!(rt; play(alloc, &mut world, &HALF)? == None);
    assert!(rt; play(alloc, &mut world, &[Row::Renew(2, b'a')])? == Some(0));
    let renewed = [
        Row::Look(2, 0, 1),
        Row::Renew(2, b'a'),
        Row::Put(2),
        Row::Put(2),
        Row::Publish(2),
        Row::Fetch(1, b'a'),
        Row::Look(1, 1, 0),
        Row::Look(1, 1, 1),
    ];
    assert!(rt; gives(alloc, &mut world, &renewed, 1, b'a', 5)?);
    let given_up = [
        Row::Store {
            actor: 3,
            name: b'c',
            len: 4,
            random: 976,
        },
        Row::Abandon(3),
    ];
    assert!(rt; gives(alloc, &mut world, &given_up, 2, b'a', 5)?);
    Ok(())
}
