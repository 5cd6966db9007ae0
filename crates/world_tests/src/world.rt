//! Steps of one group, one after another, with their places worked out by hand.
ghost use Rattle.std.specs.Prelude.{◌≡◌};
ghost use Rattle.pot_bytes.specs.Rack.{IsRack};

use pot_bytes::{Block, Geometry, Place, Rack};
use pot_machine::Cursor;
use pot_world::{ActFault, GroupAct, Groups};
use std::alloc::Global;
use std::test::Fail;

/// One group of three data columns and one parity column: archives 0 to 3.
const RACK: Rack = Rack {
    groups: 1,
    columns: 3,
    parity: 1,
    stripes: 4,
    geometry: Geometry {
        fragments: 2,
        need: 1,
        shards: 1,
        blur: 16,
    },
};

/// The same with a second parity column: archives 0 to 4.
const DOUBLE: Rack = Rack { parity: 2, ..RACK };

fn begin(alloc: Global, rack: &Rack) -> Result<Groups, Fail>
    requires { IsRack rack.now }
{
    match Groups::new(alloc, rack) {
        Ok(groups) => Ok(groups),
        Err(_) => Err(Fail::from("no memory")),
    }
}

/// A block of which each byte is this one is put, and comes to this stripe and column.
fn put(alloc: Global, groups: &mut Groups, byte: u8, stripe: u32, column: u8) -> Result<(), Fail> {
    if !groups.has_group(0) {
        return Err(Fail::from("no group"));
    }
    match groups.put(alloc, 0, 1, &Block::from_bytes([byte; 1024])) {
        Ok(Some(cursor)) => {
            if cursor == (Cursor { stripe, column }) {
                Ok(())
            } else {
                Err(Fail::from("another place"))
            }
        }
        Ok(None) => Err(Fail::from("full")),
        Err(_) => Err(Fail::from("no memory")),
    }
}

fn look(stripe: u32, column: u8) -> GroupAct {
    GroupAct::Look {
        job: 1,
        stripe,
        column,
    }
}

fn mend(stripe: u32, column: u8) -> GroupAct {
    GroupAct::Mend {
        job: 1,
        stripe,
        column,
        blind: Block::from_bytes([9; 1024]),
    }
}

fn swap(column: u8, to: u32) -> GroupAct {
    GroupAct::Swap { job: 1, column, to }
}

/// The step is allowed, and made.
fn go(groups: &mut Groups, act: GroupAct) -> Result<(), Fail> {
    match groups.make(0, &act) {
        Ok(()) => Ok(()),
        Err(ActFault::NotAllowed) => Err(Fail::from("not allowed")),
        Err(ActFault::NoMemory) => Err(Fail::from("no memory")),
    }
}

fn is_refused(groups: &mut Groups, group: u8, act: GroupAct) -> bool {
    matches!(&groups.make(group, &act), Err(ActFault::NotAllowed))
}

/// The first byte of the block of a place, if the place is sound.
fn first_byte(groups: &Groups, stripe: u32, column: u8) -> Option<u8> {
    let place = Place {
        group: 0,
        column,
        stripe,
    };
    groups.sound(&place).map(|block| block.bytes()[0])
}

#[test]
fn puts_beside_a_relay(rt: HostRuntime) -> Result<(), Fail> {
    let alloc = rt.alloc();
    let mut groups = begin(alloc, &RACK)?;
    put(alloc, &mut groups, 10, 0, 0)?;
    put(alloc, &mut groups, 20, 0, 1)?;
    groups.lose(0, 0);
    go(&mut groups, look(0, 0))?;
    assert!(rt; first_byte(&groups, 0, 0) == None);
    // begun, then over column 1, over the parity column, and written; each put goes on in stripe 1
    go(&mut groups, mend(0, 0))?;
    put(alloc, &mut groups, 30, 1, 0)?;
    go(&mut groups, mend(0, 0))?;
    put(alloc, &mut groups, 40, 1, 1)?;
    go(&mut groups, mend(0, 0))?;
    put(alloc, &mut groups, 50, 1, 2)?;
    assert!(rt; first_byte(&groups, 0, 0) == None);
    go(&mut groups, mend(0, 0))?;
    assert!(rt; first_byte(&groups, 0, 0) == Some(10));
    assert!(rt; first_byte(&groups, 0, 3) == Some(30));
    Ok(())
}

#[test]
fn steps_that_are_not_allowed(rt: HostRuntime) -> Result<(), Fail> {
    let alloc = rt.alloc();
    let mut groups = begin(alloc, &RACK)?;
    put(alloc, &mut groups, 10, 0, 0)?;
    assert!(rt; is_refused(&mut groups, 1, look(0, 0)));
    assert!(rt; is_refused(&mut groups, 0, look(4, 0)));
    assert!(rt; is_refused(&mut groups, 0, mend(0, 4)));
    assert!(rt; is_refused(&mut groups, 0, swap(1, 3)));
    assert!(rt; is_refused(&mut groups, 0, GroupAct::MoveOne { job: 1, column: 0 }));
    go(
        &mut groups,
        GroupAct::MoveBegin {
            job: 1,
            column: 0,
            to: 4,
        },
    )?;
    assert!(rt;
        is_refused(
            &mut groups,
            0,
            GroupAct::MoveBegin {
                job: 1,
                column: 0,
                to: 5
            }
        )
    );
    assert!(rt; is_refused(&mut groups, 0, swap(1, 4)));
    go(&mut groups, GroupAct::MoveOne { job: 1, column: 0 })?;
    groups.lose(0, 0);
    assert!(rt; first_byte(&groups, 0, 0) == Some(10));
    Ok(())
}

#[test]
fn two_blocks_lost(rt: HostRuntime) -> Result<(), Fail> {
    let alloc = rt.alloc();
    let mut groups = begin(alloc, &DOUBLE)?;
    put(alloc, &mut groups, 10, 0, 0)?;
    put(alloc, &mut groups, 20, 0, 1)?;
    put(alloc, &mut groups, 30, 0, 2)?;
    groups.lose(0, 0);
    go(&mut groups, look(0, 0))?;
    go(&mut groups, swap(1, 5))?;
    for _ in 0..5 {
        go(&mut groups, mend(0, 0))?;
    }
    assert!(rt; first_byte(&groups, 0, 0) == Some(10));
    assert!(rt; first_byte(&groups, 0, 1) == None);
    for _ in 0..6 {
        go(&mut groups, mend(0, 1))?;
    }
    assert!(rt; first_byte(&groups, 0, 1) == Some(20));
    Ok(())
}
