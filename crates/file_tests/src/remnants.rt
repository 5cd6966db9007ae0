use pot_remnants::{Linked, inside_slots};
use std::test::Fail;

// A shard of a ring of three by its archive, its slot, its point, its name and its pointer.
fn shard(archive: u32, slot: u32, point: u8, name: u64, pointer: u64) -> Linked {
    Linked {
        archive,
        slot,
        need: 2,
        shards: 3,
        point,
        name,
        pointer,
    }
}

// The slots of an archive that are told.
fn told(slots: &[Vec<u32>], archive: usize) -> &[u32] {
    match slots.get(archive) {
        Some(own) => own,
        None => &[],
    }
}

#[test]
fn a_ring_over_three_archives_stays(rt: HostRuntime) -> Result<(), Fail> {
    let ring = [
        shard(0, 0, 1, 10, 20),
        shard(1, 0, 2, 20, 30),
        shard(2, 0, 3, 30, 10),
    ];
    let slots = inside_slots(rt.alloc(), &ring, 3)?;
    for own in slots.iter() {
        assert!(rt; own.is_empty());
    }
    Ok(())
}

#[test]
fn a_ring_in_one_archive_is_told(rt: HostRuntime) -> Result<(), Fail> {
    let rings = [
        shard(0, 0, 1, 10, 20),
        shard(1, 0, 2, 20, 30),
        shard(2, 0, 3, 30, 10),
        shard(1, 4, 1, 40, 50),
        shard(1, 5, 2, 50, 60),
        shard(1, 6, 3, 60, 40),
    ];
    let slots = inside_slots(rt.alloc(), &rings, 3)?;
    assert_eq!(rt; told(&slots, 1), [4, 5, 6].as_slice());
    assert!(rt; told(&slots, 0).is_empty() && told(&slots, 2).is_empty());
    Ok(())
}

// A forger copies the name and the pointer of a shard of his archive: it is led to from elsewhere,
// and the one that he links to it is not.
#[test]
fn a_ring_that_begins_as_a_real_one_is_told(rt: HostRuntime) -> Result<(), Fail> {
    let rings = [
        shard(0, 0, 1, 10, 20),
        shard(1, 0, 2, 20, 30),
        shard(2, 0, 3, 30, 10),
        shard(0, 4, 1, 10, 20),
        shard(0, 5, 2, 20, 70),
        shard(0, 6, 3, 70, 10),
    ];
    let slots = inside_slots(rt.alloc(), &rings, 3)?;
    assert_eq!(rt; told(&slots, 0), [5, 6].as_slice());
    Ok(())
}
