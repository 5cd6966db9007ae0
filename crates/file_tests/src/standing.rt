//! How a desk stands, by the header of its file alone.

use pots_vault::{DeskStanding, desk_standing};
use std::fs::File;
use std::os::unix::fs::FileExt;
use std::test::Fail;
use std::{fs, io};

/// Where the slots begin.
const STARTS: [u64; 2] = [4096, 4096 + (1 << 30)];

/// A desk with these gates, and with a generation and a length in each slot. The images are zeros,
/// but for the last 32 bytes of that in the first slot, which are 170.
fn make_desk(rt: &HostRuntime, gates: [u8; 2], slots: [(u64, u64); 2]) -> io::Result<()> {
    let file = File::create(rt, "desk.pss")?;
    file.set_len(2 << 30)?;
    let end = slots[0].1.min(1 << 20).saturating_add(4096 + 16);
    file.write_all_at(&[170; 32], end.saturating_sub(32))?;
    for (start, (generation, length)) in STARTS.iter().zip(slots.iter()) {
        file.write_all_at(&generation.to_be_bytes(), *start)?;
        file.write_all_at(&length.to_be_bytes(), start.saturating_add(8))?;
    }
    file.write_all_at(&gates, 0)
}

/// Its generation, its length, and the first byte of its digest.
fn numbers_of(standing: Option<DeskStanding>) -> Option<(u64, u64, u8)> {
    let standing = standing?;
    Some((
        standing.generation,
        standing.length,
        standing.digest.bytes[0],
    ))
}

#[test]
fn how_a_desk_stands(rt: HostRuntime) -> Result<(), Fail> {
    let rows = [
        ([0, 0], [(1, 100), (2, 200)], None),
        ([2, 0], [(1, 100), (2, 200)], None),
        ([1, 0], [(1, 100), (2, 200)], Some((1, 100, 170))),
        ([0, 1], [(1, 100), (2, 200)], Some((2, 200, 0))),
        ([1, 1], [(1, 100), (2, 200)], Some((2, 200, 0))),
        ([1, 1], [(3, 100), (2, 200)], Some((3, 100, 170))),
        ([1, 1], [(5, 100), (5, 200)], Some((5, 100, 170))),
        ([1, 1], [(9, 1 << 30), (2, 200)], Some((2, 200, 0))),
        ([1, 0], [(1, 32), (2, 200)], Some((1, 32, 170))),
        ([1, 0], [(1, 31), (2, 200)], None),
    ];
    for (gates, slots, wanted) in rows {
        make_desk(&rt, gates, slots)?;
        let found = numbers_of(desk_standing(&rt, "desk.pss"));
        assert!(rt; found == wanted, "gates {} and {}", gates[0], gates[1]);
    }
    fs::remove_file(&rt, "desk.pss")?;
    assert!(rt; desk_standing(&rt, "desk.pss").is_none());
    assert!(rt; desk_standing(&rt, ".").is_none());
    Ok(())
}
