use pot_bytes::{Block, digest_of};
use pot_doubles::LossyArchive;
use pot_outside::{Archive, Failed, Held};
use pots_rescue::{Brought, bring};
use std::alloc::Global;
use std::test::Fail;

/// An archive that holds this byte 1,024 times in slot 3, if there is one. The calls of these
/// numbers fail.
fn archive_with(alloc: Global, byte: Option<u8>, fails: &[u32]) -> Result<LossyArchive, Fail> {
    let mut archive = LossyArchive::new(alloc, fails.to_vec(alloc)?, Vec::new(alloc));
    if let Some(byte) = byte {
        archive
            .write(3, &Block::from_bytes([byte; 1024]))
            .map_err(|_| "write")?;
    }
    Ok(archive)
}

/// A block of sevens is wanted. In each row: what the source holds, what the target held, the
/// answer, and what the target holds then.
#[test]
fn what_is_brought(rt: HostRuntime) -> Result<(), Fail> {
    let alloc = rt.alloc();
    let digest = digest_of(&[7; 1024]);
    let rows = [
        (Some(7), Some(9), Brought::Copied, Some(7)),
        (Some(7), None, Brought::Copied, Some(7)),
        (Some(7), Some(7), Brought::There, Some(7)),
        (None, Some(7), Brought::There, Some(7)),
        (Some(8), Some(9), Brought::Nowhere, Some(9)),
        (None, None, Brought::Nowhere, None),
    ];
    for (held, before, wanted, after) in rows {
        let mut from = archive_with(alloc, held, &[])?;
        let mut to = archive_with(alloc, before, &[])?;
        let brought = bring(digest, &mut from, 3, &mut to, 3);
        assert_eq!(rt; brought, Ok(wanted));
        let mut block = Block::zero();
        let there = to.read(3, &mut block);
        match after {
            Some(byte) => assert!(rt; there == Ok(Held::Held) && block.bytes()[9] == byte),
            None => assert!(rt; there == Ok(Held::Absent)),
        }
    }
    Ok(())
}

/// A session wrote over a block that was kept. It is put back, also where that failed first.
#[test]
fn kept_and_put_back(rt: HostRuntime) -> Result<(), Fail> {
    let alloc = rt.alloc();
    let digest = digest_of(&[7; 1024]);
    // Calls are counted from 0: a write before, a read to keep it, the session's write, and the
    // read and the write of a bringing back, which is to fail.
    let mut parity = archive_with(alloc, Some(7), &[4])?;
    let mut spare = archive_with(alloc, Some(9), &[])?;
    let kept = bring(digest, &mut parity, 3, &mut spare, 3);
    assert_eq!(rt; kept, Ok(Brought::Copied));
    let session = parity.write(3, &Block::from_bytes([1; 1024]));
    assert_eq!(rt; session, Ok(()));
    let stopped = bring(digest, &mut spare, 3, &mut parity, 3);
    assert_eq!(rt; stopped, Err(Failed));
    let again = bring(digest, &mut spare, 3, &mut parity, 3);
    assert_eq!(rt; again, Ok(Brought::Copied));
    let once_more = bring(digest, &mut spare, 3, &mut parity, 3);
    assert_eq!(rt; once_more, Ok(Brought::There));
    Ok(())
}
