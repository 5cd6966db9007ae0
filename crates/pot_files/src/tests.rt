//! Archives in files, and what is told.

use crate::advice::advice_at;
use crate::archive::FileArchive;
use crate::folder::Folder;
use crate::opening::{as_it_is, is_refused, open_apart, to_read};
use crate::seed::drawn;
use pot_bytes::Block;
use pot_outside::{Archive, Held, Room, RoomFault};
use std::io::ErrorKind;
use std::os::unix::fs::symlink;
use std::test::Fail;
use std::{fs, io};

#[test]
fn an_archive_in_a_file(rt: HostRuntime) -> Result<(), Fail> {
    let mut room = Folder::new(&rt);
    let mut archive = room.take(7)?;
    let mut into = Block::zero();
    assert!(rt; archive.read(0, &mut into) == Ok(Held::Absent));
    let block = Block::from_bytes([0x5a; 1024]);
    assert!(rt; archive.write(2, &block).is_ok());
    let slots = [
        (0, Held::Absent),
        (1, Held::Absent),
        (2, Held::Held),
        (3, Held::Absent),
        (u32::MAX, Held::Absent),
    ];
    for (slot, held) in slots {
        assert!(rt; archive.read(slot, &mut into) == Ok(held));
    }
    assert!(rt; into.bytes() == block.bytes());
    assert!(rt; archive.fold(2, 1, &mut into) == Ok(Held::Held));
    assert!(rt; into.bytes() == Block::zero().bytes());
    assert!(rt; room.give(7, archive).is_ok());
    let bytes = fs::read(&rt, "archive-7")?;
    fs::remove_file(&rt, "archive-7")?;
    assert_eq!(rt; bytes.len(), 3075);
    let places = [
        (0, 0),
        (1025, 0),
        (2049, 0),
        (2050, 1),
        (2051, 0x5a),
        (3074, 0x5a),
    ];
    for (place, byte) in places {
        assert!(rt; bytes.get(place).copied() == Some(byte));
    }
    Ok(())
}

#[test]
fn an_archive_that_is_taken_again_has_its_blocks(rt: HostRuntime) -> Result<(), Fail> {
    let mut room = Folder::new(&rt);
    let mut archive = room.take(8)?;
    let block = Block::from_bytes([0x3c; 1024]);
    assert!(rt; archive.write(1, &block).is_ok());
    assert!(rt; room.give(8, archive).is_ok());
    let mut again = room.take(8)?;
    let mut into = Block::zero();
    let held = again.read(1, &mut into);
    fs::remove_file(&rt, "archive-8")?;
    assert!(rt; held == Ok(Held::Held));
    assert!(rt; into.bytes() == block.bytes());
    Ok(())
}

#[test]
fn a_link_is_followed_and_stays(rt: HostRuntime) -> Result<(), Fail> {
    fs::write(&rt, "elsewhere", "")?;
    symlink(&rt, "elsewhere", "archive-9")?;
    let mut room = Folder::new(&rt);
    let mut archive = room.take(9)?;
    let written = archive.write(0, &Block::from_bytes([0x77; 1024])).is_ok();
    let given = room.give(9, archive).is_ok();
    let stays = fs::symlink_metadata(&rt, "archive-9")?.is_symlink();
    let bytes = fs::read(&rt, "elsewhere")?;
    fs::remove_file(&rt, "archive-9")?;
    fs::remove_file(&rt, "elsewhere")?;
    assert!(rt; written && given && stays);
    assert_eq!(rt; bytes.len(), 1025);
    assert!(rt; bytes.get(1024).copied() == Some(0x77));
    Ok(())
}

#[test]
fn an_archive_behind_a_link_that_leads_nowhere_is_not_made(rt: HostRuntime) -> Result<(), Fail> {
    symlink(&rt, "nowhere", "archive-11")?;
    let refused = Folder::new(&rt)
        .take(11)
        .is_err_and(|fault| fault == RoomFault::Failed);
    let none_made = fs::metadata(&rt, "nowhere").is_err();
    fs::write(&rt, "nowhere", "")?;
    let taken = Folder::new(&rt).take(11).is_ok();
    fs::remove_file(&rt, "archive-11")?;
    fs::remove_file(&rt, "nowhere")?;
    assert!(rt; refused && none_made && taken);
    Ok(())
}

/// What is written to `/dev/null` is taken, and a sync of it fails: a fault where something was.
#[test]
fn a_failed_sync_is_a_fault_of_what_was_written(rt: HostRuntime) -> Result<(), Fail> {
    for was_written in [false, true] {
        let file = open_apart(&rt, &as_it_is(false), "/dev/null")?;
        let mut archive = FileArchive::new(file);
        if was_written {
            assert!(rt; archive.write(0, &Block::zero()).is_ok());
        }
        assert!(rt;
            archive.sync().is_ok() != was_written,
            "written: {was_written}"
        );
        assert!(rt; (archive.marks().faults == 0) != was_written);
    }
    Ok(())
}

/// A disk that can only be read: reads go on, and a write is a fault.
#[test]
fn an_archive_that_can_only_be_read(rt: HostRuntime) -> Result<(), Fail> {
    let mut bytes = vec![in rt.alloc(); 0x44u8; 1025]?;
    bytes[0] = 1;
    fs::write(&rt, "only-read", &bytes)?;
    let file = open_apart(&rt, &to_read(), "only-read")?;
    let mut archive = FileArchive::named(&rt, 12, file, false);
    let mut into = Block::zero();
    let held = archive.read(0, &mut into) == Ok(Held::Held);
    let absent = archive.read(1, &mut into) == Ok(Held::Absent);
    let before = archive.marks().faults;
    let written = archive.write(0, &Block::zero()).is_ok();
    let synced = archive.sync().is_ok();
    let same = fs::read(&rt, "only-read")?.as_slice() == bytes.as_slice();
    fs::remove_file(&rt, "only-read")?;
    assert!(rt; held && absent && !written && synced && same);
    assert_eq!(rt; (before, archive.marks().faults), (0, 1));
    Ok(())
}

#[test]
fn what_refuses_to_be_written_may_be_read(rt: HostRuntime) {
    let kinds = [
        (ErrorKind::ReadOnlyFilesystem, true),
        (ErrorKind::PermissionDenied, true),
        (ErrorKind::NotFound, false),
        (ErrorKind::StorageFull, false),
        (ErrorKind::Interrupted, false),
    ];
    for (kind, is_refusal) in kinds {
        assert!(rt; is_refused(kind) == is_refusal);
    }
}

/// So many bytes, of which those at the places of slots are these.
fn slots_of(rt: &HostRuntime, length: usize, firsts: &[u8]) -> io::Result<Vec<u8>> {
    let mut bytes = vec![in rt.alloc(); 0x6du8; length]?;
    for (at, first) in firsts.iter().enumerate() {
        if let Some(place) = bytes.get_mut(at.saturating_mul(1025)) {
            *place = *first;
        }
    }
    Ok(bytes)
}

/// A file behind a link is taken where it is empty or most of its slots begin as an archive's do.
#[test]
fn a_link_to_a_file_that_is_no_archive(rt: HostRuntime) -> Result<(), Fail> {
    let cases: [(usize, &[u8], bool); 9] = [
        (0, &[], true),
        (5, &[], false),
        (1025, &[1], true),
        (1025, &[0x6d], false),
        (3075, &[0, 1, 1], true),
        (3075, &[0, 0x6d, 1], true),
        (2000, &[1, 1], true),
        (200_000, &[], false),
        (200_000, &[1, 1, 0, 0], false),
    ];
    for (length, firsts, is_taken) in cases {
        let bytes = slots_of(&rt, length, firsts)?;
        fs::write(&rt, "letter", &bytes)?;
        symlink(&rt, "letter", "archive-13")?;
        let taken = Folder::new(&rt).take(13).is_ok();
        let same = fs::read(&rt, "letter")?.as_slice() == bytes.as_slice();
        fs::remove_file(&rt, "archive-13")?;
        fs::remove_file(&rt, "letter")?;
        assert!(rt; same && taken == is_taken, "at {length} bytes");
    }
    Ok(())
}

#[test]
fn each_status_that_leaves_something_to_do_has_its_line(rt: HostRuntime) {
    let lines = [
        (4, "standard input", "an input that can be read"),
        (5, "standard output", "an output that is open and has room"),
        (6, "the desk", "no other run works in this folder"),
        (8, "archive file", "each archive-N can be read and written"),
        (70, "memory ran out", "more memory"),
    ];
    for (status, happened, to_do) in lines {
        let line = advice_at(status).unwrap_or("");
        assert!(rt;
            line.contains(happened) && line.contains(to_do),
            "at {status}"
        );
    }
    for status in [0, 1, 2, 3, 7, 9, 10, 11] {
        assert!(rt; advice_at(status).is_none(), "at {status}");
    }
}

#[test]
fn two_seeds_differ(rt: HostRuntime) -> Result<(), Fail> {
    let first = drawn(&rt)?;
    let second = drawn(&rt)?;
    assert!(rt; first != second);
    Ok(())
}

/// A folder and devices, in the place of an archive.
#[test]
fn what_is_no_file_is_no_archive(rt: HostRuntime) -> Result<(), Fail> {
    for target in [".", "/dev/zero", "/dev/null", "/dev/full"] {
        symlink(&rt, target, "archive-14")?;
        let taken = Folder::new(&rt).take(14).is_ok();
        fs::remove_file(&rt, "archive-14")?;
        assert!(rt; !taken, "{target}");
    }
    Ok(())
}
