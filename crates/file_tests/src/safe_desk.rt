use pot_doubles::MemDisk;
use pot_outside::{Desk, Disk, Failed};
use pot_safe_desk::{DeskLimit, SafeDesk};
use std::alloc::Global;
use std::test::Fail;

/// The image that a disk stands for after a crash.
fn left(alloc: Global, desk: &SafeDesk<MemDisk>, keep: bool) -> Result<Option<Vec<u8>>, Fail> {
    let disk = desk.disk().crash(keep).map_err(|_| "no memory")?;
    let mut again = SafeDesk::new(alloc, disk);
    Ok(again.read().map_err(|_| "read")?)
}

/// Whether just this image is left.
fn leaves(alloc: Global, desk: &SafeDesk<MemDisk>, keep: bool, image: &[u8]) -> Result<bool, Fail> {
    Ok(left(alloc, desk, keep)?.is_some_and(|found| found.as_slice() == image))
}

/// A desk that was given these images in turn, on a disk that stops at the call of this number.
/// Also whether it took the last of them.
fn stopped(alloc: Global, images: &[&[u8]], call: u32) -> Result<(SafeDesk<MemDisk>, bool), Fail> {
    let mut desk = SafeDesk::new(alloc, MemDisk::new(alloc, Vec::new(alloc), Some(call)));
    let mut replaced = false;
    for image in images {
        replaced = desk.replace(image).is_ok();
    }
    Ok((desk, replaced))
}

/// Whether a stop at each call of the last replacing leaves what it may. `made` calls come before
/// it, and it has `calls` of its own: the last but one is the write of the gate.
fn survives(alloc: Global, images: &[&[u8]], made: u32, calls: u32) -> Result<bool, Fail> {
    let [.., old, new] = images else {
        return Ok(false);
    };
    for call in 0..=calls {
        let (desk, replaced) = stopped(alloc, images, made.saturating_add(call))?;
        let unmade = calls.saturating_sub(call);
        // A write of the gate that stops has begun.
        let kept = if unmade < 2 { new } else { old };
        let filled = if unmade < 3 { new } else { old };
        let right = leaves(alloc, &desk, true, kept)? && leaves(alloc, &desk, false, filled)?;
        if !right || replaced != (unmade == 0) || desk.limit().is_some() {
            return Ok(false);
        }
    }
    Ok(true)
}

/// A replacing with no gate to shut makes nine calls on its disk, and one with a gate to shut
/// eleven.
#[test]
fn a_stop_at_each_call(rt: HostRuntime) -> Result<(), Fail> {
    let alloc = rt.alloc();
    assert!(rt; survives(alloc, &[b"first", &[7; 300]], 9, 9)?);
    assert!(rt; survives(alloc, &[b"first", b"the second", &[7; 300]], 18, 11)?);
    Ok(())
}

#[test]
fn images_in_turn(rt: HostRuntime) -> Result<(), Fail> {
    let alloc = rt.alloc();
    let disk = MemDisk::new(alloc, Vec::new(alloc), None);
    let mut desk = SafeDesk::new(alloc, disk);
    assert!(rt; desk.read().map_err(|_| "read")?.is_none());
    for byte in 1..6 {
        assert_eq!(rt; desk.replace(&[byte; 20]), Ok(()));
        let image = desk.read().map_err(|_| "read")?.ok_or("none")?;
        assert_eq!(rt; image.as_slice(), [byte; 20].as_slice());
        assert!(rt; leaves(alloc, &desk, false, &[byte; 20])?);
    }
    Ok(())
}

#[test]
fn the_last_generation(rt: HostRuntime) -> Result<(), Fail> {
    let alloc = rt.alloc();
    let mut disk = MemDisk::new(alloc, Vec::new(alloc), None);
    let mut header = [0xff; 16];
    header[8..].copy_from_slice(&[0; 8]);
    disk.write(4096 + (1 << 30), &header).map_err(|_| "write")?;
    disk.write(1, &[1]).map_err(|_| "write")?;
    let mut desk = SafeDesk::new(alloc, disk);
    assert!(rt; leaves(alloc, &desk, true, b"")?);
    assert_eq!(rt; desk.replace(b"more"), Err(Failed));
    assert_eq!(rt; desk.limit(), Some(DeskLimit::LastGeneration));
    assert!(rt; leaves(alloc, &desk, true, b"")?);
    Ok(())
}
