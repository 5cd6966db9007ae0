//! Sessions over a desk on a disk in memory.
use pot_bytes::digest_of;
use pot_doubles::{MemDisk, MemRoom, MemSink, MemSource, OpenGate};
use pot_outside::Desk;
use pot_safe_desk::SafeDesk;
use pot_session::run;
use std::alloc::Global;
use std::sync::Wait;
use std::test::Fail;
use std::thread::Threads;

/// A rack of 12 archives.
const TWELVE: &str =
    "init --groups 3 --columns 3 --stripes 16 --fragments 2 --need 2 --shards 3 --blur 16";

/// A rack of 6 archives.
const SIX: &str =
    "init --groups 3 --columns 1 --stripes 8 --fragments 2 --need 3 --shards 3 --blur 16";

/// A file is stored and fetched.
const SCRIPT: &[u8] = b"store a 5\nhello\nfetch a\nquit\n";

/// A desk on a disk on which nothing was written.
fn new_desk(alloc: Global) -> SafeDesk<MemDisk> {
    SafeDesk::new(alloc, MemDisk::new(alloc, Vec::new(alloc), None))
}

/// Calls the program over this desk and empty archives, and gives the status and what was written.
fn call<X: Threads + Wait + Sync>(
    turns: &X,
    alloc: Global,
    words: &str,
    desk: &mut SafeDesk<MemDisk>,
) -> Result<(u8, Vec<u8>), Fail> {
    let mut owned = Vec::new(alloc);
    for word in words.split(' ') {
        owned.push(String::from_str(alloc, word)?)?;
    }
    let mut source = MemSource::new(SCRIPT.to_vec(alloc)?, Vec::new(alloc));
    let mut sink = MemSink::new(alloc, Vec::new(alloc));
    let mut room = MemRoom::new(alloc, Vec::new(alloc), Vec::new(alloc));
    let status = run(
        turns,
        alloc,
        &owned,
        [7; 32],
        &mut source,
        &mut sink,
        &mut room,
        desk,
        &OpenGate,
    );
    let written = sink.written().to_vec(alloc)?;
    Ok((status, written))
}

/// A desk with the image of a new archive.
fn made<X: Threads + Wait + Sync>(
    turns: &X,
    alloc: Global,
    words: &str,
) -> Result<SafeDesk<MemDisk>, Fail> {
    let mut desk = new_desk(alloc);
    let (status, written) = call(turns, alloc, words, &mut desk)?;
    if status == 0 && written.as_slice() == b"ready\n".as_slice() {
        Ok(desk)
    } else {
        Err(Fail::from("nothing was made"))
    }
}

/// What a session writes after the image of a new archive was changed to this.
fn answer<X: Threads + Wait + Sync>(
    turns: &X,
    alloc: Global,
    image: &[u8],
) -> Result<(u8, Vec<u8>), Fail> {
    let mut desk = made(turns, alloc, SIX)?;
    desk.replace(image).map_err(|_| "replace")?;
    call(turns, alloc, "run", &mut desk)
}

#[test]
fn a_session_over_a_disk(rt: HostRuntime) -> Result<(), Fail> {
    let alloc = rt.alloc();
    let mut desk = made(&rt, alloc, TWELVE)?;
    let (status, written) = call(&rt, alloc, "run", &mut desk)?;
    assert_eq!(rt; status, 0);
    assert_eq!(rt;
        written.as_slice(),
        b"stored a 1 6\nfile a 5\nhello\n".as_slice()
    );
    let mut left = SafeDesk::new(alloc, desk.disk().crash(false).map_err(|_| "no memory")?);
    let (before, after) = (
        desk.read().map_err(|_| "read")?,
        left.read().map_err(|_| "read")?,
    );
    assert!(rt; before.as_deref() == after.as_deref() && before.is_some());
    Ok(())
}

#[test]
fn images_on_a_disk_that_are_refused(rt: HostRuntime) -> Result<(), Fail> {
    let alloc = rt.alloc();
    let image = made(&rt, alloc, SIX)?
        .read()
        .map_err(|_| "read")?
        .ok_or("none")?;
    assert_eq!(rt; image.len(), 252);
    let cut = image.get(..251).unwrap_or(&[]);
    let (status, written) = answer(&rt, alloc, cut)?;
    assert_eq!(rt;
        (status, written.as_slice()),
        (7, b"image refused cut\n".as_slice())
    );
    let mut bent = cut.to_vec(alloc)?;
    bent.push(image.last().copied().unwrap_or(0) ^ 1)?;
    let (status, written) = answer(&rt, alloc, &bent)?;
    assert_eq!(rt; status, 7);
    assert!(rt; written.starts_with(b"image refused trailer "));
    let mut spent = image.get(..16).unwrap_or(&[]).to_vec(alloc)?;
    spent.extend_from_slice(&[255; 4])?;
    spent.extend_from_slice(image.get(20..220).unwrap_or(&[]))?;
    let digest = digest_of(&spent);
    spent.extend_from_slice(&digest.bytes)?;
    let (status, written) = answer(&rt, alloc, &spent)?;
    assert_eq!(rt;
        (status, written.as_slice()),
        (9, b"session spent\n".as_slice())
    );
    Ok(())
}
