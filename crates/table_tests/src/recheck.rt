use pot_bytes::digest_of;
use pot_doubles::MemDesk;
use pot_outside::Desk;
use pot_recheck::{code_of, recheck, text_of};
use std::alloc::Global;
use std::test::Fail;

/// An image of one group with a data column, a parity column and one stripe, up to its slots. It is
/// that of session 5, and its group is full.
const FRONT: [u8; 72] = [
    0x50, 0x53, 0x49, 0x31, 0x00, 0x00, 0x00, 0x02, 0x00, 0x00, 0x00, 0x00, 0x00, 0x00, 0x00, 0xb6,
    0x00, 0x00, 0x00, 0x05, 0x01, 0x01, 0x02, 0x01, 0x01, 0x00, 0x01, 0x00, 0x00, 0x00, 0x00, 0x01,
    0x00, 0x00, 0x00, 0x01, 0x00, 0x00, 0x00, 0x00, 0x00, 0x00, 0x00, 0x00, 0x00, 0x00, 0x00, 0x00,
    0x00, 0x00, 0x00, 0x00, 0x00, 0x00, 0x00, 0x00, 0x00, 0x00, 0x00, 0x01, 0x00, 0x00, 0x00, 0x00,
    0x00, 0x00, 0x00, 0x00, 0x00, 0x00, 0x00, 0x00,
];

/// The image with these states of its two slots, and a digest in each.
fn image_with(alloc: Global, data: u8, parity: u8) -> Result<Vec<u8>, Fail> {
    let mut text = FRONT.to_vec(alloc)?;
    text.push(data)?;
    text.extend_from_slice(&[0x11; 32])?;
    text.push(parity)?;
    text.extend_from_slice(&[0x22; 32])?;
    text.extend_from_slice(&[0; 12])?;
    let digest = digest_of(&text);
    text.extend_from_slice(&digest.bytes)?;
    Ok(text)
}

/// Live is 1, Lost 2 and Broken 3.
#[test]
fn slots_are_live_again(rt: HostRuntime) -> Result<(), Fail> {
    let alloc = rt.alloc();
    let rows = [
        (2, 3, "recheck 0 2\nrechecked 2\n"),
        (1, 3, "recheck 0 1\nrechecked 1\n"),
        (1, 1, "rechecked 0\n"),
    ];
    for (data, parity, wanted) in rows {
        let image = image_with(alloc, data, parity)?;
        let mut desk = MemDesk::new(alloc, Some(image), Vec::new(alloc));
        let rechecked = recheck(alloc, &mut desk);
        let text = text_of(alloc, &rechecked)?;
        assert!(rt; code_of(&rechecked) == 0 && text.as_slice() == wanted.as_bytes());
        let left = desk.read().map_err(|_| "read")?;
        let live = image_with(alloc, 1, 1)?;
        assert!(rt; left.as_deref() == Some(live.as_slice()));
    }
    Ok(())
}

/// The image has no bytes, or the desk fails at one of its two calls.
#[test]
fn desks_that_are_refused(rt: HostRuntime) -> Result<(), Fail> {
    let alloc = rt.alloc();
    let rows = [
        (0, 9, 7, "image refused cut\n"),
        (182, 0, 6, ""),
        (182, 1, 6, ""),
    ];
    for (length, fails, code, wanted) in rows {
        let mut image = image_with(alloc, 2, 3)?;
        image.truncate(length);
        let mut desk = MemDesk::new(alloc, Some(image), [fails].to_vec(alloc)?);
        let rechecked = recheck(alloc, &mut desk);
        let text = text_of(alloc, &rechecked)?;
        assert!(rt; code_of(&rechecked) == code && text.as_slice() == wanted.as_bytes());
    }
    Ok(())
}
