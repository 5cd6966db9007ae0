use pot_bytes::{Bytes, Name, digest_of};
use pot_tree::{Content, Entry, read_pack};
use pots_folders::*;
use std::alloc::Global;
use std::fs;
use std::test::Fail;

#[test]
fn dates(rt: HostRuntime) -> Result<(), Fail> {
    let alloc = rt.alloc();
    assert_eq!(rt; stamp_of(alloc, 0)?.as_str(), "19700101t000000z");
    assert_eq!(rt; stamp_of(alloc, 951_782_399)?.as_str(), "20000228t235959z");
    assert_eq!(rt; stamp_of(alloc, 951_782_400)?.as_str(), "20000229t000000z");
    assert_eq!(rt;
        stamp_of(alloc, 1_796_075_400)?.as_str(),
        "20261130t215000z"
    );
    assert_eq!(rt;
        minute_text(alloc, 1_796_075_459)?.as_str(),
        "2026-11-30 21:50"
    );
    assert_eq!(rt;
        date_of(alloc, "2026-11-30 21:50")?.ok_or("date")?.as_str(),
        "20261130t2150"
    );
    assert!(rt; date_of(alloc, "")?.is_none() && date_of(alloc, "monday")?.is_none());
    Ok(())
}

#[test]
fn names(rt: HostRuntime) -> Result<(), Fail> {
    let alloc = rt.alloc();
    let list = list_name(alloc, "docs", "20261130t215000z")?.ok_or("list")?;
    let snapshot = Snapshot::read(list).ok_or("snapshot")?;
    assert_eq!(rt; snapshot.name(), "docs");
    assert_eq!(rt; snapshot.stamp(), "20261130t215000z");
    assert!(rt; snapshot.is_at("20261130") && !snapshot.is_at("20261129t235959z"));
    assert!(rt; list_name(alloc, "Docs", "20261130t215000z")?.is_none());
    assert!(rt; Snapshot::read(Name::read(b"docs.mtree").ok_or("name")?).is_none());
    let pack = pack_name(alloc, &digest_of(b"abc"))?.ok_or("pack")?;
    assert_eq!(rt;
        pack.bytes(),
        b"pack-ba7816bf8f01cfea414140de5dae2223b00361a3".as_slice()
    );
    assert!(rt; is_pack(&pack) && !is_pack(&list));
    Ok(())
}

#[test]
fn patterns(rt: HostRuntime) -> Result<(), Fail> {
    let alloc = rt.alloc();
    assert!(rt; fits(alloc, b"*.o", b"a/b.o")? && fits(alloc, b"a?c", b"abc")?);
    assert!(rt; fits(alloc, b"*", b"")? && fits(alloc, b"a*b*c", b"aXbYc")?);
    assert!(rt; !fits(alloc, b"*.o", b"a.oo")? && !fits(alloc, b"?", b"")?);
    assert!(rt; !fits(alloc, b"a", b"ab")? && !fits(alloc, b"", b"a")?);
    assert!(rt; fits_path(alloc, b"*.o", b"a/b.o")? && fits_path(alloc, b"a/*", b"a/b.o")?);
    assert!(rt; !fits_path(alloc, b"a*", b"a/b.o")? && !fits_path(alloc, b"b/*", b"a/b.o")?);
    Ok(())
}

// An entry of a list.
fn entry(alloc: Global, path: &[u8], time: u64, content: Content) -> Result<Entry, Fail> {
    Ok(Entry {
        path: Bytes::from_vec(path.to_vec(alloc)?),
        mode: 0o644,
        time,
        content,
    })
}

fn file(bytes: &[u8]) -> Result<Content, Fail> {
    Ok(Content::File {
        size: bytes.len() as u64,
        digest: digest_of(bytes),
        pack: Name::read(b"pack-0").ok_or("name")?,
    })
}

#[test]
fn two_lists(rt: HostRuntime) -> Result<(), Fail> {
    let alloc = rt.alloc();
    let mut old = Vec::new(alloc);
    old.push(entry(alloc, b"away", 1, Content::Folder)?)?;
    old.push(entry(alloc, b"kind", 1, Content::Folder)?)?;
    old.push(entry(alloc, b"same", 1, file(b"1")?)?)?;
    old.push(entry(alloc, b"time", 1, file(b"1")?)?)?;
    old.push(entry(alloc, b"bytes", 1, file(b"1")?)?)?;
    let mut new = Vec::new(alloc);
    new.push(entry(alloc, b"time", 2, file(b"1")?)?)?;
    new.push(entry(alloc, b"bytes", 2, file(b"2")?)?)?;
    new.push(entry(alloc, b"kind", 1, file(b"1")?)?)?;
    new.push(entry(alloc, b"same", 1, file(b"1")?)?)?;
    new.push(entry(alloc, b"new", 1, Content::Folder)?)?;
    let wanted: [(&[u8], Change); 5] = [
        (b"away", Change::Removed),
        (b"bytes", Change::Changed),
        (b"kind", Change::Changed),
        (b"new", Change::Added),
        (b"time", Change::Touched),
    ];
    let found = differences(alloc, &old, &new)?;
    assert_eq!(rt; found.len(), wanted.len());
    for (difference, (path, change)) in found.iter().zip(wanted.iter()) {
        assert!(rt; difference.path == *path && difference.change == *change);
    }
    assert!(rt; differences(alloc, &new, &new)?.is_empty());
    Ok(())
}

#[test]
fn packs(rt: HostRuntime) -> Result<(), Fail> {
    let alloc = rt.alloc();
    let mut packer = Packer::new(alloc);
    let digest = digest_of(b"abc");
    assert!(rt; packer.add(alloc, b"abc", digest)?.is_none());
    assert!(rt; packer.has(&digest) && packer.place(&digest).is_none());
    assert!(rt; packer.add(alloc, b"abc", digest)?.is_none());
    let pack = packer.close(alloc)?.ok_or("pack")?;
    assert!(rt; packer.place(&digest) == Some(pack.name));
    assert_eq!(rt; read_pack(alloc, &pack.bytes)?.len(), 1);
    assert!(rt; packer.close(alloc)?.is_none());
    let lengths = pack_lengths(alloc, &[3, 2_000_000])?;
    assert_eq!(rt; lengths.as_slice(), [2_001_920, 2048].as_slice());
    Ok(())
}

fn folder(alloc: Global, path: &[u8], content: Content) -> Result<Entry, Fail> {
    Ok(Entry {
        path: Bytes::from_vec(Vec::from_slice(alloc, path)?),
        mode: 0o755,
        time: 0,
        content,
    })
}

#[test]
fn wanted_entries(rt: HostRuntime) -> Result<(), Fail> {
    let alloc = rt.alloc();
    let mut entries = Vec::new(alloc);
    entries.push(folder(alloc, b"a", Content::Folder)?)?;
    entries.push(folder(alloc, b"a/b", Content::Folder)?)?;
    assert!(rt; are_in_folders(alloc, &entries)?);
    assert!(rt; is_wanted(&entries[0], Some("a/b")) && is_wanted(&entries[1], Some("a")));
    assert!(rt; is_wanted(&entries[0], None) && !is_wanted(&entries[1], Some("a/bc")));
    entries.push(folder(alloc, b"c/d", Content::Folder)?)?;
    assert!(rt; !are_in_folders(alloc, &entries)?);
    let mut packer = Packer::new(alloc);
    packer.know(&entries)?;
    Ok(())
}

#[test]
fn folders_put_and_walked(rt: HostRuntime) -> Result<(), Fail> {
    let alloc = rt.alloc();
    let top = "walked";
    let _ = fs::remove_dir_all(&rt, top);
    assert!(rt; put_folder(&rt, top) && put_folder(&rt, top));
    let file = whole_path(alloc, top, b"a b")?.ok_or("path")?;
    fs::write(&rt, file.as_str(), b"abc")?;
    assert!(rt; set_mode(&rt, file.as_str(), 0o640) && set_time(&rt, file.as_str(), 77));
    let link = whole_path(alloc, top, b"link")?.ok_or("path")?;
    assert!(rt; put_link(&rt, b"a b", link.as_str()) && put_link(&rt, b"a b", link.as_str()));
    assert!(rt; !put_link(&rt, b"c", link.as_str()));
    let walk = walk_folder(&rt, top, &[])?;
    assert_eq!(rt; walk.seen.len(), 2);
    assert_eq!(rt; walk.seen[0].path.as_str(), "a b");
    assert_eq!(rt; walk.seen[0].mode, 0o640);
    assert_eq!(rt; walk.seen[0].time, 77);
    assert!(rt; matches!(walk.seen[0].kind, Kind::File(3)));
    assert!(rt; matches!(walk.seen[1].kind, Kind::Link(_)));
    fs::remove_dir_all(&rt, top)?;
    Ok(())
}
