//! A store and a fetch with passes that were split before either.
ghost use Rattle.std.specs.Prelude.{◌≡◌, ◌<◌, length};
ghost use Rattle.pot_bytes.specs.Rack.{IsRack};
ghost use Rattle.pot_rows.specs.Rows.{HasMoreParts};
ghost use Rattle.pot_shared.specs.Ready.{AreReady};
ghost use Rattle.pot_shared.specs.Catalogs.{IsIndexReady};
ghost use Rattle.pot_examples.specs.Parts.{SameParts};

use crate::stage::{rack, vault};
use pot_bytes::{Digest, Name};
use pot_doubles::LossyArchive;
use pot_index::{IndexEnded, IndexEntry};
use pot_pads::PadStream;
use pot_shared::{Caller, Closed, Passes, Vault};
use pot_store::{FetchFault, StoreFault, Stored, fetch_file, store_file};
use std::alloc::Global;
use std::sync::Wait;
use std::test::Fail;

/// The digest of the record of `hello` as `a`, whose two blocks stand in the two stripes (computed
/// from the formats apart from the crates).
const MARK: Digest = Digest {
    bytes: [
        0xa5, 0x5e, 0x78, 0x97, 0x9a, 0x4a, 0x68, 0xd0, 0x2b, 0x4c, 0xbe, 0xd8, 0xef, 0x2e, 0x54,
        0xcc, 0xb5, 0x54, 0x7f, 0xb5, 0x14, 0x03, 0xea, 0x53, 0xea, 0x53, 0x9b, 0x0b, 0xa6, 0xd8,
        0x04, 0x64,
    ],
};

/// Stores a file.
fn store<R: Wait>(
    rt: &R,
    alloc: Global,
    vault: &Vault<LossyArchive>,
    passes: &mut Passes<LossyArchive>,
    job: u32,
    name: &Name,
) -> Result<Stored, StoreFault>
    requires ready { AreReady vault.now.rack vault.now.groups passes.old.groups }
    requires index { IsIndexReady vault.now.rack vault.now.groups vault.now.index passes.old.index }
    requires parts { HasMoreParts 1 passes.old.groups }
    requires rack { IsRack vault.now.rack }
    requires groups { length vault.now.groups ≡ vault.now.rack.groups }
    requires job { 0 < job }
    ensures ready { AreReady vault.now.rack vault.now.groups passes.new.groups }
    ensures index { IsIndexReady vault.now.rack vault.now.groups vault.now.index passes.new.index }
    ensures parts { SameParts passes.old.groups passes.new.groups
        × SameParts passes.old.index passes.new.index }
{
    let caller = Caller {
        rt,
        alloc,
        vault,
        job,
    };
    let pads = PadStream::new(&[7; 32], 1, job);
    let mut connection = caller.connection(passes);
    let stored = store_file(&mut connection, name, b"hello", pads);
    *passes = connection.end();
    stored
}

/// Fetches a file.
fn fetch<R: Wait>(
    rt: &R,
    alloc: Global,
    vault: &Vault<LossyArchive>,
    passes: &mut Passes<LossyArchive>,
    job: u32,
    name: &Name,
) -> Result<Vec<u8>, FetchFault>
    requires ready { AreReady vault.now.rack vault.now.groups passes.old.groups }
    requires index { IsIndexReady vault.now.rack vault.now.groups vault.now.index passes.old.index }
    requires parts { HasMoreParts 1 passes.old.groups }
    requires rack { IsRack vault.now.rack }
    requires groups { length vault.now.groups ≡ vault.now.rack.groups }
    requires job { 0 < job }
    ensures ready { AreReady vault.now.rack vault.now.groups passes.new.groups }
    ensures index { IsIndexReady vault.now.rack vault.now.groups vault.now.index passes.new.index }
    ensures parts { SameParts passes.old.groups passes.new.groups
        × SameParts passes.old.index passes.new.index }
{
    let caller = Caller {
        rt,
        alloc,
        vault,
        job,
    };
    let mut pads = PadStream::new(&[7; 32], 1, job);
    let mut connection = caller.connection(passes);
    let fetched = fetch_file(&mut connection, name, &mut pads);
    *passes = connection.end();
    fetched
}

/// What a session's index logged in which the one passes stored `a`, the others, split off before,
/// fetched it, and `b` then found no room; and the bytes that came.
fn logged<R: Wait>(
    rt: &R,
    alloc: Global,
    a: &Name,
    b: &Name,
) -> Result<(Vec<u8>, Vec<IndexEntry>), Fail> {
    let rack = rack()?;
    let (vault, mut passes, spaces) = vault(alloc, &rack)?;
    let Ok(mut others) = vault.split(alloc, &mut passes, 2) else {
        return Err(Fail::from("no memory"));
    };
    if store(rt, alloc, &vault, &mut passes, 1, a).is_err() {
        return Err(Fail::from("the file was not stored"));
    }
    let fetched = fetch(rt, alloc, &vault, &mut others, 2, a);
    let refused = store(rt, alloc, &vault, &mut others, 3, b);
    vault.join(&mut passes, others);
    let Closed { members: _, index } = vault.close(passes, spaces);
    let IndexEnded { records: _, log } = index.end();
    match (fetched, refused) {
        (Ok(bytes), Err(StoreFault::Full { group: 0 })) => Ok((bytes, log)),
        _ => Err(Fail::from("other answers")),
    }
}

/// What one pass published the other finds, though it was split off before; a store that is refused
/// leaves its name free.
#[test]
fn found_by_another_pass(rt: HostRuntime) -> Result<(), Fail> {
    let (Some(a), Some(b)) = (Name::read(b"a"), Name::read(b"b")) else {
        return Err(Fail::from("no name"));
    };
    let (bytes, log) = logged(&rt, rt.alloc(), &a, &b)?;
    assert!(rt; bytes.as_slice() == b"hello".as_slice());
    let wanted = [
        IndexEntry::Reserve { job: 1, name: a },
        IndexEntry::Publish {
            job: 1,
            name: a,
            mark: MARK,
        },
        IndexEntry::Find {
            job: 2,
            name: a,
            found: true,
        },
        IndexEntry::Reserve { job: 3, name: b },
        IndexEntry::Abandon { job: 3, name: b },
    ];
    assert!(rt; log.as_slice() == wanted.as_slice());
    Ok(())
}
