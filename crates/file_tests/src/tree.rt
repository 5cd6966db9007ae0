use pot_bytes::{Bytes, Digest, Name, digest_of};
use pot_tree::*;
use std::alloc::Global;
use std::test::Fail;

fn bytes(alloc: Global, text: &[u8]) -> Result<Bytes, Fail> {
    Ok(Bytes::from_vec(Vec::from_slice(alloc, text)?))
}

fn some_entries(alloc: Global) -> Result<Vec<Entry>, Fail> {
    let mut entries = Vec::new(alloc);
    entries.push(Entry {
        path: bytes(alloc, b"a b")?,
        mode: 0o755,
        time: 5,
        content: Content::Folder,
    })?;
    entries.push(Entry {
        path: bytes(alloc, b"a b/\\\n#")?,
        mode: 0o644,
        time: 1_700_000_000,
        content: Content::File {
            size: 3,
            digest: digest_of(b"abc"),
            pack: Name::read(b"pack-1").ok_or("name")?,
        },
    })?;
    entries.push(Entry {
        path: bytes(alloc, b"link")?,
        mode: 0o777,
        time: 0,
        content: Content::Link {
            target: bytes(alloc, b"../x=y")?,
        },
    })?;
    Ok(entries)
}

/// What mtree(5) says of these entries. The digest is NIST's of `abc`.
const TEXT: &[u8] = b"#mtree
./a\\040b type=dir mode=0755 time=5.0
./a\\040b/\\134\\012\\043 type=file mode=0644 time=1700000000.0 size=3 sha256digest=ba7816bf8f01cfea414140de5dae2223b00361a396177a9cb410ff61f20015ad contents=pack-1/ba7816bf8f01cfea414140de5dae2223b00361a396177a9cb410ff61f20015ad
./link type=link mode=0777 time=0.0 link=../x\\075y
";

#[test]
fn list_written_and_read(rt: HostRuntime) -> Result<(), Fail> {
    let alloc = rt.alloc();
    let entries = some_entries(alloc)?;
    let text = write_list(alloc, &entries)?;
    assert_eq!(rt; text.as_slice(), TEXT);
    let read = read_list(alloc, &text)?;
    assert_eq!(rt; read.len(), 3);
    assert_eq!(rt; read[1].path.as_slice(), b"a b/\\\n#".as_slice());
    assert!(rt; matches!(read[1].content, Content::File { size: 3, .. }));
    let again = write_list(alloc, &read)?;
    assert_eq!(rt; again.as_slice(), TEXT);
    assert_eq!(rt; read_list(alloc, b"#mtree\n")?.len(), 0);
    Ok(())
}

// What comes of one line behind the first.
fn fault_of(alloc: Global, line: &[u8]) -> Result<Option<ListFault>, Fail> {
    let mut text = Vec::from_slice(alloc, b"#mtree\n")?;
    text.extend_from_slice(line)?;
    Ok(read_list(alloc, &text).err())
}

#[test]
fn lists_refused(rt: HostRuntime) -> Result<(), Fail> {
    let alloc = rt.alloc();
    assert_eq!(rt; read_list(alloc, b"mtree\n").err(), Some(ListFault::NoHead));
    let odd: [&[u8]; 9] = [
        b"./a type=dir mode=0755 time=5.0",
        b"./a type=dir mode=755 time=5.0\n",
        b"./a type=dir mode=0755 time=05.0\n",
        b"./a type=dir mode=0755 time=+5.0\n",
        b"./a type=dir  mode=0755 time=5.0\n",
        b"./a type=dir mode=0755 time=5.0 \n",
        b"./a type=pipe mode=0755 time=5.0\n",
        b"./\\141 type=dir mode=0755 time=5.0\n",
        b"a type=dir mode=0755 time=5.0\n",
    ];
    for line in odd {
        assert_eq!(rt; fault_of(alloc, line)?, Some(ListFault::OddLine(2)));
    }
    let unsafe_paths: [&[u8]; 6] = [
        b"./../a type=dir mode=0755 time=5.0\n",
        b".//a type=dir mode=0755 time=5.0\n",
        b"./a/.. type=dir mode=0755 time=5.0\n",
        b"./a//b type=dir mode=0755 time=5.0\n",
        b"./\\000 type=dir mode=0755 time=5.0\n",
        b"./. type=dir mode=0755 time=5.0\n",
    ];
    for line in unsafe_paths {
        assert_eq!(rt; fault_of(alloc, line)?, Some(ListFault::OddPath(2)));
    }
    assert!(rt; is_safe(alloc, b"a/..b/c.")? && !is_safe(alloc, b"/a")? && !is_safe(alloc, b"")?);
    Ok(())
}

#[test]
fn pack_written_and_read(rt: HostRuntime) -> Result<(), Fail> {
    let alloc = rt.alloc();
    let long = [7u8; 600];
    let mut pack = Vec::new(alloc);
    append_member(alloc, &mut pack, b"abc")?;
    append_member(alloc, &mut pack, &long)?;
    append_member(alloc, &mut pack, b"")?;
    end_pack(&mut pack)?;
    assert_eq!(rt; pack.len(), 512 * 8);
    assert_eq!(rt; &pack[..8], b"ba7816bf".as_slice());
    assert_eq!(rt; &pack[100..108], b"0000644\0".as_slice());
    assert_eq!(rt; &pack[124..136], b"00000000003\0".as_slice());
    assert_eq!(rt; &pack[156..157], b"0".as_slice());
    assert_eq!(rt; &pack[257..265], b"ustar\x0000".as_slice());
    let files = read_pack(alloc, &pack)?;
    assert_eq!(rt; files.len(), 3);
    assert_eq!(rt; files[0].as_slice(), b"abc".as_slice());
    assert_eq!(rt; files[1].as_slice(), long.as_slice());
    assert_eq!(rt; files[2].as_slice(), b"".as_slice());
    pack[512] = b'x';
    assert_eq!(rt; read_pack(alloc, &pack).err(), Some(PackFault::NoPack));
    assert_eq!(rt; read_pack(alloc, b"").err(), Some(PackFault::NoPack));
    assert!(rt; LONGEST_MEMBER > 8_000_000_000);
    Ok(())
}
