//! Texts of vaults and of catalogs, numbers of racks, and lists of archives by rack and number.

use crate::{
    Choice, Line, Listed, RackDesk, are_of_racks, begins_with_rack, catalog_text, choose,
    folder_of, is_of_other_version, may_be_catalog, names_one, part_for, read_catalog, read_rack,
    read_vault, section_of, vault_text,
};
use pot_bytes::{Digest, Name, digest_of};
use std::alloc::Global;
use std::test::Fail;

const THREE: &[u8] = b"potshards-racks 1\nrack-001\nrack-002\nrack-003\nend\n";

#[test]
fn three_racks(rt: HostRuntime) -> Result<(), Fail> {
    let text = vault_text(rt.alloc(), 3)?;
    assert!(rt; text.as_slice() == THREE);
    assert!(rt; read_vault(rt.alloc(), THREE)? == Some(3));
    assert!(rt; folder_of(42) == *b"rack-042");
    Ok(())
}

#[test]
fn texts_of_no_vault(rt: HostRuntime) -> Result<(), Fail> {
    let texts: [&[u8]; 8] = [
        b"",
        b"potshards-racks 1\nend\n",
        b"potshards-racks 1\nrack-001\nrack-003\nend\n",
        b"potshards-racks 1\nrack-001\nrack-002\nend",
        b"potshards-racks 1\nrack-001\nrack-002\nend\n\n",
        b"potshards-racks 1\nrack-002\nend\n",
        b"potshards-racks 1\nrack-001\nrack-002\nen",
        b"potshards-racks 2\nrack-001\nend\n",
    ];
    for text in texts {
        assert!(rt; read_vault(rt.alloc(), text)?.is_none());
    }
    assert!(rt; is_of_other_version(b"potshards-racks 2\nrack-001\nend\n"));
    assert!(rt; is_of_other_version(b"potshards-racks 10\n"));
    assert!(rt; !is_of_other_version(THREE));
    assert!(rt; !is_of_other_version(b"hello"));
    Ok(())
}

#[test]
fn numbers_of_racks(rt: HostRuntime) -> Result<(), Fail> {
    assert!(rt; read_rack(b"001") == Some(1));
    assert!(rt; read_rack(b"999") == Some(999));
    for text in ["000", "1", "0001", "0a1", " 01", ""] {
        assert!(rt; read_rack(text.as_bytes()).is_none());
    }
    Ok(())
}

#[test]
fn where_a_file_goes(rt: HostRuntime) -> Result<(), Fail> {
    let none = [false, false, false];
    let last_two = [false, true, true];
    assert!(rt; choose(&none, &last_two) == Choice::Goes(1));
    assert!(rt; choose(&[false, false, true], &last_two) == Choice::Stands(2));
    assert!(rt; choose(&none, &none) == Choice::Nowhere);
    assert!(rt; choose(&[], &[]) == Choice::Nowhere);
    Ok(())
}

#[test]
fn archives_by_rack(rt: HostRuntime) -> Result<(), Fail> {
    let rows = [
        ("002/0-3", 2, Some("0-3")),
        ("002/0-3", 1, None),
        ("0-3", 7, Some("0-3")),
        ("001/0-3,5,002/4", 1, Some("0-3,5")),
        ("001/0-3,5,002/4", 2, Some("4")),
        ("8,001/0", 1, Some("8,0")),
        ("8,001/0", 3, Some("8")),
    ];
    for (list, rack, wanted) in rows {
        let numbers = part_for(rt.alloc(), list, rack)?;
        assert!(rt; numbers.as_deref() == wanted);
    }
    assert!(rt; are_of_racks("001/0,003/1", 3));
    assert!(rt; !are_of_racks("004/0", 3));
    assert!(rt; !are_of_racks("4/0", 9));
    assert!(rt; are_of_racks("0-3", 3));
    assert!(rt; begins_with_rack("001/4"));
    assert!(rt; !begins_with_rack("4,001/4"));
    assert!(rt; names_one("4,001/4") && !names_one("4"));
    Ok(())
}

// The first line of a catalog.
const HEAD: &str = "potshards-catalog 1: a cache of pots list, which may be deleted at any time\n";

// The catalog of two racks, of which the second has no file.
const TWO_RACKS: &str = "\
potshards-catalog 1: a cache of pots list, which may be deleted at any time
rack 1 5 4096 7692c3ad3540bb803c020b3aee66cd8887123234ea0c6e7143c0add73ff431ed
file a.txt 12 0 0 0
file big.bin - 3 2500000 1
rack 3 18446744073709551615 0 3fc4ccfe745870e2c0d99f71f30ff0656c8dedd41cc1d7d3d376b0dbe685e2f3
sum d0ee8f6afd1f8f34d9d7c1850f9972ad4ec6f93f8a8f5738c3e5ece1fbe2deda
";

// The SHA-256 digests of `one` and of `two`.
fn of_word(word: &str) -> Digest {
    digest_of(word.as_bytes())
}

fn listed(name: &str, direct: Option<u64>, parts: u32, bytes: u64) -> Option<Line> {
    Some(Line::OfFile(Listed {
        name: Name::read(name.as_bytes())?,
        direct,
        parts,
        bytes,
        complete: parts > 0,
    }))
}

fn rack(rack: u32, generation: u64, length: u64, word: &str) -> Line {
    Line::OfRack(RackDesk {
        rack,
        generation,
        length,
        digest: of_word(word),
    })
}

// The lines of the catalog of two racks.
fn two_racks(alloc: Global) -> Result<Vec<Line>, Fail> {
    let mut lines = Vec::new(alloc);
    lines.push(rack(1, 5, 4096, "one"))?;
    if let Some(line) = listed("a.txt", Some(12), 0, 0) {
        lines.push(line)?;
    }
    if let Some(line) = listed("big.bin", None, 3, 2_500_000) {
        lines.push(line)?;
    }
    lines.push(rack(3, u64::MAX, 0, "two"))?;
    Ok(lines)
}

#[test]
fn a_catalog_is_read_as_it_was_written(rt: HostRuntime) -> Result<(), Fail> {
    let lines = two_racks(rt.alloc())?;
    let text = catalog_text(rt.alloc(), &lines)?;
    assert!(rt; text.as_slice() == TWO_RACKS.as_bytes());
    let read = read_catalog(rt.alloc(), TWO_RACKS.as_bytes())?;
    assert!(rt; read.is_some_and(|read| read.as_slice() == lines.as_slice()));
    Ok(())
}

#[test]
fn a_catalog_that_is_cut_off_or_changed_is_none(rt: HostRuntime) -> Result<(), Fail> {
    let whole = TWO_RACKS.as_bytes();
    for length in 0..whole.len() {
        assert!(rt;
            read_catalog(rt.alloc(), &whole[..length])?.is_none(),
            "of {length} bytes"
        );
    }
    for place in 0..whole.len() {
        let mut text = Vec::from_slice(rt.alloc(), whole)?;
        text[place] ^= 1;
        assert!(rt;
            read_catalog(rt.alloc(), &text)?.is_none(),
            "changed at {place}"
        );
    }
    Ok(())
}

// Each line between the first and the last, whose sum is right: whether the text is a catalog's.
#[test]
fn lines_of_catalogs(rt: HostRuntime) -> Result<(), Fail> {
    let rows = [
        (
            "file a 1 0 0 1",
            "71a99c94f6c097e8b0b90fea977cab5bcae4ed473b6bf5995740cc4ee78bddfc",
            true,
        ),
        (
            "file a - 0 0 0",
            "e8de2461e149a3ae893e9b236de472ccbe0eb0bb223b26242965976e1402975f",
            true,
        ),
        (
            "rack 4294967295 1 1 7692c3ad3540bb803c020b3aee66cd8887123234ea0c6e7143c0add73ff431ed",
            "5f96afe07d170667cbe1b21fd6499f2889790426b4cedf73314de5e8fb94efc3",
            true,
        ),
        (
            "file a 1 0 0 2",
            "664c3f5ed7e433775561cdf0eadb40a232219268633bcf6dfa48b40e3adcd806",
            false,
        ),
        (
            "file a 01 0 0 0",
            "41fffd9c1f06052d19a443fe6aca90b8aae432992b3fc94fac4b17e54c04fe28",
            false,
        ),
        (
            "file a +1 0 0 0",
            "74f8ff3e8e6f5c24d19e677f8be1e2d1de658c1105f6c9b61753bfcdde892e6c",
            false,
        ),
        (
            "file A 1 0 0 0",
            "a791256a8c966f79127f459117c7d1092c38175cdb033ba31bab267bf793c451",
            false,
        ),
        (
            "file  1 0 0 0",
            "8d4e7df14db777f31f24bd054d42cf4efd5e073cd4e99476c6d329117dd883fd",
            false,
        ),
        (
            "file a 1 0 0 0 0",
            "b2b475f2f9f9e6d1c2b45a91bfe604e6eade285b401c9418f4f4c7c3014a65f5",
            false,
        ),
        (
            "file a 18446744073709551616 0 0 0",
            "8635344640a22f78044eb1917cd4a5fa4c6133761fd7d0f1342398b64b76efbc",
            false,
        ),
        (
            "rack 4294967296 1 1 7692c3ad3540bb803c020b3aee66cd8887123234ea0c6e7143c0add73ff431ed",
            "ad9e110b3aef3d3c080f3ac9fb7a2addff197c77beac97d8156cfcdffc1c12fb",
            false,
        ),
        (
            "rack 1 1 1 7692C3AD3540BB803C020B3AEE66CD8887123234EA0C6E7143C0ADD73FF431ED",
            "f504d5e44c8aeefac2f90591ce0a7e3994a8adfc05fac6301395b63a27cf3e73",
            false,
        ),
        (
            "",
            "6d3f5691fe8f1c6bd497e172f4e0cd6067b00a801c8f1acb92d3cd5fb2e588b8",
            false,
        ),
    ];
    for (line, sum, is_read) in rows {
        let text = format!(in rt.alloc(); "{HEAD}{line}\nsum {sum}\n")?;
        let read = read_catalog(rt.alloc(), text.as_bytes())?;
        assert!(rt; read.is_some() == is_read, "{line}");
    }
    Ok(())
}

#[test]
fn files_that_a_catalog_may_replace(rt: HostRuntime) {
    let rows: [(&[u8], bool); 6] = [
        (b"", true),
        (b"potshards-catalog 1: a cache of", true),
        (b"potshards-catalog 2\n", true),
        (b"potshards-catalog", false),
        (b"Potshards-catalog 1", false),
        (b"books: 12\n", false),
    ];
    for (text, may) in rows {
        assert!(rt; may_be_catalog(text) == may);
    }
}

#[test]
fn sections_of_a_catalog(rt: HostRuntime) -> Result<(), Fail> {
    let lines = two_racks(rt.alloc())?;
    let rows = [(1u32, Some(2usize)), (2, None), (3, Some(0)), (4, None)];
    for (number, wanted) in rows {
        let found = section_of(&lines, number);
        assert!(rt;
            found.map(|(_, files)| files.len()) == wanted,
            "rack {number}"
        );
    }
    let found = section_of(&lines, 1);
    assert!(rt; found.is_some_and(|(desk, _)| desk.generation == 5 && desk.length == 4096));
    Ok(())
}
