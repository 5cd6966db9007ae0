use pot_bytes::{Geometry, Name, Rack, digest_of};
use pot_client::read_replies;
use pot_report::*;
use std::alloc::Global;
use std::test::Fail;

fn shown(alloc: Global, size: u64) -> Result<String, Fail> {
    Ok(format!(in alloc; "{}", Size(size))?)
}

#[test]
fn sizes_as_people_write_and_read_them(rt: HostRuntime) -> Result<(), Fail> {
    let written = [
        (0, "0 B"),
        (999, "999 B"),
        (1000, "1.0 kB"),
        (884_736, "884.7 kB"),
        (26_542_080, "26.5 MB"),
        (u64::MAX, "18.4 EB"),
    ];
    for (size, text) in written {
        assert!(rt; shown(rt.alloc(), size)?.as_str() == text, "at {text}");
    }
    let read = [
        ("0", Some(0)),
        ("20MB", Some(20_000_000)),
        ("20 MB", Some(20_000_000)),
        ("3GiB", Some(3 << 30)),
        ("512k", Some(512_000)),
        ("", None),
        ("MB", None),
        ("-1", None),
        ("1.5MB", None),
        ("18446744073709551616", None),
        ("18446744073709551615K", None),
    ];
    for (text, size) in read {
        assert!(rt; read_size(text) == size, "at {text}");
    }
    Ok(())
}

const WISH: Wish = Wish {
    sites: 3,
    survive: 1,
    room: 20_000_000,
};

#[test]
fn what_follows_from_a_wish(rt: HostRuntime) -> Result<(), Fail> {
    let alloc = rt.alloc();
    let plan = WISH.plan().map_err(|_| "no plan")?;
    let rack = plan.rack;
    assert!(rt; rack.groups == 12 && rack.columns == 3 && rack.stripes == 3859);
    assert!(rt; rack.geometry.need == 2 && rack.geometry.shards == 3);
    assert!(rt; place_of(&rack, 7) == 1 && places_of(&rack) == 3);
    let text = plan.text(alloc)?;
    let lines = [
        "places: 3; files come back with 1 of them gone, and with no more",
        "archives: 48 of up to 3.9 MB, in 12 groups of 4;",
        "room: 20.0 MB of files; a byte of file takes 9.5 bytes,",
        "place 1: archives 4-7 16-19 28-31 40-43",
    ];
    for line in lines {
        assert!(rt; text.contains(line), "at {line}");
    }
    let refused = [
        (1, 0, 1, Unplanned::Sites),
        (17, 1, 1, Unplanned::Sites),
        (3, 2, 1, Unplanned::Survive),
        (3, 1, 200_000_000, Unplanned::Room { most: 141_557_760 }),
    ];
    for (sites, survive, room, why) in refused {
        let wish = Wish {
            sites,
            survive,
            room,
        };
        assert!(rt; wish.plan() == Err(why));
    }
    Ok(())
}

/// Files of so many bytes, and the blocks that they put into each of twelve groups where each of
/// two fragments has three shards.
const TAKEN: [(u64, [u64; 12]); 4] = [
    (0, [1, 2, 2, 1, 0, 0, 0, 0, 0, 0, 0, 0]),
    (864, [1, 2, 2, 1, 0, 0, 0, 0, 0, 0, 0, 0]),
    (865, [1, 2, 3, 3, 2, 1, 0, 0, 0, 0, 0, 0]),
    (5185, [4, 5, 5, 4, 3, 3, 3, 3, 3, 3, 3, 3]),
];

#[test]
fn blocks_that_a_file_puts_into_each_group(rt: HostRuntime) -> Result<(), Fail> {
    let rack = Rack {
        groups: 12,
        columns: 3,
        parity: 1,
        stripes: 9,
        geometry: Geometry {
            fragments: 2,
            need: 2,
            shards: 3,
            blur: 16,
        },
    };
    for (length, blocks) in TAKEN {
        for (group, wanted) in (0u8..12).zip(blocks) {
            assert!(rt;
                blocks_of(&rack, length, group) == wanted,
                "{length} bytes, group {group}"
            );
        }
    }
    Ok(())
}

/// Replies as a session writes them, each with its line and its JSON.
const TOLD: [(&[u8], &str, &str); 6] = [
    (
        b"stored a 1 6\n",
        "stored a",
        r#"{"name":"a","pieces":1,"reply":"stored","shards":6}"#,
    ),
    (
        b"scrubbed 2 10 3\n",
        "group 2: 10 blocks were looked at and are there, 3 more were found gone",
        r#"{"gone":3,"group":2,"reply":"scrubbed","seen":10}"#,
    ),
    (
        b"absent a\n",
        "a is not stored: pots list tells what is",
        r#"{"name":"a","reply":"absent"}"#,
    ),
    (
        b"migrated 1 9 4\n",
        "archive 9 has what archive 1 held: 4 blocks were copied",
        r#"{"from":1,"reply":"migrated","slots":4,"to":9}"#,
    ),
    (
        b"lost film.p0003 5 1 1 2\n",
        "part 3 of film is not there as a whole: of fragment 1 of piece 5 only 1 of 2 shards were found; pots repair mends what parity gives back; where archives are only not mounted, mount them, and what they hold is found again",
        r#"{"fragment":1,"have":1,"name":"film.p0003","need":2,"piece":5,"reply":"lost"}"#,
    ),
    (
        b"logfull index\n",
        "the log of the index has no room in this session: give the command once more",
        r#"{"group":null,"reply":"logfull"}"#,
    ),
];

/// The line and the JSON of the first reply that these bytes are.
fn told(alloc: Global, written: &[u8]) -> Result<(String, String), Fail> {
    let replies = read_replies(alloc, written)?.ok_or("no replies")?;
    let reply = replies.first().ok_or("no reply")?;
    let line = reply_line(alloc, reply)?;
    let object = reply_json(alloc, reply)?;
    Ok((line, object))
}

#[test]
fn replies_as_lines_and_as_json(rt: HostRuntime) -> Result<(), Fail> {
    for (written, line, object) in TOLD {
        let (own_line, own_object) = told(rt.alloc(), written)?;
        assert!(rt; own_line.as_str() == line && own_object.as_str() == object);
    }
    Ok(())
}

#[test]
fn a_list_of_parts_is_read_as_it_was_written(rt: HostRuntime) -> Result<(), Fail> {
    let alloc = rt.alloc();
    let name = Name::read(b"film").ok_or("a name")?;
    let file = vec![in alloc; 7u8; 884_737]?;
    let text = Manifest::of(alloc, name, &file)?.text(alloc)?;
    let list = Manifest::read(alloc, text.as_bytes())?.ok_or("no list")?;
    assert!(rt; list.length == 884_737 && list.name == name && list.parts.len() == 2);
    assert!(rt;
        list.digest == digest_of(&file) && list.parts.last().copied() == Some(digest_of(&[7]))
    );
    let short = text.as_bytes().len().saturating_sub(70);
    let cut = text.as_bytes().get(..short).unwrap_or(&[]);
    assert!(rt; Manifest::read(alloc, cut)?.is_none());
    assert!(rt; Manifest::read(alloc, b"parts")?.is_none());
    assert!(rt; Manifest::read(alloc, &raised(alloc, text.as_bytes())?)?.is_none());
    Ok(())
}

/// These bytes, with the digest in the last line in upper case.
fn raised(alloc: Global, text: &[u8]) -> Result<Vec<u8>, Fail> {
    let mut bytes = Vec::from_slice(alloc, text)?;
    for byte in bytes.iter_mut().rev().take(65) {
        *byte = byte.to_ascii_uppercase();
    }
    Ok(bytes)
}

#[test]
fn what_an_audit_says_of_each_file(rt: HostRuntime) -> Result<(), Fail> {
    let alloc = rt.alloc();
    let written =
        b"veil a 0 0 1 2 2\nveil a 1 0 2 0 3\nveil film.p0000 0 0 1 1 2\nveil film.p0001 0 0 2 0 2\nloose 1 3 57\n";
    let Exposures { files, loose } = read_exposures(alloc, written)?.ok_or("not read")?;
    for (text, pieces, bare, wanting) in [("a", 2, 1, 0), ("film", 2, 0, 1)] {
        let name = Name::read(text.as_bytes()).ok_or("a name")?;
        let found = files.get(&name).copied();
        assert!(rt;
            found
                == Some(Exposure {
                    pieces,
                    bare,
                    wanting
                }),
            "at {text}"
        );
    }
    let column = LooseColumn {
        group: 1,
        column: 3,
        blocks: 57,
    };
    assert!(rt; loose.as_slice() == [column].as_slice());
    for text in [
        b"words refused\n".as_slice(),
        b"loose 1 3\n",
        b"loose 1 3 57 2\n",
    ] {
        assert!(rt; read_exposures(alloc, text)?.is_none());
    }
    Ok(())
}

#[test]
fn files_that_were_recovered(rt: HostRuntime) -> Result<(), Fail> {
    let alloc = rt.alloc();
    let written = b"objects 2\nobject 0a 0 1 5\nfile 0a 5\na\nb\nc\npartial 0b 1\n";
    let found = read_found(alloc, written)?.ok_or("not read")?;
    assert_eq!(rt; found.len(), 2);
    for (file, id) in found.iter().zip(["0a", "0b"]) {
        assert!(rt; file.id.as_str() == id);
    }
    let first = found.first().and_then(|file| file.bytes.as_deref());
    assert!(rt; first == Some(b"a\nb\nc".as_slice()));
    assert!(rt; found.last().is_some_and(|file| file.bytes.is_none()));
    assert!(rt; read_found(alloc, b"too wide\n")?.is_none());
    Ok(())
}
