use pot_bytes::{Bytes, Geometry, Name, Rack};
use pot_client::*;
use pot_script::{Command, Reply, print_reply, read_script};
use std::alloc::Global;
use std::test::Fail;

const RACK: Rack = Rack {
    groups: 3,
    columns: 3,
    parity: 1,
    stripes: 16,
    geometry: Geometry {
        fragments: 2,
        need: 2,
        shards: 3,
        blur: 16,
    },
};

/// What a session with a file, its names, each group and each refusal writes.
const WRITTEN: [&[u8]; 23] = [
    b"stored a.txt 1 6\n",
    b"file a 5\nhello\n",
    b"file b 7\na 5\nxyz\n",
    b"file c 0\n\n",
    b"names 0\n",
    b"names 2\nname a.txt 0\nname b 884736\n",
    b"group 3 live 40 lost 1 broken 2 cursor 4096 0\n",
    b"scrubbed 0 12 3\n",
    b"repaired 15 2 1\n",
    b"replaced 0 511 9\n",
    b"migrated 511 1 0\n",
    b"renewed a.txt 4294967295 7\n",
    b"long a.txt 67108864\n",
    b"exists a.txt\n",
    b"full 7\n",
    b"absent a.txt\n",
    b"lost a.txt 10 0 2 3\n",
    b"odd a a0a0a0a0a0a0a0a0a0a0a0a0a0a0a0a0a0a0a0a0a0a0a0a0a0a0a0a0a0a0a0a0 0f0f0f0f0f0f0f0f0f0f0f0f0f0f0f0f0f0f0f0f0f0f0f0f0f0f0f0f0f0f0f0f\n",
    b"fault 63 0\n",
    b"logfull 2\n",
    b"logfull index\n",
    b"noarchive 16\ninuse 500\n",
    b"often a.txt\n",
];

/// What the replies that these bytes are read as print.
fn printed_again(alloc: Global, bytes: &[u8]) -> Result<Option<Vec<u8>>, Fail> {
    let Some(replies) = read_replies(alloc, bytes)? else {
        return Ok(None);
    };
    let mut out = Vec::new(alloc);
    for reply in replies.iter() {
        print_reply(reply, &mut out)?;
    }
    Ok(Some(out))
}

#[test]
fn each_reply_is_read_as_itself(rt: HostRuntime) -> Result<(), Fail> {
    let alloc = rt.alloc();
    for text in WRITTEN {
        let again = printed_again(alloc, text)?;
        assert!(rt; again.as_deref() == Some(text));
    }
    let all = WRITTEN.concat(alloc)?;
    assert!(rt; printed_again(alloc, &all)?.as_deref() == Some(all.as_slice()));
    let replies = read_replies(alloc, &all)?.ok_or("no replies")?;
    assert_eq!(rt; replies.len(), 24);
    assert!(rt;
        matches!(replies.get(1), Some(Reply::File { bytes, .. }) if bytes.as_slice() == b"hello".as_slice())
    );
    Ok(())
}

#[test]
fn replies_are_taken_one_by_one(rt: HostRuntime) -> Result<(), Fail> {
    let alloc = rt.alloc();
    let mut text = Replies::of(b"full 7\nnames 1\nname a 5\nfull 300\n");
    let first = text.next(alloc)?.ok_or("a first reply")?;
    assert!(rt; matches!(&first, Reply::Full { group: 7 }));
    assert!(rt; text.left() == b"names 1\nname a 5\nfull 300\n".as_slice());
    let second = text.next(alloc)?.ok_or("a second reply")?;
    assert!(rt; matches!(&second, Reply::Names { names } if names.as_slice().len() == 1));
    assert!(rt; text.next(alloc)?.is_none());
    assert!(rt; text.left() == b"full 300\n".as_slice());
    Ok(())
}

#[test]
fn what_is_no_reply_is_refused(rt: HostRuntime) -> Result<(), Fail> {
    let table: [&[u8]; 10] = [
        b"stored a 1",
        b"stored a 1 6 7\n",
        b"stored A 1 6\n",
        b"file a 6\nhello\n",
        b"names 2\nname a 1\n",
        b"group 3 live 40 lost 1 broken 2 cursor 4096\n",
        b"full 256\n",
        b"odd a A0 00\n",
        b"logfull indices\n",
        b"bad line 1\n",
    ];
    for text in table {
        assert!(rt; read_replies(rt.alloc(), text)?.is_none());
    }
    Ok(())
}

#[test]
fn a_script_is_read_as_its_commands(rt: HostRuntime) -> Result<(), Fail> {
    let alloc = rt.alloc();
    let name = Name::read(b"a").ok_or("a name")?;
    let mut commands = Vec::new(alloc);
    let file = Bytes::from_vec(b"quit\n".to_vec(alloc)?);
    commands.push(Command::Store { name, file })?;
    commands.push(Command::Fetch { name })?;
    commands.push(Command::Replace { from: 0, to: 511 })?;
    commands.push(Command::Renew {
        name,
        geometry: RACK.geometry,
    })?;
    let script = write_script(alloc, &commands)?;
    assert!(rt;
        script.as_slice()
            == b"store a 5\nquit\n\nfetch a\nreplace 0 511\nrenew a 2 2 3 16\nquit\n".as_slice()
    );
    assert_eq!(rt; read_script(alloc, &script, &RACK)?.len(), 5);
    Ok(())
}

#[test]
fn digits_of_a_digest(rt: HostRuntime) -> Result<(), Fail> {
    let digest = read_digest(&[b'a'; 64]).ok_or("a digest")?;
    assert!(rt; digest.bytes == [0xaa; 32]);
    assert!(rt; read_digest(&[b'A'; 64]).is_none() && read_digest(&[b'a'; 63]).is_none());
    Ok(())
}

#[test]
fn names_of_parts(rt: HostRuntime) -> Result<(), Fail> {
    let name = Name::read(b"a.txt").ok_or("a name")?;
    let table: [(u32, &[u8]); 3] = [
        (0, b"a.txt.p0000"),
        (7, b"a.txt.p0007"),
        (9_999, b"a.txt.p9999"),
    ];
    for (number, text) in table {
        let part = part_name(&name, number).ok_or("a part")?;
        assert!(rt; part.bytes() == text && ends_as_part(&part));
        let (file, read) = read_part_name(&part).ok_or("a file")?;
        assert!(rt; file.bytes() == name.bytes() && read == number);
    }
    assert!(rt; part_name(&name, 10_000).is_none() && !ends_as_part(&name));
    let short = Name::read(&[b'a'; 58]).ok_or("a name")?;
    assert!(rt; part_name(&short, 1).is_some());
    let long = Name::read(&[b'a'; 59]).ok_or("a long name")?;
    assert!(rt; part_name(&long, 1).is_none());
    let whole: [&[u8]; 4] = [b"p0001", b"x.p001", b"x.q0001", b"x.p000a"];
    for text in whole {
        let name = Name::read(text).ok_or("a name")?;
        assert!(rt; !ends_as_part(&name) && read_part_name(&name).is_none());
    }
    let suffix = Name::read(b".p0001").ok_or("a suffix alone")?;
    assert!(rt; ends_as_part(&suffix) && read_part_name(&suffix).is_none());
    Ok(())
}

#[test]
fn parts_of_a_file(rt: HostRuntime) -> Result<(), Fail> {
    let alloc = rt.alloc();
    let file = vec![in alloc; 7u8; 2 * PART_SIZE + 1]?;
    let lengths = [PART_SIZE, PART_SIZE, 1, 0];
    for (number, length) in lengths.iter().enumerate() {
        assert_eq!(rt; part(&file, number).len(), *length);
    }
    assert_eq!(rt; count_parts(file.len()), 3);
    assert_eq!(rt; count_parts(PART_SIZE), 1);
    assert_eq!(rt; count_parts(0), 0);
    Ok(())
}
