use pot_bytes::{Bytes, Digest, Geometry, Name, Rack};
use pot_index::Listed;
use pot_script::*;
use std::alloc::Global;
use std::test::Fail;

/// Five groups, so that no more than five shards fit.
const RACK: Rack = Rack {
    groups: 5,
    columns: 1,
    parity: 1,
    stripes: 1,
    geometry: Geometry {
        fragments: 2,
        need: 1,
        shards: 1,
        blur: 0,
    },
};

const EACH_LINE: &[u8] =
    b"store a 5\nhello\nfetch a\nlist\nstatus\nscrub 4\nrepair 0\nreplace 0 511\nmigrate 511 0\nrenew a 8 4 5 63\ntogether 6\nstore quit 5\nquit\n\nfetch b\nscrub 0\nrepair 4\nmigrate 1 2\nrenew b 2 1 1 0\nend\nquit\n";

#[test]
fn reads_each_line(rt: HostRuntime) -> Result<(), Fail> {
    let commands = read_script(rt.alloc(), EACH_LINE, &RACK)?;
    assert!(rt; begins_alone(&commands));
    assert!(rt; commands.len() == 18 && is_batch(&commands[9..]));
    assert!(rt; stores(&commands[0], b"a", b"hello"));
    assert!(rt; stores(&commands[10], b"quit", b"quit\n"));
    assert!(rt;
        matches!(&commands[11], Command::Fetch { name } if name.bytes() == b"b".as_slice())
    );
    Ok(())
}

fn begins_alone(commands: &[Command]) -> bool {
    matches!(
        commands,
        [
            Command::Store { .. },
            Command::Fetch { .. },
            Command::List,
            Command::Status,
            Command::Scrub { group: 4 },
            Command::Repair { group: 0 },
            Command::Replace { from: 0, to: 511 },
            Command::Migrate { from: 511, to: 0 },
            Command::Renew {
                geometry: Geometry {
                    fragments: 8,
                    need: 4,
                    shards: 5,
                    blur: 63,
                },
                ..
            },
            ..
        ]
    )
}

fn is_batch(commands: &[Command]) -> bool {
    matches!(
        commands,
        [
            Command::Together { count: 6 },
            Command::Store { .. },
            Command::Fetch { .. },
            Command::Scrub { group: 0 },
            Command::Repair { group: 4 },
            Command::Migrate { from: 1, to: 2 },
            Command::Renew { .. },
            Command::End,
            Command::Quit
        ]
    )
}

fn stores(command: &Command, wanted: &[u8], bytes: &[u8]) -> bool {
    match command {
        Command::Store { name, file } => name.bytes() == wanted && file.as_slice() == bytes,
        _ => false,
    }
}

#[test]
fn refuses_at_the_first_bad_line(rt: HostRuntime) -> Result<(), Fail> {
    let long_name = [b"fetch ".as_slice(), [b'a'; 65].as_slice(), b"\nquit\n"].concat(rt.alloc())?;
    let long_line = [[b'a'; 4097].as_slice(), b"\nquit\n"].concat(rt.alloc())?;
    let table: [(&[u8], u32); 24] = [
        (b"", 1),
        (b"quit", 1),
        (b"scan\nquit\n", 1),
        (b"fetch a\n", 2),
        (b"fetch a\nfetch A\nquit\n", 2),
        (b"fetch a\nquit\n.", 3),
        (b"store a 5\nhello\nquit\n\n", 3),
        (b"store a 5\nhell", 1),
        (b"store a 5\nhello", 1),
        (b"store a 5\nhello!\nquit\n", 1),
        (b"store a 5\nhello\nstore b 9\nquit\n", 2),
        (b"store  a 5\nhello\nquit\n", 1),
        (b"store a 5 \nhello\nquit\n", 1),
        (b"store a 05\nhello\nquit\n", 1),
        (b"store a +5\nhello\nquit\n", 1),
        (b"store a 67108865\n", 1),
        (b"store a\nquit\n", 1),
        (b"list all\nquit\n", 1),
        (b"list \nquit\n", 1),
        (b" quit\n", 1),
        (b"quit\r\n", 1),
        (b"Quit\n", 1),
        (&long_name, 1),
        (&long_line, 1),
    ];
    for (script, number) in &table {
        let fault = read_script(rt.alloc(), script, &RACK).err();
        assert_eq!(rt; fault, Some(ScriptFault::BadLine { number: *number }));
    }
    Ok(())
}

#[test]
fn refuses_what_the_rack_or_a_batch_has_not(rt: HostRuntime) -> Result<(), Fail> {
    let table: [(&[u8], u32); 24] = [
        (b"scrub 5\nquit\n", 1),
        (b"repair 05\nquit\n", 1),
        (b"repair\nquit\n", 1),
        (b"scrub 0 1\nquit\n", 1),
        (b"replace 0 512\nquit\n", 1),
        (b"migrate 1\nquit\n", 1),
        (b"migrate 1 2 3\nquit\n", 1),
        (b"renew a 9 1 1 0\nquit\n", 1),
        (b"renew a 1 1 1 0\nquit\n", 1),
        (b"renew a 2 0 1 0\nquit\n", 1),
        (b"renew a 2 3 2 0\nquit\n", 1),
        (b"renew a 2 1 6 0\nquit\n", 1),
        (b"renew a 2 1 1 64\nquit\n", 1),
        (b"renew a 2 1 1\nquit\n", 1),
        (b"end\nquit\n", 1),
        (b"together 0\nend\nquit\n", 1),
        (b"together 1025\nfetch a\n", 1),
        (b"together 1\nend\nquit\n", 2),
        (b"together 1\nlist\nend\nquit\n", 2),
        (b"together 1\nfetch a\nquit\n", 3),
        (b"together 1\nfetch a\nfetch b\nend\nquit\n", 3),
        (b"together 1\nfetch a\n", 3),
        (b"together 2\ntogether 1\nfetch a\nend\nend\nquit\n", 2),
        (b"together 1\nreplace 0 1\nend\nquit\n", 2),
    ];
    for (script, number) in &table {
        let fault = read_script(rt.alloc(), script, &RACK).err();
        assert_eq!(rt; fault, Some(ScriptFault::BadLine { number: *number }));
    }
    Ok(())
}

/// The place in the table of the first reply that is printed otherwise, or counts otherwise as a
/// refusal.
fn first_wrong(
    alloc: Global,
    table: &[(Reply, &[u8])],
    refusal: bool,
) -> Result<Option<usize>, Fail> {
    for (i, (reply, text)) in table.iter().enumerate() {
        let mut out = Vec::new(alloc);
        print_reply(reply, &mut out)?;
        if out.as_slice() != *text || reply.is_refusal() != refusal {
            return Ok(Some(i));
        }
    }
    Ok(None)
}

#[test]
fn prints_replies_on_files(rt: HostRuntime) -> Result<(), Fail> {
    let name = Name::read(b"a.txt").ok_or("a name")?;
    let bytes = Bytes::from_vec(b"hello".to_vec(rt.alloc())?);
    let listed = [
        Listed { name, length: 0 },
        Listed {
            name: Name::read(b"b").ok_or("a name")?,
            length: 884_736,
        },
    ];
    let names = NameList::from_vec(listed.to_vec(rt.alloc())?);
    let table: [(Reply, &[u8]); 4] = [
        (
            Reply::Stored {
                name,
                pieces: 1,
                shards: 4_294_967_295,
            },
            b"stored a.txt 1 4294967295\n",
        ),
        (Reply::File { name, bytes }, b"file a.txt 5\nhello\n"),
        (
            Reply::Names { names },
            b"names 2\nname a.txt 0\nname b 884736\n",
        ),
        (
            Reply::Renewed {
                name,
                pieces: 0,
                shards: 7,
            },
            b"renewed a.txt 0 7\n",
        ),
    ];
    assert_eq!(rt; first_wrong(rt.alloc(), &table, false)?, None);
    Ok(())
}

#[test]
fn prints_refusals_on_files(rt: HostRuntime) -> Result<(), Fail> {
    let name = Name::read(b"a.txt").ok_or("a name")?;
    let table: [(Reply, &[u8]); 6] = [
        (Reply::Long { name, length: 865 }, b"long a.txt 865\n"),
        (Reply::Exists { name }, b"exists a.txt\n"),
        (Reply::Absent { name }, b"absent a.txt\n"),
        (
            Reply::Lost {
                name,
                piece: 10,
                fragment: 0,
                have: 2,
                need: 3,
            },
            b"lost a.txt 10 0 2 3\n",
        ),
        (
            Reply::Odd {
                name,
                wanted: Digest { bytes: [0xa0; 32] },
                found: Digest { bytes: [0x0f; 32] },
            },
            b"odd a.txt a0a0a0a0a0a0a0a0a0a0a0a0a0a0a0a0a0a0a0a0a0a0a0a0a0a0a0a0a0a0a0a0 0f0f0f0f0f0f0f0f0f0f0f0f0f0f0f0f0f0f0f0f0f0f0f0f0f0f0f0f0f0f0f0f\n",
        ),
        (Reply::Often { name }, b"often a.txt\n"),
    ];
    assert_eq!(rt; first_wrong(rt.alloc(), &table, true)?, None);
    Ok(())
}

#[test]
fn prints_replies_on_groups(rt: HostRuntime) -> Result<(), Fail> {
    let table: [(Reply, &[u8]); 5] = [
        (
            Reply::Group {
                group: 3,
                live: 40,
                lost: 1,
                broken: 2,
                stripe: 4096,
                column: 0,
            },
            b"group 3 live 40 lost 1 broken 2 cursor 4096 0\n",
        ),
        (
            Reply::Scrubbed {
                group: 0,
                seen: 12,
                gone: 3,
            },
            b"scrubbed 0 12 3\n",
        ),
        (
            Reply::Repaired {
                group: 15,
                mended: 2,
                left: 1,
            },
            b"repaired 15 2 1\n",
        ),
        (
            Reply::Replaced {
                from: 0,
                to: 511,
                slots: 9,
            },
            b"replaced 0 511 9\n",
        ),
        (
            Reply::Migrated {
                from: 511,
                to: 1,
                slots: 0,
            },
            b"migrated 511 1 0\n",
        ),
    ];
    assert_eq!(rt; first_wrong(rt.alloc(), &table, false)?, None);
    Ok(())
}

#[test]
fn prints_refusals_on_groups(rt: HostRuntime) -> Result<(), Fail> {
    let table: [(Reply, &[u8]); 6] = [
        (Reply::Full { group: 7 }, b"full 7\n"),
        (
            Reply::Fault {
                group: 63,
                column: 0,
            },
            b"fault 63 0\n",
        ),
        (Reply::LogFull { group: 2 }, b"logfull 2\n"),
        (Reply::IndexLogFull, b"logfull index\n"),
        (Reply::NoArchive { number: 16 }, b"noarchive 16\n"),
        (Reply::InUse { number: 500 }, b"inuse 500\n"),
    ];
    assert_eq!(rt; first_wrong(rt.alloc(), &table, true)?, None);
    Ok(())
}

#[test]
fn prints_refused_input(rt: HostRuntime) -> Result<(), Fail> {
    let mut out = b"before\n".to_vec(rt.alloc())?;
    print_bad_line(0, &mut out)?;
    print_words_refused(&mut out)?;
    assert_eq!(rt;
        out.as_slice(),
        b"before\nbad line 0\nwords refused\n".as_slice()
    );
    Ok(())
}

#[test]
fn reads_numbers(rt: HostRuntime) {
    let table: [(&[u8], Option<u32>); 8] = [
        (b"0", Some(0)),
        (b"9", Some(9)),
        (b"511", Some(511)),
        (b"512", None),
        (b"00", None),
        (b"-1", None),
        (b"", None),
        (b"99999999999999999999", None),
    ];
    for (digits, number) in &table {
        assert_eq!(rt; read_number(digits, 511), *number);
    }
}

#[test]
fn groups_the_commands_into_steps(rt: HostRuntime) -> Result<(), Fail> {
    let table: [(&[u8], &[u8]); 5] = [
        (b"quit\n", b""),
        (b"fetch a\nfetch b\nquit\n", b"ab"),
        (
            b"fetch a\ntogether 2\nfetch b\nfetch c\nend\nfetch d\nquit\n",
            b"a(bc)d",
        ),
        (
            b"together 1\nfetch a\nend\ntogether 3\nfetch b\nfetch c\nfetch d\nend\nfetch e\nquit\n",
            b"(a)(bcd)e",
        ),
        (
            b"fetch a\ntogether 2\nfetch b\nfetch c\nend\nquit\n",
            b"a(bc)",
        ),
    ];
    for (script, steps) in &table {
        assert_eq!(rt; grouped(rt.alloc(), script)?.as_slice(), *steps);
    }
    Ok(())
}

/// The names that a script fetches, with parentheses around those of a batch.
fn grouped(alloc: Global, script: &[u8]) -> Result<Vec<u8>, Fail> {
    let mut commands = read_script(alloc, script, &RACK)?;
    let _quit = commands.pop();
    let mut names = Vec::new(alloc);
    for step in &group_steps(alloc, commands)? {
        match step {
            Step::One(command) => names.extend_from_slice(fetched(command))?,
            Step::Together(lines) => append_batch(lines, &mut names)?,
        }
    }
    Ok(names)
}

fn append_batch(lines: &Lines, names: &mut Vec<u8>) -> Result<(), Fail> {
    names.push(b'(')?;
    for line in lines.as_slice() {
        names.extend_from_slice(fetched(line))?;
    }
    names.push(b')')?;
    Ok(())
}

fn fetched(command: &Command) -> &[u8] {
    match command {
        Command::Fetch { name } => name.bytes(),
        _ => b"?",
    }
}
