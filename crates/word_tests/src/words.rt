//! Command lines, their words separated by one space.
use pot_bytes::{Geometry, Rack};
use pot_words::*;
use std::alloc::Global;
use std::test::Fail;

fn task_of(alloc: Global, line: &str) -> Result<Option<Task>, Fail> {
    let mut words: Vec<String> = Vec::new(alloc);
    for word in line.split(' ') {
        words.push(String::from_str(alloc, word)?)?;
    }
    Ok(read_words(alloc, words.as_slice())?)
}

fn none_of(alloc: Global, lines: &[&str]) -> Result<bool, Fail> {
    for line in lines {
        if task_of(alloc, line)?.is_some() {
            return Ok(false);
        }
    }
    Ok(true)
}

fn rack(parity: u8, stripes: u32, blur: u8) -> Rack {
    let geometry = Geometry {
        fragments: 2,
        need: 2,
        shards: 3,
        blur,
    };
    Rack {
        groups: 5,
        columns: 3,
        parity,
        stripes,
        geometry,
    }
}

#[test]
fn commands(rt: HostRuntime) -> Result<(), Fail> {
    let alloc = rt.alloc();
    let none: [String; 0] = [];
    assert!(rt; read_words(alloc, none.as_slice())?.is_none());
    let bad = [
        "",
        "help",
        "--help",
        "Run",
        "run ",
        " run",
        "run run",
        "runs",
        "--seed=1 run",
        "store",
        "init",
        "recover",
        "generate",
    ];
    assert!(rt; none_of(alloc, bad.as_slice())?);
    Ok(())
}

#[test]
fn init(rt: HostRuntime) -> Result<(), Fail> {
    let alloc = rt.alloc();
    let good: [(&str, Rack); 4] = [
        (
            "init --groups 5 --columns 3 --stripes 16 --fragments 2 --need 2 --shards 3 --blur 16",
            rack(1, 16, 16),
        ),
        (
            "init --blur=0 --shards=3 --need=2 --fragments=2 --stripes=1 --columns=3 --groups=5 --parity=1",
            rack(1, 1, 0),
        ),
        (
            "init --parity 2 --groups=5 --columns 3 --stripes=4096 --fragments 2 --need 2 --shards=3 --blur 63",
            rack(2, 4096, 63),
        ),
        (
            "init --groups=5 --columns 3 --parity=2 --stripes=4096 --fragments 2 --need 2 --shards=3 --blur 63",
            rack(2, 4096, 63),
        ),
    ];
    for (line, wanted) in good {
        assert_eq!(rt; task_of(alloc, line)?, Some(Task::Init(wanted)));
    }
    Ok(())
}

#[test]
fn refused_racks(rt: HostRuntime) -> Result<(), Fail> {
    let alloc = rt.alloc();
    let bad = [
        // each option left out
        "init --columns 3 --stripes 16 --fragments 2 --need 2 --shards 3 --blur 16",
        "init --groups 5 --stripes 16 --fragments 2 --need 2 --shards 3 --blur 16",
        "init --groups 5 --columns 3 --fragments 2 --need 2 --shards 3 --blur 16",
        "init --groups 5 --columns 3 --stripes 16 --need 2 --shards 3 --blur 16",
        "init --groups 5 --columns 3 --stripes 16 --fragments 2 --shards 3 --blur 16",
        "init --groups 5 --columns 3 --stripes 16 --fragments 2 --need 2 --blur 16",
        "init --groups 5 --columns 3 --stripes 16 --fragments 2 --need 2 --shards 3",
        // each number one too small or too large
        "init --groups 17 --columns 3 --stripes 16 --fragments 2 --need 2 --shards 3 --blur 16",
        "init --groups 2 --columns 3 --stripes 16 --fragments 2 --need 2 --shards 3 --blur 16",
        "init --groups 5 --columns 0 --stripes 16 --fragments 2 --need 2 --shards 3 --blur 16",
        "init --groups 5 --columns 17 --stripes 16 --fragments 2 --need 2 --shards 3 --blur 16",
        "init --groups 5 --columns 3 --stripes 0 --fragments 2 --need 2 --shards 3 --blur 16",
        "init --groups 5 --columns 3 --stripes 4097 --fragments 2 --need 2 --shards 3 --blur 16",
        "init --groups 5 --columns 3 --stripes 16 --fragments 1 --need 2 --shards 3 --blur 16",
        "init --groups 5 --columns 3 --stripes 16 --fragments 9 --need 2 --shards 3 --blur 16",
        "init --groups 5 --columns 3 --stripes 16 --fragments 2 --need 0 --shards 3 --blur 16",
        "init --groups 5 --columns 3 --stripes 16 --fragments 2 --need 4 --shards 3 --blur 16",
        "init --groups 5 --columns 3 --stripes 16 --fragments 2 --need 2 --shards 6 --blur 16",
        "init --groups 16 --columns 3 --stripes 16 --fragments 2 --need 2 --shards 17 --blur 16",
        "init --groups 5 --columns 3 --stripes 16 --fragments 2 --need 2 --shards 3 --blur 64",
        "init --groups 5 --columns 3 --stripes 16 --fragments 2 --need 2 --shards 3 --blur 16 --parity 0",
        "init --groups 5 --columns 3 --stripes 16 --fragments 2 --need 2 --shards 3 --blur 16 --parity 3",
        // an option twice, and an option of another command
        "init --groups 5 --columns 3 --stripes 16 --fragments 2 --need 2 --shards 3 --blur 16 --groups 5",
        "init --groups 5 --columns 3 --stripes 16 --fragments 2 --need 2 --shards 3 --blur 16 --workers 4",
    ];
    assert!(rt; none_of(alloc, bad.as_slice())?);
    Ok(())
}

#[test]
fn run(rt: HostRuntime) -> Result<(), Fail> {
    let alloc = rt.alloc();
    let mut seed = [0xab; 32];
    seed[0] = 0x01;
    seed[31] = 0xf0;
    let plain = Run {
        seed: None,
        workers: 4,
        careful: false,
    };
    let good: [(&str, Run); 8] = [
        ("run", plain),
        (
            "run --workers 1",
            Run {
                workers: 1,
                ..plain
            },
        ),
        (
            "run --workers=16",
            Run {
                workers: 16,
                ..plain
            },
        ),
        (
            "run --seed 01ababababababababababababababababababababababababababababababf0",
            Run {
                seed: Some(seed),
                ..plain
            },
        ),
        (
            "run --seed=01ABabABabababababababababababababababababababababababababababF0 --workers 4",
            Run {
                seed: Some(seed),
                ..plain
            },
        ),
        (
            "run --workers=2 --seed 01ABABABABABABABABABABABABABABABABABABABABABABABABABABABABABABF0",
            Run {
                seed: Some(seed),
                workers: 2,
                ..plain
            },
        ),
        ("run --careful no", plain),
        (
            "run --careful=yes --workers 2",
            Run {
                workers: 2,
                careful: true,
                ..plain
            },
        ),
    ];
    for (line, wanted) in good {
        assert_eq!(rt; task_of(alloc, line)?, Some(Task::Run(wanted)));
    }
    Ok(())
}

#[test]
fn refused_runs(rt: HostRuntime) -> Result<(), Fail> {
    let alloc = rt.alloc();
    let bad = [
        "run --workers",
        "run --workers=",
        "run --workers 0",
        "run --workers 17",
        "run --workers 05",
        "run --workers +5",
        "run --workers=-5",
        "run --workers 5 --workers 5",
        "run --workers 5 6",
        "run --workers 5.",
        "run --workers 0x5",
        "run --workers 18446744073709551620",
        "run --careful",
        "run --careful true",
        "run --careful yes --careful yes",
        "run --",
        "run --workers 5 --",
        "run --work 5",
        "run -w 5",
        "run --help",
        "run -h",
        "run help",
        "run --version",
        "run --seed",
        "run --seed=",
        "run --seed 01abababababababababababababababababababababababababababababab0",
        "run --seed 01ababababababababababababababababababababababababababababababf00",
        "run --seed 01ababababababababababababababababababababababababababababababg0",
        "run --seed 0x01abababababababababababababababababababababababababababababf0",
    ];
    assert!(rt; none_of(alloc, bad.as_slice())?);
    Ok(())
}

#[test]
fn generate(rt: HostRuntime) -> Result<(), Fail> {
    let alloc = rt.alloc();
    let good: [(&str, u32); 3] = [
        ("generate 1", 1),
        ("generate 76", 76),
        ("generate 1000000", 1_000_000),
    ];
    for (line, wanted) in good {
        assert_eq!(rt; task_of(alloc, line)?, Some(Task::Generate(wanted)));
    }
    let bad = [
        "generate 0",
        "generate 1000001",
        "generate 4294967297",
        "generate 01",
        "generate +1",
        "generate -1",
        "generate 1 2",
        "generate --number 1",
        "generate --",
        "generate 1a",
        "generate ",
        "generate -- 1",
    ];
    assert!(rt; none_of(alloc, bad.as_slice())?);
    Ok(())
}

// A recovery from so many archives.
fn recovery(archives: u32, stripes: u32, blur: u8, way: Way) -> Recover {
    Recover {
        archives,
        stripes,
        blur,
        way,
        bounded: false,
    }
}

#[test]
fn recover(rt: HostRuntime) -> Result<(), Fail> {
    let alloc = rt.alloc();
    let good: [(&str, Recover); 7] = [
        (
            "recover --archives 20 --stripes 16 --blur 16",
            recovery(20, 16, 16, Way::Rings),
        ),
        (
            "recover --blur=0 --archives=1 --stripes=1",
            recovery(1, 1, 0, Way::Rings),
        ),
        (
            "recover --stripes 4096 --blur 63 --archives=512",
            recovery(512, 4096, 63, Way::Rings),
        ),
        (
            "recover --archives 20 --stripes 16 --blur 16 --robust yes",
            recovery(20, 16, 16, Way::Robust),
        ),
        (
            "recover --robust no --archives 20 --stripes 16 --blur 16",
            recovery(20, 16, 16, Way::Rings),
        ),
        (
            "recover --open=yes --archives 20 --stripes 16 --blur 16 --robust no",
            recovery(20, 16, 16, Way::Chains),
        ),
        (
            "recover --open no --archives 20 --stripes 16 --blur 16 --robust yes",
            recovery(20, 16, 16, Way::Robust),
        ),
    ];
    for (line, wanted) in good {
        assert_eq!(rt; task_of(alloc, line)?, Some(Task::Recover(wanted)));
    }
    let line = "recover --archives 20 --bounded yes --stripes 16 --blur 16 --robust yes";
    let wanted = Recover {
        bounded: true,
        ..recovery(20, 16, 16, Way::Robust)
    };
    assert_eq!(rt; task_of(alloc, line)?, Some(Task::Recover(wanted)));
    let bad = [
        "recover --stripes 16 --blur 16",
        "recover --archives 20 --blur 16",
        "recover --archives 20 --stripes 16",
        "recover --archives 0 --stripes 16 --blur 16",
        "recover --archives 513 --stripes 16 --blur 16",
        "recover --archives 20 --stripes 0 --blur 16",
        "recover --archives 20 --stripes 4097 --blur 16",
        "recover --archives 20 --stripes 16 --blur 64",
        "recover --archives 20 --stripes 16 --blur 00",
        "recover --archives 20 --stripes 16 --blur 16 --blur 16",
        "recover --archives 20 --stripes 16 --blur 16 --robust",
        "recover --archives 20 --stripes 16 --blur 16 --robust true",
        "recover --archives 20 --stripes 16 --blur 16 --robust Yes",
        "recover --archives 20 --stripes 16 --blur 16 --open",
        "recover --archives 20 --stripes 16 --blur 16 --open true",
        "recover --archives 20 --stripes 16 --blur 16 --open yes --robust yes",
        "recover --archives 20 --stripes 16 --blur 16 --open yes --open yes",
        "recover --archives 20 --stripes 16 --blur 16 --bounded",
        "recover --archives 20 --stripes 16 --blur 16 --bounded 1",
        "recover --archives 20 --stripes 16 --blur 16 --seed 00",
    ];
    assert!(rt; none_of(alloc, bad.as_slice())?);
    Ok(())
}

// The points of the task, where it is a drill of this geometry, fragment and seed.
fn points_of_drill(
    task: &Option<Task>,
    geometry: Geometry,
    hidden: u8,
    seed: Option<[u8; 32]>,
) -> Option<&[u8]> {
    match task {
        Some(Task::Drill(drill))
            if drill.geometry == geometry && drill.hidden == hidden && drill.seed == seed => Some(
            drill.seen.as_slice(),
        ),
        _ => None,
    }
}

#[test]
fn drill(rt: HostRuntime) -> Result<(), Fail> {
    let alloc = rt.alloc();
    let small = rack(1, 1, 16).geometry;
    let large = Geometry {
        fragments: 8,
        need: 16,
        shards: 16,
        blur: 63,
    };
    let all = [1, 2, 3, 4, 5, 6, 7, 8, 9, 10, 11, 12, 13, 14, 15, 16];
    let good: [(&str, Geometry, u8, Option<[u8; 32]>, &[u8]); 5] = [
        (
            "drill --fragments 2 --need 2 --shards 3 --blur 16 --hidden 1 --seen 3",
            small,
            1,
            None,
            &[3],
        ),
        (
            "drill --seen=1,2 --fragments 2 --need=2 --shards 3 --blur=16 --hidden=2",
            small,
            2,
            None,
            &[1, 2],
        ),
        (
            "drill --fragments 2 --need 2 --shards 3 --blur 16 --hidden 1",
            small,
            1,
            None,
            &[],
        ),
        (
            "drill --hidden 1 --seed 0000000000000000000000000000000000000000000000000000000000000000 --fragments 2 --need 2 --shards 3 --blur 16",
            small,
            1,
            Some([0; 32]),
            &[],
        ),
        (
            "drill --fragments 8 --need 16 --shards 16 --blur 63 --hidden 8 --seen 1,2,3,4,5,6,7,8,9,10,11,12,13,14,15,16",
            large,
            8,
            None,
            &all,
        ),
    ];
    for (line, geometry, hidden, seed, points) in good {
        assert_eq!(rt;
            points_of_drill(&task_of(alloc, line)?, geometry, hidden, seed),
            Some(points)
        );
    }
    Ok(())
}

#[test]
fn refused_drills(rt: HostRuntime) -> Result<(), Fail> {
    let alloc = rt.alloc();
    let bad = [
        "drill --need 2 --shards 3 --blur 16 --hidden 1",
        "drill --fragments 2 --shards 3 --blur 16 --hidden 1",
        "drill --fragments 2 --need 2 --blur 16 --hidden 1",
        "drill --fragments 2 --need 2 --shards 3 --hidden 1",
        "drill --fragments 2 --need 2 --shards 3 --blur 16",
        "drill --fragments 1 --need 2 --shards 3 --blur 16 --hidden 1",
        "drill --fragments 9 --need 2 --shards 3 --blur 16 --hidden 1",
        "drill --fragments 2 --need 0 --shards 3 --blur 16 --hidden 1",
        "drill --fragments 2 --need 4 --shards 3 --blur 16 --hidden 1",
        "drill --fragments 2 --need 2 --shards 0 --blur 16 --hidden 1",
        "drill --fragments 2 --need 2 --shards 1 --blur 16 --hidden 1",
        "drill --fragments 2 --need 2 --shards 17 --blur 16 --hidden 1",
        "drill --fragments 2 --need 2 --shards 3 --blur 64 --hidden 1",
        "drill --fragments 2 --need 2 --shards 3 --blur 16 --hidden 0",
        "drill --fragments 2 --need 2 --shards 3 --blur 16 --hidden 3",
        "drill --fragments 2 --need 2 --shards 3 --blur 16 --hidden 1 --seen",
        "drill --fragments 2 --need 2 --shards 3 --blur 16 --hidden 1 --seen=",
        "drill --fragments 2 --need 2 --shards 3 --blur 16 --hidden 1 --seen 0",
        "drill --fragments 2 --need 2 --shards 3 --blur 16 --hidden 1 --seen 4",
        "drill --fragments 2 --need 2 --shards 3 --blur 16 --hidden 1 --seen 2,1",
        "drill --fragments 2 --need 2 --shards 3 --blur 16 --hidden 1 --seen 1,1",
        "drill --fragments 2 --need 2 --shards 3 --blur 16 --hidden 1 --seen 1,",
        "drill --fragments 2 --need 2 --shards 3 --blur 16 --hidden 1 --seen ,1",
        "drill --fragments 2 --need 2 --shards 3 --blur 16 --hidden 1 --seen 1,,2",
        "drill --fragments 2 --need 2 --shards 3 --blur 16 --hidden 1 --seen 1,02",
        "drill --fragments 2 --need 2 --shards 3 --blur 16 --hidden 1 --seen 1 2",
        "drill --fragments 2 --need 2 --shards 3 --blur 16 --hidden 1 --seen 1 --seen 2",
        "drill --fragments 2 --need 2 --shards 3 --blur 16 --hidden 1 --seen 1;2",
        "drill --fragments 2 --need 2 --shards 3 --blur 16 --hidden 1 --workers 2",
        "drill --fragments 2 --need 2 --shards 3 --blur 16 --hidden 1 --seed 00",
    ];
    assert!(rt; none_of(alloc, bad.as_slice())?);
    Ok(())
}

// The spots of the task, and whether loose blocks are counted, where it is an audit.
fn spots_of_audit(task: &Option<Task>) -> Option<(&[Spot], bool)> {
    match task {
        Some(Task::Audit(audit)) => Some((audit.seen.as_slice(), audit.loose)),
        _ => None,
    }
}

#[test]
fn audit(rt: HostRuntime) -> Result<(), Fail> {
    let alloc = rt.alloc();
    let spot = |group: u8, column: u8| Spot { group, column };
    let good: [(&str, &[Spot], bool); 6] = [
        ("audit --seen 0.3", &[spot(0, 3)], false),
        (
            "audit --seen=0.0,1.0 --loose=yes",
            &[spot(0, 0), spot(1, 0)],
            true,
        ),
        (
            "audit --seen 0.17,1.0,1.1",
            &[spot(0, 17), spot(1, 0), spot(1, 1)],
            false,
        ),
        (
            "audit --seen 9.10,15.17",
            &[spot(9, 10), spot(15, 17)],
            false,
        ),
        ("audit --loose yes --seen 0.3", &[spot(0, 3)], true),
        ("audit --seen 0.3 --loose no", &[spot(0, 3)], false),
    ];
    for (line, spots, loose) in good {
        assert_eq!(rt;
            spots_of_audit(&task_of(alloc, line)?),
            Some((spots, loose))
        );
    }
    let bad = [
        "audit",
        "audit --seen",
        "audit --seen=",
        "audit --seen 0",
        "audit --seen 0.",
        "audit --seen .0",
        "audit --seen 0.0.0",
        "audit --seen 0,0",
        "audit --seen 00.0",
        "audit --seen 0.00",
        "audit --seen +1.0",
        "audit --seen -1.0",
        "audit --seen=-1.0",
        "audit --seen 0.+1",
        "audit --seen 0.-1",
        "audit --seen 16.0",
        "audit --seen 0.18",
        "audit --seen 1.0,0.0",
        "audit --seen 0.0,0.0",
        "audit --seen 0.1,0.0",
        "audit --seen 0.0,",
        "audit --seen 0.0 1.0",
        "audit --seen 0.0 --seen 1.0",
        "audit --loose yes",
        "audit --seen 0.0 --loose",
        "audit --seen 0.0 --loose true",
        "audit --seen 0.0 --loose Yes",
        "audit --seen 0.0 --loose yes --loose yes",
    ];
    assert!(rt; none_of(alloc, bad.as_slice())?);
    Ok(())
}
