use pot_bytes::digest_of;
use pot_generator::*;
use pot_script::{Command, read_script};
use std::test::Fail;

/// The SHA-256 of the script of 1 (computed from the definition apart from this crate).
const DIGEST: [u8; 32] = [
    0x29, 0xfe, 0xdf, 0x9f, 0xaf, 0x91, 0xd4, 0x17, 0xc9, 0xef, 0xec, 0xdb, 0x80, 0x2c, 0x5d, 0x8a,
    0x4f, 0x73, 0xc6, 0x6d, 0xfb, 0x28, 0xb2, 0x27, 0x6f, 0xda, 0xb6, 0xc2, 0x7c, 0xc5, 0x65, 0x5f,
];

#[test]
fn the_first_script(rt: HostRuntime) -> Result<(), Fail> {
    let alloc = rt.alloc();
    let script = generate_script(alloc, 1)?;
    assert_eq!(rt; script.len(), 51_289);
    assert_eq!(rt; digest_of(&script).bytes, DIGEST);
    let Ok(commands) = read_script(alloc, &script, &generator_rack()) else {
        return Err(Fail::from("the script was not read"));
    };
    assert_eq!(rt; commands.len(), 79);
    assert!(rt; matches!(commands.get(25), Some(Command::Together { count: 24 })));
    assert!(rt; matches!(commands.get(51), Some(Command::Repair { group: 0 })));
    Ok(())
}

#[test]
fn the_last_run(rt: HostRuntime) -> Result<(), Fail> {
    let seed = generator_seed(1_000_000);
    assert!(rt; seed[..24] == [0; 24]);
    assert!(rt; seed[24..] == [0, 0, 0, 0, 0x00, 0x0f, 0x42, 0x40]);
    assert_eq!(rt; (generator_workers(), generator_replies()), (4, 76));
    assert!(rt; generator_rack().fits());
    let script = generate_script(rt.alloc(), 1_000_000)?;
    assert_eq!(rt; script.len(), 48_792);
    Ok(())
}
