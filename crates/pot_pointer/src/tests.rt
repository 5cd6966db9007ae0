ghost use Rattle.std.specs.Prelude.{◌^◌, ◌<◌, ◌≤◌, length};

use super::*;
use std::process::Abort;

#[test]
fn blurs(rt: HostRuntime) {
    let rows = [
        (0x0123456789abcdef, 16, 0x0123456789ab0000),
        (0x0123456789abcdef, 0, 0x0123456789abcdef),
        (u64::MAX, 63, 1 << 63),
        (15, 4, 0),
    ];
    for (name, bits, expected) in rows {
        assert_eq!(rt; blur(name, bits), expected, "{name} by {bits} bits");
    }
}

fn at(name: u64, position: u32) -> Named {
    Named { name, position }
}

fn gives(
    rt: &(impl Abort + Alloc<A = Global>),
    names: &[u64],
    pointer: u64,
    bits: u8,
    expected: &[Named],
)
    requires names { length names.now < 2 ^ 32 }
    requires bits { bits ≤ 63 }
{
    let index = RegionIndex::build(rt.alloc(), names).expect(rt, "memory");
    assert_eq!(rt;
        index.candidates(pointer, bits),
        expected,
        "{pointer} by {bits} bits"
    );
}

#[test]
fn finds_the_names_of_a_pointer(rt: HostRuntime) {
    gives(&rt, &[5, 16, 17], 16, 4, &[at(16, 1), at(17, 2)]);
    gives(&rt, &[5, 16, 17], 17, 4, &[]);
    gives(&rt, &[5, 16, 17], 17, 0, &[at(17, 2)]);
    gives(&rt, &[], 0, 63, &[]);
    let twice = [31, 32, 16, 15, 31, 16, 32];
    let expected = [at(16, 2), at(16, 5), at(31, 0), at(31, 4)];
    gives(&rt, &twice, 16, 4, &expected);
    let high = [u64::MAX, 0, 1 << 63];
    gives(&rt, &high, 1 << 63, 63, &[at(1 << 63, 2), at(u64::MAX, 0)]);
}
