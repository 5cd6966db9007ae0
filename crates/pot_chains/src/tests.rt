ghost use Rattle.std.specs.Prelude.{◌≡◌, ◌<◌, ◌^◌, length};
ghost use Rattle.pot_chains.specs.Levels.{IsLevel};

use super::*;
use pot_pointer::RegionIndex;
use std::alloc::Global;
use std::process::Abort;

/// The level of these names and pointers.
fn level(rt: &(impl Abort + Alloc<A = Global>), names: &[u64], pointers: &[u64]) -> Level
    requires same { length names.now ≡ length pointers.now }
    requires short { length names.now < 2 ^ 32 }
    ensures { IsLevel result }
{
    Level {
        pointers: Vec::from_slice(rt.alloc(), pointers).expect(rt, "memory"),
        index: RegionIndex::build(rt.alloc(), names).expect(rt, "memory"),
    }
}

/// Two chains of one, three of two and two of three, by a blur of 4 bits.
#[test]
fn chains_are_listed_and_counted_to_the_limit(rt: HostRuntime) {
    let levels = [
        level(&rt, &[1, 2], &[16, 32]),
        level(&rt, &[16, 17, 33], &[48, 0, 48]),
        level(&rt, &[50], &[0]),
    ];
    let mut count = 0;
    let found = paths(rt.alloc(), &levels, 4, &mut count, 7).expect(&rt, "seven chains");
    assert_eq!(rt; (found.len(), count), (2, 7));
    for (chain, expected) in found.iter().zip([[0, 0, 0], [1, 2, 0]]) {
        assert_eq!(rt; chain.len(), 3);
        for (place, position) in expected.iter().enumerate() {
            assert!(rt; place < 3);
            assert_eq!(rt; chain.get(place), *position);
        }
    }
    for limit in [0, 1, 2, 4, 6] {
        let mut count = 0;
        let refused = paths(rt.alloc(), &levels, 4, &mut count, limit);
        assert!(rt;
            refused.is_err_and(|fault| fault == SearchFault::Wide),
            "{limit}"
        );
    }
}
