//! What is expected of puts, beside the parity blocks that their stripes have then.
ghost use Rattle.std.specs.Prelude.{◌≡◌, ◌<◌, length};

use pot_bytes::{Block, Geometry, Place, Rack};
use pot_doubles::LossyArchive;
use pot_group::{Ended, Group, StartRefused};
use pot_machine::GroupTable;
use pot_outside::Shelf;
use pot_shared::SealedPut;
use pot_store::Expected;
use std::alloc::Global;
use std::process::Abort;
use std::test::Fail;

/// Three groups of three data columns and one parity column. No block goes into the last group.
const RACK: Rack = Rack {
    groups: 3,
    columns: 3,
    parity: 1,
    stripes: 4,
    geometry: Geometry {
        fragments: 2,
        need: 2,
        shards: 3,
        blur: 16,
    },
};

/// Whose a put is, and the byte of the parity block that is expected of it.
#[derive(Clone, Copy)]
enum Whose {
    /// Another job's, of which nothing is expected.
    Other,
    /// The store's, which seals the block alone.
    OnlyWriterOf(u8),
    /// The store's, which seals the block together with that of the next put.
    First(u8),
    /// The store's, whose block was sealed together with that of the put before.
    Second(u8),
    /// The store's, which sees where the group stands and then seals the block alone.
    Seeing(u8),
}

impl Whose {
    /// The byte of the parity block that is expected.
    fn expects(self) -> Option<u8> {
        match self {
            Whose::Other => None,
            Whose::OnlyWriterOf(byte)
            | Whose::First(byte)
            | Whose::Second(byte)
            | Whose::Seeing(byte) => Some(byte),
        }
    }
}

/// A put: its group, the byte that its block repeats, whose it is, and the byte of the parity block
/// that its stripe has then.
type Put = (u8, u8, Whose, u8);

/// The first two groups, and what the store expects of them.
#[derive(Drop)]
struct Stage {
    groups: Vec<Group<LossyArchive>>,
    expected: Expected,
    // The block that was sealed with the one before it, until it is put.
    ready: Option<SealedPut>,
}

/// The block that repeats a byte.
fn block(byte: u8) -> Block {
    Block::from_bytes([byte; 1024])
}

/// The byte that a block repeats, if it does.
fn repeated(block: &Block) -> Option<u8> {
    let bytes = block.bytes();
    let first = bytes[0];
    if bytes.iter().all(|byte| *byte == first) {
        Some(first)
    } else {
        None
    }
}

/// An empty archive.
fn shelf(alloc: Global, number: u32) -> Shelf<LossyArchive>
    ensures { result.number ≡ number }
{
    let archive = LossyArchive::new(alloc, Vec::new(alloc), Vec::new(alloc));
    Shelf { number, archive }
}

/// The group of this number, without blocks.
fn group(alloc: Global, number: u8) -> Result<Group<LossyArchive>, Fail> {
    let Ok(table) = GroupTable::empty(alloc, &RACK, 0) else {
        return Err(Fail::from("no memory"));
    };
    let shelves = vec![in alloc;
        shelf(alloc, 0),
        shelf(alloc, 1),
        shelf(alloc, 2),
        shelf(alloc, 3),
    ]?;
    match Group::start(alloc, number, table, shelves) {
        Ok(group) => Ok(group),
        Err(
            StartRefused {
                table: _,
                shelves: _,
            },
        ) => Err(Fail::from("no memory")),
    }
}

impl Stage {
    /// The groups without blocks, and a store that begins.
    fn new(alloc: Global) -> Result<Stage, Fail> {
        let groups = vec![in alloc; group(alloc, 0)?, group(alloc, 1)?]?;
        Ok(Stage {
            groups,
            expected: Expected::new(RACK.columns),
            ready: None,
        })
    }

    /// Seals the block of the first of these puts, where it is the store's.
    fn seal(&mut self, puts: &[Put]) -> Option<SealedPut> {
        match puts {
            [(group, byte, Whose::OnlyWriterOf(_), _), ..] => {
                Some(self.expected.seal(*group, &block(*byte)))
            }
            [(group, byte, Whose::First(_), _), (next, other, _, _), ..] => {
                let groups = (*group, *next);
                let (first, second) = self
                    .expected
                    .seal_two(groups, &block(*byte), &block(*other));
                self.ready = Some(second);
                Some(first)
            }
            [(_, _, Whose::Second(_), _), ..] => self.ready,
            [(group, byte, Whose::Seeing(_), _), ..] => {
                let standing = self.groups.get(usize::from(*group))?.standing();
                self.expected.see(*group, &standing);
                Some(self.expected.seal(*group, &block(*byte)))
            }
            _ => None,
        }
    }

    /// Puts the block that repeats a byte: where it stands.
    fn put(&mut self, group: u8, byte: u8) -> Result<Place, Fail> {
        let Some(group) = self.groups.get_mut(usize::from(group)) else {
            return Err(Fail::from("there is no such group"));
        };
        match group.put(1, &block(byte)) {
            Ok(place) => Ok(place),
            Err(_) => Err(Fail::from("the block was not put")),
        }
    }

    /// Makes the first of these puts: the byte of the parity block that was expected, and where the
    /// block stands.
    fn make(&mut self, puts: &[Put]) -> Result<(Option<u8>, Place), Fail> {
        let Some((group, byte, _, _)) = puts.first() else {
            return Err(Fail::from("there is no such put"));
        };
        let Some(sealed) = self.seal(puts) else {
            return Ok((None, self.put(*group, *byte)?));
        };
        let place = self.put(*group, *byte)?;
        self.expected.note(place, &sealed);
        Ok((repeated(sealed.parity.block()), place))
    }

    /// The byte of the parity block that the stripe of a place has at the end.
    fn parity_at(self, place: Place) -> Option<u8> {
        let group = self.groups.into_iter().nth(usize::from(place.group))?;
        let Ended {
            table: _,
            log: _,
            shelves,
        } = group.end();
        let parity = shelves.get(usize::from(RACK.columns))?;
        repeated(parity.archive.block(place.stripe)?)
    }
}

/// Makes the puts up to this one, and sees what is expected of it, and the parity block of its
/// stripe then.
fn see_last(rt: &impl Abort, alloc: Global, puts: &[Put], last: usize) -> Result<(), Fail>
    requires { last < length puts.now }
{
    let mut stage = Stage::new(alloc)?;
    for place in 0..last {
        stage.make(&puts[place..])?;
    }
    let (expected, place) = stage.make(&puts[last..])?;
    let (_, _, whose, parity) = puts[last];
    assert_eq!(rt; expected, whose.expects(), "at put {last}");
    assert_eq!(rt; stage.parity_at(place), Some(parity), "at put {last}");
    Ok(())
}

/// Sees what is expected of each put, and the parity block of its stripe then.
fn see(rt: &impl Abort, alloc: Global, puts: &[Put]) -> Result<(), Fail> {
    for last in 0..puts.len() {
        see_last(rt, alloc, puts, last)?;
    }
    Ok(())
}

/// In a stripe that the store did not begin, or into which another job puts, it expects another
/// parity block up to the end.
#[test]
fn puts_sealed_alone(rt: HostRuntime) -> Result<(), Fail> {
    let puts = [
        // Another job begins the first stripe of group 1.
        (1, 0x01, Whose::Other, 0x01),
        (0, 0x01, Whose::OnlyWriterOf(0x01), 0x01),
        (1, 0x02, Whose::OnlyWriterOf(0x02), 0x03),
        (0, 0x02, Whose::OnlyWriterOf(0x03), 0x03),
        (1, 0x04, Whose::OnlyWriterOf(0x06), 0x07),
        (0, 0x04, Whose::OnlyWriterOf(0x07), 0x07),
        // Both groups are at a new stripe.
        (1, 0x08, Whose::OnlyWriterOf(0x08), 0x08),
        (0, 0x08, Whose::OnlyWriterOf(0x08), 0x08),
        (1, 0x10, Whose::OnlyWriterOf(0x18), 0x18),
        // Another job puts in between, and the stripe has one more block.
        (0, 0x10, Whose::Other, 0x18),
        (0, 0x20, Whose::OnlyWriterOf(0x28), 0x38),
        (0, 0x40, Whose::OnlyWriterOf(0x40), 0x40),
        (0, 0x80, Whose::OnlyWriterOf(0xc0), 0xc0),
        // Another job ends the stripe, and the next put begins one.
        (0, 0x01, Whose::Other, 0xc1),
        (0, 0x02, Whose::OnlyWriterOf(0xc2), 0x02),
        (0, 0x04, Whose::OnlyWriterOf(0x06), 0x06),
    ];
    see(&rt, rt.alloc(), &puts)
}

/// Both blocks of two are sealed before the first is put.
#[test]
fn puts_sealed_in_twos(rt: HostRuntime) -> Result<(), Fail> {
    let puts = [
        // Another job begins the first stripe of group 1.
        (1, 0x01, Whose::Other, 0x01),
        (0, 0x01, Whose::First(0x01), 0x01),
        (1, 0x02, Whose::Second(0x02), 0x03),
        (0, 0x02, Whose::First(0x03), 0x03),
        (0, 0x04, Whose::Second(0x07), 0x07),
        // The second of these two is at a new stripe.
        (1, 0x04, Whose::First(0x06), 0x07),
        (1, 0x08, Whose::Second(0x08), 0x08),
        (0, 0x08, Whose::First(0x08), 0x08),
        (1, 0x10, Whose::Second(0x18), 0x18),
        // Another job puts in between.
        (0, 0x10, Whose::Other, 0x18),
        (1, 0x20, Whose::First(0x38), 0x38),
        (0, 0x20, Whose::Second(0x28), 0x38),
        (1, 0x40, Whose::First(0x40), 0x40),
        (0, 0x40, Whose::Second(0x40), 0x40),
    ];
    see(&rt, rt.alloc(), &puts)
}

/// Where it sees how the group stands, it expects the parity block that the stripe has then,
/// whoever put in between.
#[test]
fn puts_sealed_where_the_group_stands(rt: HostRuntime) -> Result<(), Fail> {
    let puts = [
        (0, 0x01, Whose::Other, 0x01),
        (0, 0x02, Whose::Seeing(0x03), 0x03),
        (0, 0x04, Whose::Other, 0x07),
        // The group is at a new stripe.
        (0, 0x08, Whose::Seeing(0x08), 0x08),
        (0, 0x10, Whose::Other, 0x18),
        (0, 0x20, Whose::Seeing(0x38), 0x38),
    ];
    see(&rt, rt.alloc(), &puts)
}

/// Whether a store meets others as it makes these puts.
fn meets(alloc: Global, puts: &[Put]) -> Result<bool, Fail> {
    let mut stage = Stage::new(alloc)?;
    for place in 0..puts.len() {
        stage.make(&puts[place..])?;
    }
    Ok(stage.expected.met_others())
}

/// It meets others where a block lands neither behind its last one nor at the beginning of a
/// stripe.
#[test]
fn others_met(rt: HostRuntime) -> Result<(), Fail> {
    let alone = [
        (0, 0x01, Whose::Other, 0x01),
        (0, 0x02, Whose::First(0x02), 0x03),
        (0, 0x04, Whose::Second(0x06), 0x07),
        (0, 0x08, Whose::OnlyWriterOf(0x08), 0x08),
    ];
    let beside = [
        (0, 0x01, Whose::OnlyWriterOf(0x01), 0x01),
        (0, 0x02, Whose::Other, 0x03),
        (0, 0x04, Whose::OnlyWriterOf(0x05), 0x07),
    ];
    assert_eq!(rt; meets(rt.alloc(), &alone)?, false);
    assert_eq!(rt; meets(rt.alloc(), &beside)?, true);
    Ok(())
}
