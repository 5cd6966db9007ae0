//! An archive of which some blocks may be made anew.

ghost use Rattle.std.specs.Prelude.{◌≡◌, IfOk};
ghost use Rattle.pot_outside.specs.Counts.{Caused};

use crate::shape::{Plan, Shape};
use crate::survey::{SLOT, Survey, open_archive};
use pot_bytes::{Block, fold_weighted};
use pot_outside::{Archive, Failed, Held, Marks};
use pot_rebuild::rebuilt;
use std::alloc::AllocError;
use std::fs::File;
use std::io::ErrorKind;
use std::os::unix::fs::FileExt;

/// The most columns of a group.
const MOST_WIDE: usize = 18;

/// What came of an archive.
#[derive(Clone, Copy, Debug, PartialEq, Eq)]
pub struct Tally {
    /// So many of its blocks were made anew.
    pub made: u32,
    /// So many of its slots could not be read, and were not made anew.
    pub unread: u32,
    /// At so many of its slots the others of its group give what is neither a shard nor nothing.
    pub odd: u32,
}

impl Tally {
    pub(crate) fn none() -> Tally {
        Tally {
            made: 0,
            unread: 0,
            odd: 0,
        }
    }

    // Counts what came of a slot of which the archive itself gave nothing.
    fn count(&mut self, made: &Made, unread: bool) {
        match made {
            Made::Shard(_) => self.made = self.made.saturating_add(1),
            Made::Odd => self.odd = self.odd.saturating_add(1),
            Made::Nothing => {}
        }
        if unread && !matches!(made, Made::Shard(_)) {
            self.unread = self.unread.saturating_add(1);
        }
    }
}

/// The archives of a group, opened to be read, by column. None at those that take no part or are
/// empty.
#[derive(Drop)]
struct Sources {
    columns: u8,
    parity: u8,
    plan: Plan,
    files: Vec<Option<File>>,
}

/// An archive of which some blocks may be made anew.
#[derive(Drop)]
pub struct Remnant {
    own: Option<File>,
    /// Those that give what it lacks. None where not all of them are there.
    sources: Option<Sources>,
    /// The slots that are left out, in order.
    hidden: Vec<u32>,
    tally: Tally,
    pub(crate) faults: u64,
}

/// What a slot of a file holds.
#[derive(Clone, Copy)]
enum Slot {
    Block(Block),
    Nothing,
    Unread,
}

/// What the others of a group give for a slot.
#[derive(Clone, Copy)]
enum Made {
    Shard(Block),
    /// No block stood there, or the parity archive has none.
    Nothing,
    /// Neither a shard nor nothing: more blocks of the stripe are gone or wrong than parity bears.
    Odd,
}

// The block of a slot's bytes, where the first byte says that one is held.
fn block_of(bytes: &[u8; 1025]) -> Slot {
    match bytes.as_slice() {
        [1, rest @ ..] => {
            let mut block = [0u8; 1024];
            block.copy_from_slice(rest);
            Slot::Block(Block::from_bytes(block))
        }
        _ => Slot::Nothing,
    }
}

fn slot_in(file: &File, slot: u32) -> Slot {
    let mut bytes = [0u8; 1025];
    match file.read_exact_at(&mut bytes, u64::from(slot) * SLOT) {
        Ok(()) => block_of(&bytes),
        Err(e) if e.kind() == ErrorKind::UnexpectedEof => Slot::Nothing,
        Err(_) => Slot::Unread,
    }
}

// Counts one more. The count stands still at its last value.
pub(crate) fn count_fault(faults: &mut u64)
    ensures { Caused faults.old faults.new (Unit {0}) }
{
    *faults = faults.saturating_add(1);
}

impl Sources {
    // What the others give for a slot. Where a parity archive that takes part has no block, no
    // block stood in the stripe.
    fn make(&self, slot: u32) -> Made {
        let mut blocks = [Block::zero(); MOST_WIDE];
        for (column, file) in self.files.iter().enumerate() {
            let Some(file) = file else {
                continue;
            };
            match slot_in(file, slot) {
                Slot::Block(block) if column < MOST_WIDE => blocks[column] = block,
                Slot::Nothing if column >= usize::from(self.columns) => return Made::Nothing,
                Slot::Nothing => {}
                Slot::Unread | Slot::Block(_) => return Made::Odd,
            }
        }
        self.made_of(&blocks)
    }

    // What these blocks give, by column.
    fn made_of(&self, blocks: &[Block; MOST_WIDE]) -> Made {
        let Sources {
            columns,
            parity,
            plan: Plan { target, out },
            ..
        } = *self;
        if columns > 16 || parity < 1 || parity > 2 || target >= columns {
            return Made::Odd;
        }
        if out > columns + 1 || out == target || (parity == 1 && out <= columns) {
            return Made::Odd;
        }
        let count = usize::from(columns + parity);
        judged(rebuilt(columns, parity, target, out, &blocks[..count]))
    }
}

// What a block that was made anew may be.
fn judged(block: Block) -> Made {
    match block.bytes().as_slice() {
        [b'P', b'S', b'H', b'1', ..] => Made::Shard(block),
        [0, 0, 0, 0, rest @ ..] if rest.iter().all(|byte| *byte == 0) => Made::Nothing,
        _ => Made::Odd,
    }
}

// The block that a slot of its own file holds, or that the other archives give for it.
fn found_at(
    own: &Option<File>,
    sources: &Option<Sources>,
    tally: &mut Tally,
    slot: u32,
) -> Option<Block> {
    let mut unread = false;
    if let Some(file) = own {
        match slot_in(file, slot) {
            Slot::Block(block) => return Some(block),
            Slot::Nothing => {}
            Slot::Unread => unread = true,
        }
    }
    let made = match sources {
        Some(sources) => sources.make(slot),
        None => Made::Nothing,
    };
    tally.count(&made, unread);
    match made {
        Made::Shard(block) => Some(block),
        Made::Nothing | Made::Odd => None,
    }
}

impl Remnant {
    /// The archive of a number, with those that give what it lacks. The blocks of hidden slots, in
    /// order, are left out.
    pub(crate) fn open(
        rt: &HostRuntime,
        survey: &Survey,
        shape: Option<Shape>,
        number: u32,
        hidden: Vec<u32>,
    ) -> Result<Remnant, AllocError>
        ensures { IfOk result (λ a. a.faults ≡ 0) }
    {
        let own = if survey.state(number).is_there() {
            open_archive(rt, number)
        } else {
            None
        };
        Ok(Remnant {
            own,
            sources: sources_of(rt, survey, shape, number)?,
            hidden,
            tally: Tally::none(),
            faults: 0,
        })
    }

    /// The block of a slot: the one that is held, or that the others give, where it is not left
    /// out.
    pub(crate) fn block_at(&mut self, slot: u32) -> Option<Block>
        ensures { self.new.faults ≡ self.old.faults }
    {
        if self.hidden.binary_search(&slot).is_ok() {
            return None;
        }
        found_at(&self.own, &self.sources, &mut self.tally, slot)
    }

    /// What came of it.
    pub fn tally(&self) -> Tally {
        self.tally
    }
}

// The others of the group of a data archive, where all that are needed are there.
fn sources_of(
    rt: &HostRuntime,
    survey: &Survey,
    shape: Option<Shape>,
    number: u32,
) -> Result<Option<Sources>, AllocError> {
    let Some(shape) = shape else {
        return Ok(None);
    };
    let Some(plan) = shape.plan(survey, number) else {
        return Ok(None);
    };
    let mut files = Vec::new(rt.alloc());
    for (column, other) in shape.group_of(number).enumerate() {
        let is_part = column != usize::from(plan.target) && column != usize::from(plan.out);
        let file = if is_part && survey.state(other).is_there() {
            let Some(file) = open_archive(rt, other) else {
                return Ok(None);
            };
            Some(file)
        } else {
            None
        };
        files.push(file)?;
    }
    Ok(sources_with(shape, plan, files))
}

fn sources_with(shape: Shape, plan: Plan, files: Vec<Option<File>>) -> Option<Sources> {
    Some(Sources {
        columns: u8::try_from(shape.columns).ok()?,
        parity: u8::try_from(shape.parity).ok()?,
        plan,
        files,
    })
}

impl Archive for Remnant {
    ghost use Rattle.std.specs.Prelude.{◌≡◌, ◌<◌, None, [], false, IsTrue};
    ghost use Rattle.pot_outside.specs.Archives.{Reads, Folds, Writes, IsMarked};

    ghost account = { record { tells = false; meaning = λ a. record { held = λ _. None; history = []; heard = []; faults = a.faults; losses = 0 } } };

    fn read(&mut self, slot: u32, into: &mut Block) -> Result<Held, Failed> {
        match self.block_at(slot) {
            Some(block) => {
                *into = block;
                Ok(Held::Held)
            }
            None => Ok(Held::Absent),
        }
    }

    fn fold(&mut self, slot: u32, weight: u8, sum: &mut Block) -> Result<Held, Failed> {
        match self.block_at(slot) {
            Some(block) => {
                fold_weighted(sum, weight, &block);
                Ok(Held::Held)
            }
            None => Ok(Held::Absent),
        }
    }

    // What is left is read alone.
    fn write(&mut self, _slot: u32, _block: &Block) -> Result<(), Failed> {
        count_fault(&mut self.faults);
        Err(Failed)
    }

    fn marks(&self) -> Marks {
        Marks {
            faults: self.faults,
            losses: 0,
        }
    }
}
