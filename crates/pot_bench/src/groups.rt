//! A group over archives in memory: puts that fill it, looks at all that it holds, relays that
//! rebuild a column, and a column that moves.

use crate::plain::{PlainArchive, shelf};
use crate::rows::SEED;
use pot_bytes::{Block, Geometry, Place, Rack};
use pot_group::{Ended, Group, Looked, Mend, MoveStep, Reached, ShelfRefused, StartRefused};
use pot_machine::GroupTable;
use pot_pads::PadStream;
use pot_shared::SealedPut;
use pot_store::Expected;
use std::alloc::{AllocError, Global};

/// The rack of the group, of which each data column holds a megabyte.
const RACK: Rack = Rack {
    groups: 3,
    columns: 3,
    parity: 1,
    stripes: 1024,
    geometry: Geometry {
        fragments: 2,
        need: 2,
        shards: 3,
        blur: 16,
    },
};

/// How often the 64 blocks of a row go into the group until it is full.
const TURNS: u32 = 48;

/// The calls that are timed, in this order.
#[derive(Clone, Copy)]
pub enum Call {
    /// Puts that fill the group, with what is expected of them.
    Put,
    /// Looks at all data slots.
    Look,
    /// Looks at all slots, by sweeps.
    Sweep,
    /// Relays that rebuild column 0, whose archive was replaced.
    Mend,
    /// The move of column 1.
    Move,
}

/// A group of three data columns and one parity column over archives in memory.
#[derive(Drop)]
pub struct Trial {
    group: Group<PlainArchive>,
    expected: Expected,
    blinds: PadStream,
    seen: Vec<u8>,
}

impl Trial {
    /// The group without blocks.
    pub fn new(alloc: Global) -> Result<Trial, AllocError> {
        let Ok(table) = GroupTable::empty(alloc, &RACK, 0) else {
            return Err(AllocError);
        };
        let shelves = vec![in alloc;
            shelf(alloc, 0)?,
            shelf(alloc, 1)?,
            shelf(alloc, 2)?,
            shelf(alloc, 3)?,
        ]?;
        match Group::start(alloc, 0, table, shelves) {
            Ok(group) => Ok(Trial {
                group,
                expected: Expected::new(RACK.columns),
                blinds: PadStream::new(&SEED, 0, 5),
                seen: Vec::new(alloc),
            }),
            Err(
                StartRefused {
                    table: _,
                    shelves: _,
                },
            ) => Err(AllocError),
        }
    }

    /// The archives that the calls need come, before the clock starts.
    pub fn prepare(&mut self, alloc: Global, call: Call) -> Result<(), AllocError> {
        match call {
            Call::Mend => self.replace(alloc),
            Call::Move => self.leave_home(alloc),
            _ => Ok(()),
        }
    }

    /// The calls. They fail where one of them does not do what it is made for.
    pub fn work(&mut self, call: Call, blocks: &[Block]) -> Result<(), AllocError> {
        match call {
            Call::Put => self.fill(blocks),
            Call::Look => self.look(),
            Call::Sweep => self.sweep(),
            Call::Mend => self.mend(),
            Call::Move => self.move_home(),
        }
    }

    /// Puts a block, of which the group knows what is expected, and notes where it stands.
    fn put(&mut self, put: &SealedPut) -> Result<(), AllocError> {
        self.group.expect(&put.block, &put.parity);
        let Ok(place) = self.group.put(1, put.block.block()) else {
            return Err(AllocError);
        };
        self.expected.note(place, put);
        Ok(())
    }

    /// Puts two blocks.
    fn put_pair(&mut self, pair: &[Block]) -> Result<(), AllocError> {
        let [first, second] = pair else {
            return Err(AllocError);
        };
        let (first, second) = self.expected.seal_two((0, 0), first, second);
        self.put(&first)?;
        self.put(&second)
    }

    /// Puts the blocks of a row, two at a time.
    fn put_row(&mut self, blocks: &[Block]) -> Result<(), AllocError> {
        for pair in blocks.chunks(2) {
            self.put_pair(pair)?;
        }
        Ok(())
    }

    fn fill(&mut self, blocks: &[Block]) -> Result<(), AllocError> {
        for _ in 0..TURNS {
            self.put_row(blocks)?;
        }
        Ok(())
    }

    /// Looks at a slot, and keeps the first byte of its block.
    fn look_at(&mut self, place: Place) -> Result<(), AllocError> {
        let mut block = Block::zero();
        if !self.group.has_slot(place.stripe, place.column) {
            return Err(AllocError);
        }
        if self.group.look(1, place, &mut block) != Looked::Seen {
            return Err(AllocError);
        }
        self.seen.push(block.bytes()[0])?;
        Ok(())
    }

    fn look(&mut self) -> Result<(), AllocError> {
        for slot in 0..RACK.stripes * 3 {
            self.look_at(place(slot / 3, (slot % 3) as u8))?;
        }
        Ok(())
    }

    /// Looks at all slots, some at a time. All have their blocks.
    fn sweep(&mut self) -> Result<(), AllocError> {
        let mut from = (0, 0);
        for _ in 0..=RACK.stripes {
            let swept = self.group.sweep(1, from.0, from.1);
            match swept.reached {
                Reached::Slot { stripe, column } if swept.gone == 0 => {
                    from = (stripe, column.saturating_add(1));
                }
                Reached::End => return Ok(()),
                _ => return Err(AllocError),
            }
        }
        Err(AllocError)
    }

    /// Archive 4 replaces the home of column 0, whose slots are then Lost.
    fn replace(&mut self, alloc: Global) -> Result<(), AllocError> {
        let shelf = shelf(alloc, 4)?;
        if !self.group.has_slot(0, 0) {
            return Err(AllocError);
        }
        match self.group.swap(1, 0, shelf) {
            Ok(_) => Ok(()),
            Err(ShelfRefused { shelf: _, cause: _ }) => Err(AllocError),
        }
    }

    /// One step of a slot: whether it is whole.
    fn mend_step(&mut self, place: Place, blind: &Block) -> Result<bool, AllocError> {
        if !self.group.has_slot(place.stripe, place.column) {
            return Err(AllocError);
        }
        match self.group.mend(1, place, blind) {
            Mend::Whole => Ok(true),
            Mend::Began | Mend::Extends | Mend::Mended => Ok(false),
            _ => Err(AllocError),
        }
    }

    /// Mends a slot until it is whole: its relay begins with the next blind, goes over three
    /// columns and ends.
    fn mend_slot(&mut self, place: Place) -> Result<(), AllocError> {
        let mut blind = [0; 1024];
        self.blinds.fill(&mut blind);
        let blind = Block::from_bytes(blind);
        for _ in 0..6 {
            if self.mend_step(place, &blind)? {
                return Ok(());
            }
        }
        Err(AllocError)
    }

    fn mend(&mut self) -> Result<(), AllocError> {
        for stripe in 0..RACK.stripes {
            self.mend_slot(place(stripe, 0))?;
        }
        Ok(())
    }

    /// Column 1 begins to move to archive 5.
    fn leave_home(&mut self, alloc: Global) -> Result<(), AllocError> {
        let shelf = shelf(alloc, 5)?;
        if !self.group.has_slot(0, 1) {
            return Err(AllocError);
        }
        match self.group.move_begin(1, 1, shelf) {
            Ok(()) => Ok(()),
            Err(ShelfRefused { shelf: _, cause: _ }) => Err(AllocError),
        }
    }

    /// One step of the move of column 1: whether the move ended.
    fn move_step(&mut self) -> Result<bool, AllocError> {
        if !self.group.has_slot(0, 1) {
            return Err(AllocError);
        }
        match self.group.move_step(1, 1) {
            Ok(step) => Ok(step == MoveStep::Ended),
            Err(_) => Err(AllocError),
        }
    }

    fn move_home(&mut self) -> Result<(), AllocError> {
        for _ in 0..=RACK.stripes {
            if self.move_step()? {
                return Ok(());
            }
        }
        Err(AllocError)
    }

    /// The first byte of each block that was seen, and then the blocks of all archives.
    pub fn end(self) -> Result<Vec<u8>, AllocError> {
        let Trial {
            group,
            expected: _,
            blinds: _,
            seen,
        } = self;
        let mut bytes = seen;
        let Ended {
            table: _,
            log: _,
            shelves,
        } = group.end();
        for shelf in &shelves {
            shelf.archive.add_blocks(RACK.stripes, &mut bytes)?;
        }
        Ok(bytes)
    }
}

/// A place of the group.
fn place(stripe: u32, column: u8) -> Place {
    Place {
        group: 0,
        column,
        stripe,
    }
}
