//! Archives in memory that a story changes from outside while a group uses them.
ghost use Rattle.std.specs.Prelude.{◌≡◌, IsErr};
ghost use Rattle.pot_outside.specs.Counts.{Caused};

use crate::lines::Act;
use crate::reading::block;
use pot_bytes::{Block, fold_weighted};
use pot_outside::{Archive, Failed, Held, Marks};
use std::alloc::{AllocError, Global};
use std::cell::RefCell;
use std::collections::BTreeMap;
use std::rc::Rc;

/// What an archive is to a story.
#[derive(Drop)]
pub struct Store {
    pub blocks: BTreeMap<u32, Block>,
    /// The slot of each fold, and the sum before it.
    pub heard: Vec<(u32, Block)>,
    /// The calls that are to fail.
    fails: Vec<u64>,
    /// The calls at whose start a slot loses its block.
    losses: Vec<(u64, u32)>,
    /// How many calls came.
    pub calls: u64,
    /// How many of them failed.
    pub faults: u64,
}

impl Store {
    pub fn new(alloc: Global) -> Store {
        Store {
            blocks: BTreeMap::new(alloc),
            heard: Vec::new(alloc),
            fails: Vec::new(alloc),
            losses: Vec::new(alloc),
            calls: 0,
            faults: 0,
        }
    }

    /// Does what a story does to it from outside.
    pub fn act(&mut self, act: Act) -> Result<(), AllocError> {
        match act {
            Act::Holds { slot, byte } => {
                let _ = self.blocks.insert(slot, block(byte))?;
            }
            Act::Fail { call } => {
                self.fails.push(self.calls.saturating_add(u64::from(call)))?;
            }
            Act::Lose { slot } => {
                let _ = self.blocks.remove(&slot);
            }
            Act::LoseAt { slot, call } => {
                let at = self.calls.saturating_add(u64::from(call));
                self.losses.push((at, slot))?;
            }
        }
        Ok(())
    }

    /// Begins a call: loses what is lost then, and says whether it fails.
    fn begin(&mut self) -> bool {
        for (call, slot) in &self.losses {
            if *call == self.calls {
                let _ = self.blocks.remove(slot);
            }
        }
        let fails = self.fails.iter().any(|call| *call == self.calls);
        self.calls = self.calls.saturating_add(1);
        if fails {
            self.faults = self.faults.saturating_add(1);
        }
        fails
    }

    /// The block of a slot, which is read, or added to a sum that is heard then.
    fn read(&mut self, slot: u32, sum: Option<&Block>) -> Result<Option<Block>, Failed> {
        if self.begin() {
            return Err(Failed);
        }
        if let Some(sum) = sum {
            if self.heard.push((slot, *sum)).is_err() {
                return Err(Failed);
            }
        }
        Ok(self.blocks.get(&slot).copied())
    }

    fn write(&mut self, slot: u32, block: &Block) -> Result<(), Failed> {
        if self.begin() {
            return Err(Failed);
        }
        match self.blocks.insert(slot, *block) {
            Ok(_) => Ok(()),
            Err(_) => Err(Failed),
        }
    }
}

/// An archive of a group, which shares its store with the story.
#[derive(Drop)]
pub struct Shared {
    store: Rc<RefCell<Store>>,
    faults: u64,
}

impl Shared {
    pub fn new(store: Rc<RefCell<Store>>) -> Shared {
        Shared { store, faults: 0 }
    }

    /// Reads a block, or adds it to a sum.
    fn load(&mut self, slot: u32, sum: Option<&Block>) -> Result<Option<Block>, Failed>
        ensures { Caused self.old.faults self.new.faults (IsErr result) }
    {
        if let Ok(mut store) = self.store.try_borrow_mut() {
            if let Ok(found) = store.read(slot, sum) {
                return Ok(found);
            }
        }
        self.faults = self.faults.saturating_add(1);
        Err(Failed)
    }
}

impl Archive for Shared {
    ghost use Rattle.std.specs.Prelude.{None, [], false};

    ghost account = { record { tells = false; meaning = λ a. record { held = λ _. None; history = []; heard = []; faults = a.faults; losses = 0 } } };

    fn read(&mut self, slot: u32, into: &mut Block) -> Result<Held, Failed> {
        match self.load(slot, None)? {
            Some(block) => {
                *into = block;
                Ok(Held::Held)
            }
            None => Ok(Held::Absent),
        }
    }

    fn fold(&mut self, slot: u32, weight: u8, sum: &mut Block) -> Result<Held, Failed> {
        match self.load(slot, Some(&*sum))? {
            Some(block) => {
                fold_weighted(sum, weight, &block);
                Ok(Held::Held)
            }
            None => Ok(Held::Absent),
        }
    }

    fn write(&mut self, slot: u32, block: &Block) -> Result<(), Failed> {
        if let Ok(mut store) = self.store.try_borrow_mut() {
            if store.write(slot, block).is_ok() {
                return Ok(());
            }
        }
        self.faults = self.faults.saturating_add(1);
        Err(Failed)
    }

    fn marks(&self) -> Marks {
        Marks {
            faults: self.faults,
            losses: 0,
        }
    }
}
