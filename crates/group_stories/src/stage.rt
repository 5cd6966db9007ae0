//! The stage of a story: its archives, and the group that stands on it.
use crate::archive::{Shared, Store};
use crate::calls;
use crate::calls::GROUP;
use crate::lines::{Act, Call, Says, Shape};
use crate::outcomes::{NO_GROUP, Outcome};
use pot_group::{Ended, Group, StartRefused, are_homes};
use pot_machine::{Entry, GroupTable};
use pot_outside::Shelf;
use std::alloc::{AllocError, Global};
use std::cell::RefCell;
use std::collections::BTreeMap;
use std::rc::Rc;

/// What the last close handed out.
#[derive(Drop)]
pub struct Closed {
    pub table: GroupTable,
    pub log: Vec<Entry>,
}

#[derive(Drop)]
pub struct Stage {
    alloc: Global,
    pub shape: Shape,
    /// The entries that led to the table of the first opening.
    before: Vec<Entry>,
    pub archives: BTreeMap<u32, Rc<RefCell<Store>>>,
    group: Option<Group<Shared>>,
    pub closed: Option<Closed>,
}

impl Stage {
    /// No archive is there, and no group stands.
    pub fn new(alloc: Global) -> Stage {
        Stage {
            alloc,
            shape: Shape {
                columns: 1,
                parity: 1,
                stripes: 1,
            },
            before: Vec::new(alloc),
            archives: BTreeMap::new(alloc),
            group: None,
            closed: None,
        }
    }

    /// Sets what a line says of the group's beginning, or of an archive from outside.
    pub fn set(&mut self, says: &Says) -> Result<(), AllocError> {
        match *says {
            Says::Group(shape) => self.shape = shape,
            Says::Had(entry) => self.before.push(entry)?,
            Says::Outside(number, act) => self.act(number, act)?,
            _ => {}
        }
        Ok(())
    }

    /// The archive of this number, which is made where there is none.
    fn store(&mut self, number: u32) -> Result<Rc<RefCell<Store>>, AllocError> {
        if let Some(store) = self.archives.get(&number) {
            return Rc::clone(store);
        }
        let store = Rc::new(self.alloc, RefCell::new(Store::new(self.alloc)))?;
        let _ = self.archives.insert(number, Rc::clone(&store)?)?;
        Ok(store)
    }

    fn shelf(&mut self, number: u32) -> Result<Shelf<Shared>, AllocError> {
        let store = self.store(number)?;
        Ok(Shelf {
            number,
            archive: Shared::new(store),
        })
    }

    /// Does to an archive what is done from outside.
    pub fn act(&mut self, number: u32, act: Act) -> Result<(), AllocError> {
        let store = self.store(number)?;
        if let Ok(mut store) = store.try_borrow_mut() {
            store.act(act)?;
        }
        Ok(())
    }

    /// Makes a call.
    pub fn make(&mut self, call: Call) -> Result<Outcome, AllocError> {
        match call {
            Call::Open => self.open(),
            Call::Close => Ok(self.close()),
            Call::MoveBegin {
                job,
                column,
                archive,
            } => {
                let shelf = self.shelf(archive)?;
                Ok(match &mut self.group {
                    Some(group) => calls::move_begin(group, job, column, shelf),
                    None => NO_GROUP,
                })
            }
            Call::Swap {
                job,
                column,
                archive,
            } => {
                let shelf = self.shelf(archive)?;
                Ok(match &mut self.group {
                    Some(group) => calls::swap(group, job, column, shelf),
                    None => NO_GROUP,
                })
            }
            _ => Ok(match &mut self.group {
                Some(group) => calls::make(group, call),
                None => NO_GROUP,
            }),
        }
    }

    /// The table that the next opening opens: that of the last close, or the one that the entries
    /// before led to.
    fn next_table(&self) -> Result<Option<GroupTable>, AllocError> {
        if let Some(closed) = &self.closed {
            return closed
                .table
                .copy(self.alloc)
                .map(Some)
                .map_err(|_| AllocError);
        }
        let rack = self.shape.rack();
        if !rack.fits() {
            return Ok(None);
        }
        let mut table = GroupTable::empty(self.alloc, &rack, 0).map_err(|_| AllocError)?;
        if !table.replay(&self.before) {
            return Ok(None);
        }
        Ok(Some(table))
    }

    /// The archives that a table names: the home of each column, and then the target of its move.
    fn shelves(&mut self, table: &GroupTable) -> Result<Vec<Shelf<Shared>>, AllocError> {
        let mut shelves = Vec::new(self.alloc);
        for column in table.columns() {
            shelves.push(self.shelf(column.home)?)?;
            if let Some(moving) = column.moving {
                shelves.push(self.shelf(moving.to)?)?;
            }
        }
        Ok(shelves)
    }

    fn open(&mut self) -> Result<Outcome, AllocError> {
        if self.group.is_some() {
            return Ok(Outcome::Plain("open already"));
        }
        let Some(table) = self.next_table()? else {
            return Ok(Outcome::Plain("no table"));
        };
        let shelves = self.shelves(&table)?;
        if !are_homes(table.columns(), &shelves) || table.relays() != [].as_slice() {
            return Ok(Outcome::Plain("relays stand"));
        }
        match Group::start(self.alloc, GROUP, table, shelves) {
            Ok(group) => {
                let logged = group.logged();
                self.group = Some(group);
                Ok(Outcome::Opened(logged))
            }
            Err(
                StartRefused {
                    table: _,
                    shelves: _,
                },
            ) => Err(AllocError),
        }
    }

    fn close(&mut self) -> Outcome {
        let Some(group) = self.group.take() else {
            return NO_GROUP;
        };
        let Ended {
            table,
            log,
            shelves: _,
        } = group.end();
        self.closed = Some(Closed { table, log });
        Outcome::Plain("closed")
    }

    /// The first stripe whose slot in this parity column is Lost or Broken.
    pub fn first_unkept(&self, column: u8) -> Option<u32> {
        if column < self.shape.columns {
            return None;
        }
        calls::first_unsound(self.group.as_ref()?, self.shape.stripes, column)
    }
}
