//! A long file that is put together from its parts.

use crate::goal::Goal;
use crate::new_file::NewFile;
use crate::stop::Stop;
use crate::visit::Visit;
use pot_bytes::Name;
use pot_report::{Manifest, name_text};
use sha2::{Digest, Sha256};
use std::mem;

/// How a file stands.
#[derive(Clone, Copy, PartialEq, Eq)]
pub enum Standing {
    /// Not all of it came yet.
    Wanting,
    /// It is there under its name.
    There,
    /// It is not written, and what failed was told.
    Failed,
}

impl Standing {
    /// That of a file all of which came, by whether it is there under its name.
    pub fn of(there: bool) -> Standing {
        if there {
            Standing::There
        } else {
            Standing::Failed
        }
    }
}

/// A file that is put together. Its parts come in their order and are written beside its name, and
/// it gets that as a whole.
#[derive(Drop)]
pub struct Joined {
    list: Manifest,
    /// How many parts came, and how many of them could not be fetched.
    came: usize,
    lost: usize,
    /// The parts that came, with their length and their digest.
    file: Option<NewFile>,
    length: u64,
    hasher: Sha256,
}

impl Joined {
    /// A file with this list of parts, of which none came yet.
    pub fn new(list: Manifest) -> Joined {
        Joined {
            list,
            came: 0,
            lost: 0,
            file: None,
            length: 0,
            hasher: Sha256::new(),
        }
    }

    /// Takes the next part, or that it could not be fetched, which was told.
    pub fn take(
        &mut self,
        visit: &Visit,
        goal: &Goal,
        part: Option<Vec<u8>>,
    ) -> Result<Standing, Stop> {
        self.came = self.came.saturating_add(1);
        let Some(bytes) = part else {
            self.lost = self.lost.saturating_add(1);
            self.abandon(visit);
            return self.end(visit, goal);
        };
        if self.lost == 0 && !self.append(visit, goal, &bytes)? {
            return Ok(Standing::Failed);
        }
        self.end(visit, goal)
    }

    // Writes a part behind those that came. Answers whether it is written; where it is not that is
    // told.
    fn append(&mut self, visit: &Visit, goal: &Goal, bytes: &[u8]) -> Result<bool, Stop> {
        let Some(file) = self.opened(visit, goal)? else {
            return Ok(false);
        };
        self.length = self.length.saturating_add(bytes.len() as u64);
        self.hasher.update(bytes);
        self.file = goal.append(visit, &self.list.name, file, bytes)?;
        Ok(self.file.is_some())
    }

    // The file beside its name, which is made where it is not there yet. None where it could not be
    // made, which is told.
    fn opened(&mut self, visit: &Visit, goal: &Goal) -> Result<Option<NewFile>, Stop> {
        if let Some(file) = self.file.take() {
            return Ok(Some(file));
        }
        if !goal.may_write(visit, &self.list.name)? {
            return Ok(None);
        }
        goal.begin(visit, &self.list.name)
    }

    /// Gives it its name, where all parts came and fit its list.
    pub fn end(&mut self, visit: &Visit, goal: &Goal) -> Result<Standing, Stop> {
        if self.came < self.list.parts.len() {
            return Ok(Standing::Wanting);
        }
        if self.lost > 0 {
            self.tell_lost(visit);
            return Ok(Standing::Failed);
        }
        if !self.fits() {
            self.abandon(visit);
            tell_odd(visit, &self.list.name);
            return Ok(Standing::Failed);
        }
        match self.opened(visit, goal)? {
            Some(file) => Ok(Standing::of(goal.settle(visit, &self.list.name, file)?)),
            None => Ok(Standing::Failed),
        }
    }

    // Whether the parts have the length and the digest of the list.
    fn fits(&mut self) -> bool {
        let hasher = mem::replace(&mut self.hasher, Sha256::new());
        self.length == self.list.length && hasher.finalize() == self.list.digest.bytes
    }

    /// Tells that the parts which did not come are lost too.
    pub fn lose_rest(&mut self, visit: &Visit) {
        let missing = self.list.parts.len().saturating_sub(self.came);
        self.lost = self.lost.saturating_add(missing);
        self.tell_lost(visit);
    }

    /// Takes away what is written beside its name.
    pub fn abandon(&mut self, visit: &Visit) {
        if let Some(file) = self.file.take() {
            file.abandon(&visit.rt);
        }
    }

    fn tell_lost(&self, visit: &Visit) {
        let rt = &visit.rt;
        let text = name_text(&self.list.name);
        let count = self.list.parts.len();
        let lost = self.lost;
        let _ = eprintln!(rt;
            "pots: {text} was not written: of its {count} parts {lost} could not be fetched"
        );
    }
}

/// Tells that what is stored of a long file is not what its list of parts says, or is no list.
pub fn tell_odd(visit: &Visit, name: &Name) {
    let rt = &visit.rt;
    let text = name_text(name);
    let _ = eprintln!(rt;
        "pots: the parts of {text} do not fit their list, and nothing was written: fetch the parts one by one with potshards(1)"
    );
}
