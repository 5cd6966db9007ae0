//! Files that come in: a short one at once, a long one part by part behind the list of its parts.

use crate::goal::Goal;
use crate::joined::{Joined, Standing, tell_odd};
use crate::loads::Task;
use crate::stop::Stop;
use crate::visit::Visit;
use pot_bytes::Name;
use pot_client::{PART_SIZE, part_name};
use pot_report::{Kept, Manifest};
use pot_script::Reply;
use std::alloc::AllocError;

/// A file that comes in.
#[derive(Drop)]
pub struct Incoming {
    name: Name,
    kept: Kept,
    standing: Standing,
    /// A long file whose list of parts came.
    joined: Option<Joined>,
}

impl Incoming {
    /// A file of which nothing came yet.
    pub fn new(name: Name, kept: Kept) -> Incoming {
        Incoming {
            name,
            kept,
            standing: Standing::Wanting,
            joined: None,
        }
    }

    /// Whether more of it is to be fetched.
    pub fn is_wanting(&self) -> bool {
        self.standing == Standing::Wanting
    }

    /// Whether it is there under its name.
    pub fn is_there(&self) -> bool {
        self.standing == Standing::There
    }

    /// Appends what is to be fetched for it, in this order. It has this place among the files.
    pub fn append_tasks(&self, tasks: &mut Vec<Task>, file: usize) -> Result<(), AllocError> {
        if let Some(bytes) = self.kept.direct {
            let name = self.name;
            tasks.push(Task { name, bytes, file })?;
            return Ok(());
        }
        for number in 0..=self.kept.parts {
            if let Some(name) = part_name(&self.name, number) {
                let bytes = self.bytes_of(number);
                tasks.push(Task { name, bytes, file })?;
            }
        }
        Ok(())
    }

    // About how many bytes a part has, or under 0 the list of parts.
    fn bytes_of(&self, number: u32) -> u64 {
        let count = u64::from(self.kept.parts);
        let most = PART_SIZE as u64;
        if number == 0 {
            count.saturating_mul(70).saturating_add(256)
        } else if number < self.kept.parts {
            most
        } else {
            let others = count.saturating_sub(1).saturating_mul(most);
            self.kept.length.saturating_sub(others).min(most)
        }
    }

    /// Takes the reply to the next fetch for it. Where nothing more of it is wanted that is passed
    /// over.
    pub fn take(&mut self, visit: &Visit, goal: &Goal, reply: Reply) -> Result<(), Stop> {
        if !self.is_wanting() {
            return Ok(());
        }
        let bytes = bytes_in(visit, reply)?;
        if let Some(joined) = &mut self.joined {
            self.standing = joined.take(visit, goal, bytes)?;
            return Ok(());
        }
        self.standing = match bytes {
            Some(bytes) => self.take_first(visit, goal, &bytes)?,
            None => Standing::Failed,
        };
        Ok(())
    }

    // Takes a short file, or the list of parts of a long one.
    fn take_first(&mut self, visit: &Visit, goal: &Goal, bytes: &[u8]) -> Result<Standing, Stop> {
        if self.kept.direct.is_some() {
            return Ok(Standing::of(goal.write(visit, &self.name, bytes)?));
        }
        match Manifest::read(visit.alloc(), bytes)? {
            Some(list) if list.name == self.name => {
                let mut joined = Joined::new(list);
                let standing = joined.end(visit, goal)?;
                self.joined = Some(joined);
                Ok(standing)
            }
            _ => {
                tell_odd(visit, &self.name);
                Ok(Standing::Failed)
            }
        }
    }

    /// Ends it, once nothing more of it comes: parts that it still wants are told as lost.
    pub fn end(&mut self, visit: &Visit) {
        if !self.is_wanting() {
            return;
        }
        if let Some(joined) = &mut self.joined {
            joined.lose_rest(visit);
        }
    }

    /// Takes away what was written of it beside its name.
    pub fn abandon(&mut self, visit: &Visit) {
        if let Some(joined) = &mut self.joined {
            joined.abandon(visit);
        }
    }
}

// The bytes of a reply that has a file. Any other is told.
fn bytes_in(visit: &Visit, reply: Reply) -> Result<Option<Vec<u8>>, Stop> {
    match reply {
        Reply::File { bytes, .. } => Ok(Some(bytes.into_vec())),
        refusal => {
            let _ = visit.tell(&refusal)?;
            Ok(None)
        }
    }
}
