//! Files that are fetched into memory.

use crate::fetched::fetch_replies;
use crate::program::{Program, Sessions};
use pot_bytes::{Name, digest_of};
use pot_report::{Kept, Manifest};
use pot_script::Reply;
use pots_vault::{Incoming, Stop, Task, Visit, cut};
use std::alloc::{AllocError, Global};
use std::sync::Wait;
use std::thread::Threads;

/// A file that comes into memory: alone, or as the list of its parts and the parts.
#[derive(Drop)]
struct Coming {
    is_alone: bool,
    first: Option<Vec<u8>>,
    others: Vec<u8>,
    is_lost: bool,
}

impl Coming {
    fn new(alloc: Global, kept: &Kept) -> Coming {
        Coming {
            is_alone: kept.direct.is_some(),
            first: None,
            others: Vec::new(alloc),
            is_lost: false,
        }
    }

    // Takes the reply to the next fetch for it. A refusal is told.
    fn take(&mut self, visit: &Visit, reply: Reply) -> Result<(), Stop> {
        match reply {
            Reply::File { bytes, .. } => Ok(self.append(bytes.into_vec())?),
            refusal => {
                self.is_lost = true;
                let _ = visit.tell(&refusal)?;
                Ok(())
            }
        }
    }

    fn append(&mut self, bytes: Vec<u8>) -> Result<(), AllocError> {
        if self.first.is_some() {
            return self.others.extend_from_slice(&bytes);
        }
        self.first = Some(bytes);
        Ok(())
    }

    // The file. None where it did not come, or is not what its list of parts says.
    fn end(self, alloc: Global) -> Result<Option<Vec<u8>>, AllocError> {
        let Coming {
            is_alone,
            first,
            others,
            is_lost,
        } = self;
        let Some(first) = first else {
            return Ok(None);
        };
        if is_lost {
            return Ok(None);
        }
        if is_alone {
            return Ok(Some(first));
        }
        match Manifest::read(alloc, &first)? {
            Some(list) if list.digest == digest_of(&others) => Ok(Some(others)),
            _ => Ok(None),
        }
    }
}

/// Fetches files into memory, in their order. None for one that did not come, which was told.
pub fn fetch_whole<X: Threads + Wait + Sync, P: Program>(
    sessions: &Sessions<'_, X, P>,
    visit: &mut Visit,
    files: &[(Name, Kept)],
) -> Result<Vec<Option<Vec<u8>>>, Stop> {
    let alloc = visit.alloc();
    let mut tasks = Vec::new(alloc);
    let mut coming = Vec::new(alloc);
    for (place, (name, kept)) in files.iter().enumerate() {
        Incoming::new(*name, *kept).append_tasks(&mut tasks, place)?;
        coming.push(Coming::new(alloc, kept))?;
    }
    for tasks in cut(alloc, &tasks)? {
        fetch_some(sessions, visit, &tasks, &mut coming)?;
    }
    let mut whole = Vec::new(alloc);
    for file in coming {
        whole.push(file.end(alloc)?)?;
    }
    Ok(whole)
}

// Holds a session for these tasks.
fn fetch_some<X: Threads + Wait + Sync, P: Program>(
    sessions: &Sessions<'_, X, P>,
    visit: &mut Visit,
    tasks: &[Task],
    coming: &mut [Coming],
) -> Result<(), Stop> {
    let mut names = Vec::new(visit.alloc());
    for task in tasks {
        names.push(task.name)?;
    }
    let replies = fetch_replies(sessions, visit, &names)?;
    for (task, reply) in tasks.iter().zip(replies) {
        if let Some(file) = coming.get_mut(task.file) {
            file.take(visit, reply)?;
        }
    }
    Ok(())
}
