//! Files that are gathered until there is enough for a session.
//!
//! The list of parts of a long file is stored once each of its parts was answered `stored`, or was
//! there before. So it goes into a session behind that of its last part.

use crate::program::{Program, Sessions};
use crate::session::hold_together;
use pot_bytes::{Bytes, Name};
use pot_client::{ends_as_part, read_part_name};
use pot_report::{name_text, spoken_name};
use pot_script::{Command, Reply};
use pots_vault::{Load, Progress, Stop, Visit};
use std::alloc::{AllocError, Global};
use std::mem;
use std::sync::Wait;
use std::thread::Threads;

/// A list of parts.
#[derive(Drop)]
struct PartList {
    file: Name,
    name: Name,
    text: Bytes,
}

/// Files that wait for a session.
#[derive(Drop)]
pub struct Gathered {
    commands: Vec<Command>,
    names: Vec<Name>,
    /// Those of the names that are of lists beside files of one part. Of these no word is said.
    quiet: Vec<Name>,
    load: Load,
    /// The lists of files of which parts are in the session. They wait for the next one.
    lists: Vec<PartList>,
    /// The first file that lacks a part, which was refused.
    lacking: Option<Name>,
    progress: Progress,
}

impl Gathered {
    /// No file waits yet.
    pub fn new(alloc: Global, progress: Progress) -> Gathered {
        Gathered {
            commands: Vec::new(alloc),
            names: Vec::new(alloc),
            quiet: Vec::new(alloc),
            load: Load::nothing(),
            lists: Vec::new(alloc),
            lacking: None,
            progress,
        }
    }

    /// The first long file of which a part was refused, once all its parts were added.
    pub fn lacking(&self) -> Option<Name> {
        self.lacking
    }

    /// Adds a file, and first holds a session where there would be too much for one. Answers
    /// whether nothing was refused.
    pub fn add<X: Threads + Wait + Sync, P: Program>(
        &mut self,
        sessions: &Sessions<'_, X, P>,
        visit: &mut Visit,
        name: Name,
        file: &[u8],
    ) -> Result<bool, Stop> {
        if self.load.is_full(file.len() as u64) && !self.flush(sessions, visit)? {
            return Ok(false);
        }
        let file = Bytes::from_vec(Vec::from_slice(visit.alloc(), file)?);
        self.push(name, file)?;
        Ok(true)
    }

    /// Adds the list of a file of one part, which is told where it is refused alone. Answers
    /// whether nothing was refused.
    pub fn add_quiet<X: Threads + Wait + Sync, P: Program>(
        &mut self,
        sessions: &Sessions<'_, X, P>,
        visit: &mut Visit,
        name: Name,
        text: &[u8],
    ) -> Result<bool, Stop> {
        if !self.add(sessions, visit, name, text)? {
            return Ok(false);
        }
        self.quiet.push(name)?;
        Ok(true)
    }

    /// Adds the list of parts of a file, whose parts were added right before, but for those that
    /// were stored already. Answers whether nothing was refused.
    pub fn add_list<X: Threads + Wait + Sync, P: Program>(
        &mut self,
        sessions: &Sessions<'_, X, P>,
        visit: &mut Visit,
        (file, name): (Name, Name),
        text: &[u8],
    ) -> Result<bool, Stop> {
        if !self
            .names
            .last()
            .is_some_and(|last| is_part_of(last, &file))
        {
            return self.add(sessions, visit, name, text);
        }
        let text = Bytes::from_vec(Vec::from_slice(visit.alloc(), text)?);
        self.lists.push(PartList { file, name, text })?;
        Ok(true)
    }

    fn push(&mut self, name: Name, file: Bytes) -> Result<(), AllocError> {
        self.load.add(file.as_slice().len() as u64);
        self.names.push(name)?;
        self.commands.push(Command::Store { name, file })?;
        Ok(())
    }

    /// Stores all that waits, and at last the lists of parts. Answers whether nothing was refused.
    pub fn finish<X: Threads + Wait + Sync, P: Program>(
        &mut self,
        sessions: &Sessions<'_, X, P>,
        visit: &mut Visit,
    ) -> Result<bool, Stop> {
        let files = self.flush(sessions, visit)?;
        let lists = self.flush(sessions, visit)?;
        Ok(files && lists)
    }

    // Holds a session that stores what waits, and answers whether nothing was refused. Where
    // nothing waits there is none.
    fn flush<X: Threads + Wait + Sync, P: Program>(
        &mut self,
        sessions: &Sessions<'_, X, P>,
        visit: &mut Visit,
    ) -> Result<bool, Stop> {
        if self.names.is_empty() {
            return Ok(true);
        }
        let alloc = visit.alloc();
        let commands = mem::replace(&mut self.commands, Vec::new(alloc));
        let names = mem::replace(&mut self.names, Vec::new(alloc));
        let quiet = mem::replace(&mut self.quiet, Vec::new(alloc));
        let load = mem::replace(&mut self.load, Load::nothing());
        let replies = hold_together(sessions, visit, commands)?;
        self.progress.add(&visit.rt, load.bytes());
        let refused = tell_stored(visit, &names, &quiet, &replies)?;
        self.move_lists(alloc, &refused)?;
        Ok(refused.is_empty())
    }

    // Adds the lists of the files that are stored but for their lists: of all up to the first that
    // lacks a part.
    fn move_lists(&mut self, alloc: Global, refused: &[Name]) -> Result<(), AllocError> {
        for list in mem::replace(&mut self.lists, Vec::new(alloc)) {
            if refused.iter().any(|name| is_part_of(name, &list.file)) {
                self.lacking = Some(list.file);
                break;
            }
            self.push(list.name, list.text)?;
        }
        Ok(())
    }
}

// Whether a name is that of a part of the file.
fn is_part_of(name: &Name, file: &Name) -> bool {
    match read_part_name(name) {
        Some((stem, _)) => stem == *file,
        None => false,
    }
}

// Tells of each file what came of it, of parts alone by the list of parts. Answers which of them
// were not stored.
fn tell_stored(
    visit: &Visit,
    names: &[Name],
    quiet: &[Name],
    replies: &[Reply],
) -> Result<Vec<Name>, Stop> {
    let mut refused = Vec::new(visit.alloc());
    let mut replies = replies.iter();
    for name in names {
        let stored = match replies.next() {
            Some(reply) => tell_one(visit, name, quiet.contains(name), reply)?,
            None => false,
        };
        if !stored {
            refused.push(*name)?;
        }
    }
    Ok(refused)
}

// Tells what came of a file, of which no word may be said where it is stored. Answers whether it
// is.
fn tell_one(visit: &Visit, name: &Name, is_quiet: bool, reply: &Reply) -> Result<bool, Stop> {
    let stored = matches!(reply, Reply::Stored { .. });
    if stored && is_quiet {
        return Ok(true);
    }
    if stored && !visit.json {
        tell_name(visit, name)?;
    } else if visit.tell(reply)? {
        tell_refused(visit, name)?;
    }
    Ok(stored)
}

fn tell_name(visit: &Visit, name: &Name) -> Result<(), Stop> {
    let text = name_text(name);
    if !ends_as_part(name) {
        println!(visit; "stored {text}")?;
    } else if let Some(stem) = text.strip_suffix(".p0000") {
        println!(visit; "stored {stem} in parts")?;
    }
    Ok(())
}

// Tells which file a refusal was of.
fn tell_refused(visit: &Visit, name: &Name) -> Result<(), Stop> {
    let rt = &visit.rt;
    let text = spoken_name(visit.alloc(), name)?;
    let _ = eprintln!(rt; "pots: {text} was not stored");
    Ok(())
}
