//! The objects of a story.
ghost use Rattle.std.specs.Prelude.{◌≡◌, ℕ, false};
ghost use Rattle.pot_doubles.specs.Rooms.{is_out};

use crate::fault::Fault;
use crate::words::{number_and_word, number_of};
use pot_bytes::NoMemory;
use pot_doubles::{Loss, LossyArchive, MemDesk, MemRoom, MemSink, MemSource};
use pot_outside::{Desk, Gate, Shelf};
use pot_session::run;
use std::alloc::{AllocError, Global};
use std::mem;
use std::sync::Wait;
use std::thread::Threads;

/// One more than the greatest number of an archive.
pub const ARCHIVES: u32 = 512;

/// The calls that fail, of each object whose calls are numbered from the story's beginning, and the
/// blocks that get lost.
#[derive(Drop)]
pub struct Troubles {
    pub room: Vec<u32>,
    /// Numbers of archives, and of their calls.
    pub archives: Vec<(u32, u32)>,
    /// Numbers of archives, and what they lose.
    pub losses: Vec<(u32, Loss)>,
}

/// The objects of a story, and the calls of the next call of the program that fail.
#[derive(Drop)]
pub struct Outside {
    pub room: MemRoom,
    pub image: Option<Vec<u8>>,
    pub drawn: u8,
    pub source_fails: Vec<u32>,
    pub sink_fails: Vec<u32>,
    pub desk_fails: Vec<u32>,
    ghost home: { (n : ℕ) → is_out room n ≡ false },
}

/// Lists so many calls, from this one on.
pub fn list_calls(fails: &mut Vec<u32>, first: u32, count: u32) -> Result<(), AllocError> {
    for call in first..first.saturating_add(count) {
        fails.push(call)?;
    }
    Ok(())
}

impl Troubles {
    /// Lists so many calls of the room, or of an archive, from one on, as the words behind `fail`
    /// or `stop` say.
    pub fn list(&mut self, words: &str, count: u32) -> Result<(), Fault> {
        match words.split_once(' ') {
            Some(("room", call)) => list_calls(&mut self.room, number_of(call)?, count)?,
            Some(("archive", words)) => {
                let (archive, call) = number_and_word(words)?;
                self.list_of_archive(archive, number_of(call)?, count)?;
            }
            _ => {}
        }
        Ok(())
    }

    /// Lists so many calls of an archive, from this one on.
    pub fn list_of_archive(
        &mut self,
        archive: u32,
        first: u32,
        count: u32,
    ) -> Result<(), AllocError> {
        for call in first..first.saturating_add(count) {
            self.archives.push((archive, call))?;
        }
        Ok(())
    }
}

/// Lets so many calls of a room and of its archives pass, and fails all later ones.
fn lay_fuse(room: &mut MemRoom, calls: u32) -> Result<(), Fault>
    requires home { (n : ℕ) → is_out room.old n ≡ false }
    ensures home { (n : ℕ) → is_out room.new n ≡ false }
{
    match room.fuse(u64::from(calls)) {
        Ok(()) => Ok(()),
        Err(NoMemory) => Err(Fault::NoMemory),
    }
}

/// The archive of this number with what befalls it, if anything does.
fn troubled(
    alloc: Global,
    number: u32,
    troubles: &Troubles,
) -> Result<Option<LossyArchive>, AllocError> {
    let mut fails = Vec::new(alloc);
    for (archive, call) in &troubles.archives {
        if *archive == number {
            fails.push(*call)?;
        }
    }
    let mut losses = Vec::new(alloc);
    for (archive, loss) in &troubles.losses {
        if *archive == number {
            losses.push(*loss)?;
        }
    }
    if fails.is_empty() && losses.is_empty() {
        return Ok(None);
    }
    Ok(Some(LossyArchive::new(alloc, fails, losses)))
}

/// The image of a desk of which at most so many calls fail.
fn image_of(desk: &mut MemDesk, fails: usize) -> Result<Option<Vec<u8>>, Fault> {
    for _ in 0..=fails {
        if let Ok(image) = desk.read() {
            return Ok(image);
        }
    }
    Err(Fault::NoMemory)
}

/// The words of a command line.
fn words_of(alloc: Global, words: &str) -> Result<Vec<String>, AllocError> {
    let mut owned = Vec::new(alloc);
    for word in words.split(' ') {
        if !word.is_empty() {
            owned.push(String::from_str(alloc, word)?)?;
        }
    }
    Ok(owned)
}

impl Outside {
    /// A room without blocks, and a desk without an image.
    pub fn new(alloc: Global, troubles: Troubles) -> Result<Outside, AllocError> {
        let mut shelves = Vec::new(alloc);
        for number in 0..ARCHIVES {
            if let Some(archive) = troubled(alloc, number, &troubles)? {
                shelves.push(Shelf { number, archive })?;
            }
        }
        Ok(Outside {
            room: MemRoom::new(alloc, shelves, troubles.room),
            image: None,
            drawn: 7,
            source_fails: Vec::new(alloc),
            sink_fails: Vec::new(alloc),
            desk_fails: Vec::new(alloc),
        })
    }

    /// Lets so many calls of the room and of its archives pass, and fails all later ones.
    pub fn fuse(&mut self, calls: u32) -> Result<(), Fault> {
        lay_fuse(&mut self.room, calls)
    }

    /// Calls the program, and gives its status and what it wrote.
    pub fn call<W: Gate, X: Threads + Wait + Sync>(
        &mut self,
        rt: &X,
        alloc: Global,
        words: &str,
        script: Vec<u8>,
        gate: &W,
    ) -> Result<(u8, Vec<u8>), Fault> {
        let owned = words_of(alloc, words)?;
        let desk_fails = mem::replace(&mut self.desk_fails, Vec::new(alloc));
        let fails = desk_fails.len();
        let mut source = MemSource::new(
            script,
            mem::replace(&mut self.source_fails, Vec::new(alloc)),
        );
        let mut sink = MemSink::new(alloc, mem::replace(&mut self.sink_fails, Vec::new(alloc)));
        let mut desk = MemDesk::new(alloc, self.image.take(), desk_fails);
        let drawn = [self.drawn; 32];
        let status = run(
            rt,
            alloc,
            &owned,
            drawn,
            &mut source,
            &mut sink,
            &mut self.room,
            &mut desk,
            gate,
        );
        self.image = image_of(&mut desk, fails)?;
        Ok((status, sink.written().to_vec(alloc)?))
    }
}
