//! The memory of a batch, all of it taken before the first job begins.
ghost use Rattle.std.specs.Prelude.{◌≡◌, ◌<◌, ◌≤◌, ◌*◌, [], None, IfOk, length, vec_capacity};
ghost use Rattle.crossbeam_queue.specs.Passes.{view, IsPassOf, ruled_capacity};
ghost use Rattle.pot_work.specs.Claims.{hand, all_parts};
ghost use Rattle.pot_work.specs.Works.{Each};
ghost use Rattle.pot_work.specs.Rooms.{AreRooms, IsRoom};

use crate::claims::{Claim, Line};
use std::alloc::{AllocError, Global};

/// A worker: its claim, and the jobs that it finished with their positions.
#[derive(Drop)]
pub struct Worker<J> {
    pub claim: Claim<J>,
    pub finished: Vec<(u32, J)>,
}

/// Room for a batch.
#[derive(Drop)]
pub struct Rooms<J> {
    pub line: Line<J>,
    pub claim: Claim<J>,
    /// Room for what each worker finishes.
    pub finished: Vec<Vec<(u32, J)>>,
    pub workers: Vec<Worker<J>>,
    /// Room for what is finished once the workers have ended.
    pub last: Vec<(u32, J)>,
    pub places: Vec<Option<J>>,
    pub back: Vec<J>,
}

/// An empty place for each of so many jobs.
fn empty_places<J: Drop>(alloc: Global, count: usize) -> Result<Vec<Option<J>>, AllocError>
    ensures { IfOk result (λ places. length places.items ≡ count) }
{
    let mut places = Vec::with_capacity(alloc, count)?;
    for _ in 0..count {
        places.push_reserved(None);
    }
    Ok(places)
}

/// Room for so many finished jobs of each worker.
fn rooms_to_finish<J: Drop>(
    alloc: Global,
    count: usize,
    workers: u8,
) -> Result<Vec<Vec<(u32, J)>>, AllocError>
    ensures { IfOk result
        (λ rooms. (length rooms.items ≡ workers) × Each (IsRoom count) rooms.items) }
{
    let mut rooms = Vec::with_capacity(alloc, workers as usize)?;
    for _ in 0..workers {
        rooms.push_reserved(Vec::with_capacity(alloc, count)?);
    }
    Ok(rooms)
}

/// Takes all the room that so many jobs need on so many workers.
pub fn take_rooms<J: Drop>(alloc: Global, count: usize, workers: u8) -> Result<Rooms<J>, AllocError>
    requires some { 0 < count }
    ensures { IfOk result (λ rooms. AreRooms count workers rooms) }
{
    let (line, claim) = Line::<J>::ruled(alloc, count)?;
    Ok(Rooms {
        line,
        claim,
        finished: rooms_to_finish(alloc, count, workers)?,
        workers: Vec::with_capacity(alloc, workers as usize)?,
        last: Vec::with_capacity(alloc, count)?,
        places: empty_places(alloc, count)?,
        back: Vec::with_capacity(alloc, count)?,
    })
}
