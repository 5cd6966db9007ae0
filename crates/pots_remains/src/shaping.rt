//! How archives form groups, as their blocks tell it.

use pot_bytes::xor_into;
use pot_remnants::{MOST_COLUMNS, MOST_PARITY, SLOT, Shape, Survey, open_archive};
use pots_vault::Visit;
use std::alloc::AllocError;
use std::fs::File;
use std::os::unix::fs::FileExt;

/// How many slots of each archive are looked at, from the first on.
const LOOKED: u32 = 32;

/// How many bytes of a block are looked at.
const FRONT: usize = 64;

/// How much a stripe counts whose blocks are all there and fit its parity.
const FITS: i64 = 4;

/// How much a stripe counts whose blocks do not fit its parity.
const MISFITS: i64 = -4;

/// The shape of groups where nobody asks for another.
const USUAL: Shape = Shape {
    columns: 3,
    parity: 1,
};

type Front = [u8; FRONT];

/// The fronts of the first blocks of an archive, by slot. None where no block of it can be read.
type Fronts = Option<Vec<Option<Front>>>;

/// The fronts of the first blocks of all archives, by number.
#[derive(Drop)]
pub struct Fronting {
    archives: Vec<Fronts>,
}

impl Fronting {
    /// Reads the fronts of the archives below a bound that are there.
    pub fn read(visit: &Visit, survey: &Survey, bound: u32) -> Result<Fronting, AllocError> {
        let mut archives = Vec::new(visit.alloc());
        for number in 0..bound {
            let fronts = if survey.state(number).is_there() {
                fronts_of(visit, number)?
            } else {
                None
            };
            archives.push(fronts)?;
        }
        Ok(Fronting { archives })
    }

    /// The blur that most shards have.
    pub fn blur(&self) -> Option<u8> {
        let mut counts = [0u32; 64];
        for fronts in self.archives.iter().flatten() {
            for front in fronts.iter().flatten() {
                if let (true, Some(count)) = (is_shard(front), counts.get_mut(blur_of(front))) {
                    *count = count.saturating_add(1);
                }
            }
        }
        most_counted(&counts)
    }

    /// The shape that the blocks fit best, of those with the numbers that are given. None where
    /// nothing speaks for one and not all of it is given.
    pub fn shape(&self, columns: Option<u32>, parity: Option<u32>) -> Option<Shape> {
        let mut best = Shape {
            columns: columns.unwrap_or(USUAL.columns),
            parity: parity.unwrap_or(USUAL.parity),
        };
        let mut score = self.score(best);
        for wide in 1..=MOST_COLUMNS {
            for high in 1..=MOST_PARITY {
                let other = Shape {
                    columns: columns.unwrap_or(wide),
                    parity: parity.unwrap_or(high),
                };
                let reached = self.score(other);
                if reached > score {
                    best = other;
                    score = reached;
                }
            }
        }
        if score > 0 || columns.is_some() {
            Some(best)
        } else {
            None
        }
    }

    // How much the stripes that are looked at speak for a shape.
    fn score(&self, shape: Shape) -> i64 {
        let mut score = 0i64;
        for group in self.archives.chunks((shape.width() as usize).max(1)) {
            for slot in 0..LOOKED {
                let found = judged(group, shape.columns as usize, slot as usize);
                score = score.saturating_add(found);
            }
        }
        score
    }
}

fn fronts_of(visit: &Visit, number: u32) -> Result<Fronts, AllocError> {
    let Some(file) = open_archive(&visit.rt, number) else {
        return Ok(None);
    };
    let mut fronts = Vec::new(visit.alloc());
    for slot in 0..LOOKED {
        fronts.push(front_in(&file, slot))?;
    }
    Ok(Some(fronts))
}

// The front of the block of a slot: behind a byte that is 1 where a block is held.
fn front_in(file: &File, slot: u32) -> Option<Front> {
    let place = u64::from(slot) * SLOT;
    let mut held = [0u8; 1];
    let mut front = [0u8; FRONT];
    file.read_exact_at(&mut held, place).ok()?;
    file.read_exact_at(&mut front, place + 1).ok()?;
    if held == [1] { Some(front) } else { None }
}

// What a stripe of a group says to this number of data columns: much for it where its blocks are
// those of its first parity, a little where one archive is gone and what the others give in its
// place looks like a shard, and much against it where they do not fit.
fn judged(group: &[Fronts], columns: usize, slot: usize) -> i64 {
    let Some(parity) = group
        .get(columns)
        .and_then(|archive| front_at(archive, slot))
    else {
        return 0;
    };
    let mut sum = *parity;
    let mut gone = 0u32;
    for archive in group.iter().take(columns) {
        match front_at(archive, slot) {
            Some(front) => xor_into(&mut sum, front),
            None if archive.is_none() => gone = gone.saturating_add(1),
            None => {}
        }
    }
    if sum == [0; FRONT] {
        return FITS;
    }
    match gone {
        0 => MISFITS,
        1 if is_shard(&sum) => 1,
        1 => MISFITS,
        _ => 0,
    }
}

fn front_at(archive: &Fronts, slot: usize) -> Option<&Front> {
    archive.as_ref()?.get(slot)?.as_ref()
}

// Whether a block that begins so looks like a shard: PSH1, x, m, n and the blur, and zeros behind
// the name and the pointer.
fn is_shard(front: &Front) -> bool {
    let [b'P', b'S', b'H', b'1', x, m, n, blur, rest @ ..] = front.as_slice() else {
        return false;
    };
    let zeros = rest.iter().skip(16).take(8).all(|byte| *byte == 0);
    *x >= 1 && x <= n && *m >= 1 && m <= n && *n <= 16 && *blur < 64 && zeros
}

fn blur_of(front: &Front) -> usize {
    let [_, _, _, _, _, _, _, blur, ..] = *front;
    usize::from(blur)
}

fn most_counted(counts: &[u32; 64]) -> Option<u8> {
    let mut best = None;
    let mut most = 0;
    for (blur, count) in counts.iter().enumerate() {
        if *count > most {
            most = *count;
            best = u8::try_from(blur).ok();
        }
    }
    best
}
