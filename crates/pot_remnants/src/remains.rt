//! The archives of the working folder as a room, of which none is written.

ghost use Rattle.std.specs.Prelude.{◌≡◌, ℕ, false};
ghost use Rattle.std.specs.Ordering.{nat_cmp};
ghost use Rattle.std.specs.BTreeSet.{contains};

use crate::inside::{Linked, inside_slots};
use crate::remnant::{Remnant, Tally, count_fault};
use crate::shape::Shape;
use crate::survey::Survey;
use pot_bytes::Block;
use pot_outside::{Archive, Failed, Room, RoomFault};
use std::alloc::AllocError;
use std::collections::BTreeSet;
use std::io::IsTerminal;
use std::mem;
use std::time::{Duration, Instant};

/// The archives of the working folder, of which none is written.
#[derive(Drop)]
pub struct Remains {
    rt: HostRuntime,
    program: &'static str,
    survey: Survey,
    shape: Option<Shape>,
    tallies: Vec<Tally>,
    hidden: Vec<Vec<u32>>,
    last: Option<Instant>,
    out: BTreeSet<u32>,
    faults: u64,
    failures: u64,
}

/// What came of each of so many archives, before anything did.
pub fn no_tallies(rt: &HostRuntime, count: u32) -> Result<Vec<Tally>, AllocError> {
    let mut tallies = Vec::new(rt.alloc());
    for _ in 0..count {
        tallies.push(Tally::none())?;
    }
    Ok(tallies)
}

// When a line may first tell how far the reading is. None where standard error is no terminal.
fn first_moment(rt: &HostRuntime) -> Option<Instant> {
    if rt.stderr().is_terminal() {
        Instant::now(rt).ok()
    } else {
        None
    }
}

impl Remains {
    /// The archives of a survey, with no archive out. The program is named in what is told of the
    /// progress. The blocks of hidden slots, by archive and in order, are left out.
    pub fn new(
        rt: &HostRuntime,
        program: &'static str,
        survey: Survey,
        shape: Option<Shape>,
        tallies: Vec<Tally>,
        hidden: Vec<Vec<u32>>,
    ) -> Remains
        ensures out { (n : ℕ) → contains nat_cmp result.out n ≡ false }
        ensures faults { result.faults ≡ 0 }
        ensures failures { result.failures ≡ 0 }
    {
        let last = first_moment(rt);
        Remains {
            rt: *rt,
            program,
            survey,
            shape,
            tallies,
            hidden,
            last,
            out: BTreeSet::new(rt.alloc()),
            faults: 0,
            failures: 0,
        }
    }

    /// What came of each archive, by number.
    pub fn tallies(&self) -> &[Tally] {
        &self.tallies
    }

    /// How the files of the archives were found.
    pub fn survey(&self) -> &Survey {
        &self.survey
    }

    /// Whether an archive has a file that can be read.
    pub fn has(&self, number: u32) -> bool {
        self.survey.state(number).is_there()
    }
}

// The slots of an archive that are left out. They are taken away, since an archive is read once.
fn hidden_in(rt: &HostRuntime, hidden: &mut [Vec<u32>], number: u32) -> Vec<u32> {
    let none = Vec::new(rt.alloc());
    match hidden.get_mut(number as usize) {
        Some(slots) => mem::replace(slots, none),
        None => none,
    }
}

/// Which blocks are read, with which blur, and what gives those that are gone.
#[derive(Clone, Copy)]
pub struct Reading {
    pub archives: u32,
    pub stripes: u32,
    pub blur: u8,
    pub shape: Option<Shape>,
}

/// The slots, by archive, of shards that lead to shards of their own archive alone, or to which
/// those alone lead. All blocks are read for it.
pub fn inside_of(
    rt: &HostRuntime,
    survey: &Survey,
    reading: Reading,
) -> Result<Vec<Vec<u32>>, AllocError> {
    let linked = linked_in(rt, survey, reading)?;
    inside_slots(rt.alloc(), &linked, reading.archives)
}

/// What the shards of all archives are linked by.
pub(crate) fn linked_in(
    rt: &HostRuntime,
    survey: &Survey,
    reading: Reading,
) -> Result<Vec<Linked>, AllocError> {
    let mut linked = Vec::new(rt.alloc());
    for number in 0..reading.archives {
        let none = Vec::new(rt.alloc());
        let mut archive = Remnant::open(rt, survey, reading.shape, number, none)?;
        for slot in 0..reading.stripes {
            if let Some(block) = archive.block_at(slot) {
                push_linked(&mut linked, &block, reading.blur, (number, slot))?;
            }
        }
    }
    Ok(linked)
}

fn push_linked(
    linked: &mut Vec<Linked>,
    block: &Block,
    blur: u8,
    (archive, slot): (u32, u32),
) -> Result<(), AllocError> {
    if let Some(shard) = Linked::of(block, blur, archive, slot) {
        linked.push(shard)?;
    }
    Ok(())
}

// Tells at a terminal that all is read, and what comes then.
fn tell_read(rt: &HostRuntime, program: &str, last: Option<Instant>) {
    if last.is_some() {
        let _ = eprintln!(rt; "{program}: all archives are read; their blocks are joined");
    }
}

// Tells which archive is read, where a second has passed. A line that cannot be written changes
// nothing.
fn tell_moment(rt: &HostRuntime, program: &str, last: &mut Option<Instant>, number: u32) {
    let Some(before) = *last else {
        return;
    };
    let Ok(now) = Instant::now(rt) else {
        return;
    };
    if now.duration_since(before) >= Duration::from_secs(1) {
        *last = Some(now);
        let _ = eprintln!(rt; "{program}: reading archive-{number}");
    }
}

impl Room for Remains {
    ghost use Rattle.std.specs.Prelude.{◌≡◌, ◌≢◌, ℕ, Bool, None, []};
    ghost use Rattle.std.specs.Ordering.{nat_cmp};
    ghost use Rattle.std.specs.BTreeSet.{contains};

    type A = Remnant;

    ghost meaning = { λ f. record {
      out = contains nat_cmp f.out;
      means = λ _. record {
        held = λ _. None;
        history = [];
        heard = [];
        faults = 0;
        losses = 0;
      };
      lent = λ _. 0;
      faults = f.faults;
      failures = f.failures;
    } };

    fn take(&mut self, number: u32) -> Result<Remnant, RoomFault> {
        tell_moment(&self.rt, self.program, &mut self.last, number);
        let hidden = hidden_in(&self.rt, &mut self.hidden, number);
        let archive = match Remnant::open(&self.rt, &self.survey, self.shape, number, hidden) {
            Ok(archive) => archive,
            Err(_) => return Err(RoomFault::NoMemory),
        };
        match self.out.insert(number) {
            Ok(_) => Ok(archive),
            Err(_) => Err(RoomFault::NoMemory),
        }
    }

    fn give(&mut self, number: u32, archive: Remnant) -> Result<(), Failed> {
        self.out.remove(&number);
        if archive.marks().faults > 0 {
            count_fault(&mut self.faults);
        }
        if let Some(tally) = self.tallies.get_mut(number as usize) {
            *tally = archive.tally();
        }
        if (number as usize).saturating_add(1) == self.tallies.len() {
            tell_read(&self.rt, self.program, self.last);
        }
        Ok(())
    }
}
