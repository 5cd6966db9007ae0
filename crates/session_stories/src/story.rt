//! A whole story, and what it is in each turn.
use crate::fault::{Fault, Stuck};
use crate::scene::{Scene, Turn};
use crate::told::Told;
use crate::turns::{Turns, turns_of};
use std::alloc::Global;
use std::sync::Wait;
use std::thread::Threads;

/// Tells a story, in which it is this turn of a line `each`, or none.
fn tell<X: Threads + Wait + Sync>(
    rt: &X,
    alloc: Global,
    story: &[&str],
    turn: Option<Turn>,
    told: &mut Told,
) -> Result<(), Stuck> {
    let mut scene = match Scene::new(alloc, story, turn) {
        Ok(scene) => scene,
        Err(fault) => return Err(Stuck { at: 0, fault }),
    };
    for (at, line) in story.iter().enumerate() {
        if let Err(fault) = scene.go_on(rt, at, line, told) {
            return Err(Stuck { at, fault });
        }
    }
    scene.make_call(rt, told).map_err(|fault| Stuck {
        at: story.len().saturating_sub(1),
        fault,
    })
}

/// Turns that follow one another, with one outcome.
#[derive(Drop)]
struct Stretch {
    first: u32,
    last: u32,
    outcome: String,
}

/// Tells a stretch of turns.
fn tell_stretch(
    alloc: Global,
    turns: &Turns,
    stretch: &Stretch,
    told: &mut Told,
) -> Result<(), Fault> {
    let name = turns.name(alloc, stretch.first)?;
    let outcome = stretch.outcome.as_str();
    if stretch.first == stretch.last {
        return told.outcome(&format!(in alloc; "{name}: {outcome}")?);
    }
    let last = turns.number_name(alloc, stretch.last)?;
    told.outcome(&format!(in alloc; "{name} to {last}: {outcome}")?)
}

/// What comes of a story in a turn.
fn outcome_of<X: Threads + Wait + Sync>(
    rt: &X,
    alloc: Global,
    story: &[&str],
    turn: Turn,
) -> Result<String, Stuck> {
    let mut told = Told::silent(alloc);
    tell(rt, alloc, story, Some(turn), &mut told)?;
    Ok(told.into_text())
}

/// Tells what comes of a story in each turn of the line `each` at this place.
fn tell_turns<X: Threads + Wait + Sync>(
    rt: &X,
    alloc: Global,
    story: &[&str],
    at: usize,
    turns: &Turns,
    told: &mut Told,
) -> Result<(), Stuck> {
    let stuck = |fault: Fault| Stuck { at, fault };
    let mut stretch: Option<Stretch> = None;
    for number in &turns.numbers(alloc).map_err(stuck)? {
        let turn = Turn {
            at,
            number: *number,
        };
        let outcome = outcome_of(rt, alloc, story, turn)?;
        let next = Stretch {
            first: *number,
            last: *number,
            outcome,
        };
        stretch = Some(match stretch {
            None => next,
            Some(before) => joined(alloc, turns, before, next, told).map_err(stuck)?,
        });
    }
    match &stretch {
        Some(last) => tell_stretch(alloc, turns, last, told).map_err(stuck),
        None => Ok(()),
    }
}

/// The stretch that goes on. Where the next turn has another outcome the stretch before is told.
fn joined(
    alloc: Global,
    turns: &Turns,
    before: Stretch,
    next: Stretch,
    told: &mut Told,
) -> Result<Stretch, Fault> {
    if before.outcome.as_str() == next.outcome.as_str() {
        return Ok(Stretch {
            first: before.first,
            ..next
        });
    }
    tell_stretch(alloc, turns, &before, told)?;
    Ok(next)
}

/// Tells a story, and behind it what comes of it in each turn of its lines `each`.
pub fn tell_in_turn<X: Threads + Wait + Sync>(
    rt: &X,
    alloc: Global,
    story: &[&str],
    told: &mut Told,
) -> Result<(), Stuck> {
    tell(rt, alloc, story, None, told)?;
    for (at, line) in story.iter().enumerate() {
        if let Some(words) = line.strip_prefix("each ") {
            let turns = turns_of(alloc, words).map_err(|fault| Stuck { at, fault })?;
            tell_turns(rt, alloc, story, at, &turns, told)?;
        }
    }
    Ok(())
}
