//! A story as it goes on, line by line.
use crate::blocks::{change_blocks, empty_all};
use crate::changes::{change_image, cut};
use crate::fault::Fault;
use crate::images::tell_image;
use crate::looks::tell_look;
use crate::outside::{Outside, Troubles, list_calls};
use crate::scripts::{append, is_part, part_of};
use crate::stripes::tell_stripes;
use crate::told::Told;
use crate::turns::{ALL_LATER, Event, turns_of};
use crate::words::{byte_of, number_of, numbers_of};
use crate::written::tell_written;
use pot_doubles::{Loss, OpenGate, PairGate};
use pot_outside::Gate;
use std::alloc::Global;
use std::mem;
use std::sync::Wait;
use std::thread::Threads;

/// The line `each` of a story whose turn it is, by its place, and with which number.
#[derive(Clone, Copy, PartialEq, Eq, Debug)]
pub struct Turn {
    pub at: usize,
    pub number: u32,
}

/// How many turns of a loop the first job of a batch waits for the second.
const PATIENCE: u64 = 50_000_000;

/// A call of the program that was not made yet: its words, and its script so far.
#[derive(Drop)]
struct Pending {
    words: String,
    script: Vec<u8>,
}

/// A story as it goes on.
#[derive(Drop)]
pub struct Scene {
    alloc: Global,
    turn: Option<Turn>,
    outside: Outside,
    pending: Option<Pending>,
    /// In the next call the first job of a batch waits for the second.
    waits: bool,
}

/// Adds what a line says of the whole story.
fn add_trouble(alloc: Global, line: &str, troubles: &mut Troubles) -> Result<(), Fault> {
    if let Some(words) = line.strip_prefix("fail ") {
        troubles.list(words, 1)?;
    }
    if let Some(words) = line.strip_prefix("stop ") {
        troubles.list(words, ALL_LATER)?;
    }
    if let Some(words) = line.strip_prefix("lose ") {
        if let [archive, call, slot] = numbers_of(alloc, words)?.as_slice() {
            let loss = Loss {
                call: *call,
                slot: *slot,
            };
            troubles.losses.push((*archive, loss))?;
        }
    }
    Ok(())
}

/// Adds what the line `each` of this turn says of the whole story.
fn add_turn(alloc: Global, words: &str, number: u32, troubles: &mut Troubles) -> Result<(), Fault> {
    let turns = turns_of(alloc, words)?;
    match turns.event {
        Event::RoomFails => list_calls(&mut troubles.room, number, turns.calls)?,
        Event::ArchiveFails(archive) => {
            troubles.list_of_archive(archive, number, turns.calls)?;
        }
        _ => {}
    }
    Ok(())
}

/// The calls that fail and the blocks that get lost in the whole story.
fn troubles_of(alloc: Global, story: &[&str], turn: Option<Turn>) -> Result<Troubles, Fault> {
    let mut troubles = Troubles {
        room: Vec::new(alloc),
        archives: Vec::new(alloc),
        losses: Vec::new(alloc),
    };
    for line in story {
        add_trouble(alloc, line, &mut troubles)?;
    }
    if let Some(Turn { at, number }) = turn
        && let Some(line) = story.get(at)
        && let Some(words) = line.strip_prefix("each ")
    {
        add_turn(alloc, words, number, &mut troubles)?;
    }
    Ok(troubles)
}

impl Scene {
    /// The beginning of a story, in which it is this turn of a line `each`, or none.
    pub fn new(alloc: Global, story: &[&str], turn: Option<Turn>) -> Result<Scene, Fault> {
        let troubles = troubles_of(alloc, story, turn)?;
        Ok(Scene {
            alloc,
            turn,
            outside: Outside::new(alloc, troubles)?,
            pending: None,
            waits: false,
        })
    }

    /// Begins a call of the program, which is made behind its script.
    fn begin_call(&mut self, words: &str) -> Result<(), Fault> {
        self.pending = Some(Pending {
            words: String::from_str(self.alloc, words)?,
            script: Vec::new(self.alloc),
        });
        Ok(())
    }

    /// Makes the call that was not made yet, and tells what came of it.
    pub fn make_call<X: Threads + Wait + Sync>(
        &mut self,
        rt: &X,
        told: &mut Told,
    ) -> Result<(), Fault> {
        let Some(pending) = self.pending.take() else {
            return Ok(());
        };
        if !self.waits {
            return self.call(rt, pending, &OpenGate, told);
        }
        self.waits = false;
        let gate = PairGate::new(PATIENCE);
        self.call(rt, pending, &gate, told)?;
        let met = if gate.met() { "met" } else { "not met" };
        Ok(told.outcome(met)?)
    }

    /// Makes a call, and tells what came of it.
    fn call<W: Gate, X: Threads + Wait + Sync>(
        &mut self,
        rt: &X,
        pending: Pending,
        gate: &W,
        told: &mut Told,
    ) -> Result<(), Fault> {
        let alloc = self.alloc;
        let Pending { words, script } = pending;
        let (status, written) = self.outside.call(rt, alloc, &words, script, gate)?;
        told.outcome(&format!(in alloc; "status {status}")?)?;
        tell_written(alloc, &written, told)
    }

    /// Goes on by a line of the story.
    pub fn go_on<X: Threads + Wait + Sync>(
        &mut self,
        rt: &X,
        at: usize,
        line: &str,
        told: &mut Told,
    ) -> Result<(), Fault> {
        if is_part(line) {
            let Some(pending) = &mut self.pending else {
                return Err(Fault::NoStep);
            };
            append(&mut pending.script, part_of(line)?)?;
            return told.line(line);
        }
        self.make_call(rt, told)?;
        told.line(line)?;
        self.step(at, line, told)
    }

    /// Takes the step that a line says.
    fn step(&mut self, at: usize, line: &str, told: &mut Told) -> Result<(), Fault> {
        let (word, rest) = line.split_once(' ').unwrap_or((line, ""));
        let alloc = self.alloc;
        match word {
            "$" => self.begin_call(rest),
            "each" => self.take_turn(at, rest, told),
            "pair" => {
                self.waits = true;
                Ok(())
            }
            "drawn" => {
                self.outside.drawn = byte_of(rest)?;
                Ok(())
            }
            "fail" => self.fail(rest, 1),
            "stop" => self.fail(rest, ALL_LATER),
            "fuse" => self.outside.fuse(number_of(rest)?),
            "lose" | "empty" | "alter" | "crowd" => self.change_blocks(word, rest),
            "fields" | "records" | "slots" | "stripes" | "logs" => self.look_into_image(word, told),
            "image" | "blocks" | "heard" | "room" => tell_look(alloc, &self.outside, word, told),
            "=" | "" => Ok(()),
            _ if line.starts_with('#') => Ok(()),
            _ => {
                self.outside.image = change_image(alloc, &self.outside.image, word, rest)?;
                Ok(())
            }
        }
    }

    /// So many calls of an object are to fail.
    fn fail(&mut self, words: &str, count: u32) -> Result<(), Fault> {
        let (object, call) = words.split_once(' ').unwrap_or((words, ""));
        let outside = &mut self.outside;
        match object {
            "source" => list_calls(&mut outside.source_fails, number_of(call)?, count)?,
            "sink" => list_calls(&mut outside.sink_fails, number_of(call)?, count)?,
            "desk" => list_calls(&mut outside.desk_fails, number_of(call)?, count)?,
            "room" | "archive" => {}
            _ => return Err(Fault::NoStep),
        }
        Ok(())
    }

    /// Blocks are changed, at once where they do not get lost later.
    fn change_blocks(&mut self, word: &str, rest: &str) -> Result<(), Fault> {
        if word == "lose" && numbers_of(self.alloc, rest)?.len() == 3 {
            return Ok(());
        }
        change_blocks(self.alloc, &mut self.outside, word, rest)
    }

    /// Tells what stands in the image.
    fn look_into_image(&mut self, word: &str, told: &mut Told) -> Result<(), Fault> {
        let outside = &self.outside;
        let Some(bytes) = &outside.image else {
            return told.outcome("no fields");
        };
        if word == "stripes" {
            tell_stripes(self.alloc, bytes, &outside.room, told)
        } else {
            tell_image(self.alloc, bytes, word, told)
        }
    }

    /// What a line `each` lets happen, where it is its turn.
    fn take_turn(&mut self, at: usize, words: &str, told: &mut Told) -> Result<(), Fault> {
        let alloc = self.alloc;
        let turns = turns_of(alloc, words)?;
        let Some(turn) = self.turn else {
            return Ok(());
        };
        if turn.at != at {
            return Ok(());
        }
        told.begin();
        let outside = &mut self.outside;
        let (number, calls) = (turn.number, turns.calls);
        match turns.event {
            Event::SourceFails => list_calls(&mut outside.source_fails, number, calls)?,
            Event::SinkFails => list_calls(&mut outside.sink_fails, number, calls)?,
            Event::DeskFails => list_calls(&mut outside.desk_fails, number, calls)?,
            Event::RoomFails | Event::ArchiveFails(_) => {}
            Event::FuseIsLaid => outside.fuse(number)?,
            Event::ImageIsCut => {
                outside.image = cut(alloc, &outside.image, number)?;
            }
            Event::ArchivesAreEmptied => {
                let set = turns.set(alloc, number)?;
                empty_all(outside, &set)?;
            }
        }
        Ok(())
    }
}
