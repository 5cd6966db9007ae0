//! Stories of sessions: calls of the program over objects in memory, told side by side with what
//! came of them.
//!
//! It reads stories from standard input and prints each line as it was read, with what came of a
//! step below it. A story makes calls, lets calls of objects fail, loses and alters blocks, changes
//! the desk's image, and looks at what is there. `docs/HACKING.md` tells how one is written.
//! Nothing is decided here: a story says what is done, and the text that is wanted comes from
//! elsewhere.
#![tactic(auto)]

mod blocks;
mod changes;
mod entries;
mod fault;
mod images;
mod logs;
mod looks;
mod outside;
mod scene;
mod scripts;
mod story;
mod stripes;
mod told;
mod turns;
mod words;
mod written;

use fault::Fault;
use std::alloc::{AllocError, Global};
use std::io;
use std::io::Write;
use std::process::ExitCode;
use std::sync::Wait;
use std::thread::Threads;
use story::tell_in_turn;
use told::Told;

/// The places at which stories begin, and that of the end. What is said directly above a title
/// belongs to its story.
fn starts_of(alloc: Global, lines: &[&str]) -> Result<Vec<usize>, AllocError> {
    let mut starts = Vec::new(alloc);
    let mut above = None;
    for (at, line) in lines.iter().enumerate() {
        if line.starts_with("= ") {
            starts.push(if starts.is_empty() {
                0
            } else {
                above.unwrap_or(at)
            })?;
        }
        above = if line.is_empty() || line.starts_with('#') {
            above.or(Some(at))
        } else {
            None
        };
    }
    starts.push(lines.len())?;
    Ok(starts)
}

/// Tells the stories of these lines.
fn tell_stories<X: Threads + Wait + Sync>(
    rt: &HostRuntime,
    turns: &X,
    lines: &[&str],
) -> io::Result<bool> {
    let alloc = rt.alloc();
    let starts = starts_of(alloc, lines)?;
    let mut output = io::writer(rt);
    for bounds in starts.windows(2) {
        let [first, end] = bounds else { continue };
        let story = lines.get(*first..*end).unwrap_or(&[]);
        let mut told = Told::whole(alloc);
        let ended = tell_in_turn(turns, alloc, story, &mut told);
        output.write_all(told.text().as_bytes())?;
        if let Err(stuck) = ended {
            let number = first.saturating_add(stuck.at).saturating_add(1);
            match stuck.fault {
                Fault::NoStep => eprintln!(rt; "line {number} is no step")?,
                Fault::NoMemory => eprintln!(rt; "line {number}: out of memory")?,
            }
            return Ok(false);
        }
    }
    Ok(true)
}

fn tell_input<X: Threads + Wait + Sync>(rt: &HostRuntime, turns: &X) -> io::Result<bool> {
    let input = io::read_to_string(rt.alloc(), rt.reader())?;
    let text = input.as_str();
    let whole = text.strip_suffix('\n').unwrap_or(text);
    let lines: Vec<&str> = whole.split('\n').collect(rt.alloc())?;
    tell_stories(rt, turns, &lines)
}

fn main(rt: HostRuntime) -> ExitCode {
    match tell_input(&rt, &rt) {
        Ok(true) => ExitCode::SUCCESS,
        _ => ExitCode::from(1),
    }
}
