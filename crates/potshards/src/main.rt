//! The program: it draws a seed, makes the real objects and calls `run` with them, once. For the
//! word `recheck` alone it calls `recheck` in place of `run`, and draws no seed. For `recover` with
//! `--columns` it calls `run` over a room in which blocks that are gone are made anew.
//!
//! Nothing is decided here but which of these is called, and the status where no seed or no memory
//! for the words is had. What a call does is the contract of `run` or of `recheck`, and what
//! the real objects promise that of their own types.
#![tactic(auto)]

mod rechecking;
mod recovering;

use pot_files::{DeskFile, Folder, Input, NoGate, Output, advice_at, drawn};
use pot_session::run;
use rechecking::{is_recheck, recheck_desk};
use recovering::{recover, recovery_in};
use std::env;
use std::io::ErrorKind;
use std::process::ExitCode;
use std::sync::Wait;
use std::thread::Threads;

/// The exit status where standard input, or the system's source of random bytes, failed.
const SOURCE_FAULT: u8 = 4;

/// The exit status where memory ran out.
const NO_MEMORY: u8 = 70;

/// The words after the program's name. Where one is not UTF-8 there are none, which `run` refuses
/// as it refuses all words that spell no task.
fn words(rt: &HostRuntime) -> Option<Vec<String>> {
    match env::args(rt) {
        Ok(all) => all.skip(1).collect::<Vec<String>>(rt.alloc()).ok(),
        Err(e) if e.kind() == ErrorKind::OutOfMemory => None,
        Err(_) => Some(Vec::new(rt.alloc())),
    }
}

/// What the words ask for, and its exit status. `turns` is the handle for waiting.
fn answer<X: Threads + Wait + Sync>(rt: &HostRuntime, turns: &X) -> u8 {
    let Some(words) = words(rt) else {
        return NO_MEMORY;
    };
    if is_recheck(&words) {
        return recheck_desk(rt);
    }
    match recovery_in(rt.alloc(), &words) {
        Ok(Some(recovery)) => recover(rt, turns, recovery),
        Ok(None) => session(rt, turns, &words),
        Err(_) => NO_MEMORY,
    }
}

/// One call on the real objects, and its exit status.
fn session<X: Threads + Wait + Sync>(rt: &HostRuntime, turns: &X, words: &[String]) -> u8 {
    let Ok(seed) = drawn(rt) else {
        return SOURCE_FAULT;
    };
    let mut input = Input::new(rt);
    let mut output = Output::new(rt);
    let mut room = Folder::new(rt);
    let mut desk = DeskFile::new(rt);
    run(
        turns,
        rt.alloc(),
        words,
        seed,
        &mut input,
        &mut output,
        &mut room,
        &mut desk,
        &NoGate,
    )
}

fn main(rt: HostRuntime) -> ExitCode {
    let status = answer(&rt, &rt);
    if let Some(line) = advice_at(status) {
        // A line that cannot be written changes nothing of the session.
        let _ = eprintln!(rt; "{line}");
    }
    ExitCode::from(status)
}
