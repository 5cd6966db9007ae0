//! Sessions: a script is given to the program of sessions, and its replies are read.

use crate::program::{Program, Ran, Sessions};
use crate::stopped::image_to_begin;
use pot_client::{read_replies, write_script};
use pot_files::drawn;
use pot_image::Image;
use pot_report::holdings;
use pot_script::{Command, Reply};
use pots_rescue::keep_parity;
use pots_shares::lay_shares;
use pots_vault::{MOST_TOGETHER, Stop, Visit, image, tell_losses};
use std::alloc::{AllocError, Global};
use std::sync::Wait;
use std::thread::{Threads, available_parallelism};

/// The most workers of a session.
const MOST_WORKERS: usize = 16;

/// Holds a session that works these commands, tells which blocks it found gone, and answers its
/// replies. Where the session before did not come to its end, what that left is mended first.
pub fn hold<X: Threads + Wait + Sync, P: Program>(
    sessions: &Sessions<'_, X, P>,
    visit: &mut Visit,
    commands: Vec<Command>,
) -> Result<Vec<Reply>, Stop> {
    let image = image_to_begin(sessions, visit, &commands)?;
    if commands.iter().any(|command| may_put(command)) {
        keep_parity(visit, &image)?;
    }
    let before = holdings(visit.alloc(), &image)?;
    drop(image);
    let replies = work(sessions, visit, commands)?;
    let image = closed(visit)?;
    tell_losses(visit, &before, &holdings(visit.alloc(), &image)?)?;
    Ok(replies)
}

// Whether a command may put blocks into stripes that are being filled.
fn may_put(command: &Command) -> bool {
    matches!(command, Command::Store { .. } | Command::Renew { .. })
}

/// Holds a session as `hold` does, for a command that tells itself which blocks are gone, and that
/// puts none.
pub fn hold_to_tell<X: Threads + Wait + Sync, P: Program>(
    sessions: &Sessions<'_, X, P>,
    visit: &mut Visit,
    commands: Vec<Command>,
) -> Result<Vec<Reply>, Stop> {
    let _ = image_to_begin(sessions, visit, &commands)?;
    let replies = work(sessions, visit, commands)?;
    let _ = closed(visit)?;
    Ok(replies)
}

/// What is done after each session that closed: shares of its desk are laid beside the archives.
/// Answers the desk's image.
pub fn closed(visit: &mut Visit) -> Result<Image, Stop> {
    let mut image = image(visit)?;
    lay_shares(visit, &mut image)?;
    Ok(image)
}

/// Works these commands in a session, and answers their replies. Behind them the files are listed,
/// so that the logs of a session that comes to its end are not all empty.
pub fn work<X: Threads + Wait + Sync, P: Program>(
    sessions: &Sessions<'_, X, P>,
    visit: &mut Visit,
    mut commands: Vec<Command>,
) -> Result<Vec<Reply>, Stop> {
    commands.push(Command::List)?;
    let script = script_of(visit.alloc(), commands)?;
    let workers = workers(sessions.turns);
    let line = format!(in visit.alloc(); "run --careful yes --workers {workers}")?;
    let words = words_of(visit.alloc(), line.as_str())?;
    let ran = call(sessions, visit, &words, script)?;
    if ran.status > 1 {
        return Err(ended(visit, &ran));
    }
    match read_replies(visit.alloc(), &ran.written)? {
        Some(mut replies) => {
            let _ = replies.pop();
            Ok(replies)
        }
        None => Err(visit.refuse(
            5,
            "the replies of the session were not understood: pots and potshards are of different versions",
        )),
    }
}

// As many workers as there are processors that the program may use, and at most as many as a
// session may have. Where the system does not say how many there are, a session has 4, as by
// default.
fn workers(turns: &impl Threads) -> usize {
    match available_parallelism(turns) {
        Ok(count) => count.get().min(MOST_WORKERS),
        Err(_) => 4,
    }
}

// The script of commands, which are not held in memory beside it.
fn script_of(alloc: Global, commands: Vec<Command>) -> Result<Vec<u8>, Stop> {
    Ok(write_script(alloc, &commands)?)
}

/// Holds a session that works these commands side by side, where there are several, and answers
/// their replies in order. Where there are none it holds no session.
pub fn hold_together<X: Threads + Wait + Sync, P: Program>(
    sessions: &Sessions<'_, X, P>,
    visit: &mut Visit,
    commands: Vec<Command>,
) -> Result<Vec<Reply>, Stop> {
    if commands.is_empty() {
        return Ok(Vec::new(visit.alloc()));
    }
    let batch = batched(visit.alloc(), commands)?;
    hold(sessions, visit, batch)
}

/// The commands as one batch, where there are several and no more than a batch may have.
pub fn batched(alloc: Global, commands: Vec<Command>) -> Result<Vec<Command>, AllocError> {
    let count = commands.len();
    if count <= 1 || count > MOST_TOGETHER {
        return Ok(commands);
    }
    let count = u32::try_from(count).unwrap_or(u32::MAX);
    let mut batch = Vec::new(alloc);
    batch.push(Command::Together { count })?;
    for command in commands {
        batch.push(command)?;
    }
    batch.push(Command::End)?;
    Ok(batch)
}

/// The words of a command line, which stand between spaces.
pub fn words_of(alloc: Global, line: &str) -> Result<Vec<String>, AllocError> {
    let mut words = Vec::new(alloc);
    for word in line.split(' ') {
        words.push(String::from_str(alloc, word)?)?;
    }
    Ok(words)
}

/// Calls the program of sessions with these words and this input.
pub fn call<X: Threads + Wait + Sync, P: Program>(
    sessions: &Sessions<'_, X, P>,
    visit: &mut Visit,
    words: &[String],
    input: Vec<u8>,
) -> Result<Ran, Stop> {
    let Ok(seed) = drawn(&visit.rt) else {
        return Err(visit.refuse(4, "the system gave no random bytes: nothing was stored"));
    };
    Ok(
        sessions
            .program
            .call(sessions.turns, visit, words, (seed, input))?,
    )
}

/// The end of a command whose session came to no replies.
pub fn ended(visit: &Visit, ran: &Ran) -> Stop {
    visit.refuse(ran.status, reason(ran.status))
}

// What failed at a status, and what to do next.
fn reason(status: u8) -> &'static str {
    match status {
        2 => "these numbers are beyond the limits: see pots help, and the limits in potshards(1)",
        3 =>
            "the session refused its script: see that the numbers given are below those of pots status",
        5 =>
            "memory ran out for the replies, and what was stored is kept: pots list names it; fetch or store less at a time",
        6 =>
            "the desk could not be locked, read or replaced: see that no other program works in this folder and that its disk has room; what pots list does not name is to be stored again",
        7 => "no session can begin with the desk's image: see potshards-recovery(7)",
        8 =>
            "an archive could not be opened, read or synced: see that each archive-N can be read and written and that its disk has room; then pots check tells what is gone, and what pots list does not name is to be stored again",
        9 => "the numbers of sessions are spent: fetch all files, and store them in a new archive",
        10 =>
            "there is an archive in this folder already, and it stays as it is: make the new one in another folder",
        11 =>
            "there are too many ways to read these blocks: potshards-recovery(7) tells what to leave out",
        _ => "memory ran out: give it more, or less to do at a time",
    }
}
