//! `fetch`: files that are fetched, and written whole or not at all.

use crate::commands::fetch_folder;
use crate::fetched::fetch_replies;
use crate::program::{Program, Sessions};
use crate::words::{option, reading_command, switch};
use clap::{Arg, ArgAction, ArgMatches};
use pot_bytes::Name;
use pot_report::{Kept, kept_files, name_text};
use pots_vault::{Goal, Incoming, Progress, Stop, Task, Visit, cut, image, is_stored};
use std::alloc::{AllocError, Global};
use std::sync::Wait;
use std::thread::Threads;

/// Its words.
pub fn words<'a>(alloc: Global) -> Result<clap::Command<'a>, AllocError> {
    let command = reading_command(
        alloc,
        "fetch",
        "Fetch files, and write them whole or not at all",
    )?;
    command
        .arg(
            Arg::new(alloc, "NAME")
                .action(ArgAction::Append)
                .num_args(0..)
                .help("The names of the files"),
        )?
        .arg(switch(alloc, "all", "Fetch every file"))?
        .arg(option(
            alloc,
            "to",
            "FOLDER",
            "Write the files into this folder, which is made where it is missing",
        ))?
        .arg(switch(alloc, "force", "Write over files that are there"))?
        .arg(option(
            alloc,
            "at",
            "DATE",
            "Of a snapshot the newest of this date or before, as 2026-01-31",
        ))?
        .arg(option(alloc, "path", "PATH", "Of a snapshot this path alone"))
}

/// A file that is to be fetched.
#[derive(Clone, Copy)]
struct Wanted {
    name: Name,
    kept: Kept,
}

/// Fetches files, in as few sessions as there are bytes for.
pub fn work<X: Threads + Wait + Sync, P: Program>(
    sessions: &Sessions<'_, X, P>,
    visit: &mut Visit,
    words: &ArgMatches,
) -> Result<u8, Stop> {
    if let Some(stored) = fetch_folder::snapshot_in(visit, words)? {
        return fetch_folder::work(sessions, visit, words, &stored);
    }
    let folder = words.get_str("to").unwrap_or(".");
    let goal = Goal::of(visit, folder, words.get_flag("force"))?;
    let wanted = asked(visit, words)?;
    let mut files = incoming(visit, &goal, &wanted)?;
    let fetched = fetch_all(
        sessions,
        visit,
        &goal,
        &mut files,
        progress_of(visit, &wanted),
    );
    for file in files.iter_mut() {
        file.abandon(visit);
    }
    fetched?;
    let good = files.len() == wanted.len() && files.iter().all(|file| file.is_there());
    Ok(if good { 0 } else { 1 })
}

// The files that the words name.
fn asked(visit: &mut Visit, words: &ArgMatches) -> Result<Vec<Wanted>, Stop> {
    let image = image(visit)?;
    let files = kept_files(visit.alloc(), &image)?;
    let mut wanted = Vec::new(visit.alloc());
    if words.get_flag("all") {
        for (name, kept) in files.iter() {
            wanted.push(Wanted {
                name: *name,
                kept: *kept,
            })?;
        }
        return Ok(wanted);
    }
    for text in words.get_strs("NAME").unwrap_or(&[]) {
        let found = Name::read(text.as_bytes()).and_then(|name| files
            .get(&name)
            .map(|kept| (name, *kept)));
        let Some((name, kept)) = found else {
            let line = format!(in visit.alloc(); "{text} is not stored: pots list tells what is")?;
            return Err(visit.refuse(1, line.as_str()));
        };
        if wanted.iter().any(|other| other.name == name) {
            let line = format!(in visit.alloc();
                "{text} is named twice, and nothing was fetched: name it once"
            )?;
            return Err(visit.refuse(2, line.as_str()));
        }
        wanted.push(Wanted { name, kept })?;
    }
    if wanted.is_empty() {
        return Err(visit.refuse(2, "no file was named: give names, or --all"));
    }
    Ok(wanted)
}

fn progress_of(visit: &Visit, wanted: &[Wanted]) -> Progress {
    let all = wanted.iter().fold(0u64, |sum, file| {
        sum.saturating_add(file.kept.direct.unwrap_or(file.kept.length))
    });
    Progress::begin(&visit.rt, all)
}

// The files that are stored to their end and may be written. Of the others what to do is said.
fn incoming(visit: &Visit, goal: &Goal, wanted: &[Wanted]) -> Result<Vec<Incoming>, Stop> {
    let mut files = Vec::new(visit.alloc());
    for file in wanted {
        if !goal.may_write(visit, &file.name)? {
            continue;
        }
        if is_stored(&file.kept) {
            files.push(Incoming::new(file.name, file.kept))?;
        } else {
            tell_incomplete(visit, &file.name);
        }
    }
    Ok(files)
}

fn tell_incomplete(visit: &Visit, name: &Name) {
    let rt = &visit.rt;
    let text = name_text(name);
    let _ = eprintln!(rt;
        "pots: {text} was not stored to its end: store the same file once more, which goes on where it stopped"
    );
}

// Fetches and writes files, in their order.
fn fetch_all<X: Threads + Wait + Sync, P: Program>(
    sessions: &Sessions<'_, X, P>,
    visit: &mut Visit,
    goal: &Goal,
    files: &mut [Incoming],
    mut progress: Progress,
) -> Result<(), Stop> {
    let mut tasks = Vec::new(visit.alloc());
    for (place, file) in files.iter().enumerate() {
        file.append_tasks(&mut tasks, place)?;
    }
    for tasks in cut(visit.alloc(), &tasks)? {
        fetch_some(sessions, visit, goal, files, &tasks)?;
        let bytes = tasks
            .iter()
            .fold(0u64, |sum, task| sum.saturating_add(task.bytes));
        progress.add(&visit.rt, bytes);
    }
    for file in files.iter_mut() {
        file.end(visit);
    }
    Ok(())
}

// Holds a session for these tasks, but for those of which nothing is wanted any more.
fn fetch_some<X: Threads + Wait + Sync, P: Program>(
    sessions: &Sessions<'_, X, P>,
    visit: &mut Visit,
    goal: &Goal,
    files: &mut [Incoming],
    tasks: &[Task],
) -> Result<(), Stop> {
    let mut places = Vec::new(visit.alloc());
    let mut names = Vec::new(visit.alloc());
    for task in tasks {
        if files.get(task.file).is_some_and(|file| file.is_wanting()) {
            places.push(task.file)?;
            names.push(task.name)?;
        }
    }
    let replies = fetch_replies(sessions, visit, &names)?;
    for (place, reply) in places.iter().zip(replies) {
        if let Some(file) = files.get_mut(*place) {
            file.take(visit, goal, reply)?;
        }
    }
    Ok(())
}
