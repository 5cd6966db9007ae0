//! What the words ask for.

use crate::commands::{
    audit, backup_desk, cat, check, completion, diff, drill, evacuate, fetch, find, init, list,
    migrate, picture, place, recover, recover_desk, renew, repair, replace, restore_desk, sheet,
    status, store, verify,
};
use crate::program::{Program, Sessions};
use crate::racks;
use crate::racks::Asked;
use crate::racks::adding::{init_racks, no_racks};
use crate::racks::entering::Home;
use crate::verbs::Verb;
use crate::words::program;
use clap::error::ErrorKind;
use clap::{ArgMatches, Error};
use pots_vault::{Stop, UNREAD, Visit, refuse};
use std::sync::Wait;
use std::thread::Threads;
use std::{env, io};

/// Does what the words of the command line ask for, and answers the exit status.
pub fn answer<X: Threads + Wait + Sync, P: Program>(
    rt: &HostRuntime,
    sessions: &Sessions<'_, X, P>,
) -> u8 {
    match begin(rt, sessions) {
        Ok(status) => status,
        Err(stop) => stop.status(rt),
    }
}

fn begin<X: Threads + Wait + Sync, P: Program>(
    rt: &HostRuntime,
    sessions: &Sessions<'_, X, P>,
) -> Result<u8, Stop> {
    let words = words(rt)?;
    let program = program(rt.alloc())?;
    match program.try_get_matches_from(&words) {
        Ok(matches) => work(rt, sessions, &matches),
        Err(error) => told(rt, &error),
    }
}

// The words of the command line.
fn words(rt: &HostRuntime) -> Result<Vec<String>, Stop> {
    match env::args(rt) {
        Ok(all) => Ok(all.collect::<Vec<String>>(rt.alloc())?),
        Err(e) if e.kind() == io::ErrorKind::OutOfMemory => Err(Stop::NoMemory),
        Err(_) => Err(refuse(
            rt,
            2,
            "a word of the command line is no UTF-8: give names without such bytes",
        )),
    }
}

// Prints help, the version or what is wrong with the words.
fn told(rt: &HostRuntime, error: &Error) -> Result<u8, Stop> {
    if error.kind() == ErrorKind::OutOfMemory {
        return Err(Stop::NoMemory);
    }
    let printed = error.print(rt);
    if error.use_stderr() {
        return Ok(2);
    }
    match printed {
        Ok(()) => Ok(0),
        Err(e) if e.kind() == io::ErrorKind::BrokenPipe => Ok(UNREAD),
        Err(_) => Err(Stop::Output),
    }
}

fn work<X: Threads + Wait + Sync, P: Program>(
    rt: &HostRuntime,
    sessions: &Sessions<'_, X, P>,
    matches: &ArgMatches,
) -> Result<u8, Stop> {
    let Some((name, words)) = matches.subcommand() else {
        return Err(refuse(rt, 2, "no command was given: see pots help"));
    };
    let Some(verb) = Verb::of(name) else {
        return Err(refuse(rt, 2, "there is no such command: see pots help"));
    };
    enter_vault(rt, matches)?;
    match Home::found(rt)? {
        Some(home) if verb != Verb::Completion => {
            let asked = Asked {
                home: &home,
                verb,
                name,
                words,
            };
            racks::work(rt, sessions, &asked)
        }
        _ if verb == Verb::Init && words.contains_id("racks") => init_racks(rt, sessions, words),
        _ => work_here(rt, sessions, verb, words),
    }
}

/// Works the command of these words in the working folder, as that of a vault with one desk.
pub fn work_words<X: Threads + Wait + Sync, P: Program>(
    rt: &HostRuntime,
    sessions: &Sessions<'_, X, P>,
    words: &[String],
) -> Result<u8, Stop> {
    let program = program(rt.alloc())?;
    let matches = match program.try_get_matches_from(words) {
        Ok(matches) => matches,
        Err(error) => return told(rt, &error),
    };
    match matches.subcommand() {
        Some((name, words)) => match Verb::of(name) {
            Some(verb) => work_here(rt, sessions, verb, words),
            None => Ok(2),
        },
        None => Ok(2),
    }
}

fn work_here<X: Threads + Wait + Sync, P: Program>(
    rt: &HostRuntime,
    sessions: &Sessions<'_, X, P>,
    verb: Verb,
    words: &ArgMatches,
) -> Result<u8, Stop> {
    let mut visit = Visit::begin(rt, words.get_flag("json"), words.get_str("without"))?;
    visit.quiet = words.get_flag("quiet");
    visit.read_only = words.get_flag("read-only");
    let status = do_it(verb, sessions, &mut visit, words)?;
    Ok(visit.status(status))
}

// Goes to the folder of the vault, where the words or the environment name one.
fn enter_vault(rt: &HostRuntime, matches: &ArgMatches) -> Result<(), Stop> {
    match matches.get_str("vault") {
        Some(folder) => enter(rt, folder),
        None => match env::var(rt, "POTS_VAULT") {
            Ok(folder) if !folder.is_empty() => enter(rt, folder.as_str()),
            _ => Ok(()),
        },
    }
}

fn enter(rt: &HostRuntime, folder: &str) -> Result<(), Stop> {
    if env::set_current_dir(rt, folder).is_ok() {
        return Ok(());
    }
    let line = format!(in rt.alloc();
        "the folder {folder} could not be entered: see -C and the variable POTS_VAULT, and that its disk is mounted"
    )?;
    Err(refuse(rt, 7, line.as_str()))
}

fn do_it<X: Threads + Wait + Sync, P: Program>(
    verb: Verb,
    sessions: &Sessions<'_, X, P>,
    visit: &mut Visit,
    words: &ArgMatches,
) -> Result<u8, Stop> {
    match verb {
        Verb::Init => init::work(sessions, visit, words),
        Verb::Store => store::work(sessions, visit, words),
        Verb::Fetch => fetch::work(sessions, visit, words),
        Verb::List => list::work(sessions, visit, words),
        Verb::Status => status::work(visit),
        Verb::Check => check::work(sessions, visit, words),
        Verb::Repair => repair::work(sessions, visit, words),
        Verb::Replace => replace::work(sessions, visit, words),
        Verb::Migrate => migrate::work(sessions, visit, words),
        Verb::Renew => renew::work(sessions, visit, words),
        Verb::Place => place::work(visit, words),
        Verb::Evacuate => evacuate::work(sessions, visit, words),
        Verb::BackupDesk => backup_desk::work(visit, words),
        Verb::Recover => recover::work(sessions, visit, words),
        Verb::RecoverDesk => recover_desk::work(visit, words),
        Verb::Audit => audit::work(sessions, visit, words),
        Verb::Drill => drill::work(sessions, visit, words),
        Verb::Cat => cat::work(sessions, visit, words),
        Verb::Find => find::work(sessions, visit, words),
        Verb::Diff => diff::work(sessions, visit, words),
        Verb::Verify => verify::work(visit, words),
        Verb::RestoreDesk => restore_desk::work(visit, words),
        Verb::Sheet => sheet::work(visit, words),
        Verb::Picture => picture::work(sessions, visit, words),
        Verb::Racks => Err(no_racks(visit)),
        Verb::Completion => completion::work(visit, words),
    }
}
