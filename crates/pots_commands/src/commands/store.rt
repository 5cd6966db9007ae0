//! `store`: files that are stored.

use crate::commands::store_folder;
use crate::gathering::Gathered;
use crate::input::read_input;
use crate::program::{Program, Sessions};
use crate::short::{add_short, is_listed_otherwise};
use crate::words::{operands, option, session_command, switch};
use clap::{Arg, ArgAction, ArgMatches};
use pot_bytes::{Name, digest_of};
use pot_client::{PART_SIZE, count_parts, ends_as_part, part, part_name};
use pot_report::{Manifest, Size, name_text, spoken_name};
use pots_vault::{Known, Progress, Stop, Visit, image, is_stored};
use std::alloc::{AllocError, Global};
use std::collections::BTreeSet;
use std::fs;
use std::path::Path;
use std::sync::Wait;
use std::thread::Threads;

/// Its words.
pub fn words<'a>(alloc: Global) -> Result<clap::Command<'a>, AllocError> {
    let command = session_command(
        alloc,
        "store",
        "Store files, each under the last part of its path, or a folder as a snapshot",
    )?;
    command
        .arg(operands(
            alloc,
            "FILE",
            "The files to store, or one folder, or - for standard input",
        ))?
        .arg(option(
            alloc,
            "as",
            "NAME",
            "Store the one file or folder, or standard input, under this name",
        ))?
        .arg(
            Arg::new(alloc, "exclude")
                .long("exclude")
                .action(ArgAction::Append)
                .value_name("PATTERN")
                .help("Of a folder leave out the paths that fit, with * and ?"),
        )?
        .arg(switch(
            alloc,
            "dry-run",
            "Tell what of a folder is new, and store nothing",
        ))
}

/// A file that is to be stored.
#[derive(Drop)]
pub struct Item {
    pub path: String,
    pub name: Name,
    pub length: u64,
    /// The bytes of standard input, which are read at once.
    pub given: Option<Vec<u8>>,
}

/// Stores files. Room for all of them is looked for before the first byte is stored.
pub fn work<X: Threads + Wait + Sync, P: Program>(
    sessions: &Sessions<'_, X, P>,
    visit: &mut Visit,
    words: &ArgMatches,
) -> Result<u8, Stop> {
    if let Some(folder) = store_folder::folder_in(visit, words) {
        return store_folder::work(sessions, visit, words, folder);
    }
    let items = asked(visit, words)?;
    let image = image(visit)?;
    let known = Known::of(visit.alloc(), image)?;
    judge_room(visit, &known, &items)?;
    store_all(sessions, visit, &known, &items)
}

fn store_all<X: Threads + Wait + Sync, P: Program>(
    sessions: &Sessions<'_, X, P>,
    visit: &mut Visit,
    known: &Known,
    items: &[Item],
) -> Result<u8, Stop> {
    let all = items
        .iter()
        .fold(0u64, |sum, item| sum.saturating_add(item.length));
    let mut gathered = Gathered::new(visit.alloc(), Progress::begin(&visit.rt, all));
    let mut status = 0;
    let mut ended = None;
    for item in items {
        match store_item(sessions, visit, known, item, &mut gathered)? {
            Outcome::Good => {}
            Outcome::Refused => status = 1,
            Outcome::Ended => {
                ended = Some(item.name);
                break;
            }
        }
    }
    if !gathered.finish(sessions, visit)? {
        status = 1;
    }
    match gathered.lacking().or(ended) {
        Some(name) => Ok(told_ended(visit, &name)),
        None => Ok(status),
    }
}

// Tells where the command ended, and answers its status.
fn told_ended(visit: &Visit, name: &Name) -> u8 {
    let rt = &visit.rt;
    let text = name_text(name);
    let _ = eprintln!(rt;
        "pots: {text} and the files behind it were not stored to their end: once what was refused can be stored, the same command goes on"
    );
    1
}

/// What came of a file.
#[derive(Clone, Copy)]
pub enum Outcome {
    Good,
    /// It was not stored, and others may be.
    Refused,
    /// The archive refused something, and nothing more is stored but lists of parts.
    Ended,
}

/// The files that the words name.
pub fn asked(visit: &Visit, words: &ArgMatches) -> Result<Vec<Item>, Stop> {
    let paths = words.get_strs("FILE").unwrap_or(&[]);
    if words.get_flag("dry-run") || words.get_strs("exclude").is_some() {
        return Err(no_folder(visit, paths)?);
    }
    let given = words.get_str("as");
    if given.is_some() && paths.len() != 1 {
        return Err(visit.refuse(2, "--as names one file: give one, or leave it out"));
    }
    let mut items = Vec::new(visit.alloc());
    let mut names = BTreeSet::new(visit.alloc());
    for path in paths {
        let item = item_of(visit, path, given)?;
        if !names.insert(item.name)? {
            return Err(named_twice(visit, &item.name)?);
        }
        items.push(item)?;
    }
    Ok(items)
}

// The end of the command where words for one folder are given, and there is none.
fn no_folder(visit: &Visit, paths: &[&str]) -> Result<Stop, Stop> {
    match paths {
        [path] if fs::metadata(&visit.rt, path).is_err() => unread(visit, path),
        _ => Ok(visit.refuse(2, "--exclude and --dry-run are for one folder")),
    }
}

// The end of the command where two files have one name.
fn named_twice(visit: &Visit, name: &Name) -> Result<Stop, Stop> {
    let name = name_text(name);
    let line = format!(in visit.alloc();
        "two of these files have the name {name}, and nothing was stored: store one of them by itself, with --as"
    )?;
    Ok(visit.refuse(2, line.as_str()))
}

fn item_of(visit: &Visit, path: &str, given: Option<&str>) -> Result<Item, Stop> {
    if path == "-" {
        return input_item(visit, given);
    }
    let name = match given {
        Some(text) => text,
        None => Path::new(path).file_name().unwrap_or(path),
    };
    let name = readable_name(visit, path, name)?;
    let Ok(file) = fs::metadata(&visit.rt, path) else {
        return Err(unread(visit, path)?);
    };
    if !file.is_file() {
        let line = format!(in visit.alloc();
            "{path} is no file: give files, or one folder by itself"
        )?;
        return Err(visit.refuse(4, line.as_str()));
    }
    let path = String::from_str(visit.alloc(), path)?;
    Ok(Item {
        path,
        name,
        length: file.len(),
        given: None,
    })
}

// Standard input to its end, under the name that has to be given.
fn input_item(visit: &Visit, given: Option<&str>) -> Result<Item, Stop> {
    let Some(name) = given else {
        return Err(visit.refuse(2, "standard input has no name: give it one with --as"));
    };
    let name = readable_name(visit, "-", name)?;
    let bytes = read_input(visit)?;
    Ok(Item {
        path: String::from_str(visit.alloc(), "-")?,
        name,
        length: bytes.len() as u64,
        given: Some(bytes),
    })
}

// The end of the command where a file cannot be read.
fn unread(visit: &Visit, path: &str) -> Result<Stop, Stop> {
    let line = format!(in visit.alloc();
        "{path} could not be read: see that it is there and may be read; files named before it may not be stored yet, so give the command once more"
    )?;
    Ok(visit.refuse(4, line.as_str()))
}

// The name that a text is.
fn readable_name(visit: &Visit, path: &str, text: &str) -> Result<Name, Stop> {
    match Name::read(text.as_bytes()) {
        Some(name) if !ends_as_part(&name) => Ok(name),
        _ => {
            let close = close_name(visit.alloc(), text)?;
            let line = format!(in visit.alloc();
                "{text} is no name: a name is 1 to 64 of a-z, 0-9, '.', '_' and '-', and does not end as that of a part, .p0001; store it as pots store --as {close} '{path}'"
            )?;
            Err(visit.refuse(2, line.as_str()))
        }
    }
}

// A name that looks like the text. It begins with no hyphen, as an option does, and does not end as
// that of a part.
fn close_name(alloc: Global, text: &str) -> Result<String, Stop> {
    let mut name = String::new(alloc);
    for byte in text.bytes().take(58) {
        let byte = byte.to_ascii_lowercase();
        let close = match byte {
            b'a'..=b'z' | b'0'..=b'9' | b'.' | b'_' => byte,
            _ if name.is_empty() => b'_',
            _ => b'-',
        };
        name.push(char::from(close))?;
    }
    let stands = match Name::read(name.as_bytes()) {
        Some(name) => !ends_as_part(&name),
        None => false,
    };
    if !stands {
        name.push('_')?;
    }
    Ok(name)
}

// Ends the command where there is not room for all that is not stored yet.
fn judge_room(visit: &Visit, known: &Known, items: &[Item]) -> Result<(), Stop> {
    let mut room = known.room(visit.alloc())?;
    let left = Size(room.bytes());
    let mut fits = true;
    for item in items {
        if !known.take_room(&mut room, &item.name, item.length) {
            fits = false;
        }
    }
    if fits {
        return Ok(());
    }
    let line = format!(in visit.alloc();
        "there is no room for these files, and nothing was stored: {left} is left; store fewer, or make a second archive in another folder, with pots init"
    )?;
    Err(visit.refuse(1, line.as_str()))
}

fn store_item<X: Threads + Wait + Sync, P: Program>(
    sessions: &Sessions<'_, X, P>,
    visit: &mut Visit,
    known: &Known,
    item: &Item,
    gathered: &mut Gathered,
) -> Result<Outcome, Stop> {
    if let Some(bytes) = &item.given {
        return store_bytes(sessions, visit, known, (&item.name, bytes), gathered);
    }
    let Ok(file) = fs::read(&visit.rt, item.path.as_str()) else {
        return Err(unread(visit, item.path.as_str())?);
    };
    store_bytes(sessions, visit, known, (&item.name, &file), gathered)
}

fn store_bytes<X: Threads + Wait + Sync, P: Program>(
    sessions: &Sessions<'_, X, P>,
    visit: &mut Visit,
    known: &Known,
    (name, file): (&Name, &[u8]),
    gathered: &mut Gathered,
) -> Result<Outcome, Stop> {
    if file.len() > PART_SIZE {
        return store_long(sessions, visit, known, (name, file), gathered);
    }
    if known.is_begun(name) {
        let same = known.digest(name) == Some(digest_of(file));
        return Ok(told_stored(visit, name, same));
    }
    if is_listed_otherwise(visit, known, (name, file))? {
        return Ok(told_stored(visit, name, false));
    }
    Ok(added(add_short(sessions, visit, known, (name, file), gathered)?))
}

// What came of a file that was added, or was not.
fn added(is_added: bool) -> Outcome {
    if is_added {
        Outcome::Good
    } else {
        Outcome::Ended
    }
}

// Tells that a name is taken, by just this file or by another.
fn told_stored(visit: &Visit, name: &Name, same: bool) -> Outcome {
    let rt = &visit.rt;
    let text = name_text(name);
    if same {
        let _ = eprintln!(rt; "pots: {text} is stored already, with just these bytes");
        Outcome::Good
    } else {
        let _ = eprintln!(rt;
            "pots: {text} is stored already, with other bytes, and stays as it is: store it under another name with --as"
        );
        Outcome::Refused
    }
}

/// Stores a file of several parts, unless it is stored already.
pub fn store_long<X: Threads + Wait + Sync, P: Program>(
    sessions: &Sessions<'_, X, P>,
    visit: &mut Visit,
    known: &Known,
    (name, file): (&Name, &[u8]),
    gathered: &mut Gathered,
) -> Result<Outcome, Stop> {
    let Some(list_name) = part_name(name, 0) else {
        return Ok(too_long(visit, name));
    };
    let list = Manifest::of(visit.alloc(), *name, file)?.text(visit.alloc())?;
    let list = list.as_bytes();
    if known.kept(name).is_some_and(|kept| is_stored(&kept)) {
        let same = known.digest(&list_name) == Some(digest_of(list));
        return Ok(told_stored(visit, name, same));
    }
    if known
        .digest(&list_name)
        .is_some_and(|stored| stored != digest_of(list))
    {
        return Ok(told_stored(visit, name, false));
    }
    match store_parts(sessions, visit, known, (name, file), gathered)? {
        Outcome::Good => {}
        outcome => return Ok(outcome),
    }
    Ok(added(gathered.add_list(sessions, visit, (*name, list_name), list)?))
}

// Stores the parts of a file that are not there yet.
fn store_parts<X: Threads + Wait + Sync, P: Program>(
    sessions: &Sessions<'_, X, P>,
    visit: &mut Visit,
    known: &Known,
    (name, file): (&Name, &[u8]),
    gathered: &mut Gathered,
) -> Result<Outcome, Stop> {
    for number in 0..count_parts(file.len()) {
        let bytes = part(file, number);
        let number = u32::try_from(number).unwrap_or(u32::MAX).saturating_add(1);
        let Some(own) = part_name(name, number) else {
            return Ok(too_long(visit, name));
        };
        match store_part(sessions, visit, known, (own, bytes), gathered)? {
            Outcome::Good => {}
            outcome => return Ok(outcome),
        }
    }
    Ok(Outcome::Good)
}

// Stores a part, unless it is there already: of this file, or of another of its name that was not
// stored to its end.
fn store_part<X: Threads + Wait + Sync, P: Program>(
    sessions: &Sessions<'_, X, P>,
    visit: &mut Visit,
    known: &Known,
    (own, bytes): (Name, &[u8]),
    gathered: &mut Gathered,
) -> Result<Outcome, Stop> {
    match known.digest(&own) {
        None => Ok(added(gathered.add(sessions, visit, own, bytes)?)),
        Some(digest) if digest == digest_of(bytes) => Ok(Outcome::Good),
        Some(_) => told_part(visit, &own),
    }
}

fn told_part(visit: &Visit, own: &Name) -> Result<Outcome, Stop> {
    let rt = &visit.rt;
    let text = spoken_name(visit.alloc(), own)?;
    let _ = eprintln!(rt;
        "pots: {text} is stored already, with other bytes: store this file under another name with --as"
    );
    Ok(Outcome::Refused)
}

fn too_long(visit: &Visit, name: &Name) -> Outcome {
    let rt = &visit.rt;
    let text = name_text(name);
    let _ = eprintln!(rt;
        "pots: {text} is too long a name for a file in parts: store it under one of at most 58 bytes with --as"
    );
    Outcome::Refused
}
