//! `store` of a folder: packs of what is new in it, and at last the list that names all.

use crate::commands::store::{Outcome, store_long};
use crate::gathering::Gathered;
use crate::program::{Program, Sessions};
use crate::snapshots::snapshots;
use crate::whole::fetch_whole;
use clap::ArgMatches;
use pot_bytes::{Bytes, Digest, Name, digest_of};
use pot_client::PART_SIZE;
use pot_report::{Size, name_text};
use pot_tree::{Content, Entry, LONGEST_MEMBER, read_list, write_list};
use pots_folders::{
    Kind, Pack, Packer, Seen, Walk, list_name, pack_lengths, stamp_of, walk_folder,
};
use pots_vault::{Known, Progress, Stop, Visit, image};
use serde_json::json;
use std::alloc::Global;
use std::collections::BTreeSet;
use std::fs;
use std::path::Path;
use std::sync::Wait;
use std::thread::Threads;
use std::time::{SystemTime, UNIX_EPOCH};

/// Of so many snapshots of one name the dates may be ahead of the clock by a second each.
const MOST_AT_ONCE: u64 = 60;

/// The one operand, where it is a folder.
pub fn folder_in<'a>(visit: &Visit, words: &ArgMatches<'a>) -> Option<&'a str> {
    let paths = words.get_strs("FILE").unwrap_or(&[]);
    let path = if paths.len() == 1 {
        *paths.first()?
    } else {
        return None;
    };
    match fs::metadata(&visit.rt, path) {
        Ok(found) if found.is_dir() => Some(path),
        _ => None,
    }
}

/// What a folder has, and what of it is new.
#[derive(Drop)]
struct Plan {
    walk: Walk,
    /// The digest and the length of each file; None for what is none, or could not be read.
    files: Vec<Option<(Digest, u64)>>,
    /// The lengths of the files whose bytes are not in the vault.
    new: Vec<u64>,
}

/// Stores a folder as a snapshot.
pub fn work<X: Threads + Wait + Sync, P: Program>(
    sessions: &Sessions<'_, X, P>,
    visit: &mut Visit,
    words: &ArgMatches,
    folder: &str,
) -> Result<u8, Stop> {
    let seconds = seconds_now(visit);
    let list = dated_name(visit, words, folder, seconds)?;
    let walk = walk_folder(&visit.rt, folder, words.get_strs("exclude").unwrap_or(&[]))?;
    let mut packer = known_packs(sessions, visit)?;
    let mut plan = planned(visit, folder, walk, &packer)?;
    let image = image(visit)?;
    let known = Known::of(visit.alloc(), image)?;
    let list = free_name(visit, words, folder, &known, (list, seconds))?;
    judge_room(visit, &known, &plan)?;
    if words.get_flag("dry-run") {
        tell(visit, "would store", &list, &plan)?;
        return Ok(if plan.walk.failed == 0 { 0 } else { 1 });
    }
    if !store_packs(sessions, visit, folder, &known, &mut plan, &mut packer)? {
        return Ok(told_ended(visit, folder));
    }
    let text = list_text(visit, &plan, &packer)?;
    if !store_list(sessions, visit, &known, list, &text)? {
        return Ok(told_ended(visit, folder));
    }
    tell(visit, "stored", &list, &plan)?;
    Ok(if plan.walk.failed == 0 { 0 } else { 1 })
}

// The seconds since 1970 by the system's clock, or 0 where that cannot be read.
fn seconds_now(visit: &Visit) -> u64 {
    match SystemTime::now(&visit.rt) {
        Ok(now) => now
            .duration_since(UNIX_EPOCH)
            .map_or(0, |since| since.as_secs()),
        Err(_) => 0,
    }
}

// The name of the list, or where a snapshot has it already, as one of the same second, the name of
// the next second that none has.
fn free_name(
    visit: &Visit,
    words: &ArgMatches,
    folder: &str,
    known: &Known,
    (name, seconds): (Name, u64),
) -> Result<Name, Stop> {
    let mut free = name;
    for later in 1..MOST_AT_ONCE {
        if !known.is_begun(&free) {
            break;
        }
        free = dated_name(visit, words, folder, seconds.saturating_add(later))?;
    }
    Ok(free)
}

// The name of the list: that of the folder, or the one that is given, and the date.
fn dated_name(visit: &Visit, words: &ArgMatches, folder: &str, seconds: u64) -> Result<Name, Stop> {
    let text = match words.get_str("as") {
        Some(text) => text,
        None => Path::new(folder).file_name().unwrap_or(folder),
    };
    let stamp = stamp_of(visit.alloc(), seconds)?;
    match list_name(visit.alloc(), text, stamp.as_str())? {
        Some(name) => Ok(name),
        None => {
            let line = format!(in visit.alloc();
                "{text} is no name of a snapshot: give one with --as, of 1 to 35 of a-z, 0-9, '.', '_' and '-'"
            )?;
            Err(visit.refuse(2, line.as_str()))
        }
    }
}

// The contents that lists of the vault name. What a list names that could not be read is stored
// once more.
fn known_packs<X: Threads + Wait + Sync, P: Program>(
    sessions: &Sessions<'_, X, P>,
    visit: &mut Visit,
) -> Result<Packer, Stop> {
    let alloc = visit.alloc();
    let image = image(visit)?;
    let mut lists = Vec::new(alloc);
    for stored in snapshots(visit, &image)? {
        lists.push((stored.snapshot.list, stored.kept))?;
    }
    let mut packer = Packer::new(alloc);
    for text in fetch_whole(sessions, visit, &lists)? {
        let Some(text) = text else {
            continue;
        };
        if let Ok(entries) = read_list(alloc, &text) {
            packer.know(&entries)?;
        }
    }
    Ok(packer)
}

// Reads each file once, and sees what is new.
fn planned(visit: &Visit, folder: &str, mut walk: Walk, packer: &Packer) -> Result<Plan, Stop> {
    let mut files = Vec::new(visit.alloc());
    let mut new = Vec::new(visit.alloc());
    let mut fresh: BTreeSet<Digest> = BTreeSet::new(visit.alloc());
    let mut failed = 0u64;
    for seen in walk.seen.iter() {
        let bytes = match seen.kind {
            Kind::File(_) => read_file(visit, folder, seen, &mut failed)?,
            _ => None,
        };
        let file = bytes.map(|bytes| (digest_of(&bytes), bytes.len() as u64));
        if let Some((digest, length)) = file {
            if !packer.has(&digest) && fresh.insert(digest)? {
                new.push(length)?;
            }
        }
        files.push(file)?;
    }
    walk.failed = walk.failed.saturating_add(failed);
    Ok(Plan { walk, files, new })
}

// The bytes of a file. None where it could not be read, which is told.
fn read_file(
    visit: &Visit,
    folder: &str,
    seen: &Seen,
    failed: &mut u64,
) -> Result<Option<Vec<u8>>, Stop> {
    let path = seen.path.as_str();
    let whole = format!(in visit.alloc(); "{folder}/{path}")?;
    match fs::read(&visit.rt, whole.as_str()) {
        Ok(bytes) if bytes.len() as u64 <= LONGEST_MEMBER => Ok(Some(bytes)),
        _ => {
            *failed = failed.saturating_add(1);
            let rt = &visit.rt;
            let _ = eprintln!(rt;
                "pots: {whole} could not be read, and is left out: see that it may be read, and store once more"
            );
            Ok(None)
        }
    }
}

/// Whether there is room for all that is new of a folder.
pub fn fits<X: Threads + Wait + Sync, P: Program>(
    sessions: &Sessions<'_, X, P>,
    visit: &mut Visit,
    words: &ArgMatches,
    folder: &str,
) -> Result<bool, Stop> {
    let walk = walk_folder(&visit.rt, folder, words.get_strs("exclude").unwrap_or(&[]))?;
    let packer = known_packs(sessions, visit)?;
    let plan = planned(visit, folder, walk, &packer)?;
    let image = image(visit)?;
    let known = Known::of(visit.alloc(), image)?;
    has_room(visit, &known, &plan)
}

// Whether there is room for all that is new.
fn has_room(visit: &Visit, known: &Known, plan: &Plan) -> Result<bool, Stop> {
    let mut room = known.room(visit.alloc())?;
    let Some(name) = Name::read(b"pack-") else {
        return Ok(true);
    };
    let mut fits = known.take_room(&mut room, &name, list_length(plan));
    for length in pack_lengths(visit.alloc(), &plan.new)? {
        if !known.take_room(&mut room, &name, length) {
            fits = false;
        }
    }
    Ok(fits)
}

// Ends the command where there is not room for all that is new.
fn judge_room(visit: &Visit, known: &Known, plan: &Plan) -> Result<(), Stop> {
    if has_room(visit, known, plan)? {
        return Ok(());
    }
    let left = Size(known.room(visit.alloc())?.bytes());
    let line = format!(in visit.alloc();
        "there is no room for this folder, and nothing was stored: {left} is left; leave some of it out with --exclude, or make a second archive in another folder, with pots init"
    )?;
    Err(visit.refuse(1, line.as_str()))
}

// No fewer bytes than the list will have.
fn list_length(plan: &Plan) -> u64 {
    plan.walk.seen.iter().fold(7u64, |sum, seen| {
        let target = match &seen.kind {
            Kind::Link(target) => target.len() as u64,
            _ => 0,
        };
        let names = target.saturating_add(seen.path.len() as u64);
        sum.saturating_add(400)
            .saturating_add(names.saturating_mul(4))
    })
}

// Stores the packs of what is new. Answers whether all of them are there.
fn store_packs<X: Threads + Wait + Sync, P: Program>(
    sessions: &Sessions<'_, X, P>,
    visit: &mut Visit,
    folder: &str,
    known: &Known,
    plan: &mut Plan,
    packer: &mut Packer,
) -> Result<bool, Stop> {
    let alloc = visit.alloc();
    let all = plan
        .new
        .iter()
        .fold(0u64, |sum, length| sum.saturating_add(*length));
    let mut gathered = Gathered::new(alloc, Progress::begin(&visit.rt, all));
    let mut failed = 0u64;
    let mut files = Vec::new(alloc);
    for (seen, file) in plan.walk.seen.iter().zip(plan.files.iter()) {
        if !is_to_be_packed(file, packer) {
            files.push(*file)?;
            continue;
        }
        let Some(bytes) = read_file(visit, folder, seen, &mut failed)? else {
            files.push(None)?;
            continue;
        };
        let digest = digest_of(&bytes);
        files.push(Some((digest, bytes.len() as u64)))?;
        if let Some(pack) = packer.add(alloc, &bytes, digest)? {
            if !store_pack(sessions, visit, known, &pack, &mut gathered)? {
                return Ok(false);
            }
        }
    }
    plan.files = files;
    plan.walk.failed = plan.walk.failed.saturating_add(failed);
    store_last(sessions, visit, known, packer, &mut gathered)
}

// Stores the pack that is open, and all that waits.
fn store_last<X: Threads + Wait + Sync, P: Program>(
    sessions: &Sessions<'_, X, P>,
    visit: &mut Visit,
    known: &Known,
    packer: &mut Packer,
    gathered: &mut Gathered,
) -> Result<bool, Stop> {
    if let Some(pack) = packer.close(visit.alloc())? {
        if !store_pack(sessions, visit, known, &pack, gathered)? {
            return Ok(false);
        }
    }
    Ok(gathered.finish(sessions, visit)? && gathered.lacking().is_none())
}

// Whether a file was read whose bytes are in no pack yet.
fn is_to_be_packed(file: &Option<(Digest, u64)>, packer: &Packer) -> bool {
    match file {
        Some((digest, _)) => !packer.has(digest),
        None => false,
    }
}

// Stores a pack, unless it is there already. Answers whether nothing was refused.
fn store_pack<X: Threads + Wait + Sync, P: Program>(
    sessions: &Sessions<'_, X, P>,
    visit: &mut Visit,
    known: &Known,
    pack: &Pack,
    gathered: &mut Gathered,
) -> Result<bool, Stop> {
    if known.kept(&pack.name).is_some_and(|kept| kept.is_whole()) {
        return Ok(true);
    }
    store_bytes(sessions, visit, known, (&pack.name, &pack.bytes), gathered)
}

// Stores bytes under a name that has none yet, in parts where they are many.
fn store_bytes<X: Threads + Wait + Sync, P: Program>(
    sessions: &Sessions<'_, X, P>,
    visit: &mut Visit,
    known: &Known,
    (name, bytes): (&Name, &[u8]),
    gathered: &mut Gathered,
) -> Result<bool, Stop> {
    if bytes.len() <= PART_SIZE {
        return gathered.add(sessions, visit, *name, bytes);
    }
    match store_long(sessions, visit, known, (name, bytes), gathered)? {
        Outcome::Good => Ok(true),
        Outcome::Refused | Outcome::Ended => Ok(false),
    }
}

// The text of the list. It is read once, so that none is stored which could not be read.
fn list_text(visit: &Visit, plan: &Plan, packer: &Packer) -> Result<Vec<u8>, Stop> {
    let alloc = visit.alloc();
    let mut entries = Vec::new(alloc);
    for (seen, file) in plan.walk.seen.iter().zip(plan.files.iter()) {
        if let Some(content) = content_of(alloc, seen, file, packer)? {
            entries.push(Entry {
                path: Bytes::from_vec(Vec::from_slice(alloc, seen.path.as_bytes())?),
                mode: seen.mode,
                time: seen.time,
                content,
            })?;
        }
    }
    let text = write_list(alloc, &entries)?;
    match read_list(alloc, &text) {
        Ok(read) if read.len() == entries.len() => Ok(text),
        _ => Err(visit.refuse(
            5,
            "the list of this folder could not be read again, and no snapshot was stored: give more memory, or leave odd names out with --exclude",
        )),
    }
}

// What the list says of a path. None for a file that could not be read.
fn content_of(
    alloc: Global,
    seen: &Seen,
    file: &Option<(Digest, u64)>,
    packer: &Packer,
) -> Result<Option<Content>, Stop> {
    match &seen.kind {
        Kind::Folder => Ok(Some(Content::Folder)),
        Kind::Link(target) => {
            let target = Bytes::from_vec(Vec::from_slice(alloc, target.as_bytes())?);
            Ok(Some(Content::Link { target }))
        }
        Kind::File(_) => Ok(file_content(file, packer)),
    }
}

fn file_content(file: &Option<(Digest, u64)>, packer: &Packer) -> Option<Content> {
    let (digest, size) = (*file)?;
    let pack = packer.place(&digest)?;
    Some(Content::File { size, digest, pack })
}

// Stores the list, behind all packs. Answers whether it is there.
fn store_list<X: Threads + Wait + Sync, P: Program>(
    sessions: &Sessions<'_, X, P>,
    visit: &mut Visit,
    known: &Known,
    list: Name,
    text: &[u8],
) -> Result<bool, Stop> {
    let progress = Progress::begin(&visit.rt, text.len() as u64);
    let mut gathered = Gathered::new(visit.alloc(), progress);
    if !store_bytes(sessions, visit, known, (&list, text), &mut gathered)? {
        return Ok(false);
    }
    Ok(gathered.finish(sessions, visit)? && gathered.lacking().is_none())
}

fn told_ended(visit: &Visit, folder: &str) -> u8 {
    let rt = &visit.rt;
    let _ = eprintln!(rt;
        "pots: no snapshot of {folder} was stored: once what was refused can be stored, the same command goes on"
    );
    1
}

// Tells what a snapshot has, and how much of it is new.
fn tell(visit: &Visit, word: &str, list: &Name, plan: &Plan) -> Result<(), Stop> {
    let name = name_text(list);
    let files = plan.files.iter().filter(|file| file.is_some()).count();
    let new = plan.new.len();
    let bytes = plan
        .new
        .iter()
        .fold(0u64, |sum, length| sum.saturating_add(*length));
    if visit.json {
        let line =
            json!(in visit.alloc(); {"did": word, "snapshot": name, "files": files, "new": new, "bytes": bytes, "left_out": plan.walk.failed})?;
        let line = line.to_string(visit.alloc())?;
        return println!(visit; "{line}");
    }
    let size = Size(bytes);
    println!(visit; "{word} {name}: {files} files, of which {new} are new, {size}")
}
