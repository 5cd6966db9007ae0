//! `fetch` of a snapshot: folders first, then files by their packs, then links, and at last the
//! modes and times of folders.

use crate::program::{Program, Sessions};
use crate::snapshots::{Stored, asked_snapshot, entries_of, newest};
use crate::whole::fetch_whole;
use clap::ArgMatches;
use pot_bytes::{Bytes, Digest, Name, digest_of};
use pot_report::{Kept, kept_files, name_text};
use pot_tree::{Content, Entry, read_pack};
use pots_folders::{is_wanted, put_folder, put_link, set_mode, set_time, whole_path};
use pots_vault::{Progress, Stop, Visit, image, make_folder, put_file};
use serde_json::json;
use std::alloc::Global;
use std::collections::BTreeMap;
use std::fs;
use std::sync::Wait;
use std::thread::Threads;

/// About how many bytes of packs are fetched at a time.
const MOST_BYTES: u64 = 50_000_000;

/// The snapshot that the words name, where they name one: a name under which no file is stored.
pub fn snapshot_in(visit: &mut Visit, words: &ArgMatches) -> Result<Option<Stored>, Stop> {
    let names = words.get_strs("NAME").unwrap_or(&[]);
    let at = words.get_str("at");
    let is_told = at.is_some() || words.get_str("path").is_some();
    let name = match names.first() {
        Some(name) if names.len() == 1 && !words.get_flag("all") => *name,
        _ if is_told => {
            return Err(visit.refuse(2, "--at and --path are of one snapshot: give one name"));
        }
        _ => return Ok(None),
    };
    let image = image(visit)?;
    if is_told {
        return Ok(Some(asked_snapshot(visit, &image, name, at)?));
    }
    let files = kept_files(visit.alloc(), &image)?;
    match Name::read(name.as_bytes()) {
        Some(name) if files.contains_key(&name) => Ok(None),
        _ => newest(visit, &image, name, None),
    }
}

/// How the putting back goes.
#[derive(Drop)]
struct Putting<'a> {
    folder: &'a str,
    may_replace: bool,
    failed: u64,
    progress: Progress,
}

/// Puts a snapshot back.
pub fn work<X: Threads + Wait + Sync, P: Program>(
    sessions: &Sessions<'_, X, P>,
    visit: &mut Visit,
    words: &ArgMatches,
    stored: &Stored,
) -> Result<u8, Stop> {
    let folder = asked_folder(visit, words)?;
    let entries = wanted_entries(sessions, visit, words, stored)?;
    let all = entries
        .iter()
        .fold(0u64, |sum, entry| sum.saturating_add(size_of(entry)));
    let mut putting = Putting {
        folder,
        may_replace: words.get_flag("force"),
        failed: 0,
        progress: Progress::begin(&visit.rt, all),
    };
    put_folders(visit, &entries, &putting)?;
    put_files(sessions, visit, &entries, &mut putting)?;
    put_links(visit, &entries, &mut putting)?;
    end_folders(visit, &entries, &mut putting)?;
    tell(visit, stored, &entries, &putting)
}

// The folder of --to, which is made where it is missing. It is not that of the archive.
fn asked_folder<'a>(visit: &Visit, words: &ArgMatches<'a>) -> Result<&'a str, Stop> {
    let Some(folder) = words.get_str("to") else {
        return Err(visit.refuse(2, "say where the snapshot is to be put, with --to FOLDER"));
    };
    make_folder(visit, folder)?;
    if is_here(&visit.rt, folder) {
        return Err(visit.refuse(
            2,
            "a snapshot is not put among the archive's own files: give another folder with --to",
        ));
    }
    Ok(folder)
}

// Whether a folder is the one in which the program works.
fn is_here(rt: &HostRuntime, folder: &str) -> bool {
    let Ok(folder) = fs::canonicalize(rt, folder) else {
        return false;
    };
    let Ok(here) = fs::canonicalize(rt, ".") else {
        return false;
    };
    folder.as_str() == here.as_str()
}

// The entries of the snapshot, or of --path alone.
fn wanted_entries<X: Threads + Wait + Sync, P: Program>(
    sessions: &Sessions<'_, X, P>,
    visit: &mut Visit,
    words: &ArgMatches,
    stored: &Stored,
) -> Result<Vec<Entry>, Stop> {
    let below = words.get_str("path");
    let mut wanted = Vec::new(visit.alloc());
    let mut is_there = below.is_none();
    for entry in entries_of(sessions, visit, stored)? {
        if is_wanted(&entry, below) {
            is_there = is_there
                || below.is_some_and(|path| path.as_bytes() == entry.path.as_slice());
            wanted.push(entry)?;
        }
    }
    if is_there {
        return Ok(wanted);
    }
    Err(visit.refuse(
        1,
        "the snapshot has nothing at that path: pots list NAME tells what it has",
    ))
}

fn size_of(entry: &Entry) -> u64 {
    match &entry.content {
        Content::File { size, .. } => *size,
        _ => 0,
    }
}

// The path of an entry. None where this system has no such path, which is told.
fn path_of(visit: &Visit, putting: &mut Putting, entry: &Entry) -> Result<Option<String>, Stop> {
    let path = whole_path(visit.alloc(), putting.folder, entry.path.as_slice())?;
    if path.is_none() {
        putting.failed = putting.failed.saturating_add(1);
        let rt = &visit.rt;
        let _ = eprintln!(rt; "pots: a path that is no UTF-8 was left out");
    }
    Ok(path)
}

// Makes the folders. Where one can not be made nothing is written.
fn put_folders(visit: &Visit, entries: &[Entry], putting: &Putting) -> Result<(), Stop> {
    for entry in entries {
        if !matches!(entry.content, Content::Folder) {
            continue;
        }
        let path = whole_path(visit.alloc(), putting.folder, entry.path.as_slice())?;
        let Some(path) = path else {
            continue;
        };
        if !put_folder(&visit.rt, path.as_str()) {
            let line = format!(in visit.alloc();
                "the folder {path} could not be made: see that nothing else stands there, and that its disk has room"
            )?;
            return Err(visit.refuse(5, line.as_str()));
        }
    }
    Ok(())
}

// Fetches the packs, some at a time, and writes the files that they hold.
fn put_files<X: Threads + Wait + Sync, P: Program>(
    sessions: &Sessions<'_, X, P>,
    visit: &mut Visit,
    entries: &[Entry],
    putting: &mut Putting,
) -> Result<(), Stop> {
    let image = image(visit)?;
    let files = kept_files(visit.alloc(), &image)?;
    let mut packs: BTreeMap<Name, Vec<usize>> = BTreeMap::new(visit.alloc());
    for (place, entry) in entries.iter().enumerate() {
        if let Content::File { pack, .. } = &entry.content {
            packs
                .entry(*pack)?
                .or_insert(Vec::new(visit.alloc()))
                .push(place)?;
        }
    }
    let mut some: Vec<(Name, Kept)> = Vec::new(visit.alloc());
    let mut bytes = 0u64;
    for (pack, places) in packs.iter() {
        let Some(kept) = files.get(pack) else {
            tell_lost(visit, pack, places.len(), putting);
            continue;
        };
        let length = kept.direct.unwrap_or(kept.length);
        if bytes > 0 && bytes.saturating_add(length) > MOST_BYTES {
            put_some(sessions, visit, entries, (&some, &packs), putting)?;
            some = Vec::new(visit.alloc());
            bytes = 0;
        }
        some.push((*pack, *kept))?;
        bytes = bytes.saturating_add(length);
    }
    put_some(sessions, visit, entries, (&some, &packs), putting)
}

fn tell_lost(visit: &Visit, pack: &Name, count: usize, putting: &mut Putting) {
    putting.failed = putting.failed.saturating_add(count as u64);
    let rt = &visit.rt;
    let text = name_text(pack);
    let _ = eprintln!(rt;
        "pots: {count} files were not written: the pack {text} that holds them could not be fetched; mend with pots repair"
    );
}

// Fetches some packs, and writes the files that they hold.
fn put_some<X: Threads + Wait + Sync, P: Program>(
    sessions: &Sessions<'_, X, P>,
    visit: &mut Visit,
    entries: &[Entry],
    (some, packs): (&[(Name, Kept)], &BTreeMap<Name, Vec<usize>>),
    putting: &mut Putting,
) -> Result<(), Stop> {
    let fetched = fetch_whole(sessions, visit, some)?;
    for ((pack, _), bytes) in some.iter().zip(fetched) {
        let Some(places) = packs.get(pack) else {
            continue;
        };
        let held = match bytes {
            Some(bytes) => held_in(visit.alloc(), &bytes)?,
            None => None,
        };
        match held {
            Some(held) => put_held(visit, entries, places, &held, putting)?,
            None => tell_lost(visit, pack, places.len(), putting),
        }
    }
    Ok(())
}

// The files of a pack by their digests. None where the bytes are no pack.
fn held_in(alloc: Global, bytes: &[u8]) -> Result<Option<BTreeMap<Digest, Bytes>>, Stop> {
    let Ok(files) = read_pack(alloc, bytes) else {
        return Ok(None);
    };
    let mut held = BTreeMap::new(alloc);
    for file in files {
        let _ = held.insert(digest_of(file.as_slice()), file)?;
    }
    Ok(Some(held))
}

// Writes the files of these places that a pack holds.
fn put_held(
    visit: &Visit,
    entries: &[Entry],
    places: &[usize],
    held: &BTreeMap<Digest, Bytes>,
    putting: &mut Putting,
) -> Result<(), Stop> {
    for place in places {
        let Some(entry) = entries.get(*place) else {
            continue;
        };
        let Content::File { size, digest, .. } = &entry.content else {
            continue;
        };
        match held.get(digest) {
            Some(file) => put_one(visit, entry, file.as_slice(), putting)?,
            None => tell_unheld(visit, entry, putting)?,
        }
        putting.progress.add(&visit.rt, *size);
    }
    Ok(())
}

fn tell_unheld(visit: &Visit, entry: &Entry, putting: &mut Putting) -> Result<(), Stop> {
    if let Some(path) = path_of(visit, putting, entry)? {
        putting.failed = putting.failed.saturating_add(1);
        let rt = &visit.rt;
        let _ = eprintln!(rt; "pots: {path} was not written: its pack does not hold it");
    }
    Ok(())
}

// Writes a file, with its mode and time.
fn put_one(visit: &Visit, entry: &Entry, bytes: &[u8], putting: &mut Putting) -> Result<(), Stop> {
    let Some(path) = path_of(visit, putting, entry)? else {
        return Ok(());
    };
    let path = path.as_str();
    if put_file(&visit.rt, path, bytes, putting.may_replace).is_err() {
        putting.failed = putting.failed.saturating_add(1);
        let rt = &visit.rt;
        let _ = eprintln!(rt;
            "pots: {path} was not written: give --force where it may be replaced, and see that its disk has room"
        );
        return Ok(());
    }
    set_both(visit, entry, path, putting);
    Ok(())
}

// Sets the time and the mode of what stands at a path.
fn set_both(visit: &Visit, entry: &Entry, path: &str, putting: &mut Putting) {
    let rt = &visit.rt;
    if !set_time(rt, path, entry.time) || !set_mode(rt, path, entry.mode) {
        putting.failed = putting.failed.saturating_add(1);
        let _ = eprintln!(rt; "pots: the time or the mode of {path} could not be set");
    }
}

// Makes the links, behind all files, so that none is written through one.
fn put_links(visit: &Visit, entries: &[Entry], putting: &mut Putting) -> Result<(), Stop> {
    for entry in entries {
        let Content::Link { target } = &entry.content else {
            continue;
        };
        let Some(path) = path_of(visit, putting, entry)? else {
            continue;
        };
        if !put_link(&visit.rt, target.as_slice(), path.as_str()) {
            putting.failed = putting.failed.saturating_add(1);
            let rt = &visit.rt;
            let _ = eprintln!(rt;
                "pots: the link {path} could not be made: see whether something is there"
            );
        }
    }
    Ok(())
}

// Sets the times and modes of folders, the deepest first: what is written into one changes its
// time.
fn end_folders(visit: &Visit, entries: &[Entry], putting: &mut Putting) -> Result<(), Stop> {
    for entry in entries.iter().rev() {
        if !matches!(entry.content, Content::Folder) {
            continue;
        }
        if let Some(path) = path_of(visit, putting, entry)? {
            set_both(visit, entry, path.as_str(), putting);
        }
    }
    Ok(())
}

// Tells what was put back, and answers the exit status.
fn tell(visit: &Visit, stored: &Stored, entries: &[Entry], putting: &Putting) -> Result<u8, Stop> {
    let name = name_text(&stored.snapshot.list);
    let count = entries.len();
    let folder = putting.folder;
    let failed = putting.failed;
    if visit.json {
        let line =
            json!(in visit.alloc(); {"did": "fetched", "snapshot": name, "paths": count, "failed": failed, "to": folder})?;
        let line = line.to_string(visit.alloc())?;
        println!(visit; "{line}")?;
    } else if failed == 0 {
        println!(visit; "fetched {name}: {count} paths, into {folder}")?;
    } else {
        println!(visit; "fetched {name}: {count} paths, but for {failed}, into {folder}")?;
    }
    Ok(if failed == 0 { 0 } else { 1 })
}
