//! Files that were found without the desk are written: those that have a list under the names of
//! their lists, and others under their ids.
//!
//! Nobody vouches for what was found: who could write to an archive could put a file or a list
//! there. So a list gives no more than was found, and of two lists with one name both files are
//! written, and neither of them under just that name.

use crate::parts::{
    Piece, Unjoined, all_bytes, joined, lists_in, parts_of, use_parts, used_bytes, with_digests,
};
use crate::reaching::Reach;
use crate::telling::listed;
use pot_bytes::Digest;
use pot_remnants::{Origin, Remains, origins_of};
use pot_report::{Found, Manifest, digest_text, name_text};
use pots_vault::{Stop, Visit, put_file};

/// How many numbers behind a name are tried.
const TRIES: u32 = 10_000;

/// A file that was written.
#[derive(Drop)]
struct Written {
    name: String,
    path: String,
    digest: Digest,
}

/// What is written where.
#[derive(Drop)]
struct Writing<'a> {
    visit: &'a Visit,
    folder: &'a str,
    /// From which archives files are, where some are in doubt.
    origins: Vec<Origin>,
    written: Vec<Written>,
    /// How many bytes of parts may still be written once more.
    again: u64,
}

/// Writes what was found in these archives. Answers whether all of it is whole and nothing is in
/// doubt.
pub fn write_all(
    visit: &Visit,
    folder: &str,
    found: Vec<Found>,
    (room, reach): (&Remains, Reach),
) -> Result<bool, Stop> {
    let mut pieces = with_digests(visit.alloc(), found)?;
    let lists = lists_in(visit.alloc(), &pieces)?;
    let origins = if any_doubted(&lists) {
        origins_of(&visit.rt, room.survey(), reach.reading())?
    } else {
        Vec::new(visit.alloc())
    };
    let mut writing = Writing {
        visit,
        folder,
        origins,
        written: Vec::new(visit.alloc()),
        again: all_bytes(&pieces),
    };
    let mut good = true;
    for (own, list) in lists.iter() {
        let is_doubted = is_doubted(visit, &lists, own, list);
        if !writing.join((list, own), is_doubted, &mut pieces)? {
            good = false;
        }
    }
    for piece in pieces.iter() {
        if !piece.used && !writing.write_piece(piece)? {
            good = false;
        }
    }
    Ok(good)
}

// Whether several lists have one name.
fn any_doubted(lists: &[(Digest, Manifest)]) -> bool {
    for (own, list) in lists.iter() {
        if lists
            .iter()
            .any(|(other, named)| named.name == list.name && *other != *own)
        {
            return true;
        }
    }
    false
}

// Whether several lists have the name of this one, which is told at the first of them.
fn is_doubted(visit: &Visit, lists: &[(Digest, Manifest)], own: &Digest, list: &Manifest) -> bool {
    let mut count = 0u32;
    let mut is_first = false;
    for (other, named) in lists.iter() {
        if named.name == list.name {
            is_first = is_first || count == 0 && other == own;
            count = count.saturating_add(1);
        }
    }
    if is_first && count > 1 {
        let rt = &visit.rt;
        let name = name_text(&list.name);
        let _ = eprintln!(rt;
            "pots: {count} lists are of a file {name}, and who could write to an archive may have forged some: no file gets just that name, and each gets a number behind it"
        );
    }
    count > 1
}

// Adds the archives that the file of an id is from.
fn add_origins(numbers: &mut Vec<u32>, origins: &[Origin], id: &str) -> Result<(), Stop> {
    for origin in origins.iter().filter(|origin| origin.id.as_str() == id) {
        for number in origin.archives.iter() {
            if !numbers.contains(number) {
                numbers.push(*number)?;
            }
        }
    }
    Ok(())
}

impl<'a> Writing<'a> {
    // Joins the parts of a file, where all are there, and writes it under its name. Answers whether
    // it is written and nothing is in doubt.
    fn join(
        &mut self,
        (list, own): (&Manifest, &Digest),
        is_doubted: bool,
        pieces: &mut [Piece],
    ) -> Result<bool, Stop> {
        let alloc = self.visit.alloc();
        let places = match parts_of(alloc, list, pieces)? {
            Ok(places) => places,
            Err(why) => return self.tell_unjoined(list, why),
        };
        let used = used_bytes(pieces, &places);
        if used > self.again {
            return self.tell_unjoined(list, Unjoined::Spent);
        }
        let Some(whole) = joined(alloc, list, pieces, &places)? else {
            return self.tell_unjoined(list, Unjoined::Odd);
        };
        self.again = self.again.saturating_sub(used);
        if is_doubted {
            self.tell_origin(list, own, pieces)?;
        }
        use_parts(list, own, pieces);
        self.write_under(name_text(&list.name), is_doubted, &whole, &list.digest)
    }

    // Tells from which archives a list and its parts are.
    fn tell_origin(&self, list: &Manifest, own: &Digest, pieces: &[Piece]) -> Result<(), Stop> {
        let rt = &self.visit.rt;
        let alloc = self.visit.alloc();
        let mut numbers = Vec::new(alloc);
        for piece in pieces.iter() {
            if piece.digest == *own || list.parts.contains(&piece.digest) {
                add_origins(&mut numbers, &self.origins, piece.found.id.as_str())?;
            }
        }
        numbers.sort_unstable();
        if !numbers.is_empty() {
            let archives = listed(alloc, &numbers)?;
            let name = name_text(&list.name);
            let digest = digest_text(alloc, &list.digest)?;
            let _ = eprintln!(rt;
                "pots: the {name} with the SHA-256 digest {digest} is from {archives}"
            );
        }
        Ok(())
    }

    fn tell_unjoined(&self, list: &Manifest, why: Unjoined) -> Result<bool, Stop> {
        let rt = &self.visit.rt;
        let name = name_text(&list.name);
        let _ = match why {
            Unjoined::Missing { part } => eprintln!(rt;
                "pots: part {part} of {name} was not found: its other parts are written one by one"
            ),
            Unjoined::Repeated { part } => eprintln!(rt;
                "pots: the list of parts of {name} is damaged or forged: it names part {part} more often than it was found; its parts are written one by one"
            ),
            Unjoined::Odd => eprintln!(rt;
                "pots: the list of parts of {name} is damaged or forged: the parts that it names do not fit it; they are written one by one"
            ),
            Unjoined::Spent => eprintln!(rt;
                "pots: the list of parts of {name} may be forged: it names parts of other files; they are not written once more"
            ),
        };
        Ok(false)
    }

    fn write_piece(&mut self, piece: &Piece) -> Result<bool, Stop> {
        let id = piece.found.id.as_str();
        match &piece.found.bytes {
            Some(bytes) => self.write_under(id, false, bytes, &piece.digest),
            None => {
                let rt = &self.visit.rt;
                let _ = eprintln!(rt;
                    "pots: file {id} is not there as a whole: some of its blocks are missing"
                );
                Ok(false)
            }
        }
    }

    // Writes a file under its name, or where another one has that, or the name is doubted, under
    // the name and a number. The same file once more is not written. Answers whether it is there
    // and nothing is in doubt.
    fn write_under(
        &mut self,
        name: &str,
        is_doubted: bool,
        bytes: &[u8],
        digest: &Digest,
    ) -> Result<bool, Stop> {
        if self.has(name, digest) {
            return Ok(!is_doubted);
        }
        let is_alone = !is_doubted && !self.written.iter().any(|other| other.name.as_str() == name);
        let first = if is_alone {
            0
        } else if is_doubted {
            1
        } else {
            2
        };
        let path = self.free_path(name, first)?;
        if !self.put(path.as_str(), bytes)? {
            return Ok(false);
        }
        self.tell_others(name, path.as_str(), digest)?;
        self.written.push(Written {
            name: String::from_str(self.visit.alloc(), name)?,
            path,
            digest: *digest,
        })?;
        Ok(is_alone)
    }

    // Whether this file was written under this name, or under it and a number.
    fn has(&self, name: &str, digest: &Digest) -> bool {
        self.written.iter().any(|other| other.name.as_str() == name && other.digest == *digest)
    }

    // A path for a file of this name where none was written, with no number less than this one
    // behind it; 0 stands for none.
    fn free_path(&self, name: &str, first: u32) -> Result<String, Stop> {
        let alloc = self.visit.alloc();
        let folder = self.folder;
        let mut path = format!(in alloc; "{folder}/{name}")?;
        for number in first..TRIES {
            if number > 0 {
                path = format!(in alloc; "{folder}/{name}.{number}")?;
            }
            if !self
                .written
                .iter()
                .any(|other| other.path.as_str() == path.as_str())
            {
                return Ok(path);
            }
        }
        Ok(path)
    }

    fn put(&self, path: &str, bytes: &[u8]) -> Result<bool, Stop> {
        let rt = &self.visit.rt;
        if put_file(rt, path, bytes, false).is_err() {
            let _ = eprintln!(rt;
                "pots: {path} could not be written: see that there is no such file yet and that its disk has room"
            );
            return Ok(false);
        }
        self.visit.tell_file("recovered", path)?;
        Ok(true)
    }

    // Tells that there are files of this name before, with their digests.
    fn tell_others(&self, name: &str, path: &str, digest: &Digest) -> Result<(), Stop> {
        let rt = &self.visit.rt;
        let alloc = self.visit.alloc();
        let own = digest_text(alloc, digest)?;
        for other in self.written.iter() {
            if other.name.as_str() == name {
                let there = other.path.as_str();
                let digest = digest_text(alloc, &other.digest)?;
                let _ = eprintln!(rt;
                    "pots: two files are named {name}, and one of them may be forged: {there} has the SHA-256 digest {digest}, and {path} has {own}"
                );
            }
        }
        Ok(())
    }
}
