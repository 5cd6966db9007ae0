//! The fetch of a file.
ghost use Rattle.std.specs.Prelude.{◌≡◌, ◌<◌, ◌≤◌, ◌*◌, [], true, length};
ghost use Rattle.std.specs.Vec.{vec_capacity};
ghost use Rattle.pot_object.specs.Pieces.{pieces_of};
ghost use Rattle.pot_index.specs.Fits.{FitsRack};
ghost use Rattle.pot_shared.specs.Callers.{AreReadyFor, HasAllGroups};
ghost use Rattle.pot_shared.specs.Connections.{InGroups, TellsIfOnlyWriter, WroteForItsJob, job_of, knows, rack_of};
ghost use Rattle.pot_store.specs.Reads.{FileRead, RecordRead};
ghost use Rattle.pot_store.specs.Fetches.{AreFilled, FetchRow};
ghost use Rattle.pot_shared.specs.Blinds.{Blinds, most_dropped};

use crate::fragments::read_piece;
use crate::rooms::Rooms;
use crate::shares::append;
use pot_bytes::{Digest, Name, digest_of};
use pot_index::{FindFault, Record};
use pot_object::count_pieces;
use pot_outside::Archive;
use pot_pads::PadStream;
use pot_shared::{Caller, Connection, Passes};
use std::sync::Wait;

/// Why a fetch gave no file.
#[derive(Clone, Copy, PartialEq, Eq, Debug)]
pub enum FetchFault {
    /// The index log has no room for the search. Nothing was logged.
    IndexLogFull,
    /// No file is published under the name.
    Absent,
    /// The archive of this column failed at a point of a fragment, and too few of its points were
    /// seen.
    Faulted {
        group: u8,
        column: u8,
    },
    /// Of this fragment, whose number counts from 1, no more points can be had.
    Lost {
        piece: u32,
        fragment: u8,
        have: u8,
        need: u8,
    },
    /// The log of a group has no room for a look or a mend.
    LogFull {
        group: u8,
    },
    /// The bytes that were read have another digest than the file.
    Odd {
        wanted: Digest,
        found: Digest,
    },
    NoMemory,
}

/// Fetches the file that is published under a name: looks the name up, and reads the blocks of its
/// record in turn, of each fragment as many as give it back. Where a fragment has too few, it mends
/// the places at which a look gave nothing, blinded by `pads`, and looks once more at each that is
/// whole again. Of a piece no more is held at a time than its fragments.
///
/// Each relay that it begins has the next 1,024 bytes of `pads` as its blind. A blind that was
/// drawn and began no relay is dropped.
///
/// # Errors
/// `IndexLogFull` and `Absent` as `Vault::find`, `LogFull` of the first group whose log has no room
/// for a look or a mend. Where too few points of a fragment can be seen, `Faulted` of the least one
/// at which an archive failed, and `Lost` where there is none. `Odd` exactly where the bytes that
/// were read have another digest than the file. `NoMemory` comes before the first look.
pub fn fetch_file<A: Archive, R: Wait>(
    connection: &mut Connection<'_, A, R>,
    name: &Name,
    pads: &mut PadStream,
) -> Result<Vec<u8>, FetchFault>
    ensures worked { WroteForItsJob connection.old connection.new }
    ensures says { TellsIfOnlyWriter (λ b s w. s.mends ≡ true → AreFilled s
        → FetchRow s b.job name.now result w) connection.old connection.new }
    ensures blinds { Blinds (job_of connection.old) most_dropped pads.old pads.new
        (knows connection.old).groups (knows connection.new).groups }
{
    match connection.find(name) {
        Ok(kept) => read_kept(connection, &kept, pads),
        Err(FindFault::LogFull) => Err(FetchFault::IndexLogFull),
        Err(FindFault::Absent) => Err(FetchFault::Absent),
        Err(FindFault::NoMemory) => Err(FetchFault::NoMemory),
    }
}

/// Reads the file of a record through the connection of a job, as `read_record`.
pub(crate) fn read_kept<A: Archive, R: Wait>(
    connection: &mut Connection<'_, A, R>,
    kept: &Record,
    pads: &mut PadStream,
) -> Result<Vec<u8>, FetchFault>
    requires { FitsRack (rack_of connection.old) kept.now }
    ensures read { InGroups (λ b. RecordRead b.job kept.now result) connection.old connection.new }
    ensures blinds { InGroups (λ b. Blinds b.job most_dropped pads.old pads.new)
        connection.old connection.new }
{
    let caller = connection.caller();
    read_record(&caller, &mut connection.passes, kept, pads)
}

/// Reads the file of a record, and compares its digest.
fn read_record<A: Archive, R: Wait>(
    caller: &Caller<'_, A, R>,
    passes: &mut Passes<A>,
    kept: &Record,
    pads: &mut PadStream,
) -> Result<Vec<u8>, FetchFault>
    requires ready { AreReadyFor caller.now passes.old.groups }
    requires groups { HasAllGroups caller.now }
    requires job { 0 < caller.now.job }
    requires fits { FitsRack caller.now.vault.now.rack kept.now }
    ensures ready { AreReadyFor caller.now passes.new.groups }
    ensures index { passes.new.index ≡ passes.old.index }
    ensures read { RecordRead caller.now.job kept.now result passes.old.groups passes.new.groups }
    ensures blinds { Blinds caller.now.job most_dropped pads.old pads.new
        passes.old.groups passes.new.groups }
{
    let Ok(mut rooms) = Rooms::start(caller.alloc) else {
        return Err(FetchFault::NoMemory);
    };
    let room = count_pieces(kept.length) as usize * 864;
    let Ok(mut bytes) = Vec::with_capacity(caller.alloc, room) else {
        return Err(FetchFault::NoMemory);
    };
    read_pieces(caller, passes, kept, pads, &mut rooms, &mut bytes)?;
    let found = digest_of(&bytes);
    if found != kept.digest {
        return Err(FetchFault::Odd {
            wanted: kept.digest,
            found,
        });
    }
    Ok(bytes)
}

/// Reads the pieces of a file one after another, each with the room for the fragments of one, and
/// cuts the whole to its length.
///
/// # Errors
/// Those of `read_piece`, at the first fragment that was not had.
fn read_pieces<A: Archive, R: Wait>(
    caller: &Caller<'_, A, R>,
    passes: &mut Passes<A>,
    kept: &Record,
    pads: &mut PadStream,
    rooms: &mut Rooms,
    bytes: &mut Vec<u8>,
) -> Result<(), FetchFault>
    requires ready { AreReadyFor caller.now passes.old.groups }
    requires groups { HasAllGroups caller.now }
    requires job { 0 < caller.now.job }
    requires fits { FitsRack caller.now.vault.now.rack kept.now }
    requires none { bytes.old.items ≡ [] }
    requires file_room { pieces_of kept.now.length * 864 ≤ vec_capacity bytes.old }
    ensures ready { AreReadyFor caller.now passes.new.groups }
    ensures index { passes.new.index ≡ passes.old.index }
    ensures read { FileRead caller.now.job kept.now bytes.new.items result
        passes.old.groups passes.new.groups }
    ensures blinds { Blinds caller.now.job most_dropped pads.old pads.new
        passes.old.groups passes.new.groups }
{
    for piece in 0..count_pieces(kept.length) {
        let object = read_piece(caller, passes, kept, piece, pads, rooms)?;
        append(bytes, &object[64..]);
    }
    bytes.truncate(kept.length as usize);
    Ok(())
}
