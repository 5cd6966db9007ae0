//! A file is split anew: it is fetched, the blocks of its new split are put, and its record gets
//! that split.
ghost use Rattle.std.specs.Prelude.{◌≡◌, ◌<◌, ◌≤◌, true, length};
ghost use Rattle.pot_object.specs.Pieces.{longest};
ghost use Rattle.pot_index.specs.Fits.{FitsGeometry};
ghost use Rattle.pot_rows.specs.Works.{RowWroteOnlyFor};
ghost use Rattle.pot_shared.specs.Connections.{InGroups, TellsIfOnlyWriter, WroteForItsJob, job_of, knows, rack_of};
ghost use Rattle.pot_shared.specs.Works.{of_job};
ghost use Rattle.pot_store.specs.Fetches.{AreFilled};
ghost use Rattle.pot_store.specs.Renewals.{of_find, of_fetch, of_put, of_renew, PutsSplit};
ghost use Rattle.pot_store.specs.Renewals.{RenewsFrom, RenewRow};
ghost use Rattle.pot_shared.specs.Blinds.{Blinds, most_dropped};

use crate::fetching::{FetchFault, read_kept};
use crate::putting::{Stopped, put_all};
use crate::storing::{Plan, Stored, prepare};
use pot_bytes::{Digest, Geometry, Name};
use pot_group::PutFault;
use pot_index::{FindFault, Places, RenewFault, Split};
use pot_outside::Archive;
use pot_pads::PadStream;
use pot_shared::Connection;
use std::sync::Wait;

/// How many older splits a record has at most, beside the current one.
const MOST_OLDER: usize = 15;

/// Why a file was not split anew.
#[derive(Clone, Copy, PartialEq, Eq, Debug)]
pub enum RenewFileFault {
    /// The log of the index has no room for the search, or for the new split.
    IndexLogFull,
    /// No file is published under the name.
    Absent,
    /// The record has 16 splits.
    TooOften,
    /// The archive of the column failed.
    Faulted {
        group: u8,
        column: u8,
    },
    /// Of this fragment, whose number counts from 1, no more points can be had.
    Lost {
        piece: u32,
        fragment: u8,
        have: u8,
        need: u8,
    },
    /// The log of the group has no room.
    LogFull {
        group: u8,
    },
    /// The bytes that were read have another digest than the file.
    Odd {
        wanted: Digest,
        found: Digest,
    },
    /// No stripe of the group takes a block any more.
    Full {
        group: u8,
    },
    NoMemory,
}

/// The answer to a search that found nothing.
fn of_find(fault: FindFault) -> RenewFileFault
    ensures { result ≡ of_find fault }
{
    match fault {
        FindFault::LogFull => RenewFileFault::IndexLogFull,
        FindFault::Absent => RenewFileFault::Absent,
        FindFault::NoMemory => RenewFileFault::NoMemory,
    }
}

/// The answer to a file that was not read.
fn of_fetch(fault: FetchFault) -> RenewFileFault
    ensures { result ≡ of_fetch fault }
{
    match fault {
        FetchFault::IndexLogFull => RenewFileFault::IndexLogFull,
        FetchFault::Absent => RenewFileFault::Absent,
        FetchFault::Faulted { group, column } => RenewFileFault::Faulted { group, column },
        FetchFault::Lost {
            piece,
            fragment,
            have,
            need,
        } => RenewFileFault::Lost {
            piece,
            fragment,
            have,
            need,
        },
        FetchFault::LogFull { group } => RenewFileFault::LogFull { group },
        FetchFault::Odd { wanted, found } => RenewFileFault::Odd { wanted, found },
        FetchFault::NoMemory => RenewFileFault::NoMemory,
    }
}

/// The answer to a put that was refused.
fn of_put(stopped: Stopped) -> RenewFileFault
    ensures { result ≡ of_put stopped.group stopped.cause }
{
    let group = stopped.group;
    match stopped.cause {
        PutFault::LogFull => RenewFileFault::LogFull { group },
        PutFault::Full => RenewFileFault::Full { group },
        PutFault::Faulted { column } => RenewFileFault::Faulted { group, column },
    }
}

/// The answer to a record that got no new split.
fn of_renew(fault: RenewFault) -> RenewFileFault
    ensures { result ≡ of_renew fault }
{
    match fault {
        RenewFault::LogFull => RenewFileFault::IndexLogFull,
        RenewFault::TooOften => RenewFileFault::TooOften,
        RenewFault::NoMemory => RenewFileFault::NoMemory,
    }
}

/// Puts the blocks of a file as a split of this geometry, with the next bytes of the stream.
///
/// # Errors
/// `NoMemory` before the first put, or the first put that is refused.
fn put_split<A: Archive, R: Wait>(
    connection: &mut Connection<'_, A, R>,
    geometry: &Geometry,
    file: &[u8],
    pads: PadStream,
) -> Result<(Stored, Split), RenewFileFault>
    requires geometry { FitsGeometry (rack_of connection.old) geometry.now }
    requires short { length file.now ≤ longest }
    ensures worked { InGroups (λ b. RowWroteOnlyFor (of_job b.job)) connection.old connection.new }
    ensures puts { PutsSplit (rack_of connection.old) geometry.now (job_of connection.old) file.now pads
        result (knows connection.old).groups (knows connection.new).groups }
{
    let Ok(plan) = prepare(
        connection.alloc(),
        connection.rack().columns,
        geometry,
        file,
        pads,
    ) else {
        return Err(RenewFileFault::NoMemory);
    };
    let Plan {
        pieces,
        shards,
        mut drawing,
        mut places,
    } = plan;
    match put_all(connection, geometry, &mut drawing, shards, &mut places) {
        Ok(()) => {
            let split = Split {
                geometry: *geometry,
                places: Places::from_vec(places),
            };
            Ok((Stored { pieces, shards }, split))
        }
        Err(stopped) => Err(of_put(stopped)),
    }
}

/// Splits the file that is published under a name anew: fetches it, its relays blinded by `blinds`,
/// puts the blocks of a split of this geometry with the next bytes of `pads`, and makes that split
/// the record's current one. The older blocks stay.
///
/// Each relay that it begins has the next 1,024 bytes of `blinds` as its blind. A blind that was
/// drawn and began no relay is dropped.
///
/// # Errors
/// In this order: `IndexLogFull` and `Absent`, as `Vault::find`; `TooOften` exactly where the
/// record found has 16 splits; those of `fetch_file`; the first put that is refused; `IndexLogFull`
/// and `TooOften`, as `Vault::renew`. `NoMemory` may come before the first look, before the first
/// put and behind the last one. After a refusal the record is as it was, and blocks that were put
/// stay.
pub fn renew_file<A: Archive, R: Wait>(
    connection: &mut Connection<'_, A, R>,
    name: &Name,
    geometry: &Geometry,
    blinds: &mut PadStream,
    pads: PadStream,
) -> Result<Stored, RenewFileFault>
    requires { FitsGeometry (rack_of connection.old) geometry.now }
    ensures worked { WroteForItsJob connection.old connection.new }
    ensures says { TellsIfOnlyWriter (λ b s w. s.mends ≡ true → AreFilled s → RenewsFrom s pads geometry.now b.job
        → RenewRow s b.job name.now geometry.now result w) connection.old connection.new }
    ensures blinds { Blinds (job_of connection.old) most_dropped blinds.old blinds.new
        (knows connection.old).groups (knows connection.new).groups }
{
    let kept = match connection.find(name) {
        Ok(kept) => kept,
        Err(fault) => return Err(of_find(fault)),
    };
    if kept.older.as_slice().len() == MOST_OLDER {
        return Err(RenewFileFault::TooOften);
    }
    let file = match read_kept(connection, &kept, blinds) {
        Ok(file) => file,
        Err(fault) => return Err(of_fetch(fault)),
    };
    let (stored, split) = match put_split(connection, geometry, &file, pads) {
        Ok(put) => put,
        Err(fault) => return Err(fault),
    };
    match connection.renew(name, split) {
        Ok(()) => Ok(stored),
        Err(fault) => Err(of_renew(fault)),
    }
}
