//! A file is stored: its name is reserved, its blocks are put, and its record is published.
ghost use Rattle.std.specs.Prelude.{◌≡◌, ◌<◌, ◌≤◌, IfOk, IfErr, length};
ghost use Rattle.std.specs.Vec.{vec_capacity};
ghost use Rattle.pot_object.specs.Pieces.{longest};
ghost use Rattle.pot_bytes.specs.Rack.{IsGeometry};
ghost use Rattle.pot_shared.specs.Connections.{TellsIfOnlyWriter, WroteForItsJob};
ghost use Rattle.pot_store.specs.Stores.{DrawsFrom, StoreRow, record_of, fault_of, IsPlan};
ghost use Rattle.pot_store.specs.Stores.{IsUnplanned};

use crate::drawing::Drawing;
use crate::putting::{Stopped, put_all};
use crate::sealing::SealedDrawing;
use pot_bytes::{Geometry, Name, Place, digest_of};
use pot_group::PutFault;
use pot_index::{Places, Record, ReserveFault, Splits};
use pot_object::{TooLong, cut_file};
use pot_outside::Archive;
use pot_pads::PadStream;
use pot_shared::{Connection, ReservationLost};
use std::alloc::Global;
use std::sync::Wait;

/// A file that was stored: how many pieces it has, and how many shards of it were put.
#[derive(Clone, Copy, PartialEq, Eq, Debug)]
pub struct Stored {
    pub pieces: u32,
    pub shards: u32,
}

/// Why a file was not stored.
#[derive(Clone, Copy, PartialEq, Eq, Debug)]
pub enum StoreFault {
    /// The file has more than 884,736 bytes.
    TooLong { length: u64 },
    /// The log of the index has no room for two more entries.
    IndexLogFull,
    /// The name is published or reserved.
    Exists,
    /// No stripe of the group takes a block any more.
    Full { group: u8 },
    /// The archive of the column failed.
    Faulted { group: u8, column: u8 },
    /// The log of the group has no room.
    LogFull { group: u8 },
    /// Another pass ended the job's reservation, by the entry at this place of the index's log.
    ReservationLost { at: u32 },
    NoMemory,
}

/// The answer to a put that was refused.
fn fault_of(stopped: Stopped) -> StoreFault
    ensures { result ≡ fault_of stopped.group stopped.cause }
{
    let group = stopped.group;
    match stopped.cause {
        PutFault::LogFull => StoreFault::LogFull { group },
        PutFault::Full => StoreFault::Full { group },
        PutFault::Faulted { column } => StoreFault::Faulted { group, column },
    }
}

/// The record of a file whose blocks stand at these places.
fn record_of(
    alloc: Global,
    name: &Name,
    file: &[u8],
    geometry: &Geometry,
    places: Vec<Place>,
) -> Record
    requires { length file.now ≤ longest }
    ensures { result ≡ record_of name.now file.now geometry.now places.items }
{
    Record {
        name: *name,
        length: file.len() as u64,
        digest: digest_of(file),
        geometry: *geometry,
        places: Places::from_vec(places),
        older: Splits::from_vec(Vec::new(alloc)),
    }
}

/// What a split of a file has before its puts: the numbers of its pieces and blocks, the blocks,
/// and room for their places.
pub(crate) struct Plan<'a> {
    pub pieces: u32,
    pub shards: u32,
    pub drawing: SealedDrawing<'a>,
    pub places: Vec<Place>,
}

/// Takes the memory that a split of a file needs, whose puts go into groups of as many data
/// columns.
pub(crate) fn prepare<'a>(
    alloc: Global,
    columns: u8,
    geometry: &Geometry,
    file: &'a [u8],
    pads: PadStream,
) -> Result<Plan<'a>, StoreFault>
    requires { IsGeometry geometry.now }
    ensures planned { IfOk result (λ p.
        IsPlan geometry.now file.now pads p.pieces p.shards p.drawing p.places.items) }
    ensures room { IfOk result (λ p. p.shards ≤ vec_capacity p.places) }
    ensures refused { IfErr result (IsUnplanned file.now) }
{
    let pieces = match cut_file(file.len() as u64) {
        Ok(pieces) => pieces,
        Err(TooLong { length }) => return Err(StoreFault::TooLong { length }),
    };
    let shards = pieces * (u32::from(geometry.fragments) * u32::from(geometry.shards));
    let Ok(drawing) = Drawing::start(alloc, geometry, file, pads) else {
        return Err(StoreFault::NoMemory);
    };
    let Ok(places) = Vec::with_capacity(alloc, shards as usize) else {
        return Err(StoreFault::NoMemory);
    };
    Ok(Plan {
        pieces,
        shards,
        drawing: SealedDrawing::new(drawing, shards, columns),
        places,
    })
}

/// Stores a file under a name: its blocks are put into the groups, by piece, fragment and point,
/// with the next bytes of the stream, and then its record is published. Never more than one piece
/// of it stands in memory beside it.
///
/// # Errors
/// In this order: `TooLong`; `IndexLogFull` and `Exists`, as `Index::reserve`; and the first put
/// that is refused, after which the name is free again. `NoMemory` comes before anything is logged.
/// `ReservationLost` comes where another pass ended the job's reservation.
pub fn store_file<A: Archive, R: Wait>(
    connection: &mut Connection<'_, A, R>,
    name: &Name,
    file: &[u8],
    pads: PadStream,
) -> Result<Stored, StoreFault>
    ensures worked { WroteForItsJob connection.old connection.new }
    ensures says { TellsIfOnlyWriter (λ b s w. DrawsFrom s pads b.job file.now
        → StoreRow s b.job name.now file.now result w) connection.old connection.new }
{
    let alloc = connection.alloc();
    let rack = connection.rack();
    let geometry = &rack.geometry;
    let Plan {
        pieces,
        shards,
        mut drawing,
        mut places,
    } = prepare(alloc, rack.columns, geometry, file, pads)?;
    match connection.reserve(name) {
        Ok(()) => {}
        Err(ReserveFault::LogFull) => return Err(StoreFault::IndexLogFull),
        Err(ReserveFault::Exists) => return Err(StoreFault::Exists),
        Err(ReserveFault::NoMemory) => return Err(StoreFault::NoMemory),
    }
    match put_all(connection, geometry, &mut drawing, shards, &mut places) {
        Ok(()) => {
            let kept = record_of(alloc, name, file, geometry, places);
            match connection.publish(kept) {
                Ok(()) => Ok(Stored { pieces, shards }),
                Err(ReservationLost { at }) => Err(StoreFault::ReservationLost { at }),
            }
        }
        Err(stopped) => match connection.abandon(name) {
            Ok(()) => Err(fault_of(stopped)),
            Err(ReservationLost { at }) => Err(StoreFault::ReservationLost { at }),
        },
    }
}
