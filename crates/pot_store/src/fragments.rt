//! The visits of a fetch, fragment by fragment.
ghost use Rattle.std.specs.Prelude.{◌≡◌, ◌<◌, ◌≤◌, ◌+◌, ◌*◌, length, IfOk};
ghost use Rattle.std.specs.Vec.{vec_len};
ghost use Rattle.pot_bytes.specs.Rack.{IsGeometry};
ghost use Rattle.pot_object.specs.Pieces.{pieces_of};
ghost use Rattle.pot_index.specs.Fits.{FitsRack};
ghost use Rattle.pot_shared.specs.Ready.{GroupPasses};
ghost use Rattle.pot_shared.specs.Callers.{AreReadyFor, HasAllGroups, HasSlotFor};
ghost use Rattle.pot_store.specs.Visits.{LooksOnce, MendsOn};
ghost use Rattle.pot_store.specs.Points.{came_in};
ghost use Rattle.pot_store.specs.Reads.{IsFragmentFrom, PointRead, PointsTried, PointsRead};
ghost use Rattle.pot_store.specs.Reads.{IsFileMissing, FragmentRead, PieceRead};
ghost use Rattle.pot_shared.specs.Blinds.{BeganNone, Blinds};

use crate::fetching::FetchFault;
use crate::points::Points;
use crate::rooms::Rooms;
use crate::shares::append;
use crate::visiting::{Point, look_at, mend};
use pot_bytes::{Block, Place};
use pot_index::Record;
use pot_object::{CONTENT, OBJECT};
use pot_outside::Archive;
use pot_pads::PadStream;
use pot_shared::{Caller, Passes};
use pot_split::secrecy_join;
use std::sync::Wait;

/// Looks at the place of a point, from 0, and notes what came of it. False where the log of its
/// group has no room.
fn look_at_point<A: Archive, R: Wait>(
    caller: &Caller<'_, A, R>,
    passes: &mut Passes<A>,
    x: u8,
    place: Place,
    points: &mut Points,
) -> bool
    requires ready { AreReadyFor caller.now passes.old.groups }
    requires place { HasSlotFor caller.now place }
    requires job { 0 < caller.now.job }
    requires point { x < 16 }
    ensures ready { AreReadyFor caller.now passes.new.groups }
    ensures index { passes.new.index ≡ passes.old.index }
    ensures read { PointRead (LooksOnce caller.now.job place) x points.old points.new result
        passes.old.groups passes.new.groups }
{
    let mut block = Block::zero();
    let Some(point) = look_at(caller, passes, place, &mut block) else {
        return false;
    };
    points.note(x, point, &block);
    true
}

/// Looks at the points of a fragment in turn, from the block of this number on, until as many are
/// seen as give it back.
///
/// # Errors
/// `LogFull` of the first group whose log has no room.
fn look_at_points<A: Archive, R: Wait>(
    caller: &Caller<'_, A, R>,
    passes: &mut Passes<A>,
    kept: &Record,
    from: usize,
    points: &mut Points,
) -> Result<(), FetchFault>
    requires ready { AreReadyFor caller.now passes.old.groups }
    requires groups { HasAllGroups caller.now }
    requires job { 0 < caller.now.job }
    requires fits { FitsRack caller.now.vault.now.rack kept.now }
    requires fragment { IsFragmentFrom kept.now from }
    requires within { from + kept.now.geometry.shards ≤ length kept.now.places }
    ensures ready { AreReadyFor caller.now passes.new.groups }
    ensures index { passes.new.index ≡ passes.old.index }
    ensures read { PointsRead caller.now.job kept.now.places from kept.now.geometry.shards
        kept.now.geometry.need 0 points.new result passes.old.groups passes.new.groups }
    ensures quiet { BeganNone caller.now.job passes.old.groups passes.new.groups }
{
    points.clear();
    let places = kept.places.as_slice();
    for x in 0..kept.geometry.shards {
        if points.count(kept.geometry.shards) == kept.geometry.need {
            return Ok(());
        }
        let place = places[from + usize::from(x)];
        if !look_at_point(caller, passes, x, place, points) {
            return Err(FetchFault::LogFull { group: place.group });
        }
    }
    Ok(())
}

/// Mends the place of a point, from 0, at which a look gave nothing, and notes what came of it.
/// False where the log of its group has no room.
fn mend_point<A: Archive, R: Wait>(
    caller: &Caller<'_, A, R>,
    passes: &mut Passes<A>,
    x: u8,
    place: Place,
    pads: &mut PadStream,
    points: &mut Points,
) -> bool
    requires ready { AreReadyFor caller.now passes.old.groups }
    requires place { HasSlotFor caller.now place }
    requires job { 0 < caller.now.job }
    requires point { x < 16 }
    ensures ready { AreReadyFor caller.now passes.new.groups }
    ensures index { passes.new.index ≡ passes.old.index }
    ensures read { PointRead (MendsOn caller.now.job place) x points.old points.new result
        passes.old.groups passes.new.groups }
    ensures blinds { Blinds caller.now.job 1 pads.old pads.new
        passes.old.groups passes.new.groups }
{
    let mut block = Block::zero();
    let Some(point) = mend(caller, passes, place, pads, &mut block) else {
        return false;
    };
    points.note(x, point, &block);
    true
}

/// Mends the places of a fragment at which a look gave nothing, in the order of their points, until
/// as many points are seen as give it back.
///
/// # Errors
/// `LogFull` of the first group whose log has no room.
fn mend_points<A: Archive, R: Wait>(
    caller: &Caller<'_, A, R>,
    passes: &mut Passes<A>,
    kept: &Record,
    from: usize,
    pads: &mut PadStream,
    points: &mut Points,
) -> Result<(), FetchFault>
    requires ready { AreReadyFor caller.now passes.old.groups }
    requires groups { HasAllGroups caller.now }
    requires job { 0 < caller.now.job }
    requires fits { FitsRack caller.now.vault.now.rack kept.now }
    requires fragment { IsFragmentFrom kept.now from }
    requires within { from + kept.now.geometry.shards ≤ length kept.now.places }
    ensures ready { AreReadyFor caller.now passes.new.groups }
    ensures index { passes.new.index ≡ passes.old.index }
    ensures read { (first : GroupPasses)
        → PointsTried caller.now.job kept.now.places from kept.now.geometry.shards
        kept.now.geometry.need 0 points.old first passes.old.groups
        → PointsRead caller.now.job kept.now.places from kept.now.geometry.shards
        kept.now.geometry.need kept.now.geometry.shards points.new result first passes.new.groups }
    ensures blinds { Blinds caller.now.job 16 pads.old pads.new
        passes.old.groups passes.new.groups }
{
    let places = kept.places.as_slice();
    for x in 0..kept.geometry.shards {
        if points.count(kept.geometry.shards) == kept.geometry.need {
            return Ok(());
        }
        if let Point::Gone = points.known(x) {
            let place = places[from + usize::from(x)];
            if !mend_point(caller, passes, x, place, pads, points) {
                return Err(FetchFault::LogFull { group: place.group });
            }
        }
    }
    Ok(())
}

/// Looks at the points of a fragment and mends those of which nothing came, until as many are seen
/// as give it back.
///
/// # Errors
/// `LogFull` of the first group whose log has no room.
fn see_points<A: Archive, R: Wait>(
    caller: &Caller<'_, A, R>,
    passes: &mut Passes<A>,
    kept: &Record,
    from: usize,
    pads: &mut PadStream,
    points: &mut Points,
) -> Result<(), FetchFault>
    requires ready { AreReadyFor caller.now passes.old.groups }
    requires groups { HasAllGroups caller.now }
    requires job { 0 < caller.now.job }
    requires fits { FitsRack caller.now.vault.now.rack kept.now }
    requires fragment { IsFragmentFrom kept.now from }
    requires within { from + kept.now.geometry.shards ≤ length kept.now.places }
    ensures ready { AreReadyFor caller.now passes.new.groups }
    ensures index { passes.new.index ≡ passes.old.index }
    ensures read { PointsRead caller.now.job kept.now.places from kept.now.geometry.shards
        kept.now.geometry.need kept.now.geometry.shards points.new result
        passes.old.groups passes.new.groups }
    ensures blinds { Blinds caller.now.job 16 pads.old pads.new
        passes.old.groups passes.new.groups }
{
    look_at_points(caller, passes, kept, from, points)?;
    mend_points(caller, passes, kept, from, pads, points)
}

/// Which fragment of a file it is: the number of its piece, and its number in that piece, both from
/// 0.
#[derive(Clone, Copy)]
struct FragmentAt {
    piece: u32,
    fragment: u8,
}

/// Why too few points of a fragment were seen.
fn missing(kept: &Record, at: FragmentAt, from: usize, points: &Points) -> FetchFault
    requires geometry { IsGeometry kept.now.geometry }
    requires within { from + kept.now.geometry.shards ≤ length kept.now.places }
    requires few { at.fragment < 8 }
    ensures { IsFileMissing kept.now from at.piece at.fragment (came_in points.now) result }
{
    let places = kept.places.as_slice();
    for x in 0..kept.geometry.shards {
        if let Point::Failed { column } = points.known(x) {
            let place = places[from + usize::from(x)];
            return FetchFault::Faulted {
                group: place.group,
                column,
            };
        }
    }
    FetchFault::Lost {
        piece: at.piece,
        fragment: at.fragment + 1,
        have: points.count(kept.geometry.shards),
        need: kept.geometry.need,
    }
}

/// Reads a fragment, and appends it to the fragments of its piece before it.
///
/// # Errors
/// Where too few points can be seen, `Faulted` of the least one at which an archive failed, and
/// `Lost` where there is none. `LogFull` of the first group whose log has no room.
fn read_fragment<A: Archive, R: Wait>(
    caller: &Caller<'_, A, R>,
    passes: &mut Passes<A>,
    kept: &Record,
    at: FragmentAt,
    pads: &mut PadStream,
    rooms: &mut Rooms,
) -> Result<(), FetchFault>
    requires ready { AreReadyFor caller.now passes.old.groups }
    requires groups { HasAllGroups caller.now }
    requires job { 0 < caller.now.job }
    requires fits { FitsRack caller.now.vault.now.rack kept.now }
    requires piece { at.piece < pieces_of kept.now.length }
    requires fragment { at.fragment < kept.now.geometry.fragments }
    requires behind { vec_len rooms.old.fragments ≡ at.fragment * 928 }
    ensures ready { AreReadyFor caller.now passes.new.groups }
    ensures index { passes.new.index ≡ passes.old.index }
    ensures long { IfOk result
        (λ _. vec_len rooms.new.fragments ≡ vec_len rooms.old.fragments + 928) }
    ensures read { FragmentRead caller.now.job kept.now at.piece at.fragment
        rooms.old.fragments.items rooms.new.fragments.items result
        passes.old.groups passes.new.groups }
    ensures blinds { Blinds caller.now.job 16 pads.old pads.new
        passes.old.groups passes.new.groups }
{
    let from = first_block(kept, at);
    see_points(caller, passes, kept, from, pads, &mut rooms.points)?;
    if rooms.points.count(kept.geometry.shards) < kept.geometry.need {
        return Err(missing(kept, at, from, &rooms.points));
    }
    let mut content = [0; CONTENT];
    rooms.points.gather(kept.geometry.shards, &mut rooms.shares);
    rooms.shares.join(&mut content);
    append(&mut rooms.fragments, &content[64..]);
    Ok(())
}

/// The number of the first block of a fragment.
fn first_block(kept: &Record, at: FragmentAt) -> usize
    requires geometry { IsGeometry kept.now.geometry }
    requires piece { at.piece < 1024 }
    requires fragment { at.fragment < kept.now.geometry.fragments }
    ensures { result
        ≡ (at.piece * kept.now.geometry.fragments + at.fragment) * kept.now.geometry.shards }
{
    (at.piece as usize * usize::from(kept.geometry.fragments) + usize::from(at.fragment))
        * usize::from(kept.geometry.shards)
}

/// Reads a piece, from 0, fragment by fragment, and gives its object.
///
/// # Errors
/// Those of `read_fragment`, at the first fragment that was not had.
pub fn read_piece<A: Archive, R: Wait>(
    caller: &Caller<'_, A, R>,
    passes: &mut Passes<A>,
    kept: &Record,
    piece: u32,
    pads: &mut PadStream,
    rooms: &mut Rooms,
) -> Result<[u8; OBJECT], FetchFault>
    requires ready { AreReadyFor caller.now passes.old.groups }
    requires groups { HasAllGroups caller.now }
    requires job { 0 < caller.now.job }
    requires fits { FitsRack caller.now.vault.now.rack kept.now }
    requires piece { piece < pieces_of kept.now.length }
    ensures ready { AreReadyFor caller.now passes.new.groups }
    ensures index { passes.new.index ≡ passes.old.index }
    ensures long { IfOk result (λ object. length object ≡ 928) }
    ensures read { PieceRead caller.now.job kept.now piece result
        passes.old.groups passes.new.groups }
    ensures blinds { Blinds caller.now.job 128 pads.old pads.new
        passes.old.groups passes.new.groups }
{
    rooms.fragments.clear();
    for fragment in 0..kept.geometry.fragments {
        let at = FragmentAt { piece, fragment };
        read_fragment(caller, passes, kept, at, pads, rooms)?;
    }
    let mut object = [0; OBJECT];
    secrecy_join(&rooms.fragments, &mut object);
    Ok(object)
}
