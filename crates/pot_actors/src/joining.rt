//! What gathered blocks give.
ghost use Rattle.std.specs.Prelude.{◌≡◌, ◌<◌, ◌≤◌, ◌+◌, ◌++◌, [], Some, length, nat_eq, nat_lt};
ghost use Rattle.std.specs.Prelude.{vec_capacity, vec_len, IfOk, MatchBool};
ghost use Rattle.std.specs.List.{All, IsDistinct};
ghost use Rattle.pot_object.specs.Pieces.{pieces_of};
ghost use Rattle.pot_split.specs.Threshold.{IsJoin};
ghost use Rattle.pot_world.specs.World.{FragmentGathered, same_place};
ghost use Rattle.pot_actors.specs.Joins.{FragmentJoined, IsReadable, PieceGathered, PieceJoined};
ghost use Rattle.pot_actors.specs.Joins.{gathered_at, shared_to, with_point};
ghost use Rattle.pot_actors.specs.Seats.{IsTold};

use crate::split::Reading;
use pot_bytes::{Block, Bytes, NoMemory, Place, Sequence};
use pot_index::Record;
use pot_object::{CONTENT, OBJECT, count_pieces};
use pot_split::{secrecy_join, share_join};
use std::alloc::Global;
use std::marker::Model;

/// The shares of a fragment, row by row, and the points at which they stand.
#[derive(Drop)]
struct Shares {
    points: Vec<u8>,
    rows: Vec<u8>,
}

impl Model for Shares {
    ghost use Rattle.std.specs.Prelude.{◌≡◌, ◌≤◌, ◌*◌, length, vec_capacity};
    ghost use Rattle.pot_actors.specs.Joins.{Shared};

    ghost Value = { Shared };

    ghost view = { λ s. record { points = s.points.items; rows = s.rows.items } };

    ghost invariant = { λ s. (length s.rows.items ≡ length s.points.items * 992) × (16 ≤ vec_capacity s.points) × (15872 ≤ vec_capacity s.rows) };
}

/// Appends a part for which there is room.
fn append(into: &mut Vec<u8>, part: &[u8])
    requires { vec_len into.old + length part.now ≤ vec_capacity into.old }
    ensures items { into.new.items ≡ into.old.items ++ part.now }
    ensures room { vec_capacity into.old ≤ vec_capacity into.new }
{
    let Ok(()) = into.extend_from_slice(part) else {
        unreachable!()
    };
}

impl Shares {
    /// Room for the shares of 16 points, and none yet.
    fn start(alloc: Global) -> Result<Shares, NoMemory> {
        let points = Vec::with_capacity(alloc, 16)?;
        let rows = Vec::with_capacity(alloc, 16 * CONTENT)?;
        Ok(Shares { points, rows })
    }

    /// There are none.
    fn clear(&mut self)
        ensures { self.new ≡ record { points = []; rows = [] } }
    {
        self.points.clear();
        self.rows.clear();
    }

    /// How many there are.
    fn count(&self) -> usize
        ensures { result ≡ length self.now.points }
    {
        self.points.len()
    }

    /// The share of a point in its block, if more are needed and there is one.
    fn keep(&mut self, need: u8, point: u8, block: &Option<Block>)
        requires { need ≤ 16 }
        ensures { self.new
            ≡ with_point (nat_lt (length self.old.points) need) point block.now self.old }
    {
        if self.points.len() >= usize::from(need) {
            return;
        }
        if let Some(block) = block {
            self.points.push_reserved(point);
            append(&mut self.rows, &block.bytes()[32..]);
        }
    }

    /// What the shares are joined to.
    fn join(&self, content: &mut [u8; CONTENT])
        requires some { 0 < length self.now.points }
        requires few { length self.now.points ≤ 16 }
        requires distinct { IsDistinct nat_eq self.now.points }
        requires not_zero { All (λ x. 0 < x) self.now.points }
        ensures { IsJoin self.now.points self.now.rows content.new }
    {
        share_join(&self.points, &self.rows, content);
    }
}

/// Whether these are one place.
pub(crate) fn same_place(one: &Place, other: &Place) -> bool
    ensures { result ≡ same_place one.now other.now }
{
    one.group == other.group && (one.stripe == other.stripe && one.column == other.column)
}

/// The block that was gathered first at a place.
fn gathered_at(gathered: &[Reading], place: &Place) -> Option<Block>
    ensures { result ≡ gathered_at gathered.now place.now }
{
    gathered
        .iter()
        .find(|reading| same_place(&reading.place, place))
        .map(|reading| reading.block)
}

/// The shares of a fragment of a piece, both from 0.
fn see_fragment(kept: &Record, gathered: &[Reading], piece: u32, fragment: u8, shares: &mut Shares)
    requires readable { IsReadable kept.now }
    requires piece { piece < pieces_of kept.now.length }
    requires fragment { fragment < kept.now.geometry.fragments }
    ensures { shares.new ≡ shared_to kept.now gathered.now piece fragment kept.now.geometry.shards }
{
    shares.clear();
    let geometry = kept.geometry;
    let places = kept.places.as_slice();
    let from = (piece as usize * usize::from(geometry.fragments) + usize::from(fragment))
        * usize::from(geometry.shards);
    for point in 0..geometry.shards {
        let block = gathered_at(gathered, &places[from + usize::from(point)]);
        shares.keep(geometry.need, point + 1, &block);
    }
}

/// Joins a fragment of a piece, both from 0, if enough of it was gathered.
fn join_fragment(
    kept: &Record,
    gathered: &[Reading],
    piece: u32,
    fragment: u8,
    shares: &mut Shares,
    content: &mut [u8; CONTENT],
) -> bool
    requires readable { IsReadable kept.now }
    requires piece { piece < pieces_of kept.now.length }
    requires fragment { fragment < kept.now.geometry.fragments }
    ensures { MatchBool result (FragmentJoined kept.now gathered.now piece fragment content.new)
        (¬ FragmentGathered kept.now gathered.now piece fragment) }
{
    see_fragment(kept, gathered, piece, fragment, shares);
    if shares.count() < usize::from(kept.geometry.need) {
        return false;
    }
    shares.join(content);
    true
}

/// Joins a piece, from 0, if enough of each fragment was gathered.
fn join_piece(
    kept: &Record,
    gathered: &[Reading],
    piece: u32,
    shares: &mut Shares,
    fragments: &mut Vec<u8>,
    object: &mut [u8; OBJECT],
) -> bool
    requires readable { IsReadable kept.now }
    requires piece { piece < pieces_of kept.now.length }
    requires room { 7424 ≤ vec_capacity fragments.old }
    ensures joined { MatchBool result (PieceJoined kept.now gathered.now piece object.new)
        (¬ PieceGathered kept.now gathered.now piece) }
    ensures room { 7424 ≤ vec_capacity fragments.new }
{
    fragments.clear();
    let mut content = [0; CONTENT];
    for fragment in 0..kept.geometry.fragments {
        if !join_fragment(kept, gathered, piece, fragment, shares, &mut content) {
            return false;
        }
        append(fragments, &content[64..]);
    }
    secrecy_join(fragments, object);
    true
}

/// The file that gathered blocks give, if they are enough.
pub(crate) fn join_file(
    alloc: Global,
    kept: &Record,
    gathered: &[Reading],
) -> Result<Option<Bytes>, NoMemory>
    requires { IsReadable kept.now }
    ensures { IfOk result (λ file. IsTold (Some kept.now) gathered.now file) }
{
    let mut shares = Shares::start(alloc)?;
    let mut fragments = Vec::with_capacity(alloc, 8 * OBJECT)?;
    let mut object = [0; OBJECT];
    let mut file = Vec::new(alloc);
    for piece in 0..count_pieces(kept.length) {
        if !join_piece(
            kept,
            gathered,
            piece,
            &mut shares,
            &mut fragments,
            &mut object,
        ) {
            return Ok(None);
        }
        file.extend_from_slice(&object[64..])?;
    }
    file.truncate(kept.length as usize);
    Ok(Some(Sequence::from_vec(file)))
}
