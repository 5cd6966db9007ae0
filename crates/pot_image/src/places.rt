//! The places of a split in an image.
ghost use Rattle.std.specs.Prelude.{◌≡◌, ◌≤◌, ◌<◌, ◌+◌, ◌-◌, ◌*◌, ◌^◌, ◌++◌, List, [], ◌∷◌, IfOk};
ghost use Rattle.pot_bytes.specs.declared.rack.Place.{Place};
ghost use Rattle.pot_bytes.specs.Rack.{IsRack, IsGeometry};
ghost use Rattle.pot_image.specs.Following.{Gives};
ghost use Rattle.pot_image.specs.Reading.{reading};
ghost use Rattle.pot_image.specs.Records.{is_filled, is_apart, place, places};
ghost use Rattle.pot_image.specs.Marks.{spot, AreStamps, HaveMarks};
ghost use Rattle.pot_image.specs.Rules.{AreTables};

use crate::columns::read_at_most;
use crate::fault::Fault;
use crate::fields::read_byte;
use pot_bytes::{Geometry, Place, Rack};
use pot_index::{Places, group_of};
use pot_machine::GroupTable;
use std::alloc::Global;

/// No place has fewer bytes.
const PLACE_BYTES: usize = 6;

/// Where the stamp of a place stands.
fn spot(rack: &Rack, place: Place) -> usize
    requires rack { IsRack rack.now }
    requires group { place.group < rack.now.groups }
    requires column { place.column < rack.now.columns }
    requires stripe { place.stripe < rack.now.stripes }
    ensures value { result ≡ spot rack.now place.group place.column place.stripe }
    ensures within { result < rack.now.groups * rack.now.stripes * rack.now.columns }
{
    let row = usize::from(place.group) * rack.stripes as usize + place.stripe as usize;
    row * usize::from(rack.columns) + usize::from(place.column)
}

/// Whether the slot at a place is not Void.
fn is_filled(rack: &Rack, tables: &[GroupTable], place: Place) -> bool
    requires rack { IsRack rack.now }
    requires tables { AreTables rack.now tables.now }
    requires group { place.group < rack.now.groups }
    requires column { place.column < rack.now.columns }
    requires stripe { place.stripe < rack.now.stripes }
    ensures { result ≡ is_filled tables.now place.group place.column place.stripe }
{
    !tables[usize::from(place.group)]
        .slot(place.stripe, place.column)
        .is_void()
}

/// Stamps a place, and says whether it did not have this stamp before.
fn stamp(rack: &Rack, stamps: &mut [u64], last: u64, place: Place) -> bool
    requires rack { IsRack rack.now }
    requires group { place.group < rack.now.groups }
    requires column { place.column < rack.now.columns }
    requires stripe { place.stripe < rack.now.stripes }
    requires stamps { AreStamps rack.now stamps.old last }
    ensures apart { (before : List Place) → HaveMarks rack.now stamps.old last before
        → result ≡ is_apart before place.group place.column place.stripe }
    ensures marks { (before : List Place) → HaveMarks rack.now stamps.old last before
        → HaveMarks rack.now stamps.new last (before ++ place ∷ []) }
{
    let spot = spot(rack, place);
    let apart = stamps[spot] != last;
    stamps[spot] = last;
    apart
}

/// The place of a block, whose slot is not Void and which does not have the stamp of the split yet.
/// It gets it.
fn read_place<'a>(
    bytes: &'a [u8],
    rack: &Rack,
    tables: &[GroupTable],
    geometry: Geometry,
    number: u32,
    stamps: &mut [u64],
    last: u64,
) -> Result<(Place, &'a [u8]), Fault>
    requires rack { IsRack rack.now }
    requires tables { AreTables rack.now tables.now }
    requires geometry { IsGeometry geometry }
    requires number { number < 2 ^ 31 }
    requires stamps { AreStamps rack.now stamps.old last }
    ensures reads { (before : List Place) → HaveMarks rack.now stamps.old last before
        → Gives (λ x. (x.0, x.1.now)) result
        (reading (place rack.now tables.now geometry number before) bytes.now) }
    ensures marks { (before : List Place) → HaveMarks rack.now stamps.old last before
        → IfOk result (λ x. HaveMarks rack.now stamps.new last (before ++ x.0 ∷ [])) }
{
    let expected = group_of(rack, &geometry, number);
    let (group, after_group) = read_byte(bytes, expected, expected)?;
    let (column, after_column) = read_byte(after_group, 0, rack.columns - 1)?;
    let (stripe, rest) = read_at_most(after_column, rack.stripes - 1)?;
    let place = Place {
        group,
        column,
        stripe,
    };
    if !is_filled(rack, tables, place) {
        return Err(Fault::at(after_column));
    }
    if !stamp(rack, stamps, last, place) {
        return Err(Fault::at(after_column));
    }
    Ok((place, rest))
}

/// The places of a file of so many pieces that is split so. They get the stamp of the split, which
/// no place has yet.
pub(crate) fn read_places<'a>(
    alloc: Global,
    bytes: &'a [u8],
    rack: &Rack,
    tables: &[GroupTable],
    pieces: u32,
    geometry: Geometry,
    stamps: &mut [u64],
    last: u64,
) -> Result<(Places, &'a [u8]), Fault>
    requires rack { IsRack rack.now }
    requires tables { AreTables rack.now tables.now }
    requires pieces { pieces ≤ 1024 }
    requires geometry { IsGeometry geometry }
    requires last { 1 ≤ last }
    requires stamps { AreStamps rack.now stamps.old (last - 1) }
    ensures reads { Gives (λ x. (x.0, x.1.now)) result
        (reading (places rack.now tables.now pieces geometry) bytes.now) }
    ensures stamps { IfOk result (λ x. AreStamps rack.now stamps.new last) }
{
    let total = pieces * u32::from(geometry.fragments) * u32::from(geometry.shards);
    let mut places = Vec::with_capacity(alloc, (total as usize).min(bytes.len() / PLACE_BYTES))?;
    let mut rest = bytes;
    for number in 0..total {
        let (place, after) = read_place(rest, rack, tables, geometry, number, stamps, last)?;
        places.push(place)?;
        rest = after;
    }
    Ok((Places::from_vec(places), rest))
}
