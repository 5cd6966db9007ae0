//! The slots of a table in an image.
ghost use Rattle.std.specs.Prelude.{◌≡◌, ◌≤◌, ◌<◌, ◌+◌, ◌*◌, length, IfOk};
ghost use Rattle.pot_bytes.specs.Rack.{IsRack};
ghost use Rattle.pot_image.specs.Following.{Gives};
ghost use Rattle.pot_image.specs.Reading.{reading};
ghost use Rattle.pot_image.specs.Tables.{allows, state_of, slot, slot_behind, stripe_slots, slots};

use crate::fault::Fault;
use crate::fields::{read_byte, read_digest};
use pot_bytes::{Digest, Rack};
use pot_machine::{Cursor, SlotState};
use std::alloc::Global;

/// Whether a slot behind others may be Void, or may be another.
fn allows(
    rack: &Rack,
    cursor: Cursor,
    stripe: u32,
    column: u8,
    before: &[SlotState],
    void: bool,
) -> bool
    requires rack { IsRack rack.now }
    requires before { length before.now ≡ stripe * (rack.now.columns + rack.now.parity) + column }
    ensures { result
        ≡ allows cursor rack.now.columns (rack.now.columns + rack.now.parity) before.now stripe
        column void }
{
    if cursor.stripe < stripe {
        return void;
    }
    if rack.columns <= column {
        let first = before[before.len() - usize::from(column)];
        return void == first.is_void();
    }
    if stripe == cursor.stripe {
        return void == (cursor.column <= column);
    }
    column == 0 || void || !before[before.len() - 1].is_void()
}

/// What a state that is not 0 says of a slot whose block has this digest.
fn state_of(state: u8, digest: Digest) -> SlotState
    ensures { result ≡ state_of state digest }
{
    match state {
        1 => SlotState::Live(digest),
        2 => SlotState::Lost(digest),
        _ => SlotState::Broken(digest),
    }
}

/// The slot of a stripe and a column, behind others.
fn read_slot<'a>(
    bytes: &'a [u8],
    rack: &Rack,
    cursor: Cursor,
    stripe: u32,
    column: u8,
    before: &[SlotState],
) -> Result<(SlotState, &'a [u8]), Fault>
    requires rack { IsRack rack.now }
    requires before { length before.now ≡ stripe * (rack.now.columns + rack.now.parity) + column }
    ensures { Gives (λ x. (x.0, x.1.now)) result
        (reading (slot_behind cursor rack.now.columns (rack.now.columns + rack.now.parity) stripe
        column before.now) bytes.now) }
{
    let (state, after) = read_byte(bytes, 0, 3)?;
    let allowed = allows(rack, cursor, stripe, column, before, state == 0);
    if !allowed {
        return Err(Fault::at(bytes));
    }
    if state == 0 {
        return Ok((SlotState::Void, after));
    }
    let (digest, rest) = read_digest(after)?;
    Ok((state_of(state, digest), rest))
}

/// The slots of a stripe, which are put behind those of the stripes before it.
fn read_stripe<'a>(
    bytes: &'a [u8],
    rack: &Rack,
    cursor: Cursor,
    stripe: u32,
    slots: &mut Vec<SlotState>,
) -> Result<&'a [u8], Fault>
    requires rack { IsRack rack.now }
    requires before { length slots.old.items ≡ stripe * (rack.now.columns + rack.now.parity) }
    ensures reads { Gives (λ rest. (slots.new.items, rest.now)) result
        (reading (stripe_slots cursor rack.now.columns (rack.now.columns + rack.now.parity) stripe
        slots.old.items) bytes.now) }
    ensures count { IfOk result (λ rest. length slots.new.items
        ≡ stripe * (rack.now.columns + rack.now.parity) + (rack.now.columns + rack.now.parity)) }
{
    let mut rest = bytes;
    for column in 0..rack.columns + rack.parity {
        let (slot, after) = read_slot(rest, rack, cursor, stripe, column, slots)?;
        slots.push(slot)?;
        rest = after;
    }
    Ok(rest)
}

/// All slots of a table.
pub(crate) fn read_slots<'a>(
    alloc: Global,
    bytes: &'a [u8],
    rack: &Rack,
    cursor: Cursor,
) -> Result<(Vec<SlotState>, &'a [u8]), Fault>
    requires { IsRack rack.now }
    ensures reads { Gives (λ x. (x.0.items, x.1.now)) result
        (reading (slots cursor rack.now.columns (rack.now.columns + rack.now.parity)
        rack.now.stripes) bytes.now) }
    ensures count { IfOk result (λ x. length x.0.items
        ≡ rack.now.stripes * (rack.now.columns + rack.now.parity)) }
{
    let width = usize::from(rack.columns + rack.parity);
    let mut slots = Vec::with_capacity(alloc, rack.stripes as usize * width)?;
    let mut rest = bytes;
    for stripe in 0..rack.stripes {
        rest = read_stripe(rest, rack, cursor, stripe, &mut slots)?;
    }
    Ok((slots, rest))
}
