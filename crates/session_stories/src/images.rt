//! What stands in the desk's image.
ghost use Rattle.std.specs.Prelude.{◌<◌};

use crate::fault::Fault;
use crate::logs::tell_logs;
use crate::told::Told;
use crate::words::short;
use pot_bytes::{Geometry, Place, Rack};
use pot_image::{Image, read_image};
use pot_index::Record;
use pot_machine::{Column, GroupTable, SlotState};
use std::alloc::{AllocError, Global};
use std::str;

/// The session and the rack.
fn tell_head(alloc: Global, image: &Image, told: &mut Told) -> Result<(), Fault> {
    let session = image.session;
    let Rack {
        groups,
        columns,
        parity,
        stripes,
        geometry,
    } = image.rack;
    let Geometry {
        fragments,
        need,
        shards,
        blur,
    } = geometry;
    let archive = format!(in alloc;
        "session {session} groups {groups} columns {columns} parity {parity} stripes {stripes}"
    )?;
    let split = format!(in alloc; "fragments {fragments} need {need} shards {shards} blur {blur}")?;
    told.outcome(&format!(in alloc; "{archive} {split}")?)
}

/// A column's home, and where it moves to.
fn home_of(alloc: Global, column: &Column) -> Result<String, AllocError> {
    let home = column.home;
    match column.moving {
        None => format!(in alloc; " {home}"),
        Some(moving) => {
            let to = moving.to;
            let upto = moving.upto;
            format!(in alloc; " {home}>{to}@{upto}")
        }
    }
}

/// The cursor and the columns of a group.
fn tell_table(
    alloc: Global,
    group: usize,
    table: &GroupTable,
    told: &mut Told,
) -> Result<(), Fault> {
    let cursor = table.cursor();
    let stripe = cursor.stripe;
    let column = cursor.column;
    let mut text = format!(in alloc; "group {group} cursor {stripe} {column} homes")?;
    for column in table.columns() {
        text.push_str(&home_of(alloc, column)?)?;
    }
    told.outcome(&text)
}

/// A split of a file.
fn tell_split(
    alloc: Global,
    geometry: Geometry,
    places: &[Place],
    told: &mut Told,
) -> Result<(), Fault> {
    let Geometry {
        fragments,
        need,
        shards,
        blur,
    } = geometry;
    let mut text = format!(in alloc; "split {fragments} {need} {shards} {blur}")?;
    for place in places {
        let Place {
            group,
            column,
            stripe,
        } = *place;
        text.push_str(&format!(in alloc; " {group}.{column}.{stripe}")?)?;
    }
    told.outcome(&text)
}

/// The record of a file.
fn tell_record(alloc: Global, record: &Record, told: &mut Told) -> Result<(), Fault> {
    let name = str::from_utf8(record.name.bytes()).unwrap_or("");
    let length = record.length;
    let digest = short(alloc, &record.digest.bytes)?;
    told.outcome(&format!(in alloc; "record {name} {length} {digest}")?)?;
    for split in record.older.as_slice() {
        tell_split(alloc, split.geometry, split.places.as_slice(), told)?;
    }
    tell_split(alloc, record.geometry, record.places.as_slice(), told)
}

/// The head, and the tables but for their slots.
fn tell_fields(alloc: Global, image: &Image, told: &mut Told) -> Result<(), Fault> {
    tell_head(alloc, image, told)?;
    for (group, table) in image.tables.iter().enumerate() {
        tell_table(alloc, group, table, told)?;
    }
    Ok(())
}

/// The records of all files.
fn tell_records(alloc: Global, image: &Image, told: &mut Told) -> Result<(), Fault> {
    if image.records.is_empty() {
        return told.outcome("no records");
    }
    for record in &image.records {
        tell_record(alloc, record, told)?;
    }
    Ok(())
}

/// The letter of a slot's state.
fn letter(state: SlotState) -> char {
    match state {
        SlotState::Void => '.',
        SlotState::Live(_) => 'L',
        SlotState::Lost(_) => 'x',
        SlotState::Broken(_) => 'B',
    }
}

/// Puts the letters of a stripe behind a text.
fn append_stripe(text: &mut String, table: &GroupTable, stripe: u32) -> Result<(), AllocError>
    requires { stripe < table.now.stripes }
{
    text.push(' ')?;
    for column in 0..table.data_columns() + table.parity() {
        text.push(letter(table.slot(stripe, column)))?;
    }
    Ok(())
}

/// The slots of a group up to the cursor's stripe.
fn tell_slots_of(
    alloc: Global,
    group: usize,
    table: &GroupTable,
    told: &mut Told,
) -> Result<(), Fault> {
    let mut text = format!(in alloc; "group {group}")?;
    let reached = table.cursor().stripe.saturating_add(1);
    for stripe in 0..table.stripes() {
        if stripe < reached {
            append_stripe(&mut text, table, stripe)?;
        }
    }
    told.outcome(&text)
}

fn tell_slots(alloc: Global, image: &Image, told: &mut Told) -> Result<(), Fault> {
    for (group, table) in image.tables.iter().enumerate() {
        tell_slots_of(alloc, group, table, told)?;
    }
    Ok(())
}

/// Tells what a look into the image sees.
pub fn tell_image(alloc: Global, bytes: &[u8], word: &str, told: &mut Told) -> Result<(), Fault> {
    let Ok(image) = read_image(alloc, bytes) else {
        return told.outcome("no fields");
    };
    match word {
        "fields" => tell_fields(alloc, &image, told),
        "records" => tell_records(alloc, &image, told),
        "slots" => tell_slots(alloc, &image, told),
        "logs" => tell_logs(alloc, &image, told),
        _ => Err(Fault::NoStep),
    }
}
