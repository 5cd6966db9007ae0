//! An audit: how many points of each piece of each file of a desk are exposed to a coalition, and
//! how many of its blocks stand in no record.

ghost use Rattle.std.specs.Prelude.{◌≡◌, ◌++◌, List, All, IsTrue, IfOk, OnOk, IsErrOf, length};
ghost use Rattle.std.specs.List.{list_any};
ghost use Rattle.pot_bytes.specs.Rack.{IsRack};
ghost use Rattle.pot_index.specs.Fits.{FitsRack};
ghost use Rattle.pot_image.specs.Images.{contents};
ghost use Rattle.pot_image.specs.Rules.{FitsTogether};
ghost use Rattle.pot_outside.specs.Accounts.{Faults, Stays, transition};
ghost use Rattle.pot_outside.specs.Desks.{image_transition};
ghost use Rattle.pot_audit.specs.declared.veil.Veil.{Veil};
ghost use Rattle.pot_audit.specs.Exposure.{AreSpots};
ghost use Rattle.pot_audit.specs.Veils.{AreVeils};
ghost use Rattle.pot_session.specs.Audits.{AuditAnswers, Audits, IsAudit, PutsWholeAudit};
ghost use Rattle.pot_session.specs.Audits.{PutsAudit};
ghost use Rattle.pot_session.specs.Audits.{are_of, are_some, is_bare, loose_line, loose_lines};
ghost use Rattle.pot_session.specs.Audits.{loose_of, spots_of, veil_line, veil_lines};
ghost use Rattle.pot_session.specs.Listing.{PutsText};

use crate::desk::read_desk;
use crate::ending::refusing::refuse;
use crate::ending::status::Status;
use crate::ending::stop::Stop;
use crate::recovery::listing::ListFault;
use crate::telling::Telling;
use pot_audit::{Loose, Spot, Veil, audit_record, loose_columns};
use pot_bytes::{Name, NoMemory, Rack};
use pot_commands::write_out;
use pot_image::Image;
use pot_index::Record;
use pot_outside::{Desk, Failed, Sink};
use pot_script::append_number;
use pot_words::Audit;
use std::alloc::{AllocError, Global};

// THE COALITION

/// Whether the rack has all columns that the words name.
fn are_of(task: &Audit, rack: &Rack) -> bool
    requires { IsRack rack.now }
    ensures { result ≡ are_of rack.now task.now }
{
    let columns = rack.columns + rack.parity;
    task.seen
        .as_slice()
        .iter()
        .all(|s| s.group < rack.groups && s.column < columns)
}

/// The columns that the words name.
fn spots_of(alloc: Global, task: &Audit) -> Result<Vec<Spot>, AllocError>
    ensures { IfOk result (λ v. v.items ≡ spots_of task.now) }
{
    task.seen
        .as_slice()
        .iter()
        .map(|s| Spot {
            group: s.group,
            column: s.column,
        })
        .collect(alloc)
}

// LINES

/// Adds the line of a piece.
fn append_veil(text: &mut Vec<u8>, name: &Name, veil: Veil) -> Result<(), AllocError>
    ensures { OnOk result (text.new.items ≡ text.old.items ++ veil_line name.now veil) }
{
    text.extend_from_slice(b"veil ")?;
    text.extend_from_slice(name.bytes())?;
    append_number(text, u64::from(veil.split))?;
    append_number(text, u64::from(veil.piece))?;
    append_number(text, u64::from(veil.fragment))?;
    append_number(text, u64::from(veil.have))?;
    append_number(text, u64::from(veil.need))?;
    text.extend_from_slice(b"\n")
}

/// The lines of a record.
fn veil_lines(alloc: Global, name: &Name, veils: &[Veil]) -> Result<Vec<u8>, AllocError>
    ensures { IfOk result (λ v. v.items ≡ veil_lines name.now veils.now) }
{
    let mut text = Vec::new(alloc);
    for veil in veils {
        append_veil(&mut text, name, *veil)?;
    }
    Ok(text)
}

/// Adds the line of a column.
fn append_loose(text: &mut Vec<u8>, loose: Loose) -> Result<(), AllocError>
    ensures { OnOk result (text.new.items ≡ text.old.items ++ loose_line loose) }
{
    text.extend_from_slice(b"loose")?;
    append_number(text, u64::from(loose.group))?;
    append_number(text, u64::from(loose.column))?;
    append_number(text, u64::from(loose.count))?;
    text.extend_from_slice(b"\n")
}

/// The lines of columns.
fn loose_lines(alloc: Global, columns: &[Loose]) -> Result<Vec<u8>, AllocError>
    ensures { IfOk result (λ v. v.items ≡ loose_lines columns.now) }
{
    let mut text = Vec::new(alloc);
    for loose in columns {
        append_loose(&mut text, *loose)?;
    }
    Ok(text)
}

/// Whether some piece is bare: as many points of each of its fragments are exposed as give it back.
fn has_bare(veils: &[Veil]) -> bool
    ensures { result ≡ list_any is_bare veils.now }
{
    veils.iter().any(|v| v.need <= v.have)
}

/// The lines of a record, and whether some piece of it is bare.
fn audit_text(
    alloc: Global,
    kept: &Record,
    rack: &Rack,
    spots: &[Spot],
) -> Result<Telling, NoMemory>
    requires rack { IsRack rack.now }
    requires fits { FitsRack rack.now kept.now }
    requires spots { AreSpots rack.now spots.now }
    ensures { IfOk result (λ t. (veils : List Veil) × AreVeils rack.now spots.now kept.now veils
        × (t.text.items ≡ veil_lines kept.now.name veils) × (t.refused ≡ list_any is_bare veils)) }
{
    let veils = audit_record(alloc, kept, rack, spots)?;
    let text = veil_lines(alloc, &kept.name, veils.as_slice())?;
    let refused = has_bare(veils.as_slice());
    Ok(Telling { text, refused })
}

// THE WHOLE

/// Writes the lines of all records. Answers whether some piece of one is bare.
fn put_audit<K: Sink>(
    alloc: Global,
    records: &[Record],
    rack: &Rack,
    spots: &[Spot],
    sink: &mut K,
) -> Result<bool, ListFault>
    requires rack { IsRack rack.now }
    requires fits { All (FitsRack rack.now) records.now }
    requires spots { AreSpots rack.now spots.now }
    ensures puts { PutsAudit (transition K.account sink.old sink.new)
        rack.now spots.now records.now result }
    ensures cause { Faults K.account sink.old sink.new
        (IsErrOf result ListFault.SinkFault) }
{
    let mut bare = false;
    for kept in records {
        let telling = match audit_text(alloc, kept, rack, spots) {
            Ok(telling) => telling,
            Err(NoMemory) => return Err(ListFault::NoMemory),
        };
        match write_out(sink, &telling.text) {
            Ok(()) => bare |= telling.refused,
            Err(Failed) => return Err(ListFault::SinkFault),
        }
    }
    Ok(bare)
}

/// The columns with blocks in no record, where the words ask for them.
fn loose_of(
    alloc: Global,
    task: &Audit,
    image: &Image,
    spots: &[Spot],
) -> Result<Vec<Loose>, NoMemory>
    requires tables { length image.now.tables.items ≡ image.now.rack.groups }
    requires spots { spots.now ≡ spots_of task.now }
    ensures { IfOk result (λ v. v.items ≡ loose_of task.now image.now) }
{
    if task.loose {
        loose_columns(alloc, &image.rack, spots, &image.tables, &image.records)
    } else {
        Ok(Vec::new(alloc))
    }
}

/// Writes the lines of columns. Answers whether there are any.
fn put_loose<K: Sink>(alloc: Global, columns: &[Loose], sink: &mut K) -> Result<bool, ListFault>
    ensures puts { PutsText (transition K.account sink.old sink.new)
        (loose_lines columns.now) result }
    ensures some { IfOk result (λ some. some ≡ are_some columns.now) }
    ensures cause { Faults K.account sink.old sink.new
        (IsErrOf result ListFault.SinkFault) }
{
    let Ok(text) = loose_lines(alloc, columns) else {
        return Err(ListFault::NoMemory);
    };
    match write_out(sink, &text) {
        Ok(()) => Ok(!columns.is_empty()),
        Err(Failed) => Err(ListFault::SinkFault),
    }
}

/// Writes the lines of all records, and those of columns with blocks in no record. Answers whether
/// some piece is bare, or there are such columns.
fn put_all<K: Sink>(
    alloc: Global,
    task: &Audit,
    image: &Image,
    spots: &[Spot],
    sink: &mut K,
) -> Result<bool, ListFault>
    requires fits { FitsTogether (contents image.now) }
    requires fitting { AreSpots image.now.rack spots.now }
    requires spots { spots.now ≡ spots_of task.now }
    ensures puts { PutsWholeAudit (transition K.account sink.old sink.new)
        image.now.rack spots.now image.now.records.items (loose_of task.now image.now) result }
    ensures cause { Faults K.account sink.old sink.new
        (IsErrOf result ListFault.SinkFault) }
{
    let bare = match put_audit(alloc, &image.records, &image.rack, spots, sink) {
        Ok(bare) => bare,
        Err(fault) => return Err(fault),
    };
    let Ok(columns) = loose_of(alloc, task, image, spots) else {
        return Err(ListFault::NoMemory);
    };
    match put_loose(alloc, &columns, sink) {
        Ok(some) => Ok(bare | some),
        Err(fault) => Err(fault),
    }
}

/// Tells the audit of an image whose rack has all columns that the words name.
fn tell_audit<K: Sink>(alloc: Global, task: &Audit, image: &Image, sink: &mut K) -> Status
    requires task { IsAudit task.now }
    requires fits { FitsTogether (contents image.now) }
    requires of { IsTrue (are_of image.now.rack task.now) }
    ensures answers { AuditAnswers (transition K.account sink.old sink.new)
        image.now.rack (spots_of task.now) image.now.records.items
        (loose_of task.now image.now) result }
    ensures cause { Faults K.account sink.old sink.new (result ≡ Status.SinkFault) }
{
    let Ok(spots) = spots_of(alloc, task) else {
        return Status::NoMemory;
    };
    match put_all(alloc, task, image, &spots, sink) {
        Ok(true) => Status::Refusals,
        Ok(false) => Status::Good,
        Err(ListFault::SinkFault) => Status::SinkFault,
        Err(ListFault::NoMemory) => Status::NoMemory,
    }
}

/// Tells how many points of each piece of each file of the desk are exposed to the coalition that
/// the words name, and where they ask for it which of its columns have blocks in no record. The
/// desk's image stays.
pub(crate) fn audit_files<K: Sink, D: Desk>(
    alloc: Global,
    task: &Audit,
    sink: &mut K,
    desk: &mut D,
) -> Status
    requires task { IsAudit task.now }
    ensures audits { Audits task.now (image_transition D.account desk.old desk.new)
        (transition K.account sink.old sink.new) result }
    ensures keeps { Stays (transition D.account desk.old desk.new) }
    ensures sink { Faults K.account sink.old sink.new (result ≡ Status.SinkFault) }
    ensures desk { Faults D.account desk.old desk.new (result ≡ Status.DeskFault) }
{
    match read_desk(alloc, desk) {
        Ok(image) => {
            if are_of(task, &image.rack) {
                tell_audit(alloc, task, &image, sink)
            } else {
                refuse(alloc, Stop::Words, sink)
            }
        }
        Err(stop) => refuse(alloc, stop, sink),
    }
}
