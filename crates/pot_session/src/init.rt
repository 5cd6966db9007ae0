//! A new archive.

ghost use Rattle.std.specs.Prelude.{◌≡◌, IsTrue, IfOk, IfErr, IsErrOf, map};
ghost use Rattle.std.specs.List.{range_with_len};
ghost use Rattle.pot_machine.specs.Making.{empty_table};
ghost use Rattle.pot_outside.specs.Accounts.{Faults, transition};
ghost use Rattle.pot_outside.specs.Desks.{image_transition};
ghost use Rattle.pot_bytes.specs.Rack.{IsRack};
ghost use Rattle.pot_image.specs.Images.{contents};
ghost use Rattle.pot_image.specs.Rules.{IsImage};
ghost use Rattle.pot_image.specs.Spelling.{image_bytes};
ghost use Rattle.pot_session.specs.Desks.{IsKeepStop, DeskKeeps};
ghost use Rattle.pot_session.specs.Making.{empty_contents, MakesDesk, IsMakeStop, Inits};

use crate::desk::{empty_logs, keep_image};
use crate::ending::refusing::refuse;
use crate::ending::status::Status;
use crate::ending::stop::Stop;
use pot_bytes::{NoMemory, Rack};
use pot_commands::write_out;
use pot_image::Image;
use pot_machine::GroupTable;
use pot_outside::{Desk, DeskFault, Failed, Sink};
use std::alloc::Global;

/// The image of a new archive: session 0, a table of each group in which no slot is used, no
/// record, and empty logs.
fn empty_image(alloc: Global, rack: &Rack) -> Result<Image, NoMemory>
    requires { IsRack rack.now }
    ensures { IfOk result (λ i. contents i ≡ empty_contents rack.now) }
{
    Ok(Image {
        session: 0,
        rack: *rack,
        tables: empty_tables(alloc, rack)?,
        records: Vec::new(alloc),
        group_logs: empty_logs(alloc, usize::from(rack.groups))?,
        index_log: Vec::new(alloc),
    })
}

/// A table for each group, in which no slot is used.
fn empty_tables(alloc: Global, rack: &Rack) -> Result<Vec<GroupTable>, NoMemory>
    requires { IsRack rack.now }
    ensures { IfOk result
        (λ v. v.items ≡ map (empty_table rack.now) (range_with_len 0 rack.now.groups)) }
{
    let mut tables = Vec::with_capacity(alloc, usize::from(rack.groups))?;
    for group in 0..rack.groups {
        tables.push_reserved(GroupTable::empty(alloc, rack, group)?);
    }
    Ok(tables)
}

/// Puts the image of a new archive in the place of the desk's.
fn put_empty_image<D: Desk>(alloc: Global, rack: &Rack, desk: &mut D) -> Result<(), Stop>
    requires { IsRack rack.now }
    ensures which { IfErr result IsKeepStop }
    ensures told { IsTrue D.account.tells
        → DeskKeeps (image_transition D.account desk.old desk.new)
        (image_bytes (empty_contents rack.now)) result }
    ensures cause { Faults D.account desk.old desk.new (IsErrOf result Stop.DeskFault) }
{
    match empty_image(alloc, rack) {
        Ok(image) => keep_image(alloc, &image, desk),
        Err(NoMemory) => Err(Stop::NoMemory),
    }
}

/// Puts the image of a new archive on a desk that has none. One that has an image keeps it, also
/// where it can't be read.
pub(crate) fn make_image<D: Desk>(alloc: Global, rack: &Rack, desk: &mut D) -> Result<(), Stop>
    requires { IsRack rack.now }
    ensures which { IfErr result IsMakeStop }
    ensures told { IsTrue D.account.tells
        → MakesDesk rack.now (image_transition D.account desk.old desk.new) result }
    ensures cause { Faults D.account desk.old desk.new (IsErrOf result Stop.DeskFault) }
{
    match desk.read() {
        Ok(None) => put_empty_image(alloc, rack, desk),
        Ok(Some(_)) => Err(Stop::Exists),
        Err(DeskFault::Failed) => Err(Stop::DeskFault),
        Err(DeskFault::NoMemory) => Err(Stop::NoMemory),
    }
}

/// The image of a new archive keeps the rules of images. It does nothing.
fn empty_image_law(rack: &Rack)
    requires { IsRack rack.now }
    ensures { IsImage (empty_contents rack.now) }
{}

/// Makes a new archive on a desk that has no image, and writes `ready`.
pub(crate) fn init<K: Sink, D: Desk>(
    alloc: Global,
    rack: &Rack,
    sink: &mut K,
    desk: &mut D,
) -> Status
    requires { IsRack rack.now }
    ensures inits { Inits rack.now (image_transition D.account desk.old desk.new)
        (transition K.account sink.old sink.new) result }
    ensures desk { Faults D.account desk.old desk.new (result ≡ Status.DeskFault) }
    ensures sink { Faults K.account sink.old sink.new (result ≡ Status.SinkFault) }
{
    empty_image_law(rack);
    match make_image(alloc, rack, desk) {
        Ok(()) => match write_out(sink, b"ready\n") {
            Ok(()) => Status::Good,
            Err(Failed) => Status::SinkFault,
        },
        Err(stop) => refuse(alloc, stop, sink),
    }
}
