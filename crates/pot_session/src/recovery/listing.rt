//! What `recover` writes of the objects that it found. It is written line by line and part by part,
//! so no second copy of the files is made: the longest text in memory is one line, of fewer than 64
//! bytes.

ghost use Rattle.std.specs.Prelude.{◌≡◌, ◌<◌, ◌≤◌, ◌++◌, ℕ, List, IfOk, OnOk, IsErrOf};
ghost use Rattle.std.specs.Prelude.{codes, length, take, flat_map, not, is_some};
ghost use Rattle.std.specs.List.{list_any, range_with_len};
ghost use Rattle.byteorder.specs.Endian.{big_bytes};
ghost use Rattle.hex.specs.Hex.{encode_lower};
ghost use Rattle.pot_chains.specs.Listed.{IsIn};
ghost use Rattle.pot_object.specs.Objects.{head_at};
ghost use Rattle.pot_outside.specs.Accounts.{Faults, transition};
ghost use Rattle.pot_recover.specs.Choices.{IsSomeObject};
ghost use Rattle.pot_recover.specs.Fronts.{has_front};
ghost use Rattle.pot_session.specs.Listing.{ListsObjects, PutsText, count_line, file_line};
ghost use Rattle.pot_session.specs.Listing.{file_text};
ghost use Rattle.pot_session.specs.Listing.{first_gap, front_at, has_earlier, has_partial};
ghost use Rattle.pot_session.specs.Listing.{is_partial_at, least_of, listing, object_at};
ghost use Rattle.pot_session.specs.Listing.{object_line, part_in, part_of, partial_line, parts_of};
ghost use Rattle.pot_session.specs.Listing.{text_at, places_in};

use crate::ending::status::Status;
use byteorder::{BigEndian, ByteOrder};
use hex::encode_to_slice;
use pot_commands::write_out;
use pot_object::ObjectHead;
use pot_outside::{Failed, Sink};
use pot_recover::Recovered;
use pot_script::append_number;
use std::alloc::{AllocError, Global};

/// Why a listing ends before its end.
#[derive(Clone, Copy, PartialEq, Eq, Debug)]
pub(crate) enum ListFault {
    /// The sink failed.
    SinkFault,
    NoMemory,
}

impl From<AllocError> for ListFault {
    ghost use Rattle.std.specs.Prelude.{◌≡◌};
    ghost use Rattle.pot_session.specs.declared.recovery.listing.ListFault.TheVariants.{NoMemory};

    ghost from_gives = { λ _ e. e ≡ NoMemory };

    fn from(_: AllocError) -> Self {
        ListFault::NoMemory
    }
}

// OBJECTS

/// What an object says of its place in a file.
fn head_of(object: &[u8]) -> ObjectHead
    requires { 32 ≤ length object.now }
    ensures { result ≡ head_at object.now }
{
    let mut file_id = [0; 16];
    file_id.copy_from_slice(&object[..16]);
    ObjectHead {
        file_id,
        piece: BigEndian::read_u32(&object[16..]),
        pieces: BigEndian::read_u32(&object[20..]),
        length: BigEndian::read_u64(&object[24..]),
    }
}

/// How the objects of a piece of the same file begin.
fn front_at(object: &[u8; 928], piece: u32) -> [u8; 32]
    ensures { result ≡ front_at object.now piece }
{
    let mut front = [0; 32];
    put_front(object, piece, &mut front);
    front
}

/// Writes how the objects of a piece of the same file begin.
fn put_front(object: &[u8], piece: u32, out: &mut [u8])
    requires object { 32 ≤ length object.now }
    requires out { length out.old ≡ 32 }
    ensures { out.new ≡ front_at object.now piece }
{
    out.copy_from_slice(&object[..32]);
    BigEndian::write_u32(&mut out[16..], piece);
}

/// The bytes of a file that an object carries.
fn part_in(object: &[u8; 928]) -> &[u8]
    ensures { result.now ≡ part_in object.now }
{
    let head = head_of(object);
    let from = u64::from(head.piece) * 864;
    let size = head.length.saturating_sub(from).min(864) as usize;
    &object[64..64 + size]
}

/// Whether an object before this place has this front.
fn stands_before(found: &Recovered, front: &[u8; 32], place: usize) -> bool
    ensures { result ≡ list_any (has_front front.now) (take place found.now) }
{
    match found.first_with(front) {
        Some(first) => first < place,
        None => false,
    }
}

/// Whether an object before this place is of the same file.
fn has_earlier(found: &Recovered, place: usize) -> bool
    requires objects { (object : List ℕ) → IsIn found.now object → IsSomeObject object }
    requires within { place < length found.now }
    ensures { result ≡ has_earlier found.now place }
{
    let object = found.object(place);
    for piece in 0..head_of(object).pieces {
        if stands_before(found, &front_at(object, piece), place) {
            return true;
        }
    }
    false
}

/// The least piece of the file of which there is no object.
fn first_gap(found: &Recovered, object: &[u8; 928]) -> Option<u32>
    ensures { result ≡ first_gap found.now object.now }
{
    for piece in 0..head_of(object).pieces {
        if found.first_with(&front_at(object, piece)).is_none() {
            return Some(piece);
        }
    }
    None
}

// LINES

/// A space and a file id, as 32 hexadecimal digits.
fn append_id(line: &mut Vec<u8>, id: [u8; 16]) -> Result<(), AllocError>
    ensures { OnOk result (line.new.items ≡ line.old.items ++ codes " " ++ encode_lower id) }
{
    let mut digits = [0u8; 32];
    encode_to_slice(id, &mut digits).unwrap();
    line.extend_from_slice(b" ")?;
    line.extend_from_slice(&digits)
}

/// How many objects there are.
fn count_line(alloc: Global, count: usize) -> Result<Vec<u8>, AllocError>
    ensures { IfOk result (λ v. v.items ≡ count_line count) }
{
    let mut line = b"objects".to_vec(alloc)?;
    append_number(&mut line, count as u64)?;
    line.extend_from_slice(b"\n")?;
    Ok(line)
}

/// The line of an object.
fn object_line(alloc: Global, object: &[u8; 928]) -> Result<Vec<u8>, AllocError>
    ensures { IfOk result (λ v. v.items ≡ object_line object.now) }
{
    let head = head_of(object);
    let mut line = b"object".to_vec(alloc)?;
    append_id(&mut line, head.file_id)?;
    append_number(&mut line, u64::from(head.piece))?;
    append_number(&mut line, u64::from(head.pieces))?;
    append_number(&mut line, head.length)?;
    line.extend_from_slice(b"\n")?;
    Ok(line)
}

/// The line before the bytes of a file.
fn file_line(alloc: Global, object: &[u8; 928]) -> Result<Vec<u8>, AllocError>
    ensures { IfOk result (λ v. v.items ≡ file_line object.now) }
{
    let head = head_of(object);
    let mut line = b"file".to_vec(alloc)?;
    append_id(&mut line, head.file_id)?;
    append_number(&mut line, head.length)?;
    line.extend_from_slice(b"\n")?;
    Ok(line)
}

/// The line of a file of which a piece is missing.
fn partial_line(alloc: Global, object: &[u8; 928], piece: u32) -> Result<Vec<u8>, AllocError>
    ensures { IfOk result (λ v. v.items ≡ partial_line object.now piece) }
{
    let head = head_of(object);
    let mut line = b"partial".to_vec(alloc)?;
    append_id(&mut line, head.file_id)?;
    append_number(&mut line, u64::from(piece))?;
    line.extend_from_slice(b"\n")?;
    Ok(line)
}

// WRITING

/// Writes a text.
fn put<K: Sink>(text: &[u8], sink: &mut K) -> Result<(), ListFault>
    ensures puts { PutsText (transition K.account sink.old sink.new) text.now result }
    ensures cause { Faults K.account sink.old sink.new
        (IsErrOf result ListFault.SinkFault) }
{
    match write_out(sink, text) {
        Ok(()) => Ok(()),
        Err(Failed) => Err(ListFault::SinkFault),
    }
}

/// Writes a line that there was memory for.
fn put_line<K: Sink>(line: Result<Vec<u8>, AllocError>, sink: &mut K) -> Result<(), ListFault>
    ensures puts { (text : List ℕ) → IfOk line (λ v. v.items ≡ text)
        → PutsText (transition K.account sink.old sink.new) text result }
    ensures cause { Faults K.account sink.old sink.new
        (IsErrOf result ListFault.SinkFault) }
{
    match line {
        Ok(line) => put(&line, sink),
        Err(_) => Err(ListFault::NoMemory),
    }
}

/// Writes the line of each object.
fn put_objects<K: Sink>(alloc: Global, found: &Recovered, sink: &mut K) -> Result<(), ListFault>
    ensures puts { PutsText (transition K.account sink.old sink.new)
        (flat_map object_line found.now) result }
    ensures cause { Faults K.account sink.old sink.new
        (IsErrOf result ListFault.SinkFault) }
{
    for place in 0..found.len() {
        match put_line(object_line(alloc, found.object(place)), sink) {
            Ok(()) => {}
            Err(fault) => return Err(fault),
        }
    }
    Ok(())
}

/// Writes what the least object of a piece carries.
fn put_part<K: Sink>(
    found: &Recovered,
    object: &[u8; 928],
    piece: u32,
    sink: &mut K,
) -> Result<(), ListFault>
    ensures puts { PutsText (transition K.account sink.old sink.new)
        (part_of (least_of found.now object.now piece)) result }
    ensures cause { Faults K.account sink.old sink.new
        (IsErrOf result ListFault.SinkFault) }
{
    match found.first_with(&front_at(object, piece)) {
        Some(place) => put(part_in(found.object(place)), sink),
        None => Ok(()),
    }
}

/// Writes the parts of all pieces.
fn put_parts<K: Sink>(found: &Recovered, object: &[u8; 928], sink: &mut K) -> Result<(), ListFault>
    ensures puts { PutsText (transition K.account sink.old sink.new)
        (parts_of found.now object.now) result }
    ensures cause { Faults K.account sink.old sink.new
        (IsErrOf result ListFault.SinkFault) }
{
    for piece in 0..head_of(object).pieces {
        match put_part(found, object, piece, sink) {
            Ok(()) => {}
            Err(fault) => return Err(fault),
        }
    }
    Ok(())
}

/// Writes a file of which there are all pieces.
fn put_whole<K: Sink>(
    alloc: Global,
    found: &Recovered,
    object: &[u8; 928],
    sink: &mut K,
) -> Result<(), ListFault>
    ensures puts { PutsText (transition K.account sink.old sink.new)
        (file_line object.now ++ parts_of found.now object.now ++ codes "\n") result }
    ensures cause { Faults K.account sink.old sink.new
        (IsErrOf result ListFault.SinkFault) }
{
    match put_line(file_line(alloc, object), sink) {
        Ok(()) => {}
        Err(fault) => return Err(fault),
    }
    match put_parts(found, object, sink) {
        Ok(()) => put(b"\n", sink),
        Err(fault) => Err(fault),
    }
}

/// Writes the file of an object, or its least missing piece. Answers whether one is missing.
fn put_file<K: Sink>(
    alloc: Global,
    found: &Recovered,
    object: &[u8; 928],
    sink: &mut K,
) -> Result<bool, ListFault>
    ensures puts { PutsText (transition K.account sink.old sink.new)
        (file_text found.now object.now) result }
    ensures partial { IfOk result (λ partial. partial ≡ is_some (first_gap found.now object.now)) }
    ensures cause { Faults K.account sink.old sink.new
        (IsErrOf result ListFault.SinkFault) }
{
    match first_gap(found, object) {
        Some(piece) => match put_line(partial_line(alloc, object, piece), sink) {
            Ok(()) => Ok(true),
            Err(fault) => Err(fault),
        },
        None => match put_whole(alloc, found, object, sink) {
            Ok(()) => Ok(false),
            Err(fault) => Err(fault),
        },
    }
}

/// Writes the file of the object at this place where it is the first of its file. Answers whether a
/// piece is missing.
fn put_first<K: Sink>(
    alloc: Global,
    found: &Recovered,
    place: usize,
    sink: &mut K,
) -> Result<bool, ListFault>
    requires objects { (object : List ℕ) → IsIn found.now object → IsSomeObject object }
    requires within { place < length found.now }
    ensures puts { PutsText (transition K.account sink.old sink.new)
        (text_at found.now place) result }
    ensures partial { IfOk result (λ partial. partial ≡ is_partial_at found.now place) }
    ensures cause { Faults K.account sink.old sink.new
        (IsErrOf result ListFault.SinkFault) }
{
    if has_earlier(found, place) {
        return Ok(false);
    }
    put_file(alloc, found, found.object(place), sink)
}

/// Writes each file at its first object. Answers whether some file is partial.
fn put_files<K: Sink>(alloc: Global, found: &Recovered, sink: &mut K) -> Result<bool, ListFault>
    requires { (object : List ℕ) → IsIn found.now object → IsSomeObject object }
    ensures puts { PutsText (transition K.account sink.old sink.new)
        (flat_map (text_at found.now) (places_in found.now)) result }
    ensures partial { IfOk result (λ partial. partial ≡ has_partial found.now) }
    ensures cause { Faults K.account sink.old sink.new
        (IsErrOf result ListFault.SinkFault) }
{
    let mut partial = false;
    for place in 0..found.len() {
        match put_first(alloc, found, place, sink) {
            Ok(now) => partial |= now,
            Err(fault) => return Err(fault),
        }
    }
    Ok(partial)
}

/// Writes the whole listing. Answers whether some file is partial.
fn put_listing<K: Sink>(alloc: Global, found: &Recovered, sink: &mut K) -> Result<bool, ListFault>
    requires { (object : List ℕ) → IsIn found.now object → IsSomeObject object }
    ensures puts { PutsText (transition K.account sink.old sink.new)
        (listing found.now) result }
    ensures partial { IfOk result (λ partial. partial ≡ has_partial found.now) }
    ensures cause { Faults K.account sink.old sink.new
        (IsErrOf result ListFault.SinkFault) }
{
    match put_line(count_line(alloc, found.len()), sink) {
        Ok(()) => {}
        Err(fault) => return Err(fault),
    }
    match put_objects(alloc, found, sink) {
        Ok(()) => put_files(alloc, found, sink),
        Err(fault) => Err(fault),
    }
}

/// Lists objects that were found, and the files that they give: the number of objects, a line for
/// each in byte order, and in the order of their first objects each file whose pieces are all
/// there, or the least piece that is missing.
pub(crate) fn list_objects<K: Sink>(alloc: Global, found: &Recovered, sink: &mut K) -> Status
    requires { (object : List ℕ) → IsIn found.now object → IsSomeObject object }
    ensures lists { ListsObjects (transition K.account sink.old sink.new) found.now
        result }
    ensures cause { Faults K.account sink.old sink.new (result ≡ Status.SinkFault) }
{
    match put_listing(alloc, found, sink) {
        Ok(true) => Status::Refusals,
        Ok(false) => Status::Good,
        Err(ListFault::SinkFault) => Status::SinkFault,
        Err(ListFault::NoMemory) => Status::NoMemory,
    }
}
