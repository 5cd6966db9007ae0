//! How an image is read.
ghost use Rattle.std.specs.Prelude.{◌≡◌, ◌≤◌, ◌<◌, ◌+◌, ◌-◌, ◌↔◌, IsTrue, IfOk, length, take, drop};
ghost use Rattle.pot_image.specs.declared.fault.ImageFault.TheVariants.{Form};
ghost use Rattle.pot_image.specs.Following.{Gives};
ghost use Rattle.pot_image.specs.Reading.{reading};
ghost use Rattle.pot_image.specs.Images.{Contents, contents, image, magic, trailer, before_trailer};
ghost use Rattle.pot_image.specs.Images.{stated_length, AnsweredFields, Trailed, Measured};
ghost use Rattle.pot_image.specs.Images.{Numbered};
ghost use Rattle.pot_image.specs.Images.{AnswersImage};
ghost use Rattle.pot_image.specs.Rules.{FitsTogether};

use crate::fault::{Fault, ImageFault};
use crate::format::Format;
use crate::head::read_head;
use crate::image::Image;
use crate::logs::{read_group_logs, read_index_log};
use crate::records::read_records;
use crate::tables::read_tables;
use pot_bytes::{Digest, digest_of, read_be32, read_be64};
use std::alloc::Global;

/// How many bytes stand before the fields of an image and in its trailer.
const LEAST_BYTES: usize = 48;

/// The fields of an image, and the bytes behind them.
fn read_fields<'a>(
    alloc: Global,
    bytes: &'a [u8],
    format: Format,
) -> Result<(Image, &'a [u8]), Fault>
    ensures { Gives (λ x. (contents x.0, x.1.now)) result (reading (image format) bytes.now) }
{
    let (head, after_head) = read_head(bytes, format)?;
    let rack = head.rack;
    let (tables, after_tables) = read_tables(alloc, after_head, &rack)?;
    let (records, after_records) = read_records(alloc, after_tables, format, &rack, &tables)?;
    let (group_logs, after_logs) = read_group_logs(alloc, after_records, format, &rack)?;
    let (index_log, rest) = read_index_log(alloc, after_logs, format)?;
    let image = Image {
        session: head.session,
        rack,
        tables,
        records,
        group_logs,
        index_log,
    };
    Ok((image, rest))
}

/// The fields leave the grammar so many bytes before their end.
fn form(body: &[u8], left: usize) -> ImageFault
    requires { left ≤ length body.now }
    ensures { result ≡ Form (16 + (length body.now - left)) }
{
    let place = 16 + (body.len() - left) as u64;
    ImageFault::Form { place }
}

/// The image whose fields these are, all of the bytes.
fn read_answered(alloc: Global, body: &[u8], format: Format) -> Result<Image, ImageFault>
    ensures { AnsweredFields format body.now result }
{
    match read_fields(alloc, body, format) {
        Ok((image, rest)) => {
            if !rest.is_empty() {
                return Err(form(body, 0));
            }
            Ok(image)
        }
        Err(Fault::Form { left }) => Err(form(body, left)),
        Err(Fault::Memory) => Err(ImageFault::NoMemory),
    }
}

/// The image of a text of this format, if the trailer is its digest.
fn read_trailed(alloc: Global, bytes: &[u8], format: Format) -> Result<Image, ImageFault>
    requires { 48 ≤ length bytes.now }
    ensures { Trailed format bytes.now result }
{
    let (text, trailer) = bytes.split_at(bytes.len() - 32);
    let mut kept = [0; 32];
    kept.copy_from_slice(trailer);
    let kept = Digest { bytes: kept };
    let computed = digest_of(text);
    if kept != computed {
        return Err(ImageFault::Trailer { kept, computed });
    }
    let (_, body) = text.split_at(16);
    read_answered(alloc, body, format)
}

/// The image of bytes of this format, if they are as many as they say.
fn read_measured(alloc: Global, bytes: &[u8], format: Format) -> Result<Image, ImageFault>
    requires { 48 ≤ length bytes.now }
    ensures { Measured format bytes.now result }
{
    let stated = read_be64(bytes, 8);
    let length = bytes.len() as u64;
    if length < stated {
        return Err(ImageFault::Cut);
    }
    if stated < length {
        return Err(ImageFault::Form { place: 8 });
    }
    read_trailed(alloc, bytes, format)
}

/// The image of these bytes, by the number of their format.
fn read_numbered(alloc: Global, bytes: &[u8]) -> Result<Image, ImageFault>
    requires { 48 ≤ length bytes.now }
    ensures { Numbered bytes.now result }
{
    match read_be32(bytes, 4) {
        1 => read_measured(alloc, bytes, Format::First),
        2 => read_measured(alloc, bytes, Format::Second),
        _ => Err(ImageFault::Form { place: 4 }),
    }
}

/// Whether the first four bytes are `PSI1`.
fn is_marked(bytes: &[u8]) -> bool
    requires { 48 ≤ length bytes.now }
    ensures { IsTrue result ↔ (take 4 bytes.now ≡ magic) }
{
    bytes[0] == b'P' && bytes[1] == b'S' && bytes[2] == b'I' && bytes[3] == b'1'
}

/// The image of these bytes. Where they are none, it is answered why.
///
/// The parts of an image that was read fit together, so that groups and an index can begin with
/// them: its rack is within its limits, each group has a table of the rack that keeps the rules of
/// a table and has no relay, all homes and targets are distinct and at most 511, the records are
/// those with which an index over the rack may begin, none of their places has a slot that is Void,
/// and each group has a log.
///
/// # Errors
/// In this order: `Cut` where there are fewer than 48 bytes; `Form` with place 0 where the first
/// four are not `PSI1`, and with place 4 where the number behind them is not 1 or 2; `Cut` where
/// there are fewer bytes than the number behind that says, and `Form` with place 8 where there are
/// more; `Trailer` where the last 32 bytes are not the digest of all before; `Form` with the place
/// of the first field that breaks its rule or does not end before the trailer, or with the
/// trailer's place where bytes are left before it. `NoMemory` may come in place of an image, and of
/// the last of these.
pub fn read_image(alloc: Global, bytes: &[u8]) -> Result<Image, ImageFault>
    ensures answers { AnswersImage bytes.now result }
    ensures kept { IfOk result (λ i. FitsTogether (contents i)) }
{
    if bytes.len() < LEAST_BYTES {
        return Err(ImageFault::Cut);
    }
    if !is_marked(bytes) {
        return Err(ImageFault::Form { place: 0 });
    }
    read_numbered(alloc, bytes)
}
