//! The text of a catalog, as it is read.
ghost use Rattle.std.specs.Prelude.{◌≡◌, All, IfOk, IfSome};
ghost use Rattle.pots_racks.specs.Catalog.{IsCatalogOf, IsRackDigest, IsCatalogLine};
ghost use Rattle.pots_racks.specs.Catalog.{IsListedFile, IsRackDesk, may_be_catalog};

use crate::catalog::{HEAD, Line, Listed, RackDesk, catalog_text};
use hex::FromHex;
use pot_bytes::{Digest, Name};
use std::alloc::{AllocError, Global};
use std::str::from_utf8;

/// The lines of the catalog of which this is the text. None where it is damaged, cut off, or of
/// another version.
pub fn read_catalog(alloc: Global, text: &[u8]) -> Result<Option<Vec<Line>>, AllocError>
    ensures { IfOk result (λ found. IfSome found (λ lines. IsCatalogOf lines.items text.now)) }
{
    let lines = lines_in(alloc, text)?;
    let wanted = catalog_text(alloc, &lines)?;
    if wanted.as_slice() == text {
        Ok(Some(lines))
    } else {
        Ok(None)
    }
}

/// Whether a file of this text may be replaced by a catalog: it is empty, or begins as catalogs of
/// all versions do. Any other is somebody's own.
pub fn may_be_catalog(text: &[u8]) -> bool
    ensures { result ≡ may_be_catalog text.now }
{
    text.is_empty() || text.starts_with(b"potshards-catalog ")
}

// The lines behind the first, up to one that is none of a rack or a file.
fn lines_in(alloc: Global, text: &[u8]) -> Result<Vec<Line>, AllocError>
    ensures { IfOk result (λ lines. All IsCatalogLine lines.items) }
{
    let mut lines = Vec::new(alloc);
    let behind = text.strip_prefix(HEAD).unwrap_or(b"");
    for bytes in behind.split(|b| *b == b'\n') {
        match read_line(bytes) {
            Some(line) => lines.push(line)?,
            None => break,
        }
    }
    Ok(lines)
}

fn read_line(bytes: &[u8]) -> Option<Line>
    ensures { IfSome result IsCatalogLine }
{
    let (kind, fields) = from_utf8(bytes).ok()?.split_once(' ')?;
    match kind {
        "rack" => Some(Line::OfRack(read_desk(fields)?)),
        "file" => Some(Line::OfFile(read_file(fields)?)),
        _ => None,
    }
}

fn read_desk(fields: &str) -> Option<RackDesk>
    ensures { IfSome result IsRackDesk }
{
    let (rack, fields) = fields.split_once(' ')?;
    let (generation, fields) = fields.split_once(' ')?;
    let (length, digits) = fields.split_once(' ')?;
    Some(RackDesk {
        rack: rack.parse::<u32>().ok()?,
        generation: generation.parse::<u64>().ok()?,
        length: length.parse::<u64>().ok()?,
        digest: read_digest(digits)?,
    })
}

fn read_digest(digits: &str) -> Option<Digest>
    ensures { IfSome result IsRackDigest }
{
    let bytes = <[u8; 32]>::from_hex(digits).ok()?;
    Some(Digest { bytes })
}

fn read_file(fields: &str) -> Option<Listed>
    ensures { IfSome result IsListedFile }
{
    let (name, fields) = fields.split_once(' ')?;
    let (size, fields) = fields.split_once(' ')?;
    let (parts, fields) = fields.split_once(' ')?;
    let (bytes, list) = fields.split_once(' ')?;
    let direct = match size {
        "-" => None,
        _ => Some(size.parse::<u64>().ok()?),
    };
    Some(Listed {
        name: Name::read(name.as_bytes())?,
        direct,
        parts: parts.parse::<u32>().ok()?,
        bytes: bytes.parse::<u64>().ok()?,
        complete: list == "1",
    })
}
