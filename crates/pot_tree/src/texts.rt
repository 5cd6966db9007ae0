//! Lists as they are written.

ghost use Rattle.std.specs.Prelude.{◌≡◌, ◌++◌, OnOk, IfOk};
ghost use Rattle.pot_tree.specs.Entries.{entry_text, file_text, folder_text, link_text, list_text};

use crate::entry::{Content, Entry};
use crate::parts::Part::{Hex, Mode, Number, Spelled, Text};
use crate::parts::append_parts;
use pot_bytes::Digest;
use std::alloc::{AllocError, Global};

/// The text of a list.
pub fn write_list(alloc: Global, entries: &[Entry]) -> Result<Vec<u8>, AllocError>
    ensures { IfOk result (λ text. text.items ≡ list_text entries.now) }
{
    let mut out = Vec::new(alloc);
    out.extend_from_slice(b"#mtree\n")?;
    for entry in entries {
        append_entry(&mut out, entry)?;
    }
    Ok(out)
}

/// Appends the line of an entry.
pub fn append_entry(out: &mut Vec<u8>, entry: &Entry) -> Result<(), AllocError>
    ensures { OnOk result (out.new.items ≡ out.old.items ++ entry_text entry.now) }
{
    let path = entry.path.as_slice();
    let (mode, time) = (entry.mode, entry.time);
    match &entry.content {
        Content::Folder => append_folder(out, path, mode, time),
        Content::Link { target } => append_link(out, path, mode, time, target.as_slice()),
        Content::File { size, digest, pack } => {
            let stamp = Stamp { mode, time };
            append_file(out, path, stamp, *size, digest, pack.bytes())
        }
    }
}

fn append_folder(out: &mut Vec<u8>, path: &[u8], mode: u32, time: u64) -> Result<(), AllocError>
    ensures { OnOk result (out.new.items ≡ out.old.items ++ folder_text path.now mode time) }
{
    append_parts(
        out,
        &[
            Text(b"./"),
            Spelled(path),
            Text(b" type=dir mode="),
            Mode(mode),
            Text(b" time="),
            Number(time),
            Text(b".0\n"),
        ],
    )
}

fn append_link<'a>(
    out: &mut Vec<u8>,
    path: &'a [u8],
    mode: u32,
    time: u64,
    target: &'a [u8],
) -> Result<(), AllocError>
    ensures { OnOk result (out.new.items ≡ out.old.items
        ++ link_text path.now mode time target.now) }
{
    append_parts(
        out,
        &[
            Text(b"./"),
            Spelled(path),
            Text(b" type=link mode="),
            Mode(mode),
            Text(b" time="),
            Number(time),
            Text(b".0 link="),
            Spelled(target),
            Text(b"\n"),
        ],
    )
}

// The mode of a file, and when it was changed.
#[derive(Clone, Copy)]
struct Stamp {
    mode: u32,
    time: u64,
}

fn append_file<'a>(
    out: &mut Vec<u8>,
    path: &'a [u8],
    stamp: Stamp,
    size: u64,
    digest: &Digest,
    pack: &'a [u8],
) -> Result<(), AllocError>
    ensures { OnOk result (out.new.items ≡ out.old.items
        ++ file_text path.now stamp.mode stamp.time size digest.now pack.now) }
{
    append_parts(
        out,
        &[
            Text(b"./"),
            Spelled(path),
            Text(b" type=file mode="),
            Mode(stamp.mode),
            Text(b" time="),
            Number(stamp.time),
            Text(b".0 size="),
            Number(size),
            Text(b" sha256digest="),
            Hex(*digest),
            Text(b" contents="),
            Text(pack),
            Text(b"/"),
            Hex(*digest),
            Text(b"\n"),
        ],
    )
}
