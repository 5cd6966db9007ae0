//! Writes a reply, or the line with which a run is refused, at the end of a text.

ghost use Rattle.std.specs.Prelude.{◌++◌, codes, flat_map};
ghost use Rattle.pot_script.specs.Replies.{reply_text, listed_text, bad_line_text};
ghost use Rattle.pot_script.specs.Replies.{words_refused_text, spaced, in_hex};
ghost use Rattle.pot_script.specs.Parts.{Prints, part_text};
ghost use Rattle.pot_script.specs.declared.reply.Reply.TheVariants as replies;

use crate::parts::Part::{Hex, Number, Text};
use crate::parts::append_parts;
use crate::reply::Reply;
use pot_bytes::{Digest, Name, NoMemory};
use pot_index::Listed;

/// Appends the text of a reply. On refusal `out` is as before.
pub fn print_reply(reply: &Reply, out: &mut Vec<u8>) -> Result<(), NoMemory>
    ensures { Prints out.old out.new result (reply_text reply.now) }
{
    match reply {
        Reply::Stored {
            name,
            pieces,
            shards,
        } => print_split(out, b"stored ", name, *pieces, *shards),
        Reply::File { name, bytes } => print_file(out, name, bytes.as_slice()),
        Reply::Names { names } => print_names(out, names.as_slice()),
        Reply::Group {
            group,
            live,
            lost,
            broken,
            stripe,
            column,
        } => print_group(out, *group, *live, *lost, *broken, *stripe, *column),
        Reply::Scrubbed { group, seen, gone } => {
            print_numbers(out, b"scrubbed", u32::from(*group), *seen, *gone)
        }
        Reply::Repaired {
            group,
            mended,
            left,
        } => print_numbers(out, b"repaired", u32::from(*group), *mended, *left),
        Reply::Replaced { from, to, slots } => {
            print_numbers(out, b"replaced", *from, *to, *slots)
        }
        Reply::Migrated { from, to, slots } => {
            print_numbers(out, b"migrated", *from, *to, *slots)
        }
        Reply::Long { name, length } => print_long(out, name, *length),
        Reply::Exists { name } => print_name(out, b"exists ", name),
        Reply::Full { group } => print_number(out, b"full", u32::from(*group)),
        Reply::Absent { name } => print_name(out, b"absent ", name),
        Reply::Lost {
            name,
            piece,
            fragment,
            have,
            need,
        } => print_lost(out, name, *piece, *fragment, *have, *need),
        Reply::Odd {
            name,
            wanted,
            found,
        } => print_odd(out, name, wanted, found),
        Reply::Fault { group, column } => print_fault(out, *group, *column),
        Reply::LogFull { group } => print_number(out, b"logfull", u32::from(*group)),
        Reply::IndexLogFull => append_parts(out, &[Text(b"logfull index\n")]),
        Reply::NoArchive { number } => print_number(out, b"noarchive", *number),
        Reply::InUse { number } => print_number(out, b"inuse", *number),
        Reply::Renewed {
            name,
            pieces,
            shards,
        } => print_split(out, b"renewed ", name, *pieces, *shards),
        Reply::Often { name } => print_name(out, b"often ", name),
    }
}

// A word and a name.
fn print_name<'a>(out: &mut Vec<u8>, word: &'a [u8], name: &'a Name) -> Result<(), NoMemory>
    ensures { Prints out.old out.new result (word.now ++ name.now ++ codes "\n") }
{
    append_parts(out, &[Text(word), Text(name.bytes()), Text(b"\n")])
}

// A word and a number.
fn print_number(out: &mut Vec<u8>, word: &[u8], number: u32) -> Result<(), NoMemory>
    ensures { Prints out.old out.new result (word.now ++ spaced number ++ codes "\n") }
{
    append_parts(out, &[Text(word), Number(u64::from(number)), Text(b"\n")])
}

// A word and three numbers.
fn print_numbers(
    out: &mut Vec<u8>,
    word: &[u8],
    first: u32,
    second: u32,
    third: u32,
) -> Result<(), NoMemory>
    ensures { Prints out.old out.new result (word.now ++ spaced first ++ spaced second ++ spaced third ++ codes "\n") }
{
    let parts = [
        Text(word),
        Number(u64::from(first)),
        Number(u64::from(second)),
        Number(u64::from(third)),
        Text(b"\n"),
    ];
    append_parts(out, &parts)
}

// A word, the name of a file, and in how many pieces and shards it is split.
fn print_split<'a>(
    out: &mut Vec<u8>,
    word: &'a [u8],
    name: &'a Name,
    pieces: u32,
    shards: u32,
) -> Result<(), NoMemory>
    ensures { Prints out.old out.new result (word.now ++ name.now ++ spaced pieces ++ spaced shards ++ codes "\n") }
{
    let parts = [
        Text(word),
        Text(name.bytes()),
        Number(u64::from(pieces)),
        Number(u64::from(shards)),
        Text(b"\n"),
    ];
    append_parts(out, &parts)
}

fn print_file<'a>(out: &mut Vec<u8>, name: &'a Name, bytes: &'a [u8]) -> Result<(), NoMemory>
    ensures { Prints out.old out.new result (reply_text (replies.File name.now bytes.now)) }
{
    let parts = [
        Text(b"file "),
        Text(name.bytes()),
        Number(bytes.len() as u64),
        Text(b"\n"),
        Text(bytes),
        Text(b"\n"),
    ];
    append_parts(out, &parts)
}

fn print_names(out: &mut Vec<u8>, names: &[Listed]) -> Result<(), NoMemory>
    ensures { Prints out.old out.new result (reply_text (replies.Names names.now)) }
{
    let start = out.len();
    let head = [Text(b"names"), Number(names.len() as u64), Text(b"\n")];
    append_parts(out, &head)?;
    if append_listed(out, names).is_err() {
        out.truncate(start);
        return Err(NoMemory);
    }
    Ok(())
}

// Appends the lines of published names, or nothing.
fn append_listed(out: &mut Vec<u8>, names: &[Listed]) -> Result<(), NoMemory>
    ensures { Prints out.old out.new result (flat_map listed_text names.now) }
{
    let start = out.len();
    for listed in names {
        if print_listed(out, listed).is_err() {
            out.truncate(start);
            return Err(NoMemory);
        }
    }
    Ok(())
}

fn print_listed(out: &mut Vec<u8>, listed: &Listed) -> Result<(), NoMemory>
    ensures { Prints out.old out.new result (listed_text listed.now) }
{
    let parts = [
        Text(b"name "),
        Text(listed.name.bytes()),
        Number(listed.length),
        Text(b"\n"),
    ];
    append_parts(out, &parts)
}

fn print_group(
    out: &mut Vec<u8>,
    group: u8,
    live: u32,
    lost: u32,
    broken: u32,
    stripe: u32,
    column: u8,
) -> Result<(), NoMemory>
    ensures { Prints out.old out.new result
        (reply_text (replies.Group group live lost broken stripe column)) }
{
    let parts = [
        Text(b"group"),
        Number(u64::from(group)),
        Text(b" live"),
        Number(u64::from(live)),
        Text(b" lost"),
        Number(u64::from(lost)),
        Text(b" broken"),
        Number(u64::from(broken)),
        Text(b" cursor"),
        Number(u64::from(stripe)),
        Number(u64::from(column)),
        Text(b"\n"),
    ];
    append_parts(out, &parts)
}

fn print_long(out: &mut Vec<u8>, name: &Name, length: u64) -> Result<(), NoMemory>
    ensures { Prints out.old out.new result (reply_text (replies.Long name.now length)) }
{
    let parts = [
        Text(b"long "),
        Text(name.bytes()),
        Number(length),
        Text(b"\n"),
    ];
    append_parts(out, &parts)
}

fn print_lost(
    out: &mut Vec<u8>,
    name: &Name,
    piece: u32,
    fragment: u8,
    have: u8,
    need: u8,
) -> Result<(), NoMemory>
    ensures { Prints out.old out.new result
        (reply_text (replies.Lost name.now piece fragment have need)) }
{
    let parts = [
        Text(b"lost "),
        Text(name.bytes()),
        Number(u64::from(piece)),
        Number(u64::from(fragment)),
        Number(u64::from(have)),
        Number(u64::from(need)),
        Text(b"\n"),
    ];
    append_parts(out, &parts)
}

fn print_odd(
    out: &mut Vec<u8>,
    name: &Name,
    wanted: &Digest,
    found: &Digest,
) -> Result<(), NoMemory>
    ensures { Prints out.old out.new result
        (reply_text (replies.Odd name.now wanted.now found.now)) }
{
    let parts = [
        Text(b"odd "),
        Text(name.bytes()),
        Hex(*wanted),
        Hex(*found),
        Text(b"\n"),
    ];
    append_parts(out, &parts)
}

fn print_fault(out: &mut Vec<u8>, group: u8, column: u8) -> Result<(), NoMemory>
    ensures { Prints out.old out.new result (reply_text (replies.Fault group column)) }
{
    let parts = [
        Text(b"fault"),
        Number(u64::from(group)),
        Number(u64::from(column)),
        Text(b"\n"),
    ];
    append_parts(out, &parts)
}

/// Appends the line with which a script is refused that leaves its grammar at this line. On refusal
/// `out` is as before.
pub fn print_bad_line(number: u32, out: &mut Vec<u8>) -> Result<(), NoMemory>
    ensures { Prints out.old out.new result (bad_line_text number) }
{
    print_number(out, b"bad line", number)
}

/// Appends the line with which the words of a command line are refused. On refusal `out` is as
/// before.
pub fn print_words_refused(out: &mut Vec<u8>) -> Result<(), NoMemory>
    ensures { Prints out.old out.new result words_refused_text }
{
    append_parts(out, &[Text(b"words refused\n")])
}
