//! The first lines of replies, each by the words behind its first.

ghost use Rattle.std.specs.Prelude.{◌≢◌};
ghost use Rattle.pot_client.specs.ReplyTexts.{ReadsReplyLine};
ghost use Rattle.pot_client.specs.declared.kind.ReplyKind.TheVariants as kinds;

use crate::fields::{read_name, read_one, read_sized, read_split, read_three, read_two};
use crate::groups::read_group;
use crate::kind::ReplyKind;
use crate::rare::{read_logfull, read_lost, read_odd};
use pot_script::{Reply, Words};

/// The reply of a line of this kind that has these words behind its first. What stands behind the
/// line of a file or of names is no part of it, so those are read elsewhere.
pub fn read_line(kind: ReplyKind, words: Words) -> Option<Reply>
    requires file { kind ≢ kinds.File }
    requires names { kind ≢ kinds.Names }
    ensures { ReadsReplyLine kind words.entry result }
{
    match kind {
        ReplyKind::File | ReplyKind::Names => unreachable!(),
        ReplyKind::Stored => read_stored(words),
        ReplyKind::Group => read_group(words),
        ReplyKind::Scrubbed => read_scrubbed(words),
        ReplyKind::Repaired => read_repaired(words),
        ReplyKind::Replaced => read_replaced(words),
        ReplyKind::Migrated => read_migrated(words),
        ReplyKind::Long => read_long(words),
        ReplyKind::Exists => read_exists(words),
        ReplyKind::Full => read_full(words),
        ReplyKind::Absent => read_absent(words),
        ReplyKind::Lost => read_lost(words),
        ReplyKind::Odd => read_odd(words),
        ReplyKind::Fault => read_fault(words),
        ReplyKind::LogFull => read_logfull(words),
        ReplyKind::NoArchive => read_noarchive(words),
        ReplyKind::InUse => read_inuse(words),
        ReplyKind::Renewed => read_renewed(words),
        ReplyKind::Often => read_often(words),
    }
}

fn read_stored(words: Words) -> Option<Reply>
    ensures { ReadsReplyLine kinds.Stored words.entry result }
{
    let (name, pieces, shards) = read_split(words)?;
    Some(Reply::Stored {
        name,
        pieces,
        shards,
    })
}

fn read_scrubbed(words: Words) -> Option<Reply>
    ensures { ReadsReplyLine kinds.Scrubbed words.entry result }
{
    let (group, seen, gone) = read_three(words, 255)?;
    Some(Reply::Scrubbed {
        group: group as u8,
        seen,
        gone,
    })
}

fn read_repaired(words: Words) -> Option<Reply>
    ensures { ReadsReplyLine kinds.Repaired words.entry result }
{
    let (group, mended, left) = read_three(words, 255)?;
    Some(Reply::Repaired {
        group: group as u8,
        mended,
        left,
    })
}

fn read_replaced(words: Words) -> Option<Reply>
    ensures { ReadsReplyLine kinds.Replaced words.entry result }
{
    let (from, to, slots) = read_three(words, u32::MAX)?;
    Some(Reply::Replaced { from, to, slots })
}

fn read_migrated(words: Words) -> Option<Reply>
    ensures { ReadsReplyLine kinds.Migrated words.entry result }
{
    let (from, to, slots) = read_three(words, u32::MAX)?;
    Some(Reply::Migrated { from, to, slots })
}

fn read_long(words: Words) -> Option<Reply>
    ensures { ReadsReplyLine kinds.Long words.entry result }
{
    let (name, length) = read_sized(words)?;
    Some(Reply::Long {
        name,
        length: u64::from(length),
    })
}

fn read_exists(words: Words) -> Option<Reply>
    ensures { ReadsReplyLine kinds.Exists words.entry result }
{
    let name = read_name(words)?;
    Some(Reply::Exists { name })
}

fn read_full(words: Words) -> Option<Reply>
    ensures { ReadsReplyLine kinds.Full words.entry result }
{
    let group = read_one(words, 255)?;
    Some(Reply::Full { group: group as u8 })
}

fn read_absent(words: Words) -> Option<Reply>
    ensures { ReadsReplyLine kinds.Absent words.entry result }
{
    let name = read_name(words)?;
    Some(Reply::Absent { name })
}

fn read_fault(words: Words) -> Option<Reply>
    ensures { ReadsReplyLine kinds.Fault words.entry result }
{
    let (group, column) = read_two(words)?;
    Some(Reply::Fault { group, column })
}

fn read_noarchive(words: Words) -> Option<Reply>
    ensures { ReadsReplyLine kinds.NoArchive words.entry result }
{
    let number = read_one(words, u32::MAX)?;
    Some(Reply::NoArchive { number })
}

fn read_inuse(words: Words) -> Option<Reply>
    ensures { ReadsReplyLine kinds.InUse words.entry result }
{
    let number = read_one(words, u32::MAX)?;
    Some(Reply::InUse { number })
}

fn read_renewed(words: Words) -> Option<Reply>
    ensures { ReadsReplyLine kinds.Renewed words.entry result }
{
    let (name, pieces, shards) = read_split(words)?;
    Some(Reply::Renewed {
        name,
        pieces,
        shards,
    })
}

fn read_often(words: Words) -> Option<Reply>
    ensures { ReadsReplyLine kinds.Often words.entry result }
{
    let name = read_name(words)?;
    Some(Reply::Often { name })
}
