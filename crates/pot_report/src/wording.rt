//! Replies as lines for people.

use crate::refusals::refusal_line;
use crate::sizes::Size;
use crate::texts::spoken_name;
use pot_script::Reply;
use std::alloc::{AllocError, Global};

/// What a reply says, in one line.
pub fn reply_line(alloc: Global, reply: &Reply) -> Result<String, AllocError> {
    match reply {
        Reply::Stored { name, .. } => {
            let name = spoken_name(alloc, name)?;
            format!(in alloc; "stored {name}")
        }
        Reply::Renewed { name, shards, .. } => {
            let name = spoken_name(alloc, name)?;
            format!(in alloc; "{name} has a new split of {shards} shards; its older blocks stay")
        }
        Reply::File { name, bytes } => {
            let name = spoken_name(alloc, name)?;
            let size = Size(bytes.as_slice().len() as u64);
            format!(in alloc; "{name} has {size}")
        }
        Reply::Names { names } => {
            let count = names.as_slice().len();
            format!(in alloc; "{count} names are stored")
        }
        _ => of_groups(alloc, reply),
    }
}

// The line of a reply that speaks of a group or of archives, and of a refusal.
fn of_groups(alloc: Global, reply: &Reply) -> Result<String, AllocError> {
    match reply {
        Reply::Group {
            group,
            live,
            lost,
            broken,
            ..
        } => format!(in alloc;
            "group {group}: {live} blocks are there, {lost} lost, {broken} broken"
        ),
        Reply::Scrubbed { group, seen, gone } => {
            format!(in alloc;
                "group {group}: {seen} blocks were looked at and are there, {gone} more were found gone"
            )
        }
        Reply::Repaired {
            group,
            mended,
            left,
        } => format!(in alloc; "group {group}: {mended} blocks mended, {left} left as they were"),
        Reply::Replaced { from, to, slots } => format!(in alloc;
            "archive {to} stands in the place of archive {from}: {slots} blocks are to be mended, by pots repair"
        ),
        Reply::Migrated { from, to, slots } => format!(in alloc;
            "archive {to} has what archive {from} held: {slots} blocks were copied"
        ),
        _ => refusal_line(alloc, reply),
    }
}
