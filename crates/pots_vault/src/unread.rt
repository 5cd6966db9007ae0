//! Refusals where files are read over what is mounted, and no session is held.

use pot_bytes::Name;
use pot_report::{reply_line, spoken_name};
use pot_script::Reply;
use std::alloc::{AllocError, Global};

/// The line of a refusal: nothing was marked as lost, so its advice is another than behind a
/// session.
pub fn unread_line(alloc: Global, reply: &Reply) -> Result<String, AllocError> {
    match reply {
        Reply::Lost {
            name,
            piece,
            fragment,
            have,
            need,
        } => lost(alloc, name, (*piece, *fragment), (*have, *need)),
        Reply::Odd { name, .. } => {
            let name = spoken_name(alloc, name)?;
            format!(in alloc;
                "{name} was not read: what the archives give has another digest than the desk knows"
            )
        }
        _ => reply_line(alloc, reply),
    }
}

fn lost(
    alloc: Global,
    name: &Name,
    (piece, fragment): (u32, u8),
    (have, need): (u8, u8),
) -> Result<String, AllocError> {
    let name = spoken_name(alloc, name)?;
    format!(in alloc;
        "{name} was not read, and nothing is marked as lost: of fragment {fragment} of piece {piece} only {have} of {need} shards are here"
    )
}
