//! Replies as lines of JSON.

use crate::texts::{digest_text, name_text};
use pot_script::Reply;
use serde_json::{Value, json};
use std::alloc::{AllocError, Global};

/// A reply as one line of JSON, without its LF. The member `reply` is the first word that a session
/// writes, and the bytes of a file are left out.
pub fn reply_json(alloc: Global, reply: &Reply) -> Result<String, AllocError> {
    let value = match reply {
        Reply::Stored { .. } | Reply::Renewed { .. } => of_split(alloc, reply)?,
        Reply::File { .. } | Reply::Names { .. } => of_files(alloc, reply)?,
        Reply::Group { .. } | Reply::Scrubbed { .. } | Reply::Repaired { .. } => {
            of_group(alloc, reply)?
        }
        Reply::Replaced { .. } | Reply::Migrated { .. } => of_archives(alloc, reply)?,
        _ => of_refusal(alloc, reply)?,
    };
    value.to_string(alloc)
}

fn of_split(alloc: Global, reply: &Reply) -> Result<Value, AllocError> {
    match reply {
        Reply::Stored {
            name,
            pieces,
            shards,
        } => {
            json!(in alloc; {"reply": "stored", "name": name_text(name), "pieces": *pieces, "shards": *shards})
        }
        Reply::Renewed {
            name,
            pieces,
            shards,
        } => {
            json!(in alloc; {"reply": "renewed", "name": name_text(name), "pieces": *pieces, "shards": *shards})
        }
        _ => Ok(Value::Null),
    }
}

fn of_files(alloc: Global, reply: &Reply) -> Result<Value, AllocError> {
    match reply {
        Reply::File { name, bytes } => {
            let length = bytes.as_slice().len() as u64;
            json!(in alloc; {"reply": "file", "name": name_text(name), "length": length})
        }
        Reply::Names { names } => {
            let count = names.as_slice().len() as u64;
            json!(in alloc; {"reply": "names", "count": count})
        }
        _ => Ok(Value::Null),
    }
}

fn of_group(alloc: Global, reply: &Reply) -> Result<Value, AllocError> {
    match reply {
        Reply::Group {
            group,
            live,
            lost,
            broken,
            stripe,
            column,
        } => {
            json!(in alloc; {"reply": "group", "group": *group, "live": *live, "lost": *lost, "broken": *broken, "stripe": *stripe, "column": *column})
        }
        Reply::Scrubbed { group, seen, gone } => {
            json!(in alloc; {"reply": "scrubbed", "group": *group, "seen": *seen, "gone": *gone})
        }
        Reply::Repaired {
            group,
            mended,
            left,
        } => {
            json!(in alloc; {"reply": "repaired", "group": *group, "mended": *mended, "left": *left})
        }
        _ => Ok(Value::Null),
    }
}

fn of_archives(alloc: Global, reply: &Reply) -> Result<Value, AllocError> {
    match reply {
        Reply::Replaced { from, to, slots } => {
            json!(in alloc; {"reply": "replaced", "from": *from, "to": *to, "slots": *slots})
        }
        Reply::Migrated { from, to, slots } => {
            json!(in alloc; {"reply": "migrated", "from": *from, "to": *to, "slots": *slots})
        }
        _ => Ok(Value::Null),
    }
}

fn of_refusal(alloc: Global, reply: &Reply) -> Result<Value, AllocError> {
    match reply {
        Reply::Long { name, length } => {
            json!(in alloc; {"reply": "long", "name": name_text(name), "length": *length})
        }
        Reply::Exists { name } => json!(in alloc; {"reply": "exists", "name": name_text(name)}),
        Reply::Absent { name } => json!(in alloc; {"reply": "absent", "name": name_text(name)}),
        Reply::Often { name } => json!(in alloc; {"reply": "often", "name": name_text(name)}),
        Reply::Lost { .. } | Reply::Odd { .. } => of_damage(alloc, reply),
        _ => of_failure(alloc, reply),
    }
}

fn of_damage(alloc: Global, reply: &Reply) -> Result<Value, AllocError> {
    match reply {
        Reply::Lost {
            name,
            piece,
            fragment,
            have,
            need,
        } => {
            json!(in alloc; {"reply": "lost", "name": name_text(name), "piece": *piece, "fragment": *fragment, "have": *have, "need": *need})
        }
        Reply::Odd {
            name,
            wanted,
            found,
        } => {
            let wanted = digest_text(alloc, wanted)?;
            let found = digest_text(alloc, found)?;
            json!(in alloc; {"reply": "odd", "name": name_text(name), "wanted": wanted.as_str(), "found": found.as_str()})
        }
        _ => Ok(Value::Null),
    }
}

fn of_failure(alloc: Global, reply: &Reply) -> Result<Value, AllocError> {
    match reply {
        Reply::Full { group } => json!(in alloc; {"reply": "full", "group": *group}),
        Reply::Fault { group, column } => {
            json!(in alloc; {"reply": "fault", "group": *group, "column": *column})
        }
        Reply::LogFull { group } => json!(in alloc; {"reply": "logfull", "group": *group}),
        Reply::IndexLogFull => json!(in alloc; {"reply": "logfull", "group": null}),
        Reply::NoArchive { number } => json!(in alloc; {"reply": "noarchive", "archive": *number}),
        Reply::InUse { number } => json!(in alloc; {"reply": "inuse", "archive": *number}),
        _ => Ok(Value::Null),
    }
}
