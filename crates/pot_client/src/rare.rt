//! The lines with fields as no other line has them.

ghost use Rattle.pot_client.specs.ReplyTexts.{ReadsReplyLine};
ghost use Rattle.pot_client.specs.declared.kind.ReplyKind.TheVariants as kinds;

use crate::digests::read_digest;
use pot_script::{Reply, Words, read_number};

/// `lost NAME PIECE FRAGMENT HAVE NEED`, behind its first word.
pub fn read_lost(mut words: Words) -> Option<Reply>
    ensures { ReadsReplyLine kinds.Lost words.entry result }
{
    let name = words.next_name()?;
    let piece = words.next_number(u32::MAX)?;
    let fragment = words.next_number(255)? as u8;
    let have = words.next_number(255)? as u8;
    let need = words.next_number(255)? as u8;
    words.end()?;
    Some(Reply::Lost {
        name,
        piece,
        fragment,
        have,
        need,
    })
}

/// `odd NAME WANTED FOUND`, behind its first word.
pub fn read_odd(mut words: Words) -> Option<Reply>
    ensures { ReadsReplyLine kinds.Odd words.entry result }
{
    let name = words.next_name()?;
    let wanted = read_digest(words.next()?)?;
    let found = read_digest(words.next()?)?;
    words.end()?;
    Some(Reply::Odd {
        name,
        wanted,
        found,
    })
}

/// `logfull G` or `logfull index`, behind its first word.
pub fn read_logfull(mut words: Words) -> Option<Reply>
    ensures { ReadsReplyLine kinds.LogFull words.entry result }
{
    let word = words.next()?;
    words.end()?;
    if word == b"index".as_slice() {
        return Some(Reply::IndexLogFull);
    }
    let group = read_number(word, 255)? as u8;
    Some(Reply::LogFull { group })
}
