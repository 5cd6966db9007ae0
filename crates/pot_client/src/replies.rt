//! The replies of a session, read from what it wrote.

ghost use Rattle.std.specs.Prelude.{◌≡◌, IfOk, List, MatchOption, OnErr};
ghost use Rattle.pot_client.specs.ReplyTexts.{ArePrinted, BeginsReply, EndsReply, NoReplyAt};
ghost use Rattle.pot_client.specs.ReplyTexts.{ReadsAll};
ghost use Rattle.pot_client.specs.ReplyTexts.{ReadsBack, TakesListed, TakesNames, TakesNext};
ghost use Rattle.pot_client.specs.declared.kind.ReplyKind.TheVariants as kinds;
ghost use Rattle.pot_script.specs.declared.reply.Reply.{Reply};

use crate::fields::{read_one, read_sized};
use crate::kind::ReplyKind;
use crate::lines::read_line;
use pot_bytes::Bytes;
use pot_index::Listed;
use pot_script::{NameList, Reply, Words, cut_after, cut_at};
use std::alloc::{AllocError, Global};
use std::marker::Model;

/// The replies that a session wrote. None exactly where these bytes are not the texts of replies,
/// one after another.
///
/// # Errors
/// Want of memory alone.
pub fn read_replies(alloc: Global, bytes: &[u8]) -> Result<Option<Vec<Reply>>, AllocError>
    ensures read { IfOk result (ReadsAll bytes.now) }

    // Unless memory runs out, replies that were printed one after another are read as just these.
    ensures back { (rs : List Reply) → ArePrinted bytes.now rs → ReadsBack result rs }
{
    let mut text = Replies::of(bytes);
    let mut replies = Vec::new(alloc);
    while !text.left.is_empty() {
        match text.next(alloc)? {
            Some(reply) => replies.push(reply)?,
            None => return Ok(None),
        }
    }
    Ok(Some(replies))
}

/// The replies that are left of what a session wrote. Contracts see the bytes of these replies.
#[derive(Drop)]
pub struct Replies<'a> {
    left: &'a [u8],
}

impl<'a> Model for Replies<'a> {
    ghost use Rattle.std.specs.Prelude.{ℕ, List};

    ghost Value = { List ℕ };

    ghost view = { λ r. r.left.now };
}

impl<'a> Replies<'a> {
    /// The replies of these bytes.
    pub fn of(bytes: &'a [u8]) -> Replies<'a>
        ensures { result ≡ bytes.now }
    {
        Replies { left: bytes }
    }

    /// The bytes that are left.
    pub fn left(&self) -> &'a [u8]
        ensures { result.now ≡ self.now }
    {
        self.left
    }

    /// The next reply, which is taken off. None exactly where the text of no reply is next. Where
    /// none is answered, nothing is taken.
    ///
    /// # Errors
    /// Want of memory alone.
    pub fn next(&mut self, alloc: Global) -> Result<Option<Reply>, AllocError>
        ensures read { IfOk result (TakesNext self.old self.new) }
        ensures kept { OnErr result (self.new ≡ self.old) }
    {
        let Some((kind, words, rest)) = first_line(self.left) else {
            return Ok(None);
        };
        let mut behind = Replies::of(rest);
        let Some(reply) = behind.finish(alloc, kind, words)? else {
            return Ok(None);
        };
        self.left = behind.left;
        Ok(Some(reply))
    }

    // The reply of a line of this kind that has these words behind its first, where the line was
    // taken off.
    fn finish(
        &mut self,
        alloc: Global,
        kind: ReplyKind,
        words: Words,
    ) -> Result<Option<Reply>, AllocError>
        ensures { IfOk result (EndsReply kind words.entry self.old self.new) }
    {
        match kind {
            ReplyKind::File => self.file(alloc, words),
            ReplyKind::Names => self.names(alloc, words),
            _ => Ok(read_line(kind, words)),
        }
    }

    // The file of such a line, whose bytes are next.
    fn file(&mut self, alloc: Global, words: Words) -> Result<Option<Reply>, AllocError>
        ensures { IfOk result (EndsReply kinds.File words.entry self.old self.new) }
    {
        let Some((name, count)) = read_sized(words) else {
            return Ok(None);
        };
        let Some((bytes, rest)) = cut_after(self.left, count as usize) else {
            return Ok(None);
        };
        let bytes = Bytes::from_vec(Vec::from_slice(alloc, bytes)?);
        self.left = rest;
        Ok(Some(Reply::File { name, bytes }))
    }

    // The names of such a line, whose own lines are next.
    fn names(&mut self, alloc: Global, words: Words) -> Result<Option<Reply>, AllocError>
        ensures { IfOk result (EndsReply kinds.Names words.entry self.old self.new) }
    {
        let Some(count) = read_one(words, u32::MAX) else {
            return Ok(None);
        };
        let Some(names) = self.many_listed(alloc, count)? else {
            return Ok(None);
        };
        let names = NameList::from_vec(names);
        Ok(Some(Reply::Names { names }))
    }

    // So many published names, whose lines are next.
    fn many_listed(&mut self, alloc: Global, count: u32) -> Result<Option<Vec<Listed>>, AllocError>
        ensures { IfOk result (TakesNames count self.old self.new) }
    {
        let mut names = Vec::new(alloc);
        for _taken in 0..count {
            let Some(listed) = self.next_listed() else {
                return Ok(None);
            };
            names.push(listed)?;
        }
        Ok(Some(names))
    }

    // The published name of the next line.
    fn next_listed(&mut self) -> Option<Listed>
        ensures { TakesListed self.old self.new result }
    {
        let (line, rest) = cut_at(self.left, b'\n')?;
        let mut words = Words::of(line);
        if words.next()? != b"name".as_slice() {
            return None;
        }
        let (name, length) = read_sized(words)?;
        self.left = rest;
        Some(Listed {
            name,
            length: u64::from(length),
        })
    }
}

// The kind of the first line, the words behind its first, and what stands behind the line.
fn first_line(bytes: &[u8]) -> Option<(ReplyKind, Words<'_>, &[u8])>
    ensures { MatchOption result (NoReplyAt bytes.now) (λ x. BeginsReply bytes.now x.0 x.1 x.2.now) }
{
    let (line, rest) = cut_at(bytes, b'\n')?;
    let mut words = Words::of(line);
    let kind = ReplyKind::read(words.next()?)?;
    Some((kind, words, rest))
}
