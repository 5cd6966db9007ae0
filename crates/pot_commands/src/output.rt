//! The text of replies, and its way to a sink.
ghost use Rattle.std.specs.Prelude.{◌≡◌, IsErr, IfOk};
ghost use Rattle.pot_outside.specs.Accounts.{Faults, transition};
ghost use Rattle.pot_commands.specs.Ends.{texts_of, any_refusal};
ghost use Rattle.pot_commands.specs.Streams.{WritesText};

use pot_bytes::NoMemory;
use pot_outside::{Failed, Sink};
use pot_script::{Reply, print_reply};
use std::alloc::Global;

/// Writes all of a text.
///
/// # Errors
/// `Failed` only where the sink's count of faults rose; some first bytes of the text were written
/// then.
pub fn write_out<K: Sink>(sink: &mut K, text: &[u8]) -> Result<(), Failed>
    ensures told { WritesText (transition K.account sink.old sink.new) text.now result }
    ensures cause { Faults K.account sink.old sink.new (IsErr result) }
{
    let mut rest = text;
    while !rest.is_empty() {
        let count = sink.write(rest)?;
        rest = &rest[count..];
    }
    Ok(())
}

/// The texts of these replies, one after another.
pub fn print_replies(alloc: Global, replies: &[Reply]) -> Result<Vec<u8>, NoMemory>
    ensures { IfOk result (λ text. text.items ≡ texts_of replies.now) }
{
    let mut text = Vec::new(alloc);
    for reply in replies {
        print_reply(reply, &mut text)?;
    }
    Ok(text)
}

/// Whether some reply is a refusal.
pub fn has_refusal(replies: &[Reply]) -> bool
    ensures { result ≡ any_refusal replies.now }
{
    replies.iter().any(|reply| reply.is_refusal())
}
