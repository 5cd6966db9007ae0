//! The line that says how a group stands.

ghost use Rattle.pot_client.specs.ReplyTexts.{ReadsReplyLine, TakesCount};
ghost use Rattle.pot_client.specs.declared.kind.ReplyKind.TheVariants as kinds;

use pot_script::{Reply, Words};

/// `group G live L lost O broken B cursor STRIPE COLUMN`, behind its first word.
pub fn read_group(mut words: Words) -> Option<Reply>
    ensures { ReadsReplyLine kinds.Group words.entry result }
{
    let group = words.next_number(255)? as u8;
    let live = next_count(&mut words, b"live")?;
    let lost = next_count(&mut words, b"lost")?;
    let broken = next_count(&mut words, b"broken")?;
    let stripe = next_count(&mut words, b"cursor")?;
    let column = words.next_number(255)? as u8;
    words.end()?;
    Some(Reply::Group {
        group,
        live,
        lost,
        broken,
        stripe,
        column,
    })
}

// The number behind this word, where the word is next.
fn next_count(words: &mut Words, word: &[u8]) -> Option<u32>
    ensures { TakesCount word.now words.old words.new result }
{
    if words.next()? != word {
        return None;
    }
    words.next_number(u32::MAX)
}
