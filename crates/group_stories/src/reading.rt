//! Lines read from their words.
use crate::lines::{Act, Call, Job, Look, Says, Shape};
use pot_bytes::{Block, Digest, digest_of};
use pot_group::Kind;
use pot_machine::Entry;
use std::alloc::{AllocError, Global};

/// The most times that a line repeats its step.
const MOST_TIMES: u32 = 1_000_000;

/// The block that repeats a byte.
pub fn block(byte: u8) -> Block {
    Block::from_bytes([byte; 1024])
}

/// The digest of the block that repeats a byte.
fn digest(byte: u8) -> Digest {
    digest_of(block(byte).bytes())
}

/// Decimal digits, with no zero in front of others.
fn number(word: &str) -> Option<u32> {
    let digits = word.bytes().all(|byte| byte.is_ascii_digit());
    if !digits || (word.starts_with('0') && word != "0") {
        return None;
    }
    word.parse::<u32>().ok()
}

/// The value of a hexadecimal digit of lower case.
fn digit(byte: u8) -> Option<u8> {
    match byte {
        b'0'..=b'9' => Some(byte - b'0'),
        b'a'..=b'f' => Some(byte - b'a' + 10),
        _ => None,
    }
}

/// A byte as two hexadecimal digits.
fn byte(word: &str) -> Option<u8> {
    match word.as_bytes() {
        [high, low] => Some((digit(*high)? << 4) | digit(*low)?),
        _ => None,
    }
}

/// The words of a line that are still to be read.
#[derive(Clone, Copy)]
struct Words<'a, 'b> {
    left: &'b [&'a str],
}

impl<'a, 'b> Words<'a, 'b> {
    fn next(&mut self) -> Option<&'a str> {
        match self.left {
            [word, left @ ..] => {
                self.left = left;
                Some(*word)
            }
            _ => None,
        }
    }

    fn number(&mut self) -> Option<u32> {
        number(self.next()?)
    }

    fn column(&mut self) -> Option<u8> {
        u8::try_from(self.number()?).ok()
    }

    fn byte(&mut self) -> Option<u8> {
        byte(self.next()?)
    }

    fn digest(&mut self) -> Option<Digest> {
        Some(digest(self.byte()?))
    }

    fn job(&mut self) -> Option<Job> {
        Job::new(self.number()?)
    }

    /// Whether a parity block was kept.
    fn kept(&mut self) -> Option<bool> {
        match self.next()? {
            "kept" => Some(true),
            "unkept" => Some(false),
            _ => None,
        }
    }

    fn kind(&mut self) -> Option<Kind> {
        match self.next()? {
            "live" => Some(Kind::Live),
            "unsound" => Some(Kind::Unsound),
            _ => None,
        }
    }

    /// The number behind `at`, if the line has one.
    fn at(&mut self) -> Option<Option<u32>> {
        match self.next() {
            None => Some(None),
            Some("at") => Some(Some(self.number()?)),
            Some(_) => None,
        }
    }
}

/// What a line says, if it is a line of a story.
pub fn read_line(alloc: Global, text: &str) -> Result<Option<Says>, AllocError> {
    if text.is_empty() || text.starts_with('#') {
        return Ok(Some(Says::Nothing));
    }
    if text.starts_with("= ") {
        return Ok(Some(Says::Title));
    }
    let mut list = Vec::new(alloc);
    for word in text.split(' ') {
        list.push(word)?;
    }
    let mut words = Words { left: &list };
    let says = read_words(&mut words);
    Ok(if words.left.is_empty() { says } else { None })
}

fn read_words(words: &mut Words) -> Option<Says> {
    match words.next()? {
        "group" => read_shape(words),
        "had" => Some(Says::Had(read_entry(words)?)),
        "each" => read_each(words),
        "holds" => read_holds(words),
        "fail" => read_fail(words),
        "lose" => read_lose(words),
        "repeat" => read_repeat(words),
        word => read_step(word, words),
    }
}

fn read_shape(words: &mut Words) -> Option<Says> {
    let shape = Shape {
        columns: words.column()?,
        parity: words.column()?,
        stripes: words.number()?,
    };
    if !shape.rack().fits() {
        return None;
    }
    Some(Says::Group(shape))
}

fn read_each(words: &mut Words) -> Option<Says> {
    if words.next()? == "call" && words.next()? == "fails" {
        return Some(Says::EachCallFails);
    }
    None
}

fn read_repeat(words: &mut Words) -> Option<Says> {
    let times = words.number()?;
    if times == 0 || times > MOST_TIMES {
        return None;
    }
    let call = words.next()?;
    Some(Says::Calls(times, read_call(call, words)?))
}

fn read_holds(words: &mut Words) -> Option<Says> {
    let archive = words.number()?;
    let act = Act::Holds {
        slot: words.number()?,
        byte: words.byte()?,
    };
    Some(Says::Outside(archive, act))
}

fn read_fail(words: &mut Words) -> Option<Says> {
    let archive = words.number()?;
    let call = words.at()?.unwrap_or(0);
    Some(Says::Outside(archive, Act::Fail { call }))
}

fn read_lose(words: &mut Words) -> Option<Says> {
    let archive = words.number()?;
    let slot = words.number()?;
    let act = match words.at()? {
        Some(call) => Act::LoseAt { slot, call },
        None => Act::Lose { slot },
    };
    Some(Says::Outside(archive, act))
}

/// An entry, with the byte that a block repeats in place of its digest.
fn read_entry(words: &mut Words) -> Option<Entry> {
    match words.next()? {
        "put" => read_put(words),
        "put2" => read_put2(words),
        "skip" => Some(Entry::Skip {
            job: words.job()?.number(),
            stripe: words.number()?,
        }),
        "gone" => Some(Entry::Gone {
            job: words.number()?,
            stripe: words.number()?,
            column: words.column()?,
        }),
        "broke" => Some(Entry::Broke {
            job: words.number()?,
            stripe: words.number()?,
            column: words.column()?,
        }),
        _ => None,
    }
}

fn read_put(words: &mut Words) -> Option<Entry> {
    Some(Entry::Put {
        job: words.job()?.number(),
        stripe: words.number()?,
        column: words.column()?,
        digest: words.digest()?,
        parity_digest: words.digest()?,
        kept: words.kept()?,
    })
}

fn read_put2(words: &mut Words) -> Option<Entry> {
    Some(Entry::Put2 {
        job: words.job()?.number(),
        stripe: words.number()?,
        column: words.column()?,
        digest: words.digest()?,
        parity_digest: words.digest()?,
        second_digest: words.digest()?,
        kept: words.kept()?,
        kept2: words.kept()?,
    })
}

/// A look, or a call that is made once.
fn read_step(word: &str, words: &mut Words) -> Option<Says> {
    match word {
        "table" => Some(Says::Look(Look::Table)),
        "log" => Some(Says::Look(Look::Log)),
        "heard" => Some(Says::Look(Look::Heard {
            archive: words.number()?,
        })),
        "blocks" => Some(Says::Look(Look::Blocks {
            archive: words.number()?,
        })),
        "faults" => Some(Says::Look(Look::Faults)),
        _ => Some(Says::Calls(1, read_call(word, words)?)),
    }
}

/// A call of the group as a whole, or else of a place or a column.
fn read_call(word: &str, words: &mut Words) -> Option<Call> {
    match word {
        "open" => Some(Call::Open),
        "close" => Some(Call::Close),
        "logged" => Some(Call::Logged),
        "put" => Some(Call::Put {
            job: words.job()?,
            byte: words.byte()?,
        }),
        "count" => Some(Call::Count { job: words.job()? }),
        "use_of" => Some(Call::UseOf {
            archive: words.number()?,
        }),
        "trace" => Some(Call::Trace {
            from: words.number()?,
            to: words.number()?,
        }),
        "expect" => Some(Call::Expect {
            byte: words.byte()?,
            parity: words.byte()?,
        }),
        _ => read_place_call(word, words),
    }
}

fn read_place_call(word: &str, words: &mut Words) -> Option<Call> {
    match word {
        "look" => Some(Call::Look {
            job: words.job()?,
            stripe: words.number()?,
            column: words.column()?,
        }),
        "sweep" => Some(Call::Sweep {
            job: words.job()?,
            stripe: words.number()?,
            column: words.column()?,
        }),
        "next" => Some(Call::Next {
            stripe: words.number()?,
            column: words.column()?,
            kind: words.kind()?,
        }),
        "begin" => Some(Call::Begin {
            job: words.job()?,
            stripe: words.number()?,
            column: words.column()?,
        }),
        "advance" => Some(Call::Advance {
            job: words.job()?,
            stripe: words.number()?,
        }),
        "mend" => Some(Call::Mend {
            job: words.job()?,
            stripe: words.number()?,
            column: words.column()?,
        }),
        _ => read_column_call(word, words),
    }
}

fn read_column_call(word: &str, words: &mut Words) -> Option<Call> {
    match word {
        "move_begin" => Some(Call::MoveBegin {
            job: words.job()?,
            column: words.column()?,
            archive: words.number()?,
        }),
        "move_step" => Some(Call::MoveStep {
            job: words.job()?,
            column: words.column()?,
        }),
        "swap" => Some(Call::Swap {
            job: words.job()?,
            column: words.column()?,
            archive: words.number()?,
        }),
        _ => None,
    }
}
