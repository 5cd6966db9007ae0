//! The command at the front of some bytes, whose file still stands in them.

ghost use Rattle.std.specs.Prelude.{◌≡◌, ◌++◌, ◌∷◌, [], ℕ, List, length, true, IfOk, MatchOption};
ghost use Rattle.pot_script.specs.Batches.{may_stand};
ghost use Rattle.pot_script.specs.Commands.{IsCommand, command_text, stated_bytes};
ghost use Rattle.pot_script.specs.Kinds.{kind_of};
ghost use Rattle.pot_script.specs.Lines.{IsLineOf, command_of};
ghost use Rattle.pot_script.specs.Scripts.{NoCommandAt};
ghost use Rattle.pot_script.specs.declared.command.Command.{Command};
ghost use Rattle.pot_script.specs.declared.kind.Kind.TheVariants as kinds;

use crate::batch::may_stand;
use crate::command::Command;
use crate::cuts::{cut_after, cut_at};
use crate::kind::Kind;
use crate::lines::{read_line, read_store};
use crate::words::Words;
use pot_bytes::{Bytes, Name, Rack};
use std::alloc::{AllocError, Global};

/// A command whose file is a part of the script.
#[derive(Drop)]
pub enum Spelled<'a> {
    Store { name: Name, file: &'a [u8] },
    /// Any other command.
    Whole(Command),
}

/// The command with its own copy of the file.
pub fn owned_command(alloc: Global, spelled: Spelled) -> Result<Command, AllocError>
    ensures { IfOk result (λ command. command ≡ command_of spelled.entry) }
{
    match spelled {
        Spelled::Store { name, file } => {
            let file = Bytes::from_vec(Vec::from_slice(alloc, file)?);
            Ok(Command::Store { name, file })
        }
        Spelled::Whole(command) => Ok(command),
    }
}

/// The command at the front of the bytes, with what stands after it. None exactly where no command
/// stands there that may stand outside a batch, or where `batch` jobs are still to come.
pub fn find_command<'a>(
    bytes: &'a [u8],
    batch: Option<u32>,
    rack: &Rack,
) -> Option<(Spelled<'a>, &'a [u8])>
    ensures { MatchOption result (NoCommandAt rack.now batch bytes.now)
        (λ x. IsCommand rack.now (command_of x.0)
        × (may_stand batch (kind_of (command_of x.0)) ≡ true)
        × (bytes.now ≡ command_text (command_of x.0) ++ x.1.now)) }
{
    let (line, rest) = cut_at(bytes, b'\n')?;
    let mut words = Words::of(line);
    let kind = Kind::read(words.next()?)?;
    if !may_stand(batch, kind) {
        return None;
    }
    if let Kind::Store = kind {
        return find_file(words, rest, rack);
    }
    let command = read_line(kind, words, rack)?;
    Some((Spelled::Whole(command), rest))
}

// The command of a `store` line that has these words after the first, with what stands after its
// file.
fn find_file<'a>(words: Words<'_>, rest: &'a [u8], rack: &Rack) -> Option<(Spelled<'a>, &'a [u8])>
    ensures { MatchOption result
        ((c : Command) (after : List ℕ) → IsLineOf rack.now kinds.Store words.entry c
        → rest.now ≡ stated_bytes c ++ after → ⊥)
        (λ x. IsLineOf rack.now kinds.Store words.entry (command_of x.0)
        × (rest.now ≡ stated_bytes (command_of x.0) ++ x.1.now)) }
{
    let (name, length) = read_store(words)?;
    let (file, after) = cut_after(rest, length as usize)?;
    Some((Spelled::Store { name, file }, after))
}
