ghost use Rattle.std.specs.Prelude.{◌≡◌, IfOk, MatchOption, map};
ghost use Rattle.std.specs.String.{string_bytes};
ghost use Rattle.clap.specs.Words.{app_of};
ghost use Rattle.pot_options.specs.Options.{AreOptionNames, AreOptionsRead, IsUnread};
ghost use Rattle.pot_options.specs.Options.{has_delimiter};
ghost use Rattle.pot_options.specs.Apps.{options_app};

use crate::options::Options;
use clap::error::ErrorKind;
use clap::{Arg, ArgAction, Command};
use pot_bytes::NoMemory;
use std::alloc::{AllocError, Global};

/// The options `names` that the words spell, and `None` where they spell none. Words that spell
/// options whose values begin with no hyphen are never refused.
pub fn read_options<'a>(
    alloc: Global,
    names: &'a [&'a str],
    words: &'a [String],
) -> Result<Option<Options<'a>>, NoMemory>
    requires { AreOptionNames (map (λ s. s.now) names.now) }
    ensures { IfOk result
        (λ r. MatchOption r (IsUnread (map (λ s. s.now) names.entry.now)
        (map string_bytes words.entry.now))
        (AreOptionsRead (map (λ s. s.now) names.entry.now) (map string_bytes words.entry.now))) }
{
    if has_delimiter(words) {
        return Ok(None);
    }
    let command = options_command(alloc, names)?;
    match command.try_get_matches_from(words) {
        Ok(matches) => Ok(Some(Options::of(matches))),
        Err(error) => match error.kind() {
            ErrorKind::OutOfMemory => Err(NoMemory),
            _ => Ok(None),
        },
    }
}

// Whether a word is just `--`. Clap takes it where it is the last one.
fn has_delimiter(words: &[String]) -> bool
    ensures { result ≡ has_delimiter (map string_bytes words.now) }
{
    for word in words {
        if word.as_str() == "--" {
            return true;
        }
    }
    false
}

// The command with the options `names`, each of which takes one value.
fn options_command<'a>(alloc: Global, names: &'a [&'a str]) -> Result<Command<'a>, AllocError>
    ensures { IfOk result (λ c. app_of c ≡ options_app (map (λ s. s.now) names.entry.now)) }
{
    let mut command = Command::new(alloc, "options")
        .no_binary_name(true)
        .disable_help_flag(true);
    for name in names {
        let option = Arg::new(alloc, name).long(name).action(ArgAction::Set);
        command = command.arg(option)?;
    }
    Ok(command)
}
