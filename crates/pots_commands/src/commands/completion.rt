//! `completion`: commands and options for the completion of a shell.

use crate::words::{command, operand};
use clap::ArgMatches;
use pots_vault::{Stop, Visit};
use std::alloc::{AllocError, Global};

/// Each command, and its options beside those of all.
const COMMANDS: [(&str, &str); 26] = [
    (
        "init",
        "--sites --places --survive --room --dry-run --racks --groups --columns --parity --stripes --fragments --need --shards --blur",
    ),
    ("store", "--as --exclude --dry-run --without"),
    (
        "fetch",
        "--to --force --all --at --path --read-only --without",
    ),
    ("cat", "--at --read-only --without"),
    ("find", "--read-only --without"),
    ("diff", "--read-only --without"),
    ("list", "--at --all --read-only --without"),
    ("status", ""),
    ("check", "--without"),
    ("repair", "--without"),
    ("replace", "--without"),
    ("migrate", "--without"),
    (
        "renew",
        "--all --fragments --need --shards --blur --without",
    ),
    ("place", ""),
    ("evacuate", "--dry-run"),
    ("backup-desk", "--force"),
    ("restore-desk", "--force"),
    (
        "recover",
        "--to --all --archives --stripes --columns --parity --blur --robust --unbounded --without",
    ),
    ("recover-desk", ""),
    ("audit", ""),
    ("drill", "--hidden --seen"),
    ("verify", ""),
    ("sheet", "--force"),
    ("picture", "--force"),
    ("racks", ""),
    ("completion", ""),
];

/// Its words.
pub fn words<'a>(alloc: Global) -> Result<clap::Command<'a>, AllocError> {
    let about = "Print what a shell needs to complete commands and options";
    command(alloc, "completion", about)?.arg(operand(alloc, "SHELL", "bash or zsh"))
}

/// Prints the text for a shell.
pub fn work(visit: &Visit, words: &ArgMatches) -> Result<u8, Stop> {
    match words.get_str("SHELL").unwrap_or("") {
        "bash" => {}
        "zsh" => println!(visit; "#compdef pots\nautoload -Uz bashcompinit && bashcompinit")?,
        other => {
            let line = format!(in visit.alloc();
                "there is no completion for {other}: give bash or zsh"
            )?;
            return Err(visit.refuse(2, line.as_str()));
        }
    }
    let text = script(visit)?;
    println!(visit; "{text}")?;
    Ok(0)
}

// The function that completes a word, for bash, and for zsh in its way of that.
fn script(visit: &Visit) -> Result<String, Stop> {
    let mut text = String::from_str(
        visit.alloc(),
        "_pots() {\n  local word=\"${COMP_WORDS[COMP_CWORD]}\" list=\"\"\n  if [ \"$COMP_CWORD\" -eq 1 ]; then\n    list=\"-C",
    )?;
    for (name, _) in COMMANDS.iter() {
        text.push_str(" ")?;
        text.push_str(name)?;
    }
    text.push_str(" help --version\"\n  else\n    case \"${COMP_WORDS[1]}\" in\n")?;
    for (name, options) in COMMANDS.iter() {
        text.push_str(format!(in visit.alloc();
            "      {name}) list=\"--json --quiet {options}\" ;;\n"
        )?.as_str())?;
    }
    text.push_str(
        "    esac\n  fi\n  COMPREPLY=($(compgen -W \"$list\" -- \"$word\"))\n}\ncomplete -o default -F _pots pots",
    )?;
    Ok(text)
}
