//! The words of the command line.

use crate::commands::{
    audit, backup_desk, cat, check, completion, diff, drill, evacuate, fetch, find, init, list,
    migrate, picture, place, recover, recover_desk, renew, repair, replace, restore_desk, sheet,
    status, store, verify,
};
use crate::racks::adding;
use clap::{Arg, ArgAction, Command};
use std::alloc::{AllocError, Global};

/// The version of the programs.
const VERSION: &str = "0.2.0";

/// The program's command line.
pub fn program<'a>(alloc: Global) -> Result<Command<'a>, AllocError> {
    let program = Command::new(alloc, "pots")
        .version(VERSION)
        .about("Keeps files in archives of which no few tell anything, without a key")
        .after_help("pots works on the archive in the folder in which it is started. See pots(1).")
        .arg_required_else_help(true)
        .arg(vault(alloc))?
        .subcommand(init::words(alloc)?)?
        .subcommand(store::words(alloc)?)?
        .subcommand(fetch::words(alloc)?)?
        .subcommand(list::words(alloc)?)?
        .subcommand(cat::words(alloc)?)?
        .subcommand(find::words(alloc)?)?
        .subcommand(diff::words(alloc)?)?
        .subcommand(status::words(alloc)?)?;
    add_tending(alloc, program)
}

// Adds the commands that look after archives.
fn add_tending<'a>(alloc: Global, program: Command<'a>) -> Result<Command<'a>, AllocError> {
    program
        .subcommand(check::words(alloc)?)?
        .subcommand(repair::words(alloc)?)?
        .subcommand(replace::words(alloc)?)?
        .subcommand(migrate::words(alloc)?)?
        .subcommand(renew::words(alloc)?)?
        .subcommand(place::words(alloc)?)?
        .subcommand(evacuate::words(alloc)?)?
        .subcommand(backup_desk::words(alloc)?)?
        .subcommand(recover::words(alloc)?)?
        .subcommand(recover_desk::words(alloc)?)?
        .subcommand(audit::words(alloc)?)?
        .subcommand(drill::words(alloc)?)?
        .subcommand(verify::words(alloc)?)?
        .subcommand(restore_desk::words(alloc)?)?
        .subcommand(sheet::words(alloc)?)?
        .subcommand(picture::words(alloc)?)?
        .subcommand(adding::words(alloc)?)?
        .subcommand(completion::words(alloc)?)
}

// The folder of the vault.
fn vault<'a>(alloc: Global) -> Arg<'a> {
    Arg::new(alloc, "vault")
        .short('C')
        .action(ArgAction::Set)
        .value_name("FOLDER")
        .help("Work as if it was started in this folder; the variable POTS_VAULT names one too")
}

/// A switch.
pub fn switch<'a>(alloc: Global, name: &'a str, help: &'a str) -> Arg<'a> {
    Arg::new(alloc, name)
        .long(name)
        .action(ArgAction::SetTrue)
        .help(help)
}

/// An option with a value.
pub fn option<'a>(alloc: Global, name: &'a str, value: &'a str, help: &'a str) -> Arg<'a> {
    Arg::new(alloc, name)
        .long(name)
        .action(ArgAction::Set)
        .value_name(value)
        .help(help)
}

/// A word that has to be there.
pub fn operand<'a>(alloc: Global, name: &'a str, help: &'a str) -> Arg<'a> {
    Arg::new(alloc, name)
        .required(true)
        .action(ArgAction::Set)
        .help(help)
}

/// Words of which one at least has to be there.
pub fn operands<'a>(alloc: Global, name: &'a str, help: &'a str) -> Arg<'a> {
    Arg::new(alloc, name)
        .required(true)
        .action(ArgAction::Append)
        .num_args(1..)
        .help(help)
}

/// A command over the archive of the folder.
pub fn command<'a>(
    alloc: Global,
    name: &'a str,
    about: &'a str,
) -> Result<Command<'a>, AllocError> {
    Command::new(alloc, name)
        .about(about)
        .arg(switch(alloc, "json", "Tell what comes of it as lines of JSON"))?
        .arg(switch(
            alloc,
            "quiet",
            "Print nothing on standard output; what fails is still told",
        ))
}

/// A command that holds sessions.
pub fn session_command<'a>(
    alloc: Global,
    name: &'a str,
    about: &'a str,
) -> Result<Command<'a>, AllocError> {
    let help =
        "Go on without these archives, as 4,5: what they hold counts as lost until it is mended";
    command(alloc, name, about)?.arg(option(alloc, "without", "ARCHIVES", help))
}

/// A command that fetches, by a session or without one.
pub fn reading_command<'a>(
    alloc: Global,
    name: &'a str,
    about: &'a str,
) -> Result<Command<'a>, AllocError> {
    let help =
        "Hold no session: read over what is mounted, mark nothing as lost, and leave the vault as it is";
    session_command(alloc, name, about)?.arg(switch(alloc, "read-only", help))
}

/// Numbers of groups, all where there are none.
pub fn groups<'a>(alloc: Global) -> Arg<'a> {
    Arg::new(alloc, "GROUP")
        .action(ArgAction::Append)
        .num_args(0..)
        .help("The numbers of groups; all where none is given")
}
