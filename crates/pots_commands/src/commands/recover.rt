//! `recover`: files that are got back without the desk.
ghost use Rattle.std.specs.Prelude.{◌≡◌, ℕ, false};
ghost use Rattle.std.specs.Ordering.{nat_cmp};
ghost use Rattle.std.specs.BTreeSet.{contains};

use crate::program::{Program, Sessions};
use crate::session::words_of;
use crate::words::{command, option, switch};
use clap::ArgMatches;
use pot_remnants::{Remains, Survey, no_tallies};
use pot_report::{Found, read_found};
use pots_remains::{
    Given, Reach, hidden_of, reach_of, reason, tell_gone, tell_nothing, tell_tallies, write_all,
};
use pots_vault::{Stop, Visit, make_folder};
use std::alloc::{AllocError, Global};
use std::sync::Wait;
use std::thread::Threads;

/// Its words.
pub fn words<'a>(alloc: Global) -> Result<clap::Command<'a>, AllocError> {
    let about = "Get files back from the blocks alone, without the desk";
    command(alloc, "recover", about)?
        .arg(option(alloc, "to", "FOLDER", "Write the files into this folder").required(true))?
        .arg(option(
            alloc,
            "archives",
            "N",
            "Read archives 0 to N - 1; all that are here where it is left out",
        ))?
        .arg(option(
            alloc,
            "stripes",
            "Z",
            "Read so many blocks of each; all where it is left out",
        ))?
        .arg(option(
            alloc,
            "blur",
            "B",
            "The low bits that pointers leave out; as the first block says where it is left out",
        ))?
        .arg(switch(
            alloc,
            "robust",
            "Bear wrong shares, where there are more than enough",
        ))?
        .arg(option(
            alloc,
            "without",
            "ARCHIVES",
            "Leave these archives out, as 4,5: their blocks are made anew where the others give them",
        ))?
        .arg(option(
            alloc,
            "columns",
            "C",
            "Data archives of a group, by which a missing one is made anew; as the blocks say where it is left out",
        ))?
        .arg(option(
            alloc,
            "parity",
            "P",
            "Parity archives of a group; as the blocks say where it is left out",
        ))?
        .arg(switch(
            alloc,
            "unbounded",
            "Follow up to 4,000,000 ways to read the blocks, which may take hours",
        ))?
        .arg(switch(
            alloc,
            "all",
            "Read rings within one archive too, which no store lays, and which may be forged",
        ))
}

/// Gets files back from the blocks alone.
pub fn work<X: Threads + Wait + Sync, P: Program>(
    sessions: &Sessions<'_, X, P>,
    visit: &mut Visit,
    words: &ArgMatches,
) -> Result<u8, Stop> {
    let survey = Survey::of(&visit.rt, &visit.without)?;
    let reach = reach_of(visit, &given_in(words), &survey)?;
    let folder = words.get_str("to").unwrap_or(".");
    make_folder(visit, folder)?;
    let complete = tell_gone(visit, &survey, reach)?;
    let line = recover_line(visit, words, reach)?;
    let (apart, hidden) = hidden_of(visit, &survey, reach, words.get_flag("all"))?;
    let tallies = no_tallies(&visit.rt, reach.archives)?;
    let room = Remains::new(&visit.rt, "pots", survey, reach.shape, tallies, hidden);
    let (status, found, room) = read_all(sessions, visit, line.as_str(), room)?;
    let sound = tell_tallies(visit, &room)?;
    if found.is_empty() {
        tell_nothing(visit);
        return Ok(1);
    }
    let good = write_all(visit, folder, found, (&room, reach))?;
    Ok(if complete && apart && sound && good {
        status
    } else {
        1
    })
}

fn given_in<'a>(words: &'a ArgMatches) -> Given<'a> {
    Given {
        archives: words.get_str("archives"),
        stripes: words.get_str("stripes"),
        blur: words.get_str("blur"),
        columns: words.get_str("columns"),
        parity: words.get_str("parity"),
    }
}

fn recover_line(visit: &Visit, words: &ArgMatches, reach: Reach) -> Result<String, Stop> {
    let Reach {
        archives,
        stripes,
        blur,
        ..
    } = reach;
    let mut line = format!(in visit.alloc();
        "recover --archives {archives} --stripes {stripes} --blur {blur}"
    )?;
    if words.get_flag("robust") {
        line.push_str(" --robust yes")?;
    }
    if !words.get_flag("unbounded") {
        line.push_str(" --bounded yes")?;
    }
    Ok(line)
}

// What the blocks give, the status of the reading, and the archives as they were read. None of
// them is out.
fn read_all<X: Threads + Wait + Sync, P: Program>(
    sessions: &Sessions<'_, X, P>,
    visit: &mut Visit,
    line: &str,
    mut room: Remains,
) -> Result<(u8, Vec<Found>, Remains), Stop>
    requires home { (n : ℕ) → contains nat_cmp room.out n ≡ false }
{
    let words = words_of(visit.alloc(), line)?;
    let ran = sessions
        .program
        .read(sessions.turns, visit, &words, &mut room)?;
    if ran.status > 1 {
        return Err(visit.refuse(ran.status, reason(ran.status)));
    }
    match read_found(visit.alloc(), &ran.written)? {
        Some(found) => Ok((ran.status, found, room)),
        None => Err(visit.refuse(
            5,
            "what was recovered was not understood: pots and potshards are of different versions",
        )),
    }
}
