//! Stories of one group of archives, told as text: the lines of standard input, each with what came
//! of it.
//!
//! A story says how a group begins, what becomes of its archives from outside, and which calls are
//! made. So what a group does is read side by side with what it was asked. The archives are in
//! memory and tell no contents, so nothing is claimed here: a story shows by example what the
//! contracts of `pot_group` say of every group. docs/HACKING.md tells how to write one.
//!
//! The whole text is read first. A line that is no step, or stands where it may not, is told by its
//! number, and no story is played.
#![tactic(auto)]

mod archive;
mod calls;
mod entries;
mod failing;
mod lines;
mod looks;
mod outcomes;
mod reading;
mod stage;
mod telling;

use std::io;
use std::process::ExitCode;
use telling::tell;

fn main(rt: HostRuntime) -> io::Result<ExitCode> {
    let alloc = rt.alloc();
    let mut texts = Vec::new(alloc);
    for text in rt.lines(alloc) {
        texts.push(text?)?;
    }
    let told = tell(alloc, &texts)?;
    print!(rt; "{}", told.text)?;
    Ok(if told.refused {
        ExitCode::from(1)
    } else {
        ExitCode::from(0)
    })
}
