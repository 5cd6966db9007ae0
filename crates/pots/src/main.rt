//! The program for people who keep things in an archive: the commands of `pots_commands`, over the
//! sessions of `pot_session`.
//!
//! What a session does is the contract of `run`; of what this program writes and prints nothing is
//! claimed but safety.
#![tactic(auto)]

ghost use Rattle.std.specs.Prelude.{◌≡◌, ℕ, false};
ghost use Rattle.std.specs.Ordering.{nat_cmp};
ghost use Rattle.std.specs.BTreeSet.{contains};
ghost use Rattle.std.specs.Thread.{IsSync};

use pot_doubles::{MemSink, MemSource};
use pot_files::{Folder, NoGate};
use pot_remnants::Remains;
use pot_session::run;
use pots_commands::{Program, Ran, Sessions, answer};
use pots_vault::Visit;
use std::alloc::AllocError;
use std::process::ExitCode;
use std::sync::Wait;
use std::thread::Threads;

/// The program of sessions: `run`, over objects in memory for its source and sink.
#[derive(Drop)]
struct Run;

impl Program for Run {
    fn call<X: Threads + Wait + Sync>(
        &self,
        turns: &X,
        visit: &mut Visit,
        words: &[String],
        given: ([u8; 32], Vec<u8>),
    ) -> Result<Ran, AllocError>
        requires shared { IsSync X.row }
    {
        let alloc = visit.alloc();
        let (seed, input) = given;
        let mut source = MemSource::new(input, Vec::new(alloc));
        let mut sink = MemSink::new(alloc, Vec::new(alloc));
        let mut room = Folder::new(&visit.rt);
        let status = run(
            turns,
            alloc,
            words,
            seed,
            &mut source,
            &mut sink,
            &mut room,
            &mut visit.desk,
            &NoGate,
        );
        let written = sink.written().to_vec(alloc)?;
        Ok(Ran { status, written })
    }

    fn read<X: Threads + Wait + Sync>(
        &self,
        turns: &X,
        visit: &mut Visit,
        words: &[String],
        room: &mut Remains,
    ) -> Result<Ran, AllocError>
        requires shared { IsSync X.row }
        requires home { (n : ℕ) → contains nat_cmp room.old.out n ≡ false }
    {
        let alloc = visit.alloc();
        let mut source = MemSource::new(Vec::new(alloc), Vec::new(alloc));
        let mut sink = MemSink::new(alloc, Vec::new(alloc));
        // No random bytes are needed to read.
        let seed = [0; 32];
        let status = run(
            turns,
            alloc,
            words,
            seed,
            &mut source,
            &mut sink,
            room,
            &mut visit.desk,
            &NoGate,
        );
        let written = sink.written().to_vec(alloc)?;
        Ok(Ran { status, written })
    }
}

fn main(rt: HostRuntime) -> ExitCode {
    let sessions = Sessions {
        turns: &rt,
        program: Run,
    };
    ExitCode::from(answer(&rt, &sessions))
}
