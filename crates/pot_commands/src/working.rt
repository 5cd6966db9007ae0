//! The steps of a script, one after another.
ghost use Rattle.std.specs.Prelude.{◌≡◌, ◌≢◌, ◌<◌, ◌≤◌, ◌+◌, ◌^◌, Err};
ghost use Rattle.std.specs.Prelude.{IsTrue, IsErrOf, MatchResult};
ghost use Rattle.std.specs.List.{AllByRecursion};
ghost use Rattle.pot_outside.specs.Accounts.{Faults, transition};
ghost use Rattle.pot_outside.specs.Counts.{Caused};
ghost use Rattle.pot_replies.specs.Sessions.{jobs_in};
ghost use Rattle.pot_shared.specs.Callers.{CanCall, HaveParts};
ghost use Rattle.pot_commands.specs.Sharing.{common_of};
ghost use Rattle.pot_commands.specs.Blinding.{AreJobsBlinded};
ghost use Rattle.pot_commands.specs.Failures.{FailsOwn};
ghost use Rattle.pot_commands.specs.Rows.{HasFilled};
ghost use Rattle.pot_commands.specs.Ones.{OneEnds};
ghost use Rattle.pot_shared.specs.Going.{AllExtend, AllStay};
ghost use Rattle.pot_commands.specs.Steps.{IsWorkedStep, StepGives, StepStops, step_of};
ghost use Rattle.pot_commands.specs.Ends.{Ends, next_job};
ghost use Rattle.pot_commands.specs.Taking.{AreUsed, Took, asked_by, asks_in};

use crate::answering::answer;
use crate::arriving::Unanswered;
use crate::batching::answer_together;
use crate::output::{has_refusal, print_replies, write_out};
use crate::sharing::Crew;
use pot_bytes::NoMemory;
use pot_outside::{Failed, Gate, Room, Sink};
use pot_script::{Reply, Step};
use pot_shared::Passes;
use std::sync::Wait;
use std::thread::Threads;

/// How the steps of a script ended.
#[derive(Clone, Copy, PartialEq, Eq, Debug)]
pub enum Ending {
    /// All have their replies, and some reply is a refusal or none is.
    Done { refused: bool },
    SinkFailed,
    /// The room did not give an archive that a command asked for, or did not take it back.
    RoomFailed,
    NoMemory,
}

/// Works a step: the jobs of a batch at once, each of which has one reply.
fn answer_step<R: Room, W: Gate, X: Threads + Wait + Sync>(
    crew: &Crew<'_, R::A, X, W>,
    passes: &mut Passes<R::A>,
    job: u32,
    step: &Step,
    room: &mut R,
) -> Result<Vec<Reply>, Unanswered>
    requires can { CanCall crew.now.shared.vault.now passes.old }
    requires parts { HaveParts 2048 passes.old }
    requires job { (0 < job) × (job + jobs_in (step_of step.now) ≤ 2 ^ 31) }
    requires workers { 0 < crew.now.workers }
    requires worked { IsWorkedStep crew.now.shared.vault.now.rack.groups step.now }
    requires filled { HasFilled crew.now.shared.vault.now.rack passes.old }
    requires used { AreUsed (R.meaning room.old) passes.old.groups }
    ensures can { CanCall crew.now.shared.vault.now passes.new }
    ensures went { AllExtend passes.old passes.new }
    ensures stays { AllStay passes.old passes.new }
    ensures blinds { AreJobsBlinded (common_of crew.now.shared) passes.old passes.new }
    ensures says { let b = common_of crew.now.shared in let its = step_of step.now in
        let old = passes.old in let new = passes.new in
        MatchResult result
        (λ replies. StepGives b.vault.rack b.seed b.session job its old new replies.items)
        (λ e. StepStops b.vault.rack b.seed b.session job its old new e) }
    ensures used { AreUsed (R.meaning room.new) passes.new.groups }
    ensures took { Took (IsTrue R.A.account.tells) (result ≢ Err Unanswered.RoomFailed)
        (asks_in step.now)
        (R.meaning room.old) (R.meaning room.new)
        passes.old passes.new }
    ensures cause { Caused (R.meaning room.old).faults (R.meaning room.new).faults
        (IsErrOf result Unanswered.RoomFailed) }
    ensures own { FailsOwn (R.meaning room.old).failures (R.meaning room.new).failures
        (IsErrOf result Unanswered.RoomFailed) }
{
    match step {
        Step::One(command) => answer(&crew.shared, passes, job, command, room),
        Step::Together(lines) => answer_together(crew, passes, job, lines.as_slice(), room),
    }
}

/// Works a step, and then writes its replies. It answers whether one of them is a refusal, or how
/// the steps end at it.
fn work_one<K: Sink, R: Room, W: Gate, X: Threads + Wait + Sync>(
    crew: &Crew<'_, R::A, X, W>,
    passes: &mut Passes<R::A>,
    job: u32,
    step: &Step,
    sink: &mut K,
    room: &mut R,
) -> Result<bool, Ending>
    requires can { CanCall crew.now.shared.vault.now passes.old }
    requires parts { HaveParts 2048 passes.old }
    requires job { (0 < job) × (job + jobs_in (step_of step.now) ≤ 2 ^ 31) }
    requires workers { 0 < crew.now.workers }
    requires worked { IsWorkedStep crew.now.shared.vault.now.rack.groups step.now }
    requires filled { HasFilled crew.now.shared.vault.now.rack passes.old }
    requires used { AreUsed (R.meaning room.old) passes.old.groups }
    ensures can { CanCall crew.now.shared.vault.now passes.new }
    ensures went { AllExtend passes.old passes.new }
    ensures stays { AllStay passes.old passes.new }
    ensures blinds { AreJobsBlinded (common_of crew.now.shared) passes.old passes.new }
    ensures ends { let b = common_of crew.now.shared in
        OneEnds b.vault.rack b.seed b.session job (step_of step.now)
        passes.old passes.new
        (transition K.account sink.old sink.new) result }
    ensures used { AreUsed (R.meaning room.new) passes.new.groups }
    ensures took { Took (IsTrue R.A.account.tells) (result ≢ Err Ending.RoomFailed)
        (asks_in step.now)
        (R.meaning room.old) (R.meaning room.new)
        passes.old passes.new }
    ensures sink { Faults K.account sink.old sink.new
        (IsErrOf result Ending.SinkFailed) }
    ensures room { Caused (R.meaning room.old).faults (R.meaning room.new).faults
        (IsErrOf result Ending.RoomFailed) }
    ensures own { FailsOwn (R.meaning room.old).failures (R.meaning room.new).failures
        (IsErrOf result Ending.RoomFailed) }
{
    let answered = answer_step(crew, passes, job, step, room);
    let replies = match answered {
        Ok(replies) => replies,
        Err(Unanswered::RoomFailed) => return Err(Ending::RoomFailed),
        Err(Unanswered::NoMemory) => return Err(Ending::NoMemory),
    };
    let text = match print_replies(crew.shared.alloc, &replies) {
        Ok(text) => text,
        Err(NoMemory) => return Err(Ending::NoMemory),
    };
    match write_out(sink, &text) {
        Ok(()) => Ok(has_refusal(&replies)),
        Err(Failed) => Err(Ending::SinkFailed),
    }
}

/// How many jobs a step has.
fn jobs_in(step: &Step) -> u32
    requires { jobs_in (step_of step.now) ≤ 2 ^ 31 }
    ensures { result ≡ jobs_in (step_of step.now) }
{
    match step {
        Step::One(_) => 1,
        Step::Together(lines) => lines.as_slice().len() as u32,
    }
}

/// Works the steps of a script in order over a vault, and writes the replies of each after it.
/// Their jobs are numbered from 1 in the order of the lines, and take the archives that they ask
/// for from the room. It ends at the first reply that can't be written, where the room fails and
/// where memory runs out.
pub fn work<K: Sink, R: Room, W: Gate, X: Threads + Wait + Sync>(
    crew: &Crew<'_, R::A, X, W>,
    passes: &mut Passes<R::A>,
    steps: &[Step],
    sink: &mut K,
    room: &mut R,
) -> Ending
    requires can { CanCall crew.now.shared.vault.now passes.old }
    requires parts { HaveParts 2048 passes.old }
    requires few { next_job steps.now ≤ 2 ^ 31 }
    requires workers { 0 < crew.now.workers }
    requires filled { HasFilled crew.now.shared.vault.now.rack passes.old }
    requires worked { let rack = crew.now.shared.vault.now.rack in
        AllByRecursion (IsWorkedStep rack.groups) steps.now }
    requires used { AreUsed (R.meaning room.old) passes.old.groups }
    ensures can { CanCall crew.now.shared.vault.now passes.new }
    ensures went { AllExtend passes.old passes.new }
    ensures stays { AllStay passes.old passes.new }
    ensures blinds { AreJobsBlinded (common_of crew.now.shared) passes.old passes.new }
    ensures took { Took (IsTrue R.A.account.tells) (result ≢ Ending.RoomFailed)
        (asked_by steps.now)
        (R.meaning room.old) (R.meaning room.new)
        passes.old passes.new }
    ensures ends { let b = common_of crew.now.shared in
        Ends b.vault.rack b.seed b.session
        (transition K.account sink.old sink.new) steps.now
        passes.old passes.new result }
    ensures sink { Faults K.account sink.old sink.new (result ≡ Ending.SinkFailed) }
    ensures room { Caused (R.meaning room.old).faults (R.meaning room.new).faults
        (result ≡ Ending.RoomFailed) }
    ensures own { FailsOwn (R.meaning room.old).failures (R.meaning room.new).failures
        (result ≡ Ending.RoomFailed) }
{
    let mut refused = false;
    let mut job = 1;
    for step in steps {
        match work_one(crew, passes, job, step, sink, room) {
            Ok(some) => refused |= some,
            Err(ending) => return ending,
        }
        job += jobs_in(step);
    }
    Ending::Done { refused }
}
