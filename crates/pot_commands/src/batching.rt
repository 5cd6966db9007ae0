//! The lines of a batch, worked at once.
//!
//! 1. Its moves have begun in the order of the lines (`begin_lines`), before any job does.
//! 2. Each line is a job with passes of its own (`share_out`): jobs wait for one another at turns.
//! 3. The jobs come back in their order, whichever was done first, and so stand their replies.
//! 4. All passes are joined again, also where memory was short (`take_back`).
ghost use Rattle.std.specs.Prelude.{◌≡◌, ◌≢◌, ◌<◌, ◌≤◌, ◌+◌, ◌*◌, ◌^◌, ◌++◌, List, Err};
ghost use Rattle.std.specs.Prelude.{IsTrue, IsErrOf, MatchResult, flat_map, length, take};
ghost use Rattle.std.specs.List.{AllByRecursion};
ghost use Rattle.std.specs.Vec.{vec_capacity};
ghost use Rattle.pot_outside.specs.Counts.{Caused};
ghost use Rattle.pot_replies.specs.Sessions.{Together};
ghost use Rattle.pot_shared.specs.Works.{Known};
ghost use Rattle.pot_work.specs.Works.{AreWorked};
ghost use Rattle.pot_commands.specs.Rows.{HasFilled};
ghost use Rattle.pot_shared.specs.Going.{AllExtend, AllStay};
ghost use Rattle.pot_commands.specs.Failures.{FailsOwn};
ghost use Rattle.pot_commands.specs.Steps.{IsBatched, StepGives, StepLeaves, StepStops};
ghost use Rattle.pot_commands.specs.Begun.{HaveTasks, AreMovesBegun};
ghost use Rattle.pot_shared.specs.Callers.{CanCall, HaveParts};
ghost use Rattle.pot_commands.specs.Sharing.{common_of};
ghost use Rattle.pot_commands.specs.Blinding.{AreJobsBlinded};
ghost use Rattle.pot_commands.specs.Jobs.{JobView, HasPasses, IsJobDone, Did};
ghost use Rattle.pot_commands.specs.Jobs.{AreShared, AllJoined, all_replied, replies_in, tasks_in};
ghost use Rattle.pot_commands.specs.Batches.{BringsNone};
ghost use Rattle.pot_commands.specs.Taking.{AreUsed, Took, asks};

use crate::arriving::Unanswered;
use crate::beginning::{Task, begin_lines};
use crate::line_job::{LineJob, give_line};
use crate::sharing::{Crew, Shared};
use pot_bytes::NoMemory;
use pot_outside::{Archive, Gate, Room};
use pot_script::{Command, Reply};
use pot_shared::{Passes, Vault};
use pot_work::{JobsRefused, together};
use std::sync::Wait;
use std::thread::Threads;

/// Shares the passes out to the lines, each of which is a job with its task.
///
/// # Errors
/// Want of memory: the jobs of the first lines come back, not begun.
fn share_out<'a, A: Archive, X>(
    shared: &Shared<'a, A, X>,
    passes: &mut Passes<A>,
    job: u32,
    lines: &'a [Command],
    tasks: Vec<Task>,
) -> Result<Vec<LineJob<'a, A, X>>, JobsRefused<LineJob<'a, A, X>>>
    requires can { CanCall shared.now.vault.now passes.old }
    requires parts { HaveParts (2 * length lines.now) passes.old }
    requires job { (0 < job) × (job + length lines.now ≤ 2 ^ 31) }
    requires tasks { HaveTasks shared.now.vault.now.rack lines.now tasks.items }
    ensures can { CanCall shared.now.vault.now passes.new }
    ensures shared { let b = common_of shared.now in
        let old = passes.old in let new = passes.new in
        MatchResult result (λ jobs. AreShared b old job lines.now jobs.items new
        × (tasks_in jobs.items ≡ tasks.items))
        (λ r. AreShared b old job (take (length r.jobs.items) lines.now) r.jobs.items new) }
{
    let Ok(mut jobs) = Vec::with_capacity(shared.alloc, lines.len()) else {
        return Err(JobsRefused {
            jobs: Vec::new(shared.alloc),
        });
    };
    let mut tasks = tasks.into_iter();
    for (index, line) in lines.iter().enumerate() {
        let number = job + index as u32;
        let Some(task) = tasks.next() else {
            unreachable!()
        };
        match give_line(shared, passes, number, line, task) {
            Ok(given) => jobs.push_reserved(given),
            Err(NoMemory) => return Err(JobsRefused { jobs }),
        }
    }
    Ok(jobs)
}

/// Works the lines on so many workers.
///
/// # Errors
/// Want of memory, before a job began: the jobs of the first lines come back.
fn work_lines<'a, A: Archive + Send, W: Gate, X: Threads + Wait + Sync>(
    crew: &Crew<'a, A, X, W>,
    passes: &mut Passes<A>,
    job: u32,
    lines: &'a [Command],
    tasks: Vec<Task>,
) -> Result<Vec<LineJob<'a, A, X>>, JobsRefused<LineJob<'a, A, X>>>
    requires can { CanCall crew.now.shared.vault.now passes.old }
    requires parts { HaveParts (2 * length lines.now) passes.old }
    requires job { (0 < job) × (job + length lines.now ≤ 2 ^ 31) }
    requires tasks { HaveTasks crew.now.shared.vault.now.rack lines.now tasks.items }
    requires workers { 0 < crew.now.workers }
    ensures can { CanCall crew.now.shared.vault.now passes.new }
    ensures worked { let b = common_of crew.now.shared in
        let old = passes.old in let new = passes.new in
        MatchResult result
        (λ back. (js : List JobView) × AreShared b old job lines.now js new
        × (tasks_in js ≡ tasks.items)
        × AreWorked IsJobDone Did js back.items)
        (λ r. AreShared b old job (take (length r.jobs.items) lines.now) r.jobs.items new) }
{
    let shared = &crew.shared;
    match share_out(shared, passes, job, lines, tasks) {
        Ok(jobs) => together(shared.rt, shared.alloc, jobs, crew.workers, crew.gate),
        Err(refused) => Err(refused),
    }
}

/// Takes in the passes of jobs, in order, and adds their replies to these, for which there is room.
/// It answers whether each job has a reply.
fn take_back<'a, A: Archive, X>(
    vault: &Vault<A>,
    passes: &mut Passes<A>,
    jobs: Vec<LineJob<'a, A, X>>,
    replies: &mut Vec<Reply>,
) -> bool
    requires can { CanCall vault.now passes.old }
    requires its { AllByRecursion (HasPasses vault.now) jobs.items }
    requires room { length replies.old.items + length jobs.items ≤ vec_capacity replies.old }
    ensures can { CanCall vault.now passes.new }
    ensures joined { AllJoined passes.old jobs.entry.items passes.new }
    ensures replies { replies.new.items ≡ replies.old.items ++ replies_in jobs.entry.items }
    ensures whole { result ≡ all_replied jobs.entry.items }
{
    let mut whole = true;
    let mut jobs = jobs.into_iter();
    while let Some(job) = jobs.next() {
        match job.hand_back(passes) {
            Some(Ok(reply)) => replies.push_reserved(reply),
            _ => whole = false,
        }
    }
    jobs.destroy_empty();
    whole
}

/// Works the lines of a batch, whose moves have begun, at once and on so many workers, and answers
/// their replies in the order of the lines. No archive comes.
///
/// # Errors
/// `NoMemory`, with what each job logs then.
fn work_begun<A: Archive + Send, W: Gate, X: Threads + Wait + Sync>(
    crew: &Crew<'_, A, X, W>,
    passes: &mut Passes<A>,
    job: u32,
    lines: &[Command],
    tasks: Vec<Task>,
) -> Result<Vec<Reply>, NoMemory>
    requires can { CanCall crew.now.shared.vault.now passes.old }
    requires parts { HaveParts (2 * length lines.now) passes.old }
    requires job { (0 < job) × (job + length lines.now ≤ 2 ^ 31) }
    requires tasks { HaveTasks crew.now.shared.vault.now.rack lines.now tasks.items }
    requires workers { 0 < crew.now.workers }
    requires filled { HasFilled crew.now.shared.vault.now.rack passes.old }
    ensures can { CanCall crew.now.shared.vault.now passes.new }
    ensures went { AllExtend passes.old passes.new }
    ensures stays { AllStay passes.old passes.new }
    ensures blinds { AreJobsBlinded (common_of crew.now.shared) passes.old passes.new }
    ensures says { let b = common_of crew.now.shared in let batch = Together lines.now in
        let old = passes.old in let new = passes.new in
        (start : Known) → AreMovesBegun b.vault.rack job lines.now tasks.items start old
        → MatchResult result
        (λ replies. StepGives b.vault.rack b.seed b.session job batch start new replies.items)
        (λ e. StepLeaves b.vault.rack b.seed b.session job batch start new) }
    ensures none { BringsNone passes.old passes.new }
{
    let Ok(mut replies) = Vec::with_capacity(crew.shared.alloc, lines.len()) else {
        return Err(NoMemory);
    };
    match work_lines(crew, passes, job, lines, tasks) {
        Ok(jobs) => {
            if take_back(crew.shared.vault, passes, jobs, &mut replies) {
                Ok(replies)
            } else {
                Err(NoMemory)
            }
        }
        Err(JobsRefused { jobs }) => {
            take_back(crew.shared.vault, passes, jobs, &mut replies);
            Err(NoMemory)
        }
    }
}

/// Works the lines of a batch as jobs numbered from this one on, and answers their replies in the
/// order of the lines. Its moves begin first, in that order, with archives that are taken from the
/// room; then the lines are worked at once, on so many workers.
///
/// # Errors
/// `RoomFailed` exactly where the room failed itself: the moves before have begun then, and nothing
/// else was logged. Or `NoMemory`, with what each job logs then.
pub(crate) fn answer_together<R: Room, W: Gate, X: Threads + Wait + Sync>(
    crew: &Crew<'_, R::A, X, W>,
    passes: &mut Passes<R::A>,
    job: u32,
    lines: &[Command],
    room: &mut R,
) -> Result<Vec<Reply>, Unanswered>
    requires can { CanCall crew.now.shared.vault.now passes.old }
    requires parts { HaveParts (2 * length lines.now) passes.old }
    requires job { (0 < job) × (job + length lines.now ≤ 2 ^ 31) }
    requires batched { AllByRecursion (IsBatched crew.now.shared.vault.now.rack.groups) lines.now }
    requires workers { 0 < crew.now.workers }
    requires filled { HasFilled crew.now.shared.vault.now.rack passes.old }
    requires used { AreUsed (R.meaning room.old) passes.old.groups }
    ensures can { CanCall crew.now.shared.vault.now passes.new }
    ensures went { AllExtend passes.old passes.new }
    ensures stays { AllStay passes.old passes.new }
    ensures blinds { AreJobsBlinded (common_of crew.now.shared) passes.old passes.new }
    ensures says { let b = common_of crew.now.shared in let batch = Together lines.now in
        let old = passes.old in let new = passes.new in
        MatchResult result
        (λ replies. StepGives b.vault.rack b.seed b.session job batch old new replies.items)
        (λ e. StepStops b.vault.rack b.seed b.session job batch old new e) }
    ensures used { AreUsed (R.meaning room.new) passes.new.groups }
    ensures took { Took (IsTrue R.A.account.tells) (result ≢ Err Unanswered.RoomFailed)
        (flat_map asks lines.now)
        (R.meaning room.old) (R.meaning room.new)
        passes.old passes.new }
    ensures cause { Caused (R.meaning room.old).faults (R.meaning room.new).faults
        (IsErrOf result Unanswered.RoomFailed) }
    ensures own { FailsOwn (R.meaning room.old).failures (R.meaning room.new).failures
        (IsErrOf result Unanswered.RoomFailed) }
{
    let tasks = match begin_lines(&crew.shared, passes, job, lines, room) {
        Ok(tasks) => tasks,
        Err(unanswered) => return Err(unanswered),
    };
    match work_begun(crew, passes, job, lines, tasks) {
        Ok(replies) => Ok(replies),
        Err(NoMemory) => Err(Unanswered::NoMemory),
    }
}
