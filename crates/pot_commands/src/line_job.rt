//! A line of a batch, as a job for a worker.
ghost use Rattle.std.specs.Prelude.{◌≡◌, ◌<◌, ◌^◌, IfOk, IfErr, Some};
ghost use Rattle.pot_rows.specs.Rows.{HasMoreParts};
ghost use Rattle.pot_rows.specs.Parts.{RowCut};
ghost use Rattle.pot_shared.specs.Sharing.{SamePasses};
ghost use Rattle.pot_replies.specs.Settings.{Setting};
ghost use Rattle.pot_shared.specs.Works.{JobWroteOnly, JobOnlyWriter, section_of};
ghost use Rattle.pot_commands.specs.Begun.{HasTask};
ghost use Rattle.pot_commands.specs.Blinding.{HasBlinds};
ghost use Rattle.pot_commands.specs.Rows.{IsSessionSetting};
ghost use Rattle.pot_shared.specs.Callers.{CanCall, HaveParts};
ghost use Rattle.pot_commands.specs.Sharing.{common_of};
ghost use Rattle.pot_commands.specs.Jobs.{IsJobGiven, Says};

use crate::answering::answer_one;
use crate::beginning::Task;
use crate::moving::move_reply;
use crate::sharing::Shared;
use pot_bytes::NoMemory;
use pot_mend::migrate;
use pot_outside::Archive;
use pot_script::{Command, Reply};
use pot_shared::{Caller, Connection, Passes};
use pot_work::Job;
use std::marker::Model;
use std::mem::replace;
use std::sync::Wait;

/// A line with its task and passes of its own, and its answer once it is worked. What is not worked
/// yet can be: its type keeps that.
#[derive(Drop)]
pub struct LineJob<'a, A: Archive, R> {
    connection: Connection<'a, A, R>,
    seed: &'a [u8; 32],
    session: u32,
    line: &'a Command,
    task: Task,
    answer: Option<Result<Reply, NoMemory>>,
}

impl<'a, A: Archive, R> Model for LineJob<'a, A, R> {
    ghost use Rattle.pot_shared.specs.Connections.{bound, job_of, knows};
    ghost use Rattle.pot_commands.specs.Sharing.{common};
    ghost use Rattle.pot_commands.specs.Jobs.{JobView, CanWork, job_view};

    ghost Value = { JobView };

    ghost view = { λ j. job_view (common (bound j.connection).vault j.seed.now j.session)
        (knows j.connection) (job_of j.connection) j.line.now j.task j.answer };

    ghost invariant = { λ j. CanWork
        (job_view (common (bound j.connection).vault j.seed.now j.session)
        (knows j.connection) (job_of j.connection) j.line.now j.task j.answer) };
}

impl<'a, A: Archive, R: Wait> Job for LineJob<'a, A, R> {
    ghost use Rattle.pot_commands.specs.Jobs.{IsJobDone, Did};

    ghost done = { IsJobDone };

    ghost related = { Did };

    fn work(&mut self) {
        let task = replace(&mut self.task, Task::Line);
        let connection = &mut self.connection;
        let Caller {
            rt,
            alloc,
            vault,
            job,
        } = connection.caller();
        let shared = Shared {
            rt,
            alloc,
            vault,
            seed: self.seed,
            session: self.session,
        };
        let answer = answer_task(&shared, &mut connection.passes, job, self.line, task);
        self.answer = Some(answer);
    }
}

/// Does the task of a line: works it, or carries its move on to the end, or has its reply.
///
/// # Errors
/// Want of memory, at a line that moves nothing, with what it logs then.
fn answer_task<A: Archive, X: Wait>(
    shared: &Shared<'_, A, X>,
    passes: &mut Passes<A>,
    job: u32,
    line: &Command,
    task: Task,
) -> Result<Reply, NoMemory>
    requires can { CanCall shared.now.vault.now passes.old }
    requires parts { HasMoreParts 1 passes.old.groups }
    requires job { (0 < job) × (job < 2 ^ 31) }
    requires fits { HasTask shared.now.vault.now.rack line.now task }
    ensures can { CanCall shared.now.vault.now passes.new }
    ensures worked { JobWroteOnly job passes.old passes.new }
    ensures blinds { HasBlinds (common_of shared.now) job line.now
        passes.old.groups passes.new.groups }
    ensures says { let old = passes.old in let new = passes.new in
        JobOnlyWriter job old new → (s : Setting)
        → IsSessionSetting s shared.now.vault.now.rack shared.now.seed.now shared.now.session old
        → Says s job line.now task (Some result) (section_of old new) }
{
    match task {
        Task::Line => answer_one(shared, passes, job, line),
        Task::Move { at } => {
            let Command::Migrate { from, to } = line else {
                unreachable!()
            };
            let Shared { rt, vault, .. } = *shared;
            let moved = migrate(rt, vault, passes, at.group, job, at.column);
            Ok(move_reply(*from, *to, moved))
        }
        Task::Told { reply } => Ok(reply),
    }
}

impl<'a, A: Archive, R> LineJob<'a, A, R> {
    ghost use Rattle.std.specs.Prelude.{◌≡◌};
    ghost use Rattle.pot_rows.specs.Parts.{RowJoined};
    ghost use Rattle.pot_shared.specs.Callers.{CanCall};

    /// Lets these passes take in its own, and hands out its answer.
    pub(crate) fn hand_back(self, passes: &mut Passes<A>) -> Option<Result<Reply, NoMemory>>
        requires can { CanCall self.common.vault passes.old }
        requires its { CanCall self.common.vault self.passes }
        ensures can { CanCall self.entry.common.vault passes.new }
        ensures joined { RowJoined passes.old.groups self.entry.passes.groups passes.new.groups }
        ensures joined_index { RowJoined passes.old.index self.entry.passes.index passes.new.index }
        ensures answer { result ≡ self.entry.answer }
    {
        let LineJob {
            connection,
            answer,
            ..
        } = self;
        let vault = connection.caller().vault;
        vault.join(passes, connection.end());
        answer
    }
}

/// The job of a line with its task. Its passes have two parts of each turn, one of which a tie may
/// lend.
///
/// # Errors
/// Want of memory alone; each pass is then as it was.
pub(crate) fn give_line<'a, A: Archive, X>(
    shared: &Shared<'a, A, X>,
    passes: &mut Passes<A>,
    job: u32,
    line: &'a Command,
    task: Task,
) -> Result<LineJob<'a, A, X>, NoMemory>
    requires can { CanCall shared.now.vault.now passes.old }
    requires parts { HaveParts 2 passes.old }
    requires job { (0 < job) × (job < 2 ^ 31) }
    requires fits { HasTask shared.now.vault.now.rack line.now task }
    ensures can { CanCall shared.now.vault.now passes.new }
    ensures given { IfOk result (λ j.
        IsJobGiven (common_of shared.now) passes.old job line.now j) }
    ensures task { IfOk result (λ j. j.task ≡ task) }
    ensures left { IfOk result (λ _. RowCut 2 passes.old.groups passes.new.groups
        × RowCut 2 passes.old.index passes.new.index) }
    ensures refused { IfErr result (λ _. SamePasses passes.old.groups passes.new.groups
        × SamePasses passes.old.index passes.new.index) }
{
    match shared.vault.split(shared.alloc, passes, 2) {
        Ok(given) => Ok(LineJob {
            connection: Connection::new(shared.rt, shared.alloc, shared.vault, given, job),
            seed: shared.seed,
            session: shared.session,
            line,
            task,
            answer: None,
        }),
        Err(_) => Err(NoMemory),
    }
}
