//! The names that are published, and how each group stands.
ghost use Rattle.std.specs.Prelude.{◌≡◌, ◌<◌, IsTrue, MatchResult, length};
ghost use Rattle.pot_replies.specs.Settings.{Setting};
ghost use Rattle.pot_replies.specs.Sections.{mine, IsSilent};
ghost use Rattle.pot_shared.specs.Works.{JobWroteOnly, JobOnlyWriter, IsSettingOf, section_of};
ghost use Rattle.pot_shared.specs.Callers.{CanCall};
ghost use Rattle.pot_shared.specs.Connections.{TellsIfOnlyWriter, WroteForItsJob, knows};
ghost use Rattle.pot_commands.specs.Rows.{IsListReply, AreStatusReplies};
ghost use Rattle.pot_commands.specs.Counting.{CountsLine};

use crate::sharing::Shared;
use pot_bytes::NoMemory;
use pot_group::LogFull;
use pot_index::ListFault;
use pot_outside::Archive;
use pot_script::{NameList, Reply};
use pot_shared::{Connection, Passes};
use std::sync::Wait;

/// Answers the published names.
///
/// # Errors
/// `NoMemory`; nothing was logged then.
pub(crate) fn list_names<A: Archive, X: Wait>(
    connection: &mut Connection<'_, A, X>,
) -> Result<Reply, NoMemory>
    ensures groups { (knows connection.new).groups ≡ (knows connection.old).groups }
    ensures worked { WroteForItsJob connection.old connection.new }
    ensures says { TellsIfOnlyWriter (λ b s w. MatchResult result (λ reply. IsListReply s b.job reply w)
        (λ e. IsSilent (mine b.job w))) connection.old connection.new }
{
    match connection.names() {
        Ok(names) => Ok(Reply::Names {
            names: NameList::from_vec(names),
        }),
        Err(ListFault::LogFull) => Ok(Reply::IndexLogFull),
        Err(ListFault::NoMemory) => Err(NoMemory),
    }
}

/// Answers how a group stands.
fn count_group<A: Archive, X: Wait>(
    shared: &Shared<'_, A, X>,
    passes: &mut Passes<A>,
    group: u8,
    job: u32,
) -> Reply
    requires can { CanCall shared.now.vault.now passes.old }
    requires group { group < length shared.now.vault.now.groups }
    requires job { 0 < job }
    ensures can { CanCall shared.now.vault.now passes.new }
    ensures index { passes.new.index ≡ passes.old.index }
    ensures counts { CountsLine (IsTrue A.account.tells) job group result
        passes.old.groups passes.new.groups }
{
    match shared.vault.count(shared.rt, passes, group, job) {
        Ok(counts) => Reply::Group {
            group,
            live: counts.live,
            lost: counts.lost,
            broken: counts.broken,
            stripe: counts.stripe,
            column: counts.column,
        },
        Err(LogFull) => Reply::LogFull { group },
    }
}

/// Answers how each group stands, in the order of their numbers.
///
/// # Errors
/// `NoMemory`; nothing was logged then.
pub(crate) fn count_groups<A: Archive, X: Wait>(
    shared: &Shared<'_, A, X>,
    passes: &mut Passes<A>,
    job: u32,
) -> Result<Vec<Reply>, NoMemory>
    requires can { CanCall shared.now.vault.now passes.old }
    requires job { 0 < job }
    ensures can { CanCall shared.now.vault.now passes.new }
    ensures index { passes.new.index ≡ passes.old.index }
    ensures worked { JobWroteOnly job passes.old passes.new }
    ensures says { let old = passes.old in let new = passes.new in
        JobOnlyWriter job old new → (s : Setting) → IsSettingOf s shared.now.vault.now.rack old
        → MatchResult result (λ replies. AreStatusReplies s job replies.items (section_of old new))
        (λ e. IsSilent (mine job (section_of old new))) }
{
    let groups = shared.vault.rack().groups;
    let mut replies = Vec::with_capacity(shared.alloc, groups as usize)?;
    for group in 0..groups {
        let reply = count_group(shared, passes, group, job);
        replies.push_reserved(reply);
    }
    Ok(replies)
}
