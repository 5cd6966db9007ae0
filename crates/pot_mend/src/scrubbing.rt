//! The scrub of a group.
ghost use Rattle.std.specs.Prelude.{◌≡◌, ◌<◌, length};
ghost use Rattle.pot_rows.specs.Works.{RowWroteOnlyFor, RowOnlyWriterOf};
ghost use Rattle.pot_replies.specs.Settings.{Setting};
ghost use Rattle.pot_shared.specs.Ready.{AreReady};
ghost use Rattle.pot_shared.specs.Works.{of_job, known, section_of, IsSettingOf};
ghost use Rattle.pot_mend.specs.Scrubs.{ScrubRow};

use crate::fault::MendFault;
use pot_bytes::Place;
use pot_group::Reached;
use pot_outside::Archive;
use pot_shared::{Passes, Vault};
use std::sync::Wait;

/// What a scrub saw: how many slots had their block, and of how many it is gone.
#[derive(Clone, Copy, PartialEq, Eq, Debug)]
pub struct Scrubbed {
    pub seen: u32,
    pub gone: u32,
}

/// Looks at the Live slots of a group, in order of stripe and column, at each once. A slot that is
/// Live all the time is among them; one that turns Live or Lost meanwhile may be; and each was Live
/// before it was looked at.
///
/// # Errors
/// At the first look that fails, or that the log has no room for.
pub fn scrub_group<A: Archive, R: Wait>(
    rt: &R,
    vault: &Vault<A>,
    passes: &mut Passes<A>,
    group: u8,
    job: u32,
) -> Result<Scrubbed, MendFault>
    requires ready { AreReady vault.now.rack vault.now.groups passes.old.groups }
    requires group { group < length vault.now.groups }
    requires job { 0 < job }
    ensures ready { AreReady vault.now.rack vault.now.groups passes.new.groups }
    ensures index { passes.new.index ≡ passes.old.index }
    ensures worked { RowWroteOnlyFor (of_job job) passes.old.groups passes.new.groups }
    ensures says { RowOnlyWriterOf (of_job job) passes.old.groups passes.new.groups
        → (s : Setting) → IsSettingOf s vault.now.rack (known passes.old.groups passes.old.index)
        → ScrubRow s job group result
        (section_of (known passes.old.groups passes.old.index)
        (known passes.new.groups passes.new.index)) }
{
    let mut scrubbed = Scrubbed { seen: 0, gone: 0 };
    let mut from = Place {
        group,
        column: 0,
        stripe: 0,
    };
    'sweeps: loop {
        let swept = vault.sweep(rt, passes, job, from);
        scrubbed.seen += swept.seen;
        scrubbed.gone += swept.gone;
        match swept.reached {
            Reached::End => return Ok(scrubbed),
            Reached::Slot { stripe, column } => {
                from.stripe = stripe;
                from.column = column + 1;
            }
            Reached::Faulted { column } => return Err(MendFault::Faulted { group, column }),
            Reached::LogFull => return Err(MendFault::LogFull { group }),
        }
    }
}
