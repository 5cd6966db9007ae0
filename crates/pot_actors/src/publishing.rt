//! Splits that are published.
ghost use Rattle.std.specs.Prelude.{◌≡◌, ◌<◌, false, length, slice_index_or, IfOk};
ghost use Rattle.pot_index.specs.declared.entry.IndexEntry.TheVariants as entry;
ghost use Rattle.pot_index.specs.declared.record.Record.{Record};
ghost use Rattle.pot_index.specs.Entries.{bringing};
ghost use Rattle.pot_index.specs.Index.{NamesAscend, IsPublished};
ghost use Rattle.pot_index.specs.Records.{mark_of, renewed};
ghost use Rattle.pot_index.specs.Searches.{RecordStandsAt};
ghost use Rattle.pot_shard.specs.FileLaws.{IsStore};
ghost use Rattle.pot_world.specs.declared.step.Step.TheVariants as step;
ghost use Rattle.pot_world.specs.World.{record_made, split_of};
ghost use Rattle.pot_actors.specs.Ends.{EndsSplit, PublishesSplit, RecordGainsSplit};
ghost use Rattle.pot_actors.specs.Ledgers.{names_of};
ghost use Rattle.pot_actors.specs.Splits.{under_way_of};
ghost use Rattle.pot_actors.specs.Steps.{ActorSteps};
ghost use Rattle.pot_actors.specs.Worlds.{IsWorldReached, world_of};

use crate::blocks::count_blocks;
use crate::ledger::Ledger;
use crate::parts::Parts;
use crate::seat::take_seat;
use crate::split::OpenSplit;
use pot_bytes::{Digest, NoMemory, Sequence, digest_of};
use pot_index::{Record, Split, Splits, write_record};
use pot_world::ActFault;
use std::alloc::Global;
use std::snapshot::Snapshot;

/// The record that a store publishes.
fn record_made(alloc: Global, split: &OpenSplit) -> Result<Record, NoMemory>
    ensures { IfOk result (λ r. r ≡ record_made (under_way_of split.now)) }
{
    let places = Vec::from_slice(alloc, &split.places)?;
    Ok(Record {
        name: split.name,
        length: split.file.as_slice().len() as u64,
        digest: digest_of(split.file.as_slice()),
        geometry: split.geometry,
        places: Sequence::from_vec(places),
        older: Splits::from_vec(Vec::new(alloc)),
    })
}

/// The record with a new current split.
fn renewed(alloc: Global, kept: &Record, split: &OpenSplit) -> Result<Record, NoMemory>
    requires { length kept.now.older < 15 }
    ensures { IfOk result (λ r. r ≡ renewed kept.now (split_of (under_way_of split.now))) }
{
    let places = Vec::from_slice(alloc, &split.places)?;
    let copy = kept.older.copy(alloc)?;
    let current = kept.places.copy(alloc)?;
    let mut older = copy.into_vec();
    older.reserve(1)?;
    older.push_reserved(Split {
        geometry: kept.geometry,
        places: current,
    });
    Ok(Record {
        name: kept.name,
        length: kept.length,
        digest: kept.digest,
        geometry: split.geometry,
        places: Sequence::from_vec(places),
        older: Splits::from_vec(older),
    })
}

/// The digest of the record's bytes.
fn mark_of(alloc: Global, kept: &Record) -> Result<Digest, NoMemory>
    ensures { IfOk result (λ m. m ≡ mark_of kept.now) }
{
    let mut bytes = Vec::new(alloc);
    write_record(kept, &mut bytes)?;
    Ok(digest_of(&bytes))
}

/// A store is published under its name.
fn publish_store(
    alloc: Global,
    names: &mut Ledger,
    ended: &mut Vec<Snapshot<OpenSplit>>,
    actor: u32,
    split: &OpenSplit,
) -> Result<(), NoMemory>
    requires ascends { NamesAscend names.old.records.items }
    requires free { ¬ IsPublished (names_of names.old) split.now.name }
    ensures { EndsSplit (bringing (entry.Publish actor split.now.name
        (mark_of (record_made (under_way_of split.now)))) (record_made (under_way_of split.now)))
        names.old ended.old.items (under_way_of split.now) names.new ended.new.items result }
{
    let kept = record_made(alloc, split)?;
    let mark = mark_of(alloc, &kept)?;
    ended.reserve(1)?;
    names.publish(actor, kept, mark)?;
    ended.push_reserved(Snapshot::of(split));
    Ok(())
}

/// A renewal becomes the current split of the record at `at`.
fn publish_renewal(
    alloc: Global,
    names: &mut Ledger,
    ended: &mut Vec<Snapshot<OpenSplit>>,
    actor: u32,
    at: usize,
    split: &OpenSplit,
) -> Result<(), NoMemory>
    requires ascends { NamesAscend names.old.records.items }
    requires stands { RecordStandsAt names.old.records.items split.now.name at }
    requires few { (d : Record) → length (slice_index_or names.old.records.items at d).older < 15 }
    ensures { (d : Record)
        → RecordGainsSplit actor (slice_index_or names.old.records.items at d) names.old
        ended.old.items
        (under_way_of split.now) names.new ended.new.items result }
{
    let kept = renewed(alloc, &names.records[at], split)?;
    let mark = mark_of(alloc, &kept)?;
    ended.reserve(1)?;
    names.renew(actor, at, kept, mark)?;
    ended.push_reserved(Snapshot::of(split));
    Ok(())
}

/// A split all of whose blocks were put is published.
fn publish(
    alloc: Global,
    names: &mut Ledger,
    ended: &mut Vec<Snapshot<OpenSplit>>,
    actor: u32,
    split: &OpenSplit,
) -> Result<(), ActFault>
    requires store { IsStore split.now.geometry split.now.file split.now.random }
    requires ascends { NamesAscend names.old.records.items }
    requires free { split.now.renews ≡ false → ¬ IsPublished (names_of names.old) split.now.name }
    ensures { PublishesSplit actor names.old ended.old.items (under_way_of split.now) names.new
        ended.new.items result }
{
    if split.places.len() != count_blocks(split) {
        return Err(ActFault::NotAllowed);
    }
    if !split.renews {
        return match publish_store(alloc, names, ended, actor, split) {
            Ok(()) => Ok(()),
            Err(NoMemory) => Err(ActFault::NoMemory),
        };
    }
    let Some(at) = names.record_at(&split.name) else {
        return Err(ActFault::NotAllowed);
    };
    if names.records[at].older.as_slice().len() >= 15 {
        return Err(ActFault::NotAllowed);
    }
    match publish_renewal(alloc, names, ended, actor, at, split) {
        Ok(()) => Ok(()),
        Err(NoMemory) => Err(ActFault::NoMemory),
    }
}

impl Parts {
    /// The actor's split, all of whose blocks were put, is published.
    pub(crate) fn publish(&mut self, alloc: Global, actor: u32) -> Result<(), ActFault>
        requires { IsWorldReached (world_of self.old) }
        ensures { ActorSteps (step.Publish actor) self.old self.new result }
    {
        let Ok(at) = take_seat(alloc, &mut self.seats, actor) else {
            return Err(ActFault::NoMemory);
        };
        let Some(split) = self.seats[at].take() else {
            return Err(ActFault::NotAllowed);
        };
        match publish(alloc, &mut self.names, &mut self.ended, actor, &split) {
            Ok(()) => Ok(()),
            Err(fault) => {
                self.seats[at].begin(split);
                Err(fault)
            }
        }
    }
}
