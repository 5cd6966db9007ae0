//! Looks from outside.
ghost use Rattle.std.specs.Prelude.{◌<◌};

use crate::entries::entry_text;
use crate::lines::Look;
use crate::outcomes::{ByteText, repeated};
use crate::stage::Stage;
use pot_machine::{Entry, GroupTable, SlotState};
use std::alloc::{AllocError, Global};

/// What a look shows.
pub fn look(alloc: Global, stage: &Stage, look: Look) -> Result<String, AllocError> {
    match look {
        Look::Table => match &stage.closed {
            Some(closed) => table_text(alloc, &closed.table),
            None => format!(in alloc; "no table"),
        },
        Look::Log => match &stage.closed {
            Some(closed) => log_text(alloc, &closed.log),
            None => format!(in alloc; "no table"),
        },
        Look::Heard { archive } => heard_text(alloc, stage, archive),
        Look::Blocks { archive } => blocks_text(alloc, stage, archive),
        Look::Faults => faults_text(alloc, stage),
    }
}

/// The letter of a slot.
fn letter(slot: SlotState) -> char {
    match slot {
        SlotState::Void => 'V',
        SlotState::Live(_) => 'L',
        SlotState::Lost(_) => 'X',
        SlotState::Broken(_) => 'B',
    }
}

/// The letters of the slots, with a space between stripes.
pub fn letters(alloc: Global, table: &GroupTable) -> Result<String, AllocError> {
    let mut letters = String::new(alloc);
    for stripe in 0..table.stripes() {
        if stripe > 0 {
            letters.push(' ')?;
        }
        add_stripe(&mut letters, table, stripe)?;
    }
    Ok(letters)
}

fn add_stripe(letters: &mut String, table: &GroupTable, stripe: u32) -> Result<(), AllocError>
    requires { stripe < table.now.stripes }
{
    for column in 0..table.data_columns() + table.parity() {
        letters.push(letter(table.slot(stripe, column)))?;
    }
    Ok(())
}

fn table_text(alloc: Global, table: &GroupTable) -> Result<String, AllocError> {
    let letters = letters(alloc, table)?;
    let cursor = table.cursor();
    format!(in alloc; "{letters} cursor {} {}", cursor.stripe, cursor.column)
}

/// How many entries there are, and a line for each, or for equal ones in a row.
fn log_text(alloc: Global, log: &[Entry]) -> Result<String, AllocError> {
    let mut text = format!(in alloc; "{} entries", log.len())?;
    let mut run: Option<(Entry, u32)> = None;
    for entry in log {
        run = match run {
            Some((same, times)) if same == *entry => Some((same, times.saturating_add(1))),
            _ => {
                add_run(alloc, &mut text, run)?;
                Some((*entry, 1))
            }
        };
    }
    add_run(alloc, &mut text, run)?;
    Ok(text)
}

/// Adds a line for equal entries in a row.
fn add_run(alloc: Global, text: &mut String, run: Option<(Entry, u32)>) -> Result<(), AllocError> {
    let Some((entry, times)) = run else {
        return Ok(());
    };
    let entry = entry_text(alloc, &entry)?;
    let line = if times == 1 {
        format!(in alloc; "\n  {entry}")?
    } else {
        format!(in alloc; "\n  {times} times {entry}")?
    };
    text.push_str(&line)
}

/// Adds a part behind others, with this between.
pub fn join(text: &mut String, between: &str, part: &str) -> Result<(), AllocError> {
    if !text.is_empty() {
        text.push_str(between)?;
    }
    text.push_str(part)
}

fn heard_text(alloc: Global, stage: &Stage, archive: u32) -> Result<String, AllocError> {
    let mut text = String::new(alloc);
    if let Some(store) = stage.archives.get(&archive) {
        if let Ok(store) = store.try_borrow() {
            for (slot, sum) in &store.heard {
                let part = format!(in alloc; "{slot} {}", ByteText(repeated(sum)))?;
                join(&mut text, ", ", &part)?;
            }
        }
    }
    or_none(alloc, text)
}

/// The text, or `none` in place of an empty one.
fn or_none(alloc: Global, text: String) -> Result<String, AllocError> {
    if text.is_empty() {
        return format!(in alloc; "none");
    }
    Ok(text)
}

/// The byte of the block in each slot.
pub fn blocks_text(alloc: Global, stage: &Stage, archive: u32) -> Result<String, AllocError> {
    let mut text = String::new(alloc);
    for slot in 0..stage.shape.stripes {
        let part = block_text(alloc, stage, archive, slot)?;
        join(&mut text, " ", &part)?;
    }
    Ok(text)
}

fn block_text(alloc: Global, stage: &Stage, archive: u32, slot: u32) -> Result<String, AllocError> {
    if let Some(store) = stage.archives.get(&archive) {
        if let Ok(store) = store.try_borrow() {
            if let Some(block) = store.blocks.get(&slot) {
                return format!(in alloc; "{}", ByteText(repeated(block)));
            }
        }
    }
    format!(in alloc; "--")
}

/// How often each archive failed that did.
fn faults_text(alloc: Global, stage: &Stage) -> Result<String, AllocError> {
    let mut text = String::new(alloc);
    for (number, store) in &stage.archives {
        let faults = match store.try_borrow() {
            Ok(store) => store.faults,
            Err(_) => 0,
        };
        if faults > 0 {
            let part = format!(in alloc; "archive {number}: {faults}")?;
            join(&mut text, ", ", &part)?;
        }
    }
    or_none(alloc, text)
}
