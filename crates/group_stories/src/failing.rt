//! A story once more for each call on each archive, which fails then.
//!
//! A step that is answered so is made again, and a parity block that a put did not keep is rebuilt.
//! What the story was to come to is then compared: the outcomes, the slots, the blocks, and how
//! often archives failed.
use crate::entries::told_by;
use crate::lines::{Act, Call, Job, Line, Says};
use crate::looks::{blocks_text, join, letters};
use crate::outcomes::Outcome;
use crate::stage::Stage;
use std::alloc::{AllocError, Global};

/// How often a parity slot is mended until it is whole.
const MENDS: u32 = 9;

/// A story that was played, with the outcome of each of its calls.
#[derive(Clone, Copy)]
pub struct Played<'a, 'b> {
    pub lines: &'b [Line<'a>],
    pub outcomes: &'b [Outcome],
    pub stage: &'b Stage,
}

/// The call that failed in a run of a story.
#[derive(Clone, Copy)]
struct Failing {
    archive: u32,
    call: u32,
}

/// A run of a story: its stage, and what differed.
#[derive(Drop)]
struct Run<'a> {
    stage: Stage,
    /// The first line whose outcome was another one, and that outcome.
    met: Option<(&'a str, Outcome)>,
    /// Whether nothing else differed so far.
    same: bool,
}

/// A line for each call that came to an archive in a story.
pub fn fail_each(alloc: Global, played: &Played, text: &mut String) -> Result<(), AllocError> {
    for (archive, calls) in counts(alloc, played.stage)? {
        for call in 0..calls {
            let failing = Failing { archive, call };
            let line = fail_one(alloc, played, failing)?;
            text.push_str(&line)?;
            text.push('\n')?;
        }
    }
    Ok(())
}

/// How many calls came to each archive.
fn counts(alloc: Global, stage: &Stage) -> Result<Vec<(u32, u32)>, AllocError> {
    let mut counts = Vec::new(alloc);
    for (number, store) in &stage.archives {
        if let Ok(store) = store.try_borrow() {
            let calls = u32::try_from(store.calls).unwrap_or(u32::MAX);
            counts.push((*number, calls))?;
        }
    }
    Ok(counts)
}

/// Plays a story in which a call fails, and tells what came of it.
fn fail_one(alloc: Global, played: &Played, failing: Failing) -> Result<String, AllocError> {
    let Failing { archive, call } = failing;
    let mut run = Run {
        stage: Stage::new(alloc),
        met: None,
        same: true,
    };
    run.stage.act(archive, Act::Fail { call })?;
    let mut wanted = played.outcomes.iter();
    for line in played.lines {
        run.play(line, &mut wanted)?;
    }
    let told = told(alloc, &run.stage)?;
    let ending = if run.same && ends_alike(alloc, played.stage, &run.stage, archive)? {
        "then as above"
    } else {
        "then otherwise"
    };
    match run.met {
        Some((step, outcome)) => format!(in alloc;
            "  archive {archive} call {call}: {step} -> {outcome}; {told}; {ending}"
        ),
        None => format!(in alloc; "  archive {archive} call {call}: no step -> {told}; {ending}"),
    }
}

impl<'a> Run<'a> {
    /// Plays a line, of which this is the outcome where nothing fails.
    fn play(
        &mut self,
        line: &Line<'a>,
        wanted: &mut std::slice::Iter<Outcome>,
    ) -> Result<(), AllocError> {
        match line.says {
            Says::Calls(_, call) => match wanted.next() {
                Some(wanted) => self.make(line.text, call, *wanted),
                None => Ok(()),
            },
            Says::Look(_) => Ok(()),
            says => self.stage.set(&says),
        }
    }

    fn make(&mut self, text: &'a str, call: Call, wanted: Outcome) -> Result<(), AllocError> {
        let outcome = self.stage.make(call)?;
        if outcome == wanted {
            return Ok(());
        }
        if self.met.is_some() {
            self.same = false;
            return Ok(());
        }
        self.met = Some((text, outcome));
        match outcome.faulted() {
            Some(column) => self.make_good(call, column, wanted),
            None => {
                self.same = false;
                Ok(())
            }
        }
    }

    /// Makes the call again, or rebuilds the parity block that it did not keep.
    fn make_good(&mut self, call: Call, column: u8, wanted: Outcome) -> Result<(), AllocError> {
        if let Call::Put { job, byte: _ } = call {
            if let Some(stripe) = self.stage.first_unkept(column) {
                return self.mend(job, stripe, column);
            }
        }
        if self.stage.make(call)? != wanted {
            self.same = false;
        }
        Ok(())
    }

    fn mend(&mut self, job: Job, stripe: u32, column: u8) -> Result<(), AllocError> {
        let mend = Call::Mend {
            job,
            stripe,
            column,
        };
        for _ in 0..MENDS {
            if self.stage.make(mend)? == Outcome::Plain("whole") {
                return Ok(());
            }
        }
        self.same = false;
        Ok(())
    }
}

/// What the log of a stage tells of calls that failed.
fn told(alloc: Global, stage: &Stage) -> Result<String, AllocError> {
    let mut text = String::new(alloc);
    if let Some(closed) = &stage.closed {
        for entry in &closed.log {
            if let Some(part) = told_by(alloc, entry, stage.shape.columns)? {
                join(&mut text, ", ", &part)?;
            }
        }
    }
    if text.is_empty() {
        text.push_str("nothing")?;
    }
    Ok(text)
}

/// Whether the slots and the blocks are the same, and the archive of this number alone failed once
/// more.
fn ends_alike(
    alloc: Global,
    wanted: &Stage,
    found: &Stage,
    failed: u32,
) -> Result<bool, AllocError> {
    if slots(alloc, wanted)? != slots(alloc, found)? {
        return Ok(false);
    }
    for number in wanted.archives.keys() {
        let more = if *number == failed { 1 } else { 0 };
        let faults = faults_of(wanted, *number).saturating_add(more);
        let blocks = blocks_text(alloc, wanted, *number)?;
        if faults != faults_of(found, *number) || blocks != blocks_text(alloc, found, *number)? {
            return Ok(false);
        }
    }
    Ok(true)
}

/// The letters of the slots at the close.
fn slots(alloc: Global, stage: &Stage) -> Result<String, AllocError> {
    match &stage.closed {
        Some(closed) => letters(alloc, &closed.table),
        None => Ok(String::new(alloc)),
    }
}

/// How often an archive failed.
fn faults_of(stage: &Stage, number: u32) -> u64 {
    match stage.archives.get(&number) {
        Some(store) => match store.try_borrow() {
            Ok(store) => store.faults,
            Err(_) => 0,
        },
        None => 0,
    }
}
