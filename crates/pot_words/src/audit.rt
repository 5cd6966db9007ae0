//! The options of `audit`.

ghost use Rattle.std.specs.Prelude.{IfOk, map};
ghost use Rattle.std.specs.String.{string_bytes};
ghost use Rattle.pot_options.specs.Options.{given};
ghost use Rattle.pot_words.specs.Answers.{IsOnly};
ghost use Rattle.pot_words.specs.Tasks.{HasAudit, SpellAudit};
ghost use Rattle.pot_words.specs.declared.audit.Audit.{Audit};

use crate::spot::Spot;
use crate::spots::spots_of;
use crate::values::yes_of;
use arrayvec::ArrayVec;
use pot_bytes::NoMemory;
use pot_options::{Options, read_options};
use std::alloc::Global;

/// What a coalition that sees some columns learns of the files.
#[derive(PartialEq, Debug, Drop)]
pub struct Audit {
    /// The columns that are seen, ascending by group and then by column; there is at least one.
    /// Whether a rack has them is not known here.
    pub seen: ArrayVec<Spot, 288>,
    /// Whether blocks that stand in no record are counted too.
    pub loose: bool,
}

static NAMES: [&str; 2] = ["seen", "loose"];

/// The task that the words after `audit` spell.
pub fn read_audit(alloc: Global, words: &[String]) -> Result<Option<Audit>, NoMemory>
    ensures { IfOk result (IsOnly (SpellAudit (map string_bytes words.now))) }
{
    match read_options(alloc, NAMES.as_slice(), words)? {
        Some(options) => Ok(audit_of(&options)),
        None => Ok(None),
    }
}

// The task that the options give.
fn audit_of(options: &Options<'_>) -> Option<Audit>
    ensures { IsOnly (λ (a : Audit). HasAudit a (given options.now)) result }
{
    let seen = spots_of(options, "seen")?;
    let loose = yes_of(options, "loose")?;
    Some(Audit { seen, loose })
}
