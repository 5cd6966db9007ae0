ghost use Rattle.std.specs.Prelude.{◌≡◌, ◌≤◌, ◌<◌, [], ◌∷◌, ◌++◌, length, IfOk, OnOk, OnErr};

use crate::record::{Places, Split};
use pot_bytes::{Geometry, NoMemory};
use std::alloc::Global;
use std::marker::Model;
use std::mem;

/// How many older splits a record has at most, beside the current one.
pub(crate) const MOST_OLDER: usize = 15;

/// The earlier splits of a record, the oldest first: at most 15. Contracts see the list of the
/// splits.
#[derive(Drop)]
pub struct Splits {
    splits: Vec<Split>,
}

impl Model for Splits {
    ghost use Rattle.std.specs.Prelude.{◌≤◌, List, length};
    ghost use Rattle.pot_index.specs.declared.record.Split.{Split};

    ghost Value = { List Split };

    ghost view = { λ s. s.splits.items };

    ghost invariant = { λ s. length s.splits.items ≤ 15 };
}

impl Splits {
    /// These splits.
    pub fn from_vec(splits: Vec<Split>) -> Splits
        requires { length splits.items ≤ 15 }
        ensures { result ≡ splits.items }
    {
        Splits { splits }
    }

    /// Gives the splits back.
    pub fn into_vec(self) -> Vec<Split>
        ensures value { result.items ≡ self }
        ensures few { length self ≤ 15 }
    {
        self.splits
    }

    /// The splits in order.
    pub fn as_slice(&self) -> &[Split]
        ensures value { result.now ≡ self.now }
        ensures few { length self.now ≤ 15 }
    {
        self.splits.as_slice()
    }

    /// Equal splits.
    pub fn copy(&self, alloc: Global) -> Result<Splits, NoMemory>
        ensures { IfOk result (λ s. s ≡ self.now) }
    {
        let mut splits = Vec::with_capacity(alloc, self.splits.len())?;
        for split in &self.splits {
            splits.push_reserved(split.copy(alloc)?);
        }
        Ok(Splits { splits })
    }

    /// The current split, of this geometry and these places, becomes the last of the older ones,
    /// and other places stand in its place. On refusal both are as before.
    pub(crate) fn add(
        &mut self,
        geometry: Geometry,
        current: &mut Places,
        next: Places,
    ) -> Result<(), NoMemory>
        requires { length self.old < 15 }
        ensures ok { OnOk result
            (self.new ≡ self.old ++ record { geometry = geometry; places = current.old } ∷ []) }
        ensures next { OnOk result (current.new ≡ next) }
        ensures err { OnErr result (self.new ≡ self.old) }
        ensures same { OnErr result (current.new ≡ current.old) }
    {
        self.splits.reserve(1)?;
        let places = mem::replace(current, next);
        self.splits.push_reserved(Split { geometry, places });
        Ok(())
    }
}
