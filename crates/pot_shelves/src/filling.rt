//! Whether the blocks that were read of a stripe add up, and which slots break where they do not.
ghost use Rattle.std.specs.Prelude.{◌≡◌, ◌≢◌, ◌≤◌, ◌↔◌, IsTrue, None, Some};
ghost use Rattle.pot_shelves.specs.Filling.{IsApart, IsBroken, Suits, trial_of, partner};
ghost use Rattle.pot_shelves.specs.Filling.{parity_slots, residue};

use crate::archives::has_digest;
use crate::opening::Shortage;
use crate::parities::Parity;
use pot_bytes::{Block, Digest, fold_weighted};
use pot_steps::times_of;

/// Which slots of a stripe break.
#[derive(Clone, Copy)]
pub(crate) enum Breaking {
    Nothing,
    One { column: u8 },
    /// In ascending order.
    Both { column: u8, other: u8 },
}

/// A column of a stripe, and the digest of its slot where it gave no block.
#[derive(Clone, Copy)]
pub(crate) struct Side {
    pub(crate) column: u8,
    pub(crate) digest: Option<Digest>,
}

/// The two columns by which it is decided whether a stripe has a filling, and which slots break
/// where it has none. With one parity column the second stands for the column behind it, which
/// there is not.
#[derive(Clone, Copy)]
pub(crate) struct Trial {
    pub(crate) first: Side,
    pub(crate) second: Side,
    pub(crate) broken: Breaking,
}

/// The slots that break: of a stripe in which few slots gave no block, those where the other blocks
/// do not give theirs, and where all gave one, the parity slots where the blocks do not add up to
/// zeros.
pub(crate) fn broken(
    shortage: Shortage,
    sums: &Parity,
    data_columns: u8,
    parity_columns: u8,
) -> Breaking
    requires small { data_columns ≤ 16 }
    requires apart { IsApart shortage }
    ensures { IsBroken data_columns parity_columns shortage sums.now.first sums.now.second result }
{
    let Some(trial) = trial_of(shortage, data_columns, parity_columns) else {
        return Breaking::Nothing;
    };
    if !suits(
        sums,
        data_columns,
        parity_columns,
        trial.first,
        trial.second.column,
    ) {
        return trial.broken;
    }
    if parity_columns == 1
        || suits(
            sums,
            data_columns,
            parity_columns,
            trial.second,
            trial.first.column,
        )
    {
        return Breaking::Nothing;
    }
    trial.broken
}

/// How it is decided whether a stripe of this shortage has a filling. None where too many slots
/// gave no block.
fn trial_of(shortage: Shortage, data_columns: u8, parity_columns: u8) -> Option<Trial>
    requires small { data_columns ≤ 16 }
    ensures { result ≡ trial_of data_columns parity_columns shortage }
{
    match shortage {
        Shortage::Nothing => Some(Trial {
            first: read(data_columns),
            second: read(data_columns + 1),
            broken: parity_slots(data_columns, parity_columns),
        }),
        Shortage::One { column, digest } => Some(Trial {
            first: missing(column, digest),
            second: read(partner(column, data_columns)),
            broken: Breaking::One { column },
        }),
        Shortage::Two {
            column,
            digest,
            other,
            other_digest,
        } => {
            if parity_columns == 1 {
                return None;
            }
            Some(Trial {
                first: missing(column, digest),
                second: missing(other, other_digest),
                broken: Breaking::Both { column, other },
            })
        }
        Shortage::More => None,
    }
}

/// A column that gave its block, or whose slot is Void.
fn read(column: u8) -> Side
    ensures column { result.column ≡ column }
    ensures digest { result.digest ≡ None }
{
    Side {
        column,
        digest: None,
    }
}

/// A column that gave no block.
fn missing(column: u8, digest: Digest) -> Side
    ensures column { result.column ≡ column }
    ensures digest { result.digest ≡ Some digest }
{
    Side {
        column,
        digest: Some(digest),
    }
}

/// A parity column beside this column: Q, or P where it is Q.
fn partner(column: u8, data_columns: u8) -> u8
    requires small { data_columns ≤ 16 }
    ensures { result ≡ partner data_columns column }
{
    if column <= data_columns {
        data_columns + 1
    } else {
        data_columns
    }
}

/// Each parity slot.
fn parity_slots(data_columns: u8, parity_columns: u8) -> Breaking
    requires small { data_columns ≤ 16 }
    ensures { result ≡ parity_slots data_columns parity_columns }
{
    let column = data_columns;
    if parity_columns == 1 {
        return Breaking::One { column };
    }
    Breaking::Both {
        column,
        other: column + 1,
    }
}

/// Whether the block that the sums give for a column, where column `out` is left out, is of the
/// digest that is wanted. Where the column gave its block, which stands in the sums too, whether
/// they give zeros.
fn suits(sums: &Parity, data_columns: u8, parity_columns: u8, side: Side, out: u8) -> bool
    requires small { data_columns ≤ 16 }
    requires apart { out ≢ side.column }
    ensures { IsTrue result ↔ Suits side.digest
        (residue data_columns parity_columns side.column out sums.now.first sums.now.second) }
{
    let block = residue(sums, data_columns, parity_columns, side.column, out);
    match side.digest {
        None => block.bytes() == Block::zero().bytes(),
        Some(digest) => has_digest(&block, digest),
    }
}

/// The sum of both equations in which this column has weight 1 and column `out` has weight 0.
fn residue(sums: &Parity, data_columns: u8, parity_columns: u8, column: u8, out: u8) -> Block
    requires small { data_columns ≤ 16 }
    requires apart { out ≢ column }
    ensures { result
        ≡ residue data_columns parity_columns column out sums.now.first sums.now.second }
{
    if parity_columns == 1 {
        return sums.first;
    }
    let (first, second) = times_of(data_columns, column, out);
    let mut block = Block::zero();
    fold_weighted(&mut block, first, &sums.first);
    fold_weighted(&mut block, second, &sums.second);
    block
}
