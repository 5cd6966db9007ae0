//! The sum in which the column that is gone has weight 1, and the one that is left out weight 0.
ghost use Rattle.std.specs.Prelude.{◌≡◌, ◌+◌, length};
ghost use Rattle.pot_bytes.specs.Lists.{IsBlock};
ghost use Rattle.pot_steps.specs.Decides.{Computed};
ghost use Rattle.pot_steps.specs.Equations.{p_weight};
ghost use Rattle.pot_steps.specs.Laws.{AreDistinctColumns, FitsColumns};
ghost use Rattle.pot_rebuild.specs.Rebuilding.{AddsWeighted, IsRebuilt, column_of};

use pot_bytes::{Block, block_law, fold_weighted};
use pot_gf::mul;
use pot_steps::{q_weight, times_of};

/// What the equations of P and of Q are taken times, for a column that is made anew.
#[derive(Clone, Copy)]
struct Times {
    first: u8,
    second: u8,
}

/// The block of column `target` of a stripe with these blocks, by column: the data columns, then P,
/// and Q where there are two parity columns. The blocks of `target` and of `out` are not looked at.
/// A slot that holds none counts as zeros. With one parity column `out` is the column behind it,
/// which there is not.
pub fn rebuilt(data_columns: u8, parity: u8, target: u8, out: u8, blocks: &[Block]) -> Block
    requires fits { FitsColumns data_columns parity }
    requires apart { AreDistinctColumns data_columns parity target out }
    requires all { length blocks.now ≡ data_columns + parity }
    ensures computed { Computed data_columns parity target out (column_of blocks.now) result }

    // In every filling of every stripe that has the other blocks it is the block of that column.
    ensures rebuilt { IsRebuilt data_columns parity target out blocks.now result }
{
    let (first, second) = times_of(data_columns, target, out);
    let times = Times { first, second };
    let mut sum = Block::zero();
    for column in 0..data_columns + parity {
        if column != target {
            add(
                &mut sum,
                times,
                data_columns,
                column,
                &blocks[usize::from(column)],
            );
        }
    }
    sum
}

// Adds the block of a column times its weight.
fn add(sum: &mut Block, times: Times, data_columns: u8, column: u8, block: &Block)
    requires { IsBlock sum.old }
    ensures { AddsWeighted data_columns times.first times.second column sum.old sum.new block.now }
{
    let weight = mul(times.first, p_weight(data_columns, column))
        ^ mul(times.second, q_weight(data_columns, column));
    block_law(block);
    fold_weighted(sum, weight, block);
}

// The weight of a column in the equation of P.
fn p_weight(data_columns: u8, column: u8) -> u8
    ensures { result ≡ p_weight data_columns column }
{
    if column <= data_columns { 1 } else { 0 }
}
