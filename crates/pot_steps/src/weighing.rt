//! The weights of the columns in a relay.
//!
//! | target | skip | a | b |
//! |---|---|---|---|
//! | data or P | none or Q | 1 | 0 |
//! | data t | P | 0 | inverse of 3^t |
//! | data t | data u | b * 3^u | inverse of (3^t + 3^u) |
//! | P | data u | 1 | inverse of 3^u |
//! | Q | none or P | 0 | 1 |
//! | Q | data u | 3^u | 1 |
//!
//! The weight is a + b * 3^c for data column c, a for P and b for Q.
ghost use Rattle.std.specs.Prelude.{◌≡◌, ◌≢◌, ◌<◌, ◌≤◌, ◌+◌};
ghost use Rattle.pot_gf.specs.Field.{power};
ghost use Rattle.pot_machine.specs.Table.{skipped};
ghost use Rattle.pot_steps.specs.Equations.{q_weight};
ghost use Rattle.pot_steps.specs.Flight.{q_times, p_times, weight, weight_in, IsRelay};

use pot_gf::{inv, mul};
use pot_machine::Relay;

/// The weight of a column in a relay of a stripe with so many data columns.
pub fn weight_of(data_columns: u8, relay: Relay, column: u8) -> u8
    requires small { data_columns ≤ 16 }
    requires relay { IsRelay data_columns 2 relay }
    ensures { result ≡ weight_in data_columns relay column }
{
    let out = left_out(data_columns, relay);
    weight(data_columns, relay.target, out, column)
}

/// The column that has weight 0 in a relay.
fn left_out(data_columns: u8, relay: Relay) -> u8
    requires small { data_columns ≤ 16 }
    ensures { result ≡ skipped data_columns relay.skip relay.target }
{
    match relay.skip {
        Some(column) => column,
        None => {
            if relay.target <= data_columns {
                data_columns + 1
            } else {
                data_columns
            }
        }
    }
}

/// The weight of a column where the target has 1 and column `out` has 0.
#[tactic(auto, using(crate::proofs::WeightLemmas::weight_is))]
fn weight(data_columns: u8, target: u8, out: u8, column: u8) -> u8
    requires small { data_columns ≤ 16 }
    requires apart { out ≢ target }
    ensures { result ≡ weight data_columns target out column }
{
    let b = q_times(data_columns, target, out);
    let a = p_times(data_columns, target, out, b);
    let p_weight = if column <= data_columns { 1 } else { 0 };
    mul(a, p_weight) ^ mul(b, q_weight(data_columns, column))
}

/// What the equations of P and of Q are taken times, so that in their sum column `target` has
/// weight 1 and column `out` has weight 0.
pub fn times_of(data_columns: u8, target: u8, out: u8) -> (u8, u8)
    requires small { data_columns ≤ 16 }
    requires apart { out ≢ target }
    ensures first { result.0 ≡ p_times data_columns target out }
    ensures second { result.1 ≡ q_times data_columns target out }
{
    let b = q_times(data_columns, target, out);
    (p_times(data_columns, target, out, b), b)
}

/// What the equation of Q is taken times.
fn q_times(data_columns: u8, target: u8, out: u8) -> u8
    requires small { data_columns ≤ 16 }
    requires apart { out ≢ target }
    ensures { result ≡ q_times data_columns target out }
{
    if target < data_columns {
        if out < data_columns {
            inv(power_of_three(target) ^ power_of_three(out))
        } else if out == data_columns {
            inv(power_of_three(target))
        } else {
            0
        }
    } else if target == data_columns {
        if out < data_columns {
            inv(power_of_three(out))
        } else {
            0
        }
    } else {
        1
    }
}

/// What the equation of P is taken times, where that of Q is taken `b` times.
fn p_times(data_columns: u8, target: u8, out: u8, b: u8) -> u8
    requires { b ≡ q_times data_columns target out }
    ensures { result ≡ p_times data_columns target out }
{
    if target < data_columns {
        if out < data_columns {
            mul(b, power_of_three(out))
        } else if out == data_columns {
            0
        } else {
            1
        }
    } else if target == data_columns {
        1
    } else if out < data_columns {
        power_of_three(out)
    } else {
        0
    }
}

/// The weight of a column in the equation of Q.
pub fn q_weight(data_columns: u8, column: u8) -> u8
    ensures { result ≡ q_weight data_columns column }
{
    if column < data_columns {
        power_of_three(column)
    } else if column == data_columns {
        0
    } else {
        1
    }
}

/// 3 to the power `n`, the weight of data column `n` in the equation of Q.
#[tactic(auto, using(crate::proofs::WeightLemmas::power_zero, crate::proofs::WeightLemmas::power_more))]
pub fn power_of_three(n: u8) -> u8
    ensures { result ≡ power 3 n }
{
    let mut power = 1;
    for _ in 0..n {
        power = mul(3, power);
    }
    power
}
