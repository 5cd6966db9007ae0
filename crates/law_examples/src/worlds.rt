//! Examples of the laws of worlds.
ghost use Rattle.law_examples.specs.Sessions.{BlockRemains, ColumnSeesTheSame, ParitySeesTheSame};

use pot_world::{audit_laws, later_laws, remain_laws};

/// Who has one data column holds and hears the same in two sessions where a block of another column
/// is another one (`sessions` of `later_laws`).
pub fn sessions_seen()
    ensures { ColumnSeesTheSame }
{
    audit_laws();
    later_laws();
}

/// Who has a parity column sees all of its group, and of another group nothing (`runs` of
/// `audit_laws`).
pub fn parity_seen()
    ensures { ParitySeesTheSame }
{
    audit_laws();
}

/// A block that was put stays at its place (`remain_laws`).
pub fn block_remains()
    ensures { BlockRemains }
{
    remain_laws();
}
