//! The columns of a table in an image.
ghost use Rattle.std.specs.Prelude.{◌≡◌, ◌++◌, ℕ, List, [], ◌∷◌, flat_map, IfOk};
ghost use Rattle.pot_image.specs.Following.{Gives};
ghost use Rattle.pot_image.specs.Reading.{reading};
ghost use Rattle.pot_image.specs.Numbers.{natural, at_most, zeros};
ghost use Rattle.pot_machine.specs.Column.{homes_of};
ghost use Rattle.pot_image.specs.Tables.{is_free, moving, resting, column, columns};

use crate::fault::Fault;
use crate::fields::{read_flag, read_number, skip_padding};
use pot_machine::{Column, Moving};
use std::alloc::Global;

/// Whether a number is an archive's, and not among these.
fn is_free(taken: &[u32], number: u32) -> bool
    ensures { result ≡ is_free taken.now number }
{
    number <= 511 && !taken.contains(&number)
}

/// The number of an archive that is not among these. It is added to them.
fn read_archive<'a>(bytes: &'a [u8], taken: &mut Vec<u32>) -> Result<(u32, &'a [u8]), Fault>
    ensures reads { Gives (λ x. (x.0, x.1.now)) result
        (reading (natural 4 (is_free taken.old.items)) bytes.now) }
    ensures taken { IfOk result (λ x. taken.new.items ≡ taken.old.items ++ x.0 ∷ []) }
{
    let (number, rest) = read_number(bytes)?;
    if !is_free(taken, number) {
        return Err(Fault::at(bytes));
    }
    taken.push(number)?;
    Ok((number, rest))
}

/// A number that is at most this one.
pub(crate) fn read_at_most(bytes: &[u8], most: u32) -> Result<(u32, &[u8]), Fault>
    ensures { Gives (λ x. (x.0, x.1.now)) result (reading (natural 4 (at_most most)) bytes.now) }
{
    let (number, rest) = read_number(bytes)?;
    if number > most {
        return Err(Fault::at(bytes));
    }
    Ok((number, rest))
}

/// Four bytes of zero.
fn skip_zero(bytes: &[u8]) -> Result<&[u8], Fault>
    ensures { Gives (λ x. (0, x.now)) result (reading (zeros 4) bytes.now) }
{
    let (number, rest) = read_number(bytes)?;
    if number != 0 {
        return Err(Fault::at(bytes));
    }
    Ok(rest)
}

/// What stands for the move of a column that does not move.
fn read_resting(bytes: &[u8], home: u32) -> Result<(Column, &[u8]), Fault>
    ensures reads { Gives (λ x. (x.0, x.1.now)) result (reading (resting home) bytes.now) }
    ensures numbers { IfOk result (λ x. homes_of x.0 ≡ home ∷ []) }
{
    let to = skip_zero(bytes)?;
    let upto = skip_zero(to)?;
    Ok((Column { home, moving: None }, upto))
}

/// Where a column moves to, and how far it has come. Its target is added to the numbers that are
/// taken.
fn read_moving<'a>(
    bytes: &'a [u8],
    stripes: u32,
    taken: &mut Vec<u32>,
    home: u32,
) -> Result<(Column, &'a [u8]), Fault>
    ensures reads { Gives (λ x. (x.0, x.1.now)) result
        (reading (moving stripes taken.old.items home) bytes.now) }
    ensures taken { (before : List ℕ) → taken.old.items ≡ before ++ home ∷ []
        → IfOk result (λ x. taken.new.items ≡ before ++ homes_of x.0) }
{
    let (to, after_target) = read_archive(bytes, taken)?;
    let (upto, rest) = read_at_most(after_target, stripes)?;
    let moving = Some(Moving { to, upto });
    Ok((Column { home, moving }, rest))
}

/// A column whose archives are not among those that are taken. They are added to these.
fn read_column<'a>(
    bytes: &'a [u8],
    stripes: u32,
    taken: &mut Vec<u32>,
) -> Result<(Column, &'a [u8]), Fault>
    ensures reads { Gives (λ x. (x.0, x.1.now)) result
        (reading (column stripes taken.old.items) bytes.now) }
    ensures taken { IfOk result (λ x. taken.new.items ≡ taken.old.items ++ homes_of x.0) }
{
    let (home, after_home) = read_archive(bytes, taken)?;
    let (moves, after_flag) = read_flag(after_home)?;
    let padding = skip_padding(after_flag)?;
    if moves {
        read_moving(padding, stripes, taken, home)
    } else {
        read_resting(padding, home)
    }
}

/// So many columns, whose archives are not among those that are taken. They are added to these.
pub(crate) fn read_columns<'a>(
    alloc: Global,
    bytes: &'a [u8],
    width: u8,
    stripes: u32,
    taken: &mut Vec<u32>,
) -> Result<(Vec<Column>, &'a [u8]), Fault>
    ensures reads { Gives (λ x. (x.0.items, x.1.now)) result
        (reading (columns width stripes taken.old.items) bytes.now) }
    ensures taken { IfOk result (λ x. taken.new.items
        ≡ taken.old.items ++ flat_map homes_of x.0.items) }
{
    let mut columns = Vec::with_capacity(alloc, usize::from(width))?;
    let mut rest = bytes;
    for _ in 0..width {
        let (column, after) = read_column(rest, stripes, taken)?;
        columns.push(column)?;
        rest = after;
    }
    Ok((columns, rest))
}
