//! How archives form groups, and which others give the blocks of one that is gone.

use crate::survey::Survey;
use std::ops::Range;

/// The most data archives of a group.
pub const MOST_COLUMNS: u32 = 16;

/// The most parity archives of a group.
pub const MOST_PARITY: u32 = 2;

/// The data and the parity archives of a group. Group g begins with the archive whose number is g
/// times as many. Its data archives come first, then P, then Q where there are two.
#[derive(Clone, Copy, Debug, PartialEq, Eq)]
pub struct Shape {
    pub columns: u32,
    pub parity: u32,
}

/// Two columns of a group: one that is made anew, and one that takes no part in it.
#[derive(Clone, Copy, Debug, PartialEq, Eq)]
pub(crate) struct Plan {
    pub(crate) target: u8,
    pub(crate) out: u8,
}

impl Shape {
    /// How many archives a group has.
    pub fn width(self) -> u32 {
        self.columns.saturating_add(self.parity)
    }

    // The column of an archive in its group.
    fn column(self, number: u32) -> u32 {
        number % self.width().max(1)
    }

    // The first archive of the group that this one is of.
    fn first(self, number: u32) -> u32 {
        number.saturating_sub(self.column(number))
    }

    /// Whether an archive has data, and not parity.
    pub fn is_data(self, number: u32) -> bool {
        self.column(number) < self.columns
    }

    /// The archives of the group that this one is of, by column.
    pub fn group_of(self, number: u32) -> Range<u32> {
        let first = self.first(number);
        first..first.saturating_add(self.width())
    }

    /// Whether the blocks of a data archive can be made anew from the others of its group: from P
    /// and all other data archives, or with two parity archives from all but one more. One that is
    /// empty holds no block.
    pub fn gives(self, survey: &Survey, number: u32) -> bool {
        self.plan(survey, number).is_some()
    }

    // How the blocks of a data archive are made anew. None where too many others are gone.
    pub(crate) fn plan(self, survey: &Survey, number: u32) -> Option<Plan> {
        if !self.is_data(number) || self.columns > MOST_COLUMNS || self.parity > MOST_PARITY {
            return None;
        }
        let out = self.left_out(survey, number)?;
        Some(Plan {
            target: u8::try_from(self.column(number)).ok()?,
            out: u8::try_from(out).ok()?,
        })
    }

    // The column that takes no part beside the one that is made: one more that is gone, where Q is
    // there, and else the column behind P.
    fn left_out(self, survey: &Survey, number: u32) -> Option<u32> {
        let mut gone = None;
        for (column, other) in self.group_of(number).enumerate() {
            let column = u32::try_from(column).ok()?;
            let is_read = if column < self.columns {
                survey.state(other).is_known()
            } else {
                survey.state(other).is_there()
            };
            if other != number && !is_read && column <= self.columns {
                if gone.is_some() {
                    return None;
                }
                gone = Some(column);
            }
        }
        let second = self
            .first(number)
            .saturating_add(self.columns)
            .saturating_add(1);
        match gone {
            None => Some(self.columns.saturating_add(1)),
            Some(column) if self.parity == 2 && survey.state(second).is_there() => Some(column),
            Some(_) => None,
        }
    }
}
