//! Points as the value of an option: `1,2,5`.

ghost use Rattle.std.specs.Prelude.{◌≤◌, ℕ, decimal};
ghost use Rattle.arrayvec.specs.ArrayVec.{ArrayVec as Items};
ghost use Rattle.pot_options.specs.Options.{given};
ghost use Rattle.pot_words.specs.Answers.{IsOnly};
ghost use Rattle.pot_words.specs.Lists.{AreListedPoints, HasPoints, Lists};

use crate::numbers::read_number;
use arrayvec::ArrayVec;
use pot_options::Options;

/// The points that the option has, ascending from 1 to `most`; none where it is left out.
pub fn points_of(options: &Options<'_>, name: &str, most: u8) -> Option<ArrayVec<u8, 16>>
    requires { most ≤ 16 }
    ensures { IsOnly (λ (points : Items ℕ). HasPoints (given options.now) name.now most
        points.items) result }
{
    match options.value(name) {
        Some(text) => points_in(text, most),
        None => Some(ArrayVec::new()),
    }
}

// The points that the text lists.
fn points_in(text: &str, most: u8) -> Option<ArrayVec<u8, 16>>
    requires { most ≤ 16 }
    ensures { IsOnly (λ (points : Items ℕ). AreListedPoints most points.items
        × Lists decimal text.now points.items) result }
{
    let mut points = ArrayVec::new();
    let mut next = 1;
    for piece in text.split(',') {
        let point = read_number(piece, u32::from(most))?;
        if point < next {
            return None;
        }
        points.push(point as u8);
        next = point + 1;
    }
    Some(points)
}
