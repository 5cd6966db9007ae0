//! Spots as the value of an option: `0.3,1.0`.

ghost use Rattle.std.specs.Prelude.{◌≡◌};
ghost use Rattle.arrayvec.specs.ArrayVec.{ArrayVec as Items};
ghost use Rattle.pot_options.specs.Options.{given};
ghost use Rattle.pot_words.specs.Answers.{IsOnly};
ghost use Rattle.pot_words.specs.Lists.{AscendFrom, HasSpots, IsSpot, Lists, spot_rank, spot_text};
ghost use Rattle.pot_words.specs.declared.spot.Spot.{Spot};

use crate::numbers::read_number;
use crate::spot::Spot;
use arrayvec::ArrayVec;
use pot_options::Options;

/// The spots that the option has, ascending.
pub fn spots_of(options: &Options<'_>, name: &str) -> Option<ArrayVec<Spot, 288>>
    ensures { IsOnly (λ (spots : Items Spot). HasSpots (given options.now) name.now spots.items)
        result }
{
    match options.value(name) {
        Some(text) => spots_in(text),
        None => None,
    }
}

// The spots that the text lists.
fn spots_in(text: &str) -> Option<ArrayVec<Spot, 288>>
    ensures { IsOnly (λ (spots : Items Spot). AscendFrom IsSpot spot_rank 0 spots.items
        × Lists spot_text text.now spots.items) result }
{
    let mut spots = ArrayVec::new();
    let mut next = 0;
    for piece in text.split(',') {
        let spot = read_spot(piece)?;
        let rank = rank_of(spot);
        if rank < next {
            return None;
        }
        spots.push(spot);
        next = rank + 1;
    }
    Some(spots)
}

// The spot's place among all spots, by group and then by column.
fn rank_of(spot: Spot) -> u32
    ensures { result ≡ spot_rank spot }
{
    u32::from(spot.group) * 18 + u32::from(spot.column)
}

// The spot that the text spells.
fn read_spot(text: &str) -> Option<Spot>
    ensures { IsOnly (λ (s : Spot). IsSpot s × (text.now ≡ spot_text s)) result }
{
    let (before, after) = text.split_once('.')?;
    let group = read_number(before, 15)?;
    let column = read_number(after, 17)?;
    Some(Spot {
        group: group as u8,
        column: column as u8,
    })
}
