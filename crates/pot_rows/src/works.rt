//! What a job did with a row of passes, over what these know.
ghost use Rattle.pot_rows.specs.Works.{TurnIsWork, OwnInTurnAt, RowWorkInParts, RowOnlyWriterOfInParts};
ghost use Rattle.pot_rows.specs.Works.{TieIsWork, TieHasNone};
ghost use Rattle.pot_rows.specs.Works.{RowWorkExtends, RowExtendsInParts, RowOnlyWriterInParts, RowOnlyWriterOfAny};
ghost use Rattle.pot_rows.specs.Works.{RowOnlyWriterAtClose, JoinsAtPlaces};

/// The laws of `pot_worked` for a row: a locked call at one place and a tie are work of the whole
/// row, part after part; commands in a row; and the rows of a batch are joined at each place.
pub fn row_laws<E, O>()
    ensures turn { TurnIsWork E O }
    ensures own { OwnInTurnAt E O }
    ensures whole { RowWorkInParts E O }
    ensures parts { RowOnlyWriterOfInParts E O }
    ensures tie { TieIsWork E O }
    ensures none { TieHasNone E O }
    ensures went { RowWorkExtends E O }
    ensures went_whole { RowExtendsInParts E O }
    ensures sole_parts { RowOnlyWriterInParts E O }
    ensures sole_alone { RowOnlyWriterOfAny E O }
    ensures close { RowOnlyWriterAtClose E O }
    ensures batch { JoinsAtPlaces E O }
{}
