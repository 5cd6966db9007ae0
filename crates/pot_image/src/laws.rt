//! What is proved of grammars of fields.
ghost use Rattle.pot_image.specs.Laws.{ReadOnce, LeftOnce, NeverBoth, Decided, FieldsReadBack};
ghost use Rattle.pot_image.specs.Laws.{ReadBack, WrittenApart, MayBeWritten, SomeImage};
ghost use Rattle.pot_image.specs.Laws.{OneSpelling, SpelledAsWritten, OneImage, ImageAsWritten};

/// A grammar over values of some type.
pub trait GrammarShape {
    ghost use Rattle.pot_image.specs.Fields.{Grammar};

    /// The values.
    ghost value: { Type 0 };

    /// The grammar.
    ghost grammar: { Grammar value };
}

/// What is proved of every grammar of fields: bytes have one value or leave the grammar at one
/// place, and never both. It does nothing.
pub fn field_laws<S: GrammarShape>()
    ensures once { ReadOnce S.grammar }
    ensures place { LeftOnce S.grammar }
    ensures either { NeverBoth S.grammar }
    ensures decided { Decided S.grammar }
{}

/// What is proved of an image that was written. Its fields are those of the grammar, whatever
/// `read_image` may answer to its bytes is the image, unless memory was not found, and no two
/// images have the same bytes. Each may be written, and there is one. And of bytes that are read as
/// an image: in each format they are its only ones, the fields alone and all bytes, and in the
/// second they are those that are written. It does nothing.
pub fn image_laws()
    ensures fields { FieldsReadBack }
    ensures back { ReadBack }
    ensures apart { WrittenApart }
    ensures countable { MayBeWritten }
    ensures some { SomeImage }
    ensures one { OneSpelling }
    ensures written { SpelledAsWritten }
    ensures one_image { OneImage }
    ensures image_written { ImageAsWritten }
{}
