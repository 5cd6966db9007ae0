ghost use Rattle.std.specs.Prelude.{◌≡◌, ◌≤◌, ◌<◌, IfOk, IfErr};
ghost use Rattle.pot_object.specs.Pieces.{longest, pieces_of};

/// The bytes of the longest file: 1,024 pieces of 864 bytes.
pub const LONGEST: u64 = 884_736;

/// The bytes of a file that one piece takes.
pub const PIECE: u64 = 864;

/// The bytes of the object that carries a piece.
pub const OBJECT: usize = 928;

/// The bytes of the content that carries a fragment of an object, and of each of its shares.
pub const CONTENT: usize = 992;

/// A file is longer than 884,736 bytes.
#[derive(Clone, Copy, PartialEq, Eq, Debug)]
pub struct TooLong {
    pub length: u64,
}

/// The number of pieces of a file of this length, where it is not too long.
pub fn cut_file(length: u64) -> Result<u32, TooLong>
    ensures cut { IfOk result (λ n. (length ≤ longest) × (n ≡ pieces_of length)) }
    ensures long { IfErr result (λ e. (longest < length) × (e.length ≡ length)) }
{
    if length > LONGEST {
        return Err(TooLong { length });
    }
    Ok(count_pieces(length))
}

/// The number of pieces of a file of this length: 864 bytes each, and one for the empty file.
pub fn count_pieces(length: u64) -> u32
    requires fits { length ≤ longest }
    ensures value { result ≡ pieces_of length }
    ensures few { result ≤ 1024 }
{
    length.div_ceil(PIECE).max(1) as u32
}
