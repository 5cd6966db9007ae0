//! The shares of a text.
ghost use Rattle.std.specs.Prelude.{◌≡◌, ◌≤◌, length, IfOk};
ghost use Rattle.pot_desk_shares.specs.Making.{random_len, share_of, AreTerms};
ghost use Rattle.pot_desk_shares.specs.Shares.{longest, with_digest};

use crate::share::{ShareHead, append_digest, share_bytes};
use pot_bytes::{NoMemory, read_be64};
use pot_split::share_out;
use std::alloc::Global;

/// The bytes of the longest text.
pub const LONGEST: u64 = 1_073_741_824;

/// How a text is shared.
#[derive(Clone, Copy, PartialEq, Eq, Debug)]
pub struct Terms {
    /// How many shares give the text, from 1.
    pub need: u8,
    /// How many shares there are, at most 16.
    pub count: u8,
    /// How new the text is: the greater the newer.
    pub generation: u64,
}

/// How many random bytes a set of shares takes of a text of so many bytes: 8 for its number, and
/// `need` - 1 rows, each
/// 32 longer than the text.
pub fn random_len(terms: &Terms, long: u64) -> u64
    requires terms { AreTerms terms.now }
    requires fits { long ≤ longest }
    ensures { result ≡ random_len terms.now long }
{
    8 + (u64::from(terms.need) - 1) * (long + 32)
}

/// The bytes of the share of a text at a point, 1 to `count`. All shares of a set are made by the
/// same random bytes.
///
/// # Errors
/// Want of memory.
pub fn make_share(
    alloc: Global,
    text: &[u8],
    terms: &Terms,
    random: &[u8],
    point: u8,
) -> Result<Vec<u8>, NoMemory>
    requires terms { AreTerms terms.now }
    requires fits { length text.now ≤ longest }
    requires random { length random.now ≡ random_len terms.now (length text.now) }
    requires first { 1 ≤ point }
    requires last { point ≤ terms.now.count }
    ensures { IfOk result (λ v. v.items ≡ share_of terms.now text.now random.now point) }
{
    let secret = append_digest(Vec::from_slice(alloc, text)?)?;
    let mut body = vec![in alloc; 0; secret.len()]?;
    share_out(&secret, &random[8..], point, &mut body);
    let head = ShareHead {
        need: terms.need,
        count: terms.count,
        point,
        generation: terms.generation,
        set: read_be64(random, 0),
        length: text.len() as u64,
    };
    share_bytes(alloc, &head, &body)
}
