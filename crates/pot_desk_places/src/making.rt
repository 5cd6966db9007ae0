//! How a desk is shared, and the share of a place.
ghost use Rattle.std.specs.Prelude.{◌≡◌, ◌+◌, IfOk, IfSome};
ghost use Rattle.pot_desk_shares.specs.Making.{share_of, AreTerms};

use pot_bytes::NoMemory;
use pot_desk_shares::{LONGEST, Terms, make_share, random_len};
use std::alloc::Global;

/// How the desk that a session left is shared: one share for each place, and so many give it back.
/// None where no desk is shared so.
pub fn terms_of(need: u8, places: u8, session: u32) -> Option<Terms>
    ensures terms { IfSome result AreTerms }
    ensures need { IfSome result (λ t. t.need ≡ need) }
    ensures count { IfSome result (λ t. t.count ≡ places) }
    ensures generation { IfSome result (λ t. t.generation ≡ session) }
{
    if need < 1 || need > places || places > 16 {
        return None;
    }
    Some(Terms {
        need,
        count: places,
        generation: u64::from(session),
    })
}

/// How many random bytes the shares of a text take. None where it is too long to be shared.
pub fn random_size(terms: &Terms, text: &[u8]) -> Option<usize>
    requires { AreTerms terms.now }
{
    let long = text.len() as u64;
    if long > LONGEST {
        return None;
    }
    usize::try_from(random_len(terms, long)).ok()
}

/// The share of a place, counted from 0. None where there is no such place, the text is too long,
/// or there are not just as many random bytes as the shares take.
pub fn made_share(
    alloc: Global,
    text: &[u8],
    terms: &Terms,
    random: &[u8],
    place: u8,
) -> Result<Option<Vec<u8>>, NoMemory>
    requires { AreTerms terms.now }
    ensures { IfOk result (λ made. IfSome made (λ share.
        share.items ≡ share_of terms.now text.now random.now (place + 1))) }
{
    let long = text.len() as u64;
    if long > LONGEST || place >= terms.count {
        return Ok(None);
    }
    if random.len() as u64 != random_len(terms, long) {
        return Ok(None);
    }
    Ok(Some(make_share(alloc, text, terms, random, place + 1)?))
}
