//! The newest text of which enough shares are there.
ghost use Rattle.std.specs.Prelude.{◌≡◌, ◌≤◌, ◌<◌, ◌↔◌, ◌++◌, ◌∷◌, [], ℕ, List, length};
ghost use Rattle.std.specs.Prelude.{slice_index, IsTrue, IfOk, IfErr, MatchOption, OnOk};
ghost use Rattle.pot_desk_shares.specs.Finding.{AreFound, AreRows, HasHead, IsShareAt, IsComplete};
ghost use Rattle.pot_desk_shares.specs.Finding.{IsLatest, IsNewer, IsOfComplete, IsThere};
ghost use Rattle.pot_desk_shares.specs.Joins.{GivesTextBack, IsJoinFault, IsTextGiven, IsNewest};
ghost use Rattle.pot_desk_shares.specs.Joins.{IsShareWhole};
ghost use Rattle.pot_desk_shares.specs.Joins.{SetStandsIn};
ghost use Rattle.pot_desk_shares.specs.Shares.{with_digest};
ghost use Rattle.pot_desk_shares.specs.declared.making.Terms.{Terms};
ghost use Rattle.pot_desk_shares.specs.declared.share.DeskShare.{DeskShare};
ghost use Rattle.pot_desk_shares.specs.declared.share.ShareHead.{ShareHead};

use crate::share::{DeskShare, ShareHead, is_head};
use pot_bytes::{NoMemory, digest_of};
use pot_split::share_join;
use std::alloc::{AllocError, Global};

/// A text that was given, and the head of a share of its set.
#[derive(Drop)]
pub struct Joined {
    pub head: ShareHead,
    pub text: Vec<u8>,
}

/// Why no text is given.
#[derive(Clone, Copy, PartialEq, Eq, Debug)]
pub enum JoinFault {
    /// None of these is a share.
    NoShare,
    /// Of no set are enough shares there. Of the newest that is there at all, so many points are.
    Few { head: ShareHead, have: u8 },
    /// Enough shares of the newest complete set are there, and they are of no text with its digest:
    /// one of them is forged.
    Damaged { head: ShareHead },
    NoMemory,
}

impl From<NoMemory> for JoinFault {
    ghost use Rattle.pot_desk_shares.specs.declared.joining.JoinFault.TheVariants.{NoMemory};

    ghost from_gives = { λ _ e. e ≡ NoMemory };

    fn from(_: NoMemory) -> Self {
        JoinFault::NoMemory
    }
}

impl From<AllocError> for JoinFault {
    ghost use Rattle.pot_desk_shares.specs.declared.joining.JoinFault.TheVariants.{NoMemory};

    ghost from_gives = { λ _ e. e ≡ NoMemory };

    fn from(_: AllocError) -> Self {
        JoinFault::NoMemory
    }
}

/// The newest text of which as many shares are there as are needed. Shares of two sets are never
/// joined.
///
/// # Errors
/// As `JoinFault` tells.
pub fn join(alloc: Global, shares: &[DeskShare]) -> Result<Joined, JoinFault>
    ensures given { IfOk result (λ j. IsTextGiven shares.now j) }
    ensures fault { IfErr result (λ e. IsJoinFault shares.now e) }
    ensures gives_back { (t : Terms) (text random : List ℕ) → SetStandsIn shares.now t text random
        → GivesTextBack text result }
{
    match newest_complete(alloc, shares)? {
        Some(head) => join_set(alloc, shares, &head),
        None => Err(why_not(alloc, shares)?),
    }
}

/// What enough shares of the newest complete set are joined to.
fn join_set(alloc: Global, shares: &[DeskShare], head: &ShareHead) -> Result<Joined, JoinFault>
    requires complete { IsComplete shares.now head.now }
    requires newest { IsNewest shares.now head.now }
    ensures given { IfOk result (λ j. IsTextGiven shares.now j) }
    ensures fault { IfErr result (λ e. IsJoinFault shares.now e) }
{
    let points = points_at(alloc, shares, head)?;
    let values = values_at(alloc, shares, head, &points)?;
    let mut whole = vec![in alloc; 0; head.length as usize + 32]?;
    share_join(&points, &values, &mut whole);
    match text_in(whole) {
        Some(text) => Ok(Joined { head: *head, text }),
        None => Err(JoinFault::Damaged { head: *head }),
    }
}

/// The text whose digest stands behind it in these bytes. None where they are of none.
fn text_in(whole: Vec<u8>) -> Option<Vec<u8>>
    requires { 32 ≤ length whole.items }
    ensures { MatchOption result ((text : List ℕ) → ¬ (whole.items ≡ with_digest text))
        (λ text. whole.items ≡ with_digest text.items) }
{
    let mut text = whole;
    let long = text.as_slice().len() - 32;
    let (front, digest) = text.split_at(long);
    if digest_of(front).bytes.as_slice() != digest {
        return None;
    }
    text.truncate(long);
    Some(text)
}

/// Why none of these sets is complete.
fn why_not(alloc: Global, shares: &[DeskShare]) -> Result<JoinFault, NoMemory>
    requires { (h : ShareHead) → ¬ IsComplete shares.now h }
    ensures { IfOk result (λ e. IsJoinFault shares.now e) }
{
    match newest(shares) {
        Some(head) => {
            let points = points_at(alloc, shares, &head)?;
            Ok(JoinFault::Few {
                head,
                have: points.as_slice().len() as u8,
            })
        }
        None => Ok(JoinFault::NoShare),
    }
}

/// The head of a newest share.
fn newest(shares: &[DeskShare]) -> Option<ShareHead>
    ensures { IsLatest shares.now IsShareWhole (length shares.now) result }
{
    let mut best = None;
    for at in 0..shares.len() {
        if is_whole(&shares[at]) && is_newer(&shares[at].head, &best) {
            best = Some(shares[at].head);
        }
    }
    best
}

/// The head of a newest share of which as many of its set are there as are needed.
fn newest_complete(alloc: Global, shares: &[DeskShare]) -> Result<Option<ShareHead>, NoMemory>
    ensures { IfOk result (λ best. IsLatest shares.now (IsOfComplete shares.now)
        (length shares.now) best) }
{
    let mut best = None;
    for at in 0..shares.len() {
        let share = &shares[at];
        if is_newer(&share.head, &best) && is_complete(alloc, shares, share)? {
            best = Some(share.head);
        }
    }
    Ok(best)
}

/// Whether a head is newer than the best so far.
fn is_newer(head: &ShareHead, best: &Option<ShareHead>) -> bool
    ensures { IsTrue result ↔ IsNewer head.now best.now }
{
    match best {
        Some(other) => other.generation < head.generation,
        None => true,
    }
}

/// Whether this is a share, and as many of its set are there as are needed.
fn is_complete(alloc: Global, shares: &[DeskShare], share: &DeskShare) -> Result<bool, NoMemory>
    ensures { IfOk result (λ yes. IsTrue yes ↔ IsOfComplete shares.now share.now) }
{
    if !is_whole(share) {
        return Ok(false);
    }
    let points = points_at(alloc, shares, &share.head)?;
    Ok(points.as_slice().len() == usize::from(share.head.need))
}

/// The points of a set of which a share is there: all, or as many as are needed.
fn points_at(alloc: Global, shares: &[DeskShare], head: &ShareHead) -> Result<Vec<u8>, NoMemory>
    ensures { IfOk result (λ points. AreFound shares.now head.now 17 points.items) }
{
    let mut points = Vec::new(alloc);
    for point in 1..17 {
        let count = points.as_slice().len();
        if count < usize::from(head.need) && find_share(shares, head, point).is_some() {
            push_point(&mut points, point)?;
        }
    }
    Ok(points)
}

/// Adds a point.
fn push_point(points: &mut Vec<u8>, point: u8) -> Result<(), NoMemory>
    ensures { OnOk result (points.new.items ≡ points.old.items ++ point ∷ []) }
{
    match points.push(point) {
        Ok(()) => Ok(()),
        Err(_) => Err(NoMemory),
    }
}

/// The values of the shares of a set at these points, row by row.
fn values_at(
    alloc: Global,
    shares: &[DeskShare],
    head: &ShareHead,
    points: &[u8],
) -> Result<Vec<u8>, NoMemory>
    requires { (i : ℕ) → i < length points.now
        → IsThere shares.now head.now (slice_index points.now i) }
    ensures { IfOk result (λ values. (chosen : List DeskShare)
        × AreRows shares.now head.now chosen points.now values.items) }
{
    let mut values = Vec::new(alloc);
    for i in 0..points.len() {
        match find_share(shares, head, points[i]) {
            Some(at) => values.extend_from_slice(shares[at].body)?,
            None => {}
        }
    }
    Ok(values)
}

/// Where a share of a set at a point stands.
fn find_share(shares: &[DeskShare], head: &ShareHead, point: u8) -> Option<usize>
    ensures { MatchOption result (¬ IsThere shares.now head.now point)
        (λ at. IsShareAt shares.now head.now point at) }
{
    find_head(shares, &ShareHead { point, ..*head })
}

/// Where the first share of this head stands.
fn find_head(shares: &[DeskShare], wanted: &ShareHead) -> Option<usize>
    ensures { MatchOption result
        ((at : ℕ) (s : DeskShare) → at < length shares.now → ¬ HasHead shares.now wanted.now at s)
        (λ at. (s : DeskShare) × HasHead shares.now wanted.now at s) }
{
    for at in 0..shares.len() {
        if shares[at].head == *wanted && is_whole(&shares[at]) {
            return Some(at);
        }
    }
    None
}

/// Whether the head is that of a share, and as many values are there as it says.
fn is_whole(share: &DeskShare) -> bool
    ensures { IsTrue result ↔ IsShareWhole share.now }
{
    is_head(&share.head) && share.body.len() as u64 == share.head.length + 32
}
