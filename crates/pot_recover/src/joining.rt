ghost use Rattle.std.specs.Prelude.{◌≡◌, ◌↔◌, ◌<◌, ◌≤◌, ◌+◌, ◌-◌, ◌*◌, ℕ, List, ◌++◌, map, length};
ghost use Rattle.std.specs.Prelude.{replicate, slice_index, IsTrue, IfOk, OnOk, MatchOption};
ghost use Rattle.std.specs.List.{flat_map, range_with_len};
ghost use Rattle.pot_joins.specs.Joins.{IsJoinAt};
ghost use Rattle.pot_recover.specs.HeldShards.{share_of, piece_of, point_of, bytes_held, AreWhole};
ghost use Rattle.pot_recover.specs.HeldShards.{HaveBytes, IsFixedBy};
ghost use Rattle.pot_recover.specs.Contents.{IsNumbering, IsTail};
ghost use Rattle.pot_recover.specs.Points.{ArePoints};
ghost use Rattle.pot_recover.specs.Rings.{IsAnyContent};

use crate::held::Held;
use pot_bytes::NoMemory;
use pot_object::read_content;
use pot_split::share_join;
use std::alloc::Global;

/// The points of a ring, in order.
const POINTS: [u8; 16] = [1, 2, 3, 4, 5, 6, 7, 8, 9, 10, 11, 12, 13, 14, 15, 16];

/// The points from 1 on.
pub(crate) fn first_points(count: usize) -> &'static [u8]
    requires { count ≤ 16 }
    ensures { result.now ≡ range_with_len 1 count }
{
    &POINTS[..count]
}

/// The content that the shares of a chain mean, where they mean one.
///
/// The number, the count and the zeros behind them are joined first: few chains that mean none are
/// joined whole.
pub(crate) fn content_of(alloc: Global, chain: &[Held]) -> Result<Option<[u8; 992]>, NoMemory>
    requires some { 0 < length chain.now }
    requires few { length chain.now ≤ 16 }
    requires whole { AreWhole chain.now }
    requires bytes { HaveBytes chain.now }
    requires points { ArePoints (map point_of chain.now) }
    ensures { IfOk result
        (λ content. MatchOption content ((c : List ℕ) → IsFixedBy chain.now 0 c → ¬ IsAnyContent c)
        (λ c. IsFixedBy chain.now 0 c × IsAnyContent c)) }
{
    let mut tail = [0; 16];
    join_places(alloc, chain, 16, &mut tail)?;
    if !is_tail(&tail) {
        return Ok(None);
    }
    whole_content(alloc, chain)
}

/// The content, all its places joined.
fn whole_content(alloc: Global, chain: &[Held]) -> Result<Option<[u8; 992]>, NoMemory>
    requires some { 0 < length chain.now }
    requires few { length chain.now ≤ 16 }
    requires whole { AreWhole chain.now }
    requires bytes { HaveBytes chain.now }
    requires points { ArePoints (map point_of chain.now) }
    ensures { IfOk result
        (λ content. MatchOption content ((c : List ℕ) → IsFixedBy chain.now 0 c → ¬ IsAnyContent c)
        (λ c. IsFixedBy chain.now 0 c × IsAnyContent c)) }
{
    let mut content = [0; 992];
    join_places(alloc, chain, 0, &mut content)?;
    match read_content(&content) {
        Some(_) => Ok(Some(content)),
        None => Ok(None),
    }
}

/// What the shares of a chain mean at the places from `start` on: the values at 0 of the
/// polynomials through them.
fn join_places(alloc: Global, chain: &[Held], start: usize, out: &mut [u8]) -> Result<(), NoMemory>
    requires some { 0 < length chain.now }
    requires few { length chain.now ≤ 16 }
    requires whole { AreWhole chain.now }
    requires points { ArePoints (map point_of chain.now) }
    requires places { start + length out.old ≤ 992 }
    ensures { OnOk result
        ((k : ℕ) → k < length out.new
        → IsJoinAt (map point_of chain.now) (bytes_held (start + k) chain.now) 0
        (slice_index out.new k)) }
{
    let points = points_of(alloc, chain)?;
    let rows = rows_of(alloc, chain, start, start + out.len())?;
    share_join(&points, &rows, out);
    Ok(())
}

/// The points of a chain.
fn points_of(alloc: Global, chain: &[Held]) -> Result<Vec<u8>, NoMemory>
    ensures { IfOk result (λ points. points.items ≡ map point_of chain.now) }
{
    let points = chain.iter().map(|held| held.x).collect(alloc)?;
    Ok(points)
}

/// The bytes from `start` to `end` of the shares of a chain, row by row.
pub(crate) fn rows_of(
    alloc: Global,
    chain: &[Held],
    start: usize,
    end: usize,
) -> Result<Vec<u8>, NoMemory>
    requires whole { AreWhole chain.now }
    requires ordered { start ≤ end }
    requires within { end ≤ 992 }
    ensures { IfOk result (λ rows. rows.items ≡ flat_map (piece_of start (end - start)) chain.now) }
{
    let mut rows = Vec::new(alloc);
    for held in chain {
        push_piece(&mut rows, held, start, end)?;
    }
    Ok(rows)
}

/// Adds a part of one share.
fn push_piece(rows: &mut Vec<u8>, held: &Held, start: usize, end: usize) -> Result<(), NoMemory>
    requires whole { length (share_of held.now) ≡ 992 }
    requires ordered { start ≤ end }
    requires within { end ≤ 992 }
    ensures { OnOk result
        (rows.new.items ≡ rows.old.items ++ piece_of start (end - start) held.now) }
{
    rows.extend_from_slice(&held.share[start..end])?;
    Ok(())
}

/// Whether a content may have these bytes at its places 16 to 31: a number, a count and zeros.
pub(crate) fn is_tail(tail: &[u8; 16]) -> bool
    ensures { IsTrue result ↔ IsTail tail.now }
{
    is_numbered(tail[0], tail[1]) && is_zeros(&tail[2..])
}

/// Whether a fragment may have this number and this count.
fn is_numbered(number: u8, count: u8) -> bool
    ensures { IsTrue result ↔ IsNumbering number count }
{
    count >= 2 && count <= 8 && number >= 1 && number <= count
}

/// Whether all of them are zero.
fn is_zeros(bytes: &[u8]) -> bool
    ensures { IsTrue result ↔ (bytes.now ≡ replicate (length bytes.now) 0) }
{
    bytes.iter().all(|byte| *byte == 0)
}
