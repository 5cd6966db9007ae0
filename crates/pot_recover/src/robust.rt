ghost use Rattle.std.specs.Prelude.{◌≡◌, ◌<◌, ◌≤◌, ◌+◌, ◌++◌, ◌∷◌, ℕ, List, map, length};
ghost use Rattle.std.specs.Prelude.{slice_index, IsTrue, false, [], IfSome, IsNone, MatchOption};
ghost use Rattle.std.specs.List.{range_with_len};
ghost use Rattle.pot_recover.specs.HeldShards.{share_of, point_of, bytes_held, AreWhole, HaveBytes};
ghost use Rattle.pot_recover.specs.Rings.{IsAnyContent};
ghost use Rattle.pot_recover.specs.Robust.{IsRobustAt, AreRobust, IsRobustlyFixed, HasNoRobust};

use crate::held::Held;
use crate::joining::{first_points, is_tail};
use arrayvec::ArrayVec;
use pot_object::read_content;
use pot_robust::robust_join;

/// What the shares of a ring have at one place.
fn bytes_at(ring: &[Held], place: usize) -> ArrayVec<u8, 16>
    requires few { length ring.now ≤ 16 }
    requires whole { AreWhole ring.now }
    requires place { place < 992 }
    ensures { result.items ≡ bytes_held place ring.now }
{
    let mut bytes = ArrayVec::new();
    for held in ring {
        push_byte(&mut bytes, held, place);
    }
    bytes
}

/// Adds what one share has there.
fn push_byte(bytes: &mut ArrayVec<u8, 16>, held: &Held, place: usize)
    requires room { length bytes.old.items < 16 }
    requires whole { length (share_of held.now) ≡ 992 }
    requires place { place < 992 }
    ensures { bytes.new.items ≡ bytes.old.items ++ slice_index (share_of held.now) place ∷ [] }
{
    bytes.push(held.share[place]);
}

/// The constant term of the robust polynomial of the shares at one place.
fn robust_byte(ring: &[Held], need: u8, place: usize) -> Option<u8>
    requires some { 1 ≤ need }
    requires enough { need ≤ length ring.now }
    requires few { length ring.now ≤ 16 }
    requires whole { AreWhole ring.now }
    requires bytes { HaveBytes ring.now }
    requires points { map point_of ring.now ≡ range_with_len 1 (length ring.now) }
    requires place { place < 992 }
    ensures found { IfSome result (λ byte. IsRobustAt need (map point_of ring.now)
        (bytes_held place ring.now) byte) }
    ensures none { IsNone result → (byte : ℕ)
        → IsRobustAt need (map point_of ring.now) (bytes_held place ring.now) byte → ⊥ }
{
    let bytes = bytes_at(ring, place);
    match robust_join(first_points(ring.len()), &bytes, need) {
        Some(poly) => Some(poly.coefficients()[0]),
        None => None,
    }
}

/// Fills a buffer with what the shares of a ring give at the places from `start` on. False where
/// they give nothing at one of them.
fn fill_robust(ring: &[Held], need: u8, start: usize, into: &mut [u8]) -> bool
    requires some { 1 ≤ need }
    requires enough { need ≤ length ring.now }
    requires few { length ring.now ≤ 16 }
    requires whole { AreWhole ring.now }
    requires bytes { HaveBytes ring.now }
    requires points { map point_of ring.now ≡ range_with_len 1 (length ring.now) }
    requires places { start + length into.old ≤ 992 }
    ensures robust { IsTrue result → AreRobust need ring.now start into.new }
    ensures none { (result ≡ false) → HasNoRobust need ring.now start (length into.old) }
{
    for k in 0..into.len() {
        match robust_byte(ring, need, start + k) {
            Some(byte) => into[k] = byte,
            None => return false,
        }
    }
    true
}

/// Whether a ring may close robustly with a content: whether its shares give a number, a count and
/// zeros at the places 16 to 31. Few rings that close with none pass.
fn may_close(ring: &[Held], need: u8) -> bool
    requires some { 1 ≤ need }
    requires enough { need ≤ length ring.now }
    requires few { length ring.now ≤ 16 }
    requires whole { AreWhole ring.now }
    requires bytes { HaveBytes ring.now }
    requires points { map point_of ring.now ≡ range_with_len 1 (length ring.now) }
    ensures { (result ≡ false) → (c : List ℕ) → IsRobustlyFixed need ring.now c → IsAnyContent c
        → ⊥ }
{
    let mut tail = [0; 16];
    if !fill_robust(ring, need, 16, &mut tail) {
        return false;
    }
    is_tail(&tail)
}

/// The content with which a ring closes robustly, where it closes.
pub(crate) fn robust_content(ring: &[Held], need: u8) -> Option<[u8; 992]>
    requires some { 1 ≤ need }
    requires enough { need ≤ length ring.now }
    requires few { length ring.now ≤ 16 }
    requires whole { AreWhole ring.now }
    requires bytes { HaveBytes ring.now }
    requires points { map point_of ring.now ≡ range_with_len 1 (length ring.now) }
    ensures found { IfSome result (λ c. IsRobustlyFixed need ring.now c × IsAnyContent c) }
    ensures none { IsNone result → (c : List ℕ) → IsRobustlyFixed need ring.now c → IsAnyContent c
        → ⊥ }
{
    if !may_close(ring, need) {
        return None;
    }
    let mut content = [0; 992];
    if !fill_robust(ring, need, 0, &mut content) {
        return None;
    }
    match read_content(&content) {
        Some(_) => Some(content),
        None => None,
    }
}
