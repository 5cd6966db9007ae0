ghost use Rattle.std.specs.Prelude.{◌≡◌, ◌↔◌, ◌==◌, ◌≤◌, ◌++◌, drop, List, ℕ, length, IsTrue};
ghost use Rattle.std.specs.Prelude.{MatchOption};
ghost use Rattle.std.specs.Cmp.Lexicographic.{pointwise, slice_cmp};
ghost use Rattle.std.specs.Cmp.{partial_order_from_own_ties};
ghost use Rattle.std.specs.Cmp.Rules.{comparing};
ghost use Rattle.std.specs.Ordering.{nat_cmp, as_partial_cmp};
ghost use Rattle.std.proofs.Common.{rules};
ghost use Rattle.pot_bytes.specs.Names.{IsName, is_name_byte};

use crate::block::put_front;
use std::cmp::Ordering;
use std::marker::Model;

/// The name of a stored file: 1 to 64 bytes of `a-z`, `0-9`, `.`, `_` and `-`. Contracts see the
/// list of its bytes.
#[derive(Clone, Copy)]
pub struct Name {
    count: u8,
    bytes: [u8; 64],
}

impl Model for Name {
    ghost use Rattle.std.specs.Prelude.{◌≡◌, ◌-◌, ◌++◌, List, ℕ, length, take, drop, replicate};
    ghost use Rattle.pot_bytes.specs.Names.{IsName, IsPadded};

    ghost Value = { List ℕ };

    ghost use Rattle.pot_bytes.specs.KeptNames.{kept_whole};

    ghost view = { λ n. take n.count n.bytes };

    ghost invariant = { λ n. IsPadded n.count n.bytes };

    ghost inverse = { λ v. record { count = length v; bytes = v ++ replicate (64 - length v) 0 } };

    ghost inverse_ok = { λ a h. kept_whole a h };
}

impl Name {
    /// The name of these bytes. None exactly where they are no name.
    pub fn read(bytes: &[u8]) -> Option<Name>
        ensures { MatchOption result (¬ IsName bytes.now)
            (λ n. (n ≡ bytes.now) × IsName bytes.now) }
    {
        if !is_name(bytes) {
            return None;
        }
        let mut kept = [0u8; 64];
        put_front(&mut kept, bytes);
        Some(Name {
            count: bytes.len() as u8,
            bytes: kept,
        })
    }

    /// Its bytes.
    pub fn bytes(&self) -> &[u8]
        ensures value { result.now ≡ self.now }
        ensures name { IsName self.now }
    {
        &self.bytes[..self.count as usize]
    }
}

/// Whether these bytes are a name.
fn is_name(bytes: &[u8]) -> bool
    ensures { IsTrue result ↔ IsName bytes.now }
{
    !bytes.is_empty() && bytes.len() <= 64 && bytes.iter().all(|b| is_name_byte(*b))
}

fn is_name_byte(byte: u8) -> bool
    ensures { result ≡ is_name_byte byte }
{
    matches!(byte, b'a'..=b'z' | b'0'..=b'9' | b'.' | b'_' | b'-')
}

impl PartialEq for Name {
    ghost eq = { pointwise ◌==◌ };

    ghost laws = { Prim.search (comparing, rules) };

    fn eq(&self, other: &Name) -> bool {
        self.bytes() == other.bytes()
    }
}

impl Eq for Name {
    ghost laws = { Prim.search (comparing, rules) };
}

impl Ord for Name {
    ghost cmp = { slice_cmp nat_cmp };

    ghost total = { Prim.search (comparing, rules) };

    ghost matches_partial_cmp = { Prim.search (comparing, rules) };

    ghost matches_eq = { Prim.search (comparing, rules) };

    fn cmp(&self, other: &Name) -> Ordering {
        self.bytes().cmp(other.bytes())
    }
}

impl PartialOrd for Name {
    ghost partial_cmp = { as_partial_cmp (slice_cmp nat_cmp) };

    ghost laws = { partial_order_from_own_ties (Prim.search (comparing, rules)) (Prim.search (comparing, rules)) };

    fn partial_cmp(&self, other: &Name) -> Option<Ordering> {
        Some(self.cmp(other))
    }
}
