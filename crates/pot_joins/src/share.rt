ghost use Rattle.std.specs.Prelude.{◌≡◌, ◌≢◌, ◌<◌, ◌≤◌, ◌*◌, ℕ, length, map, nat_eq, bit_xor};
ghost use Rattle.std.specs.Prelude.{slice_index};
ghost use Rattle.std.specs.List.{All, IsDistinct};
ghost use Rattle.pot_joins.specs.Joins.{IsJoinAt};
ghost use Rattle.pot_split.specs.Secrecy.{rows_of};
ghost use Rattle.pot_split.specs.Threshold.{column};

use pot_split::share_join;

/// The share that other shares fix at a point: byte by byte the value there of the polynomial of
/// degree below their number that goes through them. The shares stand row by row, one for each
/// point.
///
/// It is what they mean at the points + `at`, since there the polynomial turned by `at` goes
/// through them.
pub fn share_at(points: &[u8], shares: &[u8], at: u8, out: &mut [u8])
    requires some { 0 < length points.now }
    requires few { length points.now ≤ 16 }
    requires distinct { IsDistinct nat_eq points.now }
    requires apart { (i : ℕ) → i < length points.now → slice_index points.now i ≢ at }
    requires rows { length shares.now ≡ length points.now * length out.old }
    ensures { (k : ℕ) → k < length out.new
        → IsJoinAt points.now (column k (rows_of (length points.now) (length out.new) shares.now))
        at (slice_index out.new k) }
{
    let mut turned = [0; 16];
    turn(points, at, &mut turned[..points.len()]);
    share_join(&turned[..points.len()], shares, out);
}

/// Each point + `at`.
fn turn(points: &[u8], at: u8, out: &mut [u8])
    requires { length out.old ≡ length points.now }
    ensures { out.new ≡ map (λ x. bit_xor x at) points.now }
{
    for i in 0..points.len() {
        out[i] = points[i] ^ at;
    }
}
