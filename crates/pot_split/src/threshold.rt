ghost use Rattle.std.specs.Prelude.{◌≡◌, ◌<◌, ◌≤◌, ◌*◌, ◌+◌, ℕ, length, slice_index, nat_eq};
ghost use Rattle.std.specs.List.{All, IsDistinct};
ghost use Rattle.pot_bytes.specs.Sums.{xor};
ghost use Rattle.pot_bytes.specs.Weighted.{weighted_sum};
ghost use Rattle.pot_gf.specs.Field.{power};
ghost use Rattle.pot_gf.specs.Lagrange.{lagrange_weight};
ghost use Rattle.pot_split.specs.Secrecy.{rows_of, IsRows};
ghost use Rattle.pot_split.specs.Threshold.{share, IsJoin, ThresholdLaws};

use pot_bytes::add_weighted;
use pot_gf::{mul, weight_at_zero};

/// The share of a content at a point. The coefficients are at most 15 rows, each as long as the
/// content.
///
/// With m - 1 rows of random bytes, each used once, any m shares give the content, and fewer tell
/// nothing of it but its length.
pub fn share_out(content: &[u8], coefficients: &[u8], point: u8, out: &mut [u8])
    requires some { 0 < length content.now }
    requires rows { IsRows (length content.now) coefficients.now }
    requires few { length coefficients.now ≤ 15 * length content.now }
    requires wide { length out.old ≡ length content.now }
    requires not_zero { 0 < point }
    ensures { out.new ≡ share content.now coefficients.now point }
{
    out.copy_from_slice(content);
    let powers = powers_of(point);
    add_weighted_rows(
        out,
        &powers[..coefficients.len() / content.len()],
        coefficients,
    );
}

/// What shares mean that stand row by row, one for each point: byte by byte the value at 0 of the
/// polynomial of degree below their number that goes through them.
pub fn share_join(points: &[u8], shares: &[u8], out: &mut [u8])
    requires some { 0 < length points.now }
    requires few { length points.now ≤ 16 }
    requires distinct { IsDistinct nat_eq points.now }
    requires not_zero { All (λ x. 0 < x) points.now }
    requires rows { length shares.now ≡ length points.now * length out.old }
    ensures { IsJoin points.now shares.now out.new }
{
    out.fill(0);
    let weights = weights_of(points);
    add_weighted_rows(out, &weights[..points.len()], shares);
}

/// More shares than there are rows of coefficients give the content, and no more shares than that
/// are shares of any other content too. Any shares have one join.
pub fn threshold_laws()
    ensures { ThresholdLaws }
{}

/// The first 15 powers of the point, from the point itself on.
fn powers_of(point: u8) -> [u8; 15]
    ensures len { length result ≡ 15 }
    ensures values { (t : ℕ) → t < 15 → slice_index result t ≡ power point (t + 1) }
{
    let mut powers = [0; 15];
    let mut power = 1;
    for t in 0..15 {
        power = mul(point, power);
        powers[t] = power;
    }
    powers
}

/// What the value at each point counts in the value at 0, and zeros behind.
fn weights_of(points: &[u8]) -> [u8; 16]
    requires { length points.now ≤ 16 }
    ensures len { length result ≡ 16 }
    ensures values { (i : ℕ) → i < length points.now
        → slice_index result i ≡ lagrange_weight points.now (slice_index points.now i) }
{
    let mut weights = [0; 16];
    for i in 0..points.len() {
        weights[i] = weight_at_zero(points, points[i]);
    }
    weights
}

/// XORs each row times its weight into `into`.
fn add_weighted_rows(into: &mut [u8], weights: &[u8], rows: &[u8])
    requires { length rows.now ≡ length weights.now * length into.old }
    ensures { into.new
        ≡ xor into.old (weighted_sum (length into.old) weights.now
        (rows_of (length weights.now) (length into.old) rows.now)) }
{
    let mut rest = rows;
    for weight in weights {
        let (row, others) = rest.split_at(into.len());
        add_weighted(into, *weight, row);
        rest = others;
    }
}
