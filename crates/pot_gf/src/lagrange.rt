ghost use Rattle.std.specs.Prelude.{◌≡◌};
ghost use Rattle.pot_gf.specs.Lagrange.{lagrange_weight};

use crate::field::{inv, mul};

/// What the value at `point` counts in the value at 0 of the polynomial through all points: the
/// product of all a / (a - point) over the other points.
pub fn weight_at_zero(points: &[u8], point: u8) -> u8
    ensures { result ≡ lagrange_weight points.now point }
{
    let mut above = 1;
    let mut below = 1;
    for other in points {
        if *other != point {
            above = mul(above, *other);
            below = mul(below, *other ^ point);
        }
    }
    mul(above, inv(below))
}
