ghost use Rattle.std.specs.Prelude.{◌≡◌, ◌∷◌, ◌+◌, ◌<◌, ◌≤◌, length, replicate, take, slice_index};
ghost use Rattle.std.specs.Prelude.{nat_eq};
ghost use Rattle.std.specs.List.{All, IsDistinct};
ghost use Rattle.pot_bytes.specs.Sums.{xor};
ghost use Rattle.pot_bytes.specs.Weighted.{scaled};
ghost use Rattle.pot_gf.specs.Polynomials.{value, IsPoly, IsBelowDegree, IsSame, VanishesAt};
ghost use Rattle.pot_gf.specs.Polynomials.{PassesThrough, IsTheOnlyOne, IsTimesLine, Meets};
ghost use Rattle.pot_gf.specs.Polynomials.{PolynomialLaws, vanishing};

use crate::field::{inv, mul};
use pot_bytes::add_weighted;
use std::marker::Model;

/// A polynomial of degree below 16 over the field. Contracts see the list of its 16 coefficients,
/// that of x^t at place t.
#[derive(Clone, Copy)]
pub struct Poly {
    coefficients: [u8; 16],
}

impl Model for Poly {
    ghost use Rattle.std.specs.Prelude.{ℕ, List};
    ghost use Rattle.pot_gf.specs.Polynomials.{IsPoly};

    ghost Value = { List ℕ };

    ghost view = { λ p. p.coefficients };

    ghost invariant = { λ p. IsPoly p.coefficients };

    ghost inverse = { λ v. record { coefficients = v } };
}

impl Poly {
    /// The polynomial that is 0 everywhere.
    pub fn zero() -> Poly
        ensures value { result ≡ replicate 16 0 }
        ensures is_poly { IsPoly result }
    {
        Poly {
            coefficients: [0; 16],
        }
    }

    /// The polynomial that is `constant` everywhere.
    pub fn constant(constant: u8) -> Poly
        ensures value { result ≡ constant ∷ replicate 15 0 }
        ensures is_poly { IsPoly result }
    {
        let mut coefficients = [0; 16];
        coefficients[0] = constant;
        Poly { coefficients }
    }

    /// Its coefficients, that of x^t at place t.
    pub fn coefficients(&self) -> &[u8; 16]
        ensures value { result.now ≡ self.now }
        ensures is_poly { IsPoly self.now }
    {
        &self.coefficients
    }

    /// Its value at x.
    pub fn eval(&self, x: u8) -> u8
        ensures value { result ≡ value self.now x }
        ensures is_poly { IsPoly self.now }
    {
        value_of(&self.coefficients, x)
    }

    /// Adds `factor` times another polynomial to it.
    pub fn add_scaled(&mut self, factor: u8, other: &Poly)
        ensures value { self.new ≡ xor self.old (scaled factor other.now) }
        ensures is_poly { IsPoly self.new }
    {
        add_weighted(&mut self.coefficients, factor, &other.coefficients);
    }

    /// x times it, without what would be its coefficient of x^16.
    fn raised(&self) -> Poly
        ensures value { result ≡ 0 ∷ take 15 self.now }
        ensures is_poly { IsPoly result }
        ensures from_poly { IsPoly self.now }
    {
        let mut coefficients = [0; 16];
        coefficients[1..].copy_from_slice(&self.coefficients[..15]);
        Poly { coefficients }
    }

    /// (constant + slope x) times it, where it has no term of x^15.
    fn times_line(&self, constant: u8, slope: u8) -> Poly
        requires { slice_index self.now 15 ≡ 0 }
        ensures value { IsTimesLine constant slope self.now result }
        ensures is_poly { IsPoly result }
    {
        let mut product = Poly::zero();
        product.add_scaled(constant, self);
        product.add_scaled(slope, &self.raised());
        product
    }

    /// Adds the multiple of `node` that makes its value at `point` be `wanted`.
    fn meet(&mut self, point: u8, wanted: u8, node: &Poly)
        requires { 0 < value node.now point }
        ensures value { Meets point wanted node.now self.old self.new }
        ensures is_poly { IsPoly self.new }
    {
        let missing = wanted ^ self.eval(point);
        self.add_scaled(mul(missing, inv(node.eval(point))), node);
    }

    /// The one polynomial of degree below the number of points that has these values at them
    /// (Newton's form).
    pub fn interpolate(points: &[u8], values: &[u8]) -> Poly
        requires some { 1 ≤ length points.now }
        requires few { length points.now ≤ 16 }
        requires distinct { IsDistinct nat_eq points.now }
        requires paired { length values.now ≡ length points.now }
        ensures through { PassesThrough points.now values.now result }
        ensures degree { IsBelowDegree (length points.now) result }
        ensures only { IsTheOnlyOne points.now values.now result }
        ensures is_poly { IsPoly result }
    {
        let mut result = Poly::constant(values[0]);
        let mut node = Poly::constant(1);
        for i in 1..points.len() {
            node = node.times_line(points[i - 1], 1);
            result.meet(points[i], values[i], &node);
        }
        result
    }

    /// The polynomial of degree at most the number of points that is 1 at 0 and 0 at each of them:
    /// the product of all 1 + x / a.
    pub fn vanish(points: &[u8]) -> Poly
        requires few { length points.now ≤ 15 }
        requires distinct { IsDistinct nat_eq points.now }
        requires not_zero { All (λ x. 0 < x) points.now }
        ensures vanishing { IsSame result (vanishing points.now) }
        ensures one { value result 0 ≡ 1 }
        ensures zeros { VanishesAt points.now result }
        ensures degree { IsBelowDegree (length points.now + 1) result }
        ensures is_poly { IsPoly result }
    {
        let mut result = Poly::constant(1);
        for point in points {
            result = result.times_line(1, inv(*point));
        }
        result
    }
}

/// The value at x of the polynomial with these coefficients, by Horner's form.
pub fn value_of(coefficients: &[u8], x: u8) -> u8
    ensures { result ≡ value coefficients.now x }
{
    let mut sum = 0;
    for t in (0..coefficients.len()).rev() {
        sum = coefficients[t] ^ mul(x, sum);
    }
    sum
}

/// A polynomial of degree below m with m distinct zeros is zero, and through m distinct points goes
/// exactly one of degree below m, whatever its values there are to be.
pub fn polynomial_laws()
    ensures { PolynomialLaws }
{}
