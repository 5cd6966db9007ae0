//! The field with 256 elements (FIPS 197, 4), and polynomials of degree below 16 over it.
//!
//! It knows bytes alone: no share, no block and no file. Its calls take no memory and refuse
//! nothing. A product is computed by shifts, without a branch on an operand and without a table.
//!
//! Invariant, kept by the type that it names:
//! 1. a `Poly` has 16 coefficients, each a byte.
#![tactic(auto)]

mod field;
mod lagrange;
mod polynomial;

pub use field::{field_laws, inv, mul};
pub use lagrange::weight_at_zero;
pub use polynomial::{Poly, polynomial_laws, value_of};

#[cfg(test)]
mod tests;
