//! What some shares fix at a point that none of them has: at each of their bytes, the value there
//! of the one polynomial of degree below their number that goes through that byte of each.
//!
//! It knows shares and points alone: no shard, no ring and no block. It takes no memory and refuses
//! nothing.
//!
//! 1. The share that other shares fix at a point is what they are joined to at the points turned by
//!    it: `share_at`.
//! 2. Values lie on one polynomial of degree below m exactly where the first m of them fix the
//!    others: `join_laws`.
#![tactic(auto)]

mod laws;
mod share;

pub use laws::join_laws;
pub use share::share_at;

#[cfg(test)]
mod tests {
    use super::*;

    /// A content byte of hexadecimal 57 with the coefficient 83, and one of 00 with the
    /// coefficients 10 and 01, computed from the polynomials apart from this crate.
    #[test]
    fn shares_fix_the_others(rt: HostRuntime) {
        let mut out = [0];
        share_at(&[1, 2], &[0xd4, 0x4a], 3, &mut out);
        assert_eq!(rt; out, [0xc9]);
        share_at(&[1, 2], &[0xd4, 0x4a], 0, &mut out);
        assert_eq!(rt; out, [0x57]);
        share_at(&[255, 1, 5], &[0x7a, 0x11, 0x41], 0, &mut out);
        assert_eq!(rt; out, [0]);
    }
}
