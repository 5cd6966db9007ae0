//! The two splits of an archive without keys: by XOR, where all fragments are needed, and by a
//! threshold, where some shares suffice.
//!
//! It knows bytes alone: no file, no format and no place. It takes no memory and refuses nothing.
#![tactic(auto)]

mod secrecy;
mod threshold;

pub use secrecy::{secrecy_join, secrecy_laws, secrecy_split};
pub use threshold::{share_join, share_out, threshold_laws};

#[cfg(test)]
mod tests {
    use super::*;
    use std::test::Fail;

    #[test]
    fn splits_by_xor(rt: HostRuntime) -> Result<(), Fail> {
        let mut last = [0; 3];
        secrecy_split(
            &[0x61, 0x62, 0x63],
            &[0x01, 0x02, 0x03, 0x10, 0x20, 0x30],
            &mut last,
        );
        assert_eq!(rt; last, [0x70, 0x40, 0x50]);
        let fragments = [0x01, 0x02, 0x03, 0x10, 0x20, 0x30, 0x70, 0x40, 0x50];
        let mut joined = [9; 3];
        secrecy_join(&fragments, &mut joined);
        assert_eq!(rt; joined, [0x61, 0x62, 0x63]);
        let mut alone = [1; 2];
        secrecy_split(&[7, 8], &[], &mut alone);
        assert_eq!(rt; alone, [7, 8]);
        Ok(())
    }

    /// A content byte of hexadecimal 57 with the coefficient 83, and a content of two bytes with
    /// two rows, computed from the polynomials apart from this crate.
    #[test]
    fn splits_by_threshold(rt: HostRuntime) {
        let mut out = [0];
        share_out(&[0x57], &[0x83], 1, &mut out);
        assert_eq!(rt; out, [0xd4]);
        share_out(&[0x57], &[0x83], 2, &mut out);
        assert_eq!(rt; out, [0x4a]);
        share_out(&[0x57], &[0x83], 3, &mut out);
        assert_eq!(rt; out, [0xc9]);
        share_join(&[1, 2], &[0xd4, 0x4a], &mut out);
        assert_eq!(rt; out, [0x57]);
        share_out(&[0x57], &[], 9, &mut out);
        assert_eq!(rt; out, [0x57]);
        let mut wide = [0; 2];
        share_out(&[0x00, 0xff], &[0x10, 0x20, 0x01, 0x80], 5, &mut wide);
        assert_eq!(rt; wide, [0x41, 0x07]);
        let shares = [0x7a, 0x6e, 0x11, 0x5f, 0x41, 0x07];
        share_join(&[255, 1, 5], &shares, &mut wide);
        assert_eq!(rt; wide, [0x00, 0xff]);
    }
}
