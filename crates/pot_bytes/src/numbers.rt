ghost use Rattle.std.specs.Prelude.{◌≡◌, ◌≤◌, ◌+◌, length, drop};
ghost use Rattle.byteorder.specs.Endian.{big_number};

use byteorder::{BigEndian, ByteOrder};

/// The number in the four bytes from `at`, the highest first.
pub fn read_be32(bytes: &[u8], at: usize) -> u32
    requires { at + 4 ≤ length bytes.now }
    ensures { result ≡ big_number 4 (drop at bytes.now) }
{
    BigEndian::read_u32(&bytes[at..])
}

/// The number in the eight bytes from `at`, the highest first.
pub fn read_be64(bytes: &[u8], at: usize) -> u64
    requires { at + 8 ≤ length bytes.now }
    ensures { result ≡ big_number 8 (drop at bytes.now) }
{
    BigEndian::read_u64(&bytes[at..])
}

#[cfg(test)]
mod tests {
    use super::*;

    #[test]
    fn numbers_in_bytes(rt: HostRuntime) {
        let bytes = [0xff, 0x01, 0x02, 0x03, 0x04, 0x05, 0x06, 0x07, 0x08];
        assert_eq!(rt; read_be32(&bytes, 1), 0x0102_0304);
        assert_eq!(rt; read_be64(&bytes, 1), 0x0102_0304_0506_0708);
        assert_eq!(rt; read_be32(&bytes, 0), 0xff01_0203);
    }
}
