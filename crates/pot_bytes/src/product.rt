ghost use Rattle.std.specs.Prelude.{◌≡◌, ◌*◌, ◌<◌};
ghost use Rattle.pot_bytes.specs.Product.{ProductLaws, byte_product};

/// The byte where the bit is 1, and else 0, without a branch.
#[inline(always)]
fn where_set(bit: u8, byte: u8) -> u8
    requires { bit < 2 }
    ensures { result ≡ bit * byte }
{
    byte & 0u8.wrapping_sub(bit)
}

/// A byte times z.
#[inline(always)]
fn twice(a: u8) -> u8
    ensures { result ≡ byte_product a 2 }
{
    (a << 1) ^ where_set(a >> 7, 0x1b)
}

/// The product of two bytes in the field of FIPS 197, 4.2.
///
/// Eight steps without a branch and without a table, so that its time tells nothing of its
/// operands.
#[inline(always)]
pub fn gf_times(a: u8, b: u8) -> u8
    ensures { result ≡ byte_product a b }
{
    let mut product = 0;
    let mut shifted = a;
    for bit in 0..8u32 {
        product ^= where_set((b >> bit) & 1, shifted);
        shifted = twice(shifted);
    }
    product
}

/// The product is that of polynomials modulo z^8 + z^4 + z^3 + z + 1, and is linear.
pub fn product_laws()
    ensures { ProductLaws }
{}
