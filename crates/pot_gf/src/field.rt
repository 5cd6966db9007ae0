ghost use Rattle.std.specs.Prelude.{◌≡◌, ◌<◌};
ghost use Rattle.pot_bytes.specs.Product.{byte_product};
ghost use Rattle.pot_gf.specs.Field.{inverse, FieldLaws};

use pot_bytes::gf_times;

/// The product of two elements.
#[inline(always)]
pub fn mul(a: u8, b: u8) -> u8
    ensures { result ≡ byte_product a b }
{
    gf_times(a, b)
}

/// The inverse of an element that is not 0: the element whose product with it is 1.
pub fn inv(a: u8) -> u8
    requires { 0 < a }
    ensures value { result ≡ inverse a }
    ensures inverse { byte_product a result ≡ 1 }
{
    let mut square = a;
    let mut product = 1;
    for step in 0..7u32 {
        square = mul(square, square);
        product = mul(product, square);
    }
    product
}

/// The sum and the product are those of a field.
pub fn field_laws()
    ensures { FieldLaws }
{}
