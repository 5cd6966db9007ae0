ghost use Rattle.std.specs.Prelude.{◌≡◌, ◌<◌, ◌*◌, length};
ghost use Rattle.pot_bytes.specs.Sums.{xor, sum_of};
ghost use Rattle.pot_split.specs.Secrecy.{rows_of, meaning, IsRows, SecrecyLaws};

use pot_bytes::xor_into;

/// The last fragment of an object: the object XOR all pads. The other fragments are the pads, row
/// by row, each as long as the object.
pub fn secrecy_split(object: &[u8], pads: &[u8], last: &mut [u8])
    requires same_length { length last.old ≡ length object.now }
    requires rows { IsRows (length object.now) pads.now }
    ensures { last.new ≡ xor object.now (meaning (length object.now) pads.now) }
{
    last.copy_from_slice(object);
    if !object.is_empty() {
        add_rows(last, pads, pads.len() / object.len());
    }
}

/// The XOR of all fragments, which stand row by row, each as long as `out`.
pub fn secrecy_join(fragments: &[u8], out: &mut [u8])
    requires some { 0 < length out.old }
    requires rows { IsRows (length out.old) fragments.now }
    ensures { out.new ≡ meaning (length out.old) fragments.now }
{
    out.fill(0);
    add_rows(out, fragments, fragments.len() / out.len());
}

/// Whatever the pads, all fragments together give the object, and all but one are those of any
/// other object too.
pub fn secrecy_laws()
    ensures { SecrecyLaws }
{}

/// XORs `count` rows into `into`, each as long as it.
fn add_rows(into: &mut [u8], rows: &[u8], count: usize)
    requires { length rows.now ≡ count * length into.old }
    ensures { into.new
        ≡ xor into.old (sum_of (length into.old) (rows_of count (length into.old) rows.now)) }
{
    let mut rest = rows;
    for _ in 0..count {
        let (row, others) = rest.split_at(into.len());
        xor_into(into, row);
        rest = others;
    }
}
