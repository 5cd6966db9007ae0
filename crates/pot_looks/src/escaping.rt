//! Text as a page of HTML has it.
ghost use Rattle.std.specs.Prelude.{◌≡◌, ◌++◌, IfOk, OnOk};
ghost use Rattle.pot_looks.specs.Escapes.{escaped, spelled};

use std::alloc::{AllocError, Global};

/// The text with `&`, `<`, `>` and `"` as a page of HTML has them.
pub fn escape(alloc: Global, text: &[u8]) -> Result<Vec<u8>, AllocError>
    ensures { IfOk result (λ v. v.items ≡ escaped text.now) }
{
    let mut whole = Vec::new(alloc);
    for at in 0..text.len() {
        append(&mut whole, text[at])?;
    }
    Ok(whole)
}

/// Adds a byte as a page has it.
fn append(whole: &mut Vec<u8>, byte: u8) -> Result<(), AllocError>
    ensures { OnOk result (whole.new.items ≡ whole.old.items ++ spelled byte) }
{
    if byte == b'&' {
        whole.extend_from_slice(b"&amp;")
    } else if byte == b'<' {
        whole.extend_from_slice(b"&lt;")
    } else if byte == b'>' {
        whole.extend_from_slice(b"&gt;")
    } else if byte == b'"' {
        whole.extend_from_slice(b"&quot;")
    } else {
        whole.extend_from_slice(&[byte])
    }
}
