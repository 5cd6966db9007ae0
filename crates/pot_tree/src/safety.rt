//! Paths that stay in their folder.

ghost use Rattle.std.specs.Prelude.{◌≡◌, ◌↔◌, ◌==◌, All, IfOk, IsTrue, map};
ghost use Rattle.std.specs.List.{slice_split};
ghost use Rattle.pot_tree.specs.Entries.{IsSafe, IsSafePart};

use std::alloc::{AllocError, Global};

/// Whether a path stays in its folder: it does not begin at the root, and no part of it is empty,
/// `.`, `..` or has a NUL.
pub fn is_safe(alloc: Global, path: &[u8]) -> Result<bool, AllocError>
    ensures { IfOk result (λ safe. IsTrue safe ↔ IsSafe path.now) }
{
    let parts = parts_of(alloc, path)?;
    Ok(are_safe(&parts))
}

// The parts between the slashes.
fn parts_of(alloc: Global, path: &[u8]) -> Result<Vec<&[u8]>, AllocError>
    ensures { IfOk result (λ parts. map (λ x. x.now) parts.items
        ≡ slice_split (λ b. b == 47) path.now) }
{
    path.split(|b| *b == b'/').collect(alloc)
}

fn are_safe(parts: &[&[u8]]) -> bool
    ensures { IsTrue result ↔ All (λ part. IsSafePart part.now) parts.now }
{
    parts.iter().all(|part| is_safe_part(part))
}

fn is_safe_part(part: &[u8]) -> bool
    ensures { IsTrue result ↔ IsSafePart part.now }
{
    !part.is_empty()
        && part != b".".as_slice()
        && part != b"..".as_slice()
        && part.iter().all(|b| *b != 0)
}
