//! What a recheck writes, and its exit status.
ghost use Rattle.std.specs.Prelude.{◌≡◌, ◌++◌, IfOk, OnOk, flat_map};
ghost use Rattle.std.specs.List.{range_with_len};
ghost use Rattle.pot_recheck.specs.Telling.{code_of, count_in, found_text, group_line};
ghost use Rattle.pot_recheck.specs.Telling.{recheck_text};

use crate::listing::Unsound;
use crate::rechecking::Rechecked;
use pot_bytes::NoMemory;
use pot_script::{append_digest, append_number};
use std::alloc::{AllocError, Global};

/// The exit status of a recheck: 0 where the desk's image says that all slots are Live, also where
/// none was to find; 6 where the desk failed; 7 where it holds no image; 70 where memory ran out.
pub fn code_of(rechecked: &Rechecked) -> u8
    ensures { result ≡ code_of rechecked.now }
{
    match rechecked {
        Rechecked::Found(_) => 0,
        Rechecked::NoImage => 7,
        Rechecked::Cut => 7,
        Rechecked::Trailer { .. } => 7,
        Rechecked::Form { .. } => 7,
        Rechecked::DeskFault => 6,
        Rechecked::NoMemory => 70,
    }
}

/// The text of a recheck: how many slots of each group are looked at again, or why the image is
/// refused. It is empty where the desk failed or memory ran out.
pub fn text_of(alloc: Global, rechecked: &Rechecked) -> Result<Vec<u8>, NoMemory>
    ensures { IfOk result (λ text. text.items ≡ recheck_text rechecked.now) }
{
    let mut text = Vec::new(alloc);
    match rechecked {
        Rechecked::Found(found) => append_found(&mut text, found)?,
        Rechecked::NoImage => text.extend_from_slice(b"image refused none\n")?,
        Rechecked::Cut => text.extend_from_slice(b"image refused cut\n")?,
        Rechecked::Trailer { kept, computed } => {
            text.extend_from_slice(b"image refused trailer")?;
            append_digest(&mut text, kept)?;
            append_digest(&mut text, computed)?;
            text.extend_from_slice(b"\n")?;
        }
        Rechecked::Form { place } => {
            text.extend_from_slice(b"image refused form")?;
            append_number(&mut text, *place)?;
            text.extend_from_slice(b"\n")?;
        }
        Rechecked::DeskFault => {}
        Rechecked::NoMemory => {}
    }
    Ok(text)
}

/// How many slots of each group were found, and how many in all.
fn append_found(text: &mut Vec<u8>, found: &[Unsound]) -> Result<(), AllocError>
    ensures { OnOk result (text.new.items ≡ text.old.items ++ found_text found.now) }
{
    append_groups(text, found)?;
    text.extend_from_slice(b"rechecked")?;
    append_number(text, found.len() as u64)?;
    text.extend_from_slice(b"\n")?;
    Ok(())
}

/// The lines of all groups.
fn append_groups(text: &mut Vec<u8>, found: &[Unsound]) -> Result<(), AllocError>
    ensures { OnOk result (text.new.items ≡ text.old.items
        ++ flat_map (λ g. group_line g (count_in found.now g)) (range_with_len 0 16)) }
{
    for group in 0..16 {
        append_group(text, group, count_in(found, group))?;
    }
    Ok(())
}

/// The line of a group.
fn append_group(text: &mut Vec<u8>, group: u8, count: usize) -> Result<(), AllocError>
    ensures { OnOk result (text.new.items ≡ text.old.items ++ group_line group count) }
{
    if count == 0 {
        return Ok(());
    }
    text.extend_from_slice(b"recheck")?;
    append_number(text, u64::from(group))?;
    append_number(text, count as u64)?;
    text.extend_from_slice(b"\n")
}

/// How many of these are of a group.
pub fn count_in(found: &[Unsound], group: u8) -> usize
    ensures { result ≡ count_in found.now group }
{
    found.iter().filter(|u| u.group == group).count()
}
