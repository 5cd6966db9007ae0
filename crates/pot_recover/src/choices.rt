ghost use Rattle.std.specs.Prelude.{◌≡◌, ◌↔◌, ◌⊎◌, ◌<◌, ◌≤◌, ◌*◌, ℕ, List, [], ◌∷◌, map};
ghost use Rattle.std.specs.Prelude.{drop, length, min, slice_index, IfOk, OnOk};
ghost use Rattle.std.specs.List.{flat_map};
ghost use Rattle.pot_bytes.specs.Sums.{xor};
ghost use Rattle.pot_chains.specs.Listed.{IsIn, IsOnce};
ghost use Rattle.pot_chains.specs.Picks.{how_many, pick_at};
ghost use Rattle.pot_recover.specs.Choices.{items_of, lists_of, choices_of, numbered, AreContents};
ghost use Rattle.pot_recover.specs.Choices.{AreAllWhole, IsSomeObject, IsGiven, IsGivenBy};
ghost use Rattle.pot_recover.specs.Choices.{IsPicked};
ghost use Rattle.pot_recover.specs.Contents.{HeadsRise};
ghost use Rattle.pot_recover.specs.Recovered.{object_of};
ghost use Rattle.pot_recover.specs.Rings.{IsAnyContent};

use crate::distinct::push_distinct;
use crate::parts::{head_of, part_with, push_part};
use crate::rings::WIDEST;
use pot_bytes::{NoMemory, xor_into};
use pot_object::read_object;
use std::alloc::Global;

/// The number of choices of one closed fragment for each number, counted to 4,000,001.
pub(crate) fn count_choices(alloc: Global, contents: &[[u8; 992]]) -> Result<usize, NoMemory>
    requires order { HeadsRise contents.now }
    requires contents { AreContents contents.now }
    ensures { IfOk result
        (λ count. count ≡ min (length (flat_map (choices_of contents.now) contents.now)) 4000001) }
{
    let mut count = 0;
    for first in contents {
        count = (count + choices_with(alloc, contents, first)?).min(WIDEST + 1);
    }
    Ok(count)
}

/// The number of choices that begin with this content.
fn choices_with(alloc: Global, contents: &[[u8; 992]], first: &[u8; 992]) -> Result<usize, NoMemory>
    requires order { HeadsRise contents.now }
    requires content { IsAnyContent first.now }
    ensures { IfOk result
        (λ count. count ≡ min (length (choices_of contents.now first.now)) 4000001) }
{
    if first[16] == 1 {
        let parts = others_of(alloc, contents, first)?;
        Ok(product(&parts))
    } else {
        Ok(0)
    }
}

/// The product of the lengths of some parts, counted to 4,000,001.
fn product(parts: &[&[[u8; 992]]]) -> usize
    ensures { result ≡ min (how_many (map items_of parts.now)) 4000001 }
{
    let mut product: usize = 1;
    for part in parts {
        product = (product * part.len().min(WIDEST + 1)).min(WIDEST + 1);
    }
    product
}

/// The contents of the other fragments of the same object, by number.
fn others_of<'a>(
    alloc: Global,
    contents: &'a [[u8; 992]],
    first: &[u8; 992],
) -> Result<Vec<&'a [[u8; 992]]>, NoMemory>
    requires order { HeadsRise contents.now }
    requires content { IsAnyContent first.now }
    ensures { IfOk result (λ parts. map items_of parts.items ≡ lists_of contents.now first.now) }
{
    let mut parts = Vec::new(alloc);
    for number in 2..first[17] + 1 {
        push_part(&mut parts, part_with(contents, with_number(first, number)))?;
    }
    Ok(parts)
}

/// The head of a content, with another number.
fn with_number(first: &[u8; 992], number: u8) -> [u8; 18]
    ensures { result ≡ numbered first.now number }
{
    let mut head = head_of(first);
    head[16] = number;
    head
}

/// The objects that the choices give, some of them more than once.
pub(crate) fn objects_of(alloc: Global, contents: &[[u8; 992]]) -> Result<Vec<[u8; 928]>, NoMemory>
    requires order { HeadsRise contents.now }
    requires contents { AreContents contents.now }
    requires once { IsOnce contents.now }
    requires few { length (flat_map (choices_of contents.now) contents.now) ≤ 4000000 }
    ensures { IfOk result
        (λ objects. (o : List ℕ) → IsIn objects.items o ↔ IsGiven contents.now contents.now o) }
{
    let mut objects = Vec::new(alloc);
    for first in contents {
        add_objects(alloc, contents, first, &mut objects)?;
    }
    Ok(objects)
}

/// Adds the objects that the choices give that begin with this content.
fn add_objects(
    alloc: Global,
    contents: &[[u8; 992]],
    first: &[u8; 992],
    objects: &mut Vec<[u8; 928]>,
) -> Result<(), NoMemory>
    requires order { HeadsRise contents.now }
    requires contents { AreContents contents.now }
    requires once { IsOnce contents.now }
    requires content { IsAnyContent first.now }
    requires few { length (choices_of contents.now first.now) ≤ 4000000 }
    ensures { OnOk result
        ((o : List ℕ)
        → IsIn objects.new.items o
        ↔ (IsIn objects.old.items o ⊎ IsGivenBy (choices_of contents.now first.now) o)) }
{
    if first[16] == 1 {
        let parts = others_of(alloc, contents, first)?;
        add_picks(first, &parts, objects)
    } else {
        Ok(())
    }
}

/// Adds the objects of all picks of one from each part.
fn add_picks(
    first: &[u8; 992],
    parts: &[&[[u8; 992]]],
    objects: &mut Vec<[u8; 928]>,
) -> Result<(), NoMemory>
    requires few { how_many (map items_of parts.now) ≤ 4000000 }
    requires whole { AreAllWhole (map items_of parts.now) }
    ensures { OnOk result
        ((o : List ℕ)
        → IsIn objects.new.items o
        ↔ (IsIn objects.old.items o
        ⊎ IsPicked first.now (map items_of parts.now) (how_many (map items_of parts.now)) o)) }
{
    for number in 0..product(parts) {
        add_object(joined(first, parts, number), objects)?;
    }
    Ok(())
}

/// Adds an object, where it is one.
fn add_object(object: [u8; 928], objects: &mut Vec<[u8; 928]>) -> Result<(), NoMemory>
    ensures { OnOk result
        ((o : List ℕ)
        → IsIn objects.new.items o ↔ (IsIn objects.old.items o ⊎ ((object ≡ o) × IsSomeObject o))) }
{
    match read_object(&object) {
        Some(_) => push_distinct(objects, object),
        None => Ok(()),
    }
}

/// The XOR of the fragments of a content and of the pick of this number.
fn joined(first: &[u8; 992], parts: &[&[[u8; 992]]], number: usize) -> [u8; 928]
    requires number { number < how_many (map items_of parts.now) }
    requires whole { AreAllWhole (map items_of parts.now) }
    ensures { result ≡ object_of (first.now ∷ pick_at [] (map items_of parts.now) number) }
{
    let mut object = [0; 928];
    object.copy_from_slice(&first[64..]);
    let mut rest = number;
    for part in parts {
        add_fragment(&mut object, &part[rest % part.len()]);
        rest /= part.len();
    }
    object
}

/// XORs the fragment of a content.
fn add_fragment(object: &mut [u8; 928], content: &[u8; 992])
    ensures { object.new ≡ xor object.old (drop 64 content.now) }
{
    xor_into(object, &content[64..]);
}
