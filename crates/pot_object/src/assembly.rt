ghost use Rattle.std.specs.Prelude.{◌≡◌, ◌≤◌, ◌<◌, ◌↔◌, ◌*◌, ℕ, List, length, IfOk, IfErr};
ghost use Rattle.std.specs.Prelude.{MatchOption, IsTrue};
ghost use Rattle.pot_object.specs.Pieces.{longest, object_size};
ghost use Rattle.pot_object.specs.Objects.{head_at, IsObjectHead};
ghost use Rattle.pot_object.specs.Assembly.{count_of, object_at, objects_of, joined, part_at};
ghost use Rattle.pot_object.specs.Assembly.{AreObjectsOf, BeginsWhole, IsInPlace, IsLeastMissing};
ghost use Rattle.pot_object.specs.Assembly.{IsSeries, NamesLeast};

use crate::object::{head_in, part_len};
use crate::pieces::OBJECT;
use std::alloc::{AllocError, Global};

/// Why a file is not assembled.
#[derive(Clone, Copy, PartialEq, Eq, Debug)]
pub enum AssembleFault {
    /// This piece is missing, and none before it.
    Incomplete { piece: u32 },
    NoMemory,
}

impl From<AllocError> for AssembleFault {
    ghost use Rattle.pot_object.specs.declared.assembly.AssembleFault.TheVariants.{NoMemory};

    ghost from_gives = { λ _ e. e ≡ NoMemory };

    fn from(_: AllocError) -> Self {
        AssembleFault::NoMemory
    }
}

/// The laws of the objects of all pieces of a file, in order: they may be assembled, none is
/// missing, and they are those of no other file. So they are assembled to the file.
pub fn assemble_laws()
    ensures series { (id file : List ℕ) → length id ≡ 16 → length file ≤ longest
        → IsSeries (objects_of id file) }
    ensures whole { (id file : List ℕ) (piece : ℕ) → length id ≡ 16 → length file ≤ longest
        → ¬ IsLeastMissing (objects_of id file) piece }
    ensures file { (id file other : List ℕ) → length id ≡ 16 → length file ≤ longest
        → AreObjectsOf (objects_of id file) other → other ≡ file }
{}

/// The file whose objects these are: one or more, one after another, of one file id, number of
/// pieces and length, their pieces ascending.
pub fn assemble(alloc: Global, objects: &[u8]) -> Result<Vec<u8>, AssembleFault>
    requires { IsSeries objects.now }
    ensures file { IfOk result (λ v. AreObjectsOf objects.now v.items) }
    ensures fault { IfErr result (λ e. NamesLeast objects.now e) }
{
    let pieces = head_in(objects).pieces;
    if let Some(piece) = first_gap(objects, pieces) {
        return Err(AssembleFault::Incomplete { piece });
    }
    Ok(join_parts(alloc, objects, pieces)?)
}

/// The least piece that is missing.
fn first_gap(objects: &[u8], pieces: u32) -> Option<u32>
    requires series { IsSeries objects.now }
    requires pieces { pieces ≡ (head_at objects.now).pieces }
    ensures { MatchOption result (BeginsWhole objects.now pieces)
        (λ p. IsLeastMissing objects.now p) }
{
    for piece in 0..pieces {
        if !is_in_place(objects, piece) {
            return Some(piece);
        }
    }
    None
}

/// Whether the object of this number is there and carries the piece of this number.
fn is_in_place(objects: &[u8], piece: u32) -> bool
    requires { length objects.now ≡ count_of objects.now * object_size }
    ensures { IsTrue result ↔ IsInPlace objects.now piece }
{
    let at = piece as usize * OBJECT;
    at < objects.len() && head_in(&objects[at..at + OBJECT]).piece == piece
}

/// The parts of the first objects, one after another.
fn join_parts(alloc: Global, objects: &[u8], count: u32) -> Result<Vec<u8>, AllocError>
    requires whole { count * object_size ≤ length objects.now }
    requires heads { (k : ℕ) → k < count → IsObjectHead (head_at (object_at objects.now k)) }
    ensures { IfOk result (λ v. v.items ≡ joined (part_at objects.now) count) }
{
    let mut file = Vec::new(alloc);
    for number in 0..count {
        let at = number as usize * OBJECT;
        let object = &objects[at..at + OBJECT];
        let end = 64 + part_len(&head_in(object));
        file.extend_from_slice(&object[64..end])?;
    }
    Ok(file)
}
