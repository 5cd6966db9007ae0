//! The image of a desk is rechecked.
ghost use Rattle.std.specs.Prelude.{◌≡◌, ◌<◌, IsTrue, IfOk, OnOk, Some, length};
ghost use Rattle.pot_outside.specs.Accounts.{Faults};
ghost use Rattle.pot_outside.specs.Desks.{image_transition};
ghost use Rattle.pot_image.specs.Images.{contents};
ghost use Rattle.pot_image.specs.Rules.{FitsTogether, IsImage};
ghost use Rattle.pot_recheck.specs.Listing.{in_image};
ghost use Rattle.pot_recheck.specs.Rechecking.{HoldsImage, Rechecks, ImageWasRead};
ghost use Rattle.pot_recheck.specs.Rechecking.{all_live, live_bytes};

use crate::finding::find_again;
use crate::listing::{Unsound, unsound_slots};
use pot_bytes::{Digest, NoMemory};
use pot_image::{Image, ImageFault, read_image, write_image};
use pot_outside::{Desk, DeskFault, Failed};
use std::alloc::Global;

/// What a recheck of a desk came to.
#[derive(Drop)]
pub enum Rechecked {
    /// These slots were Lost or Broken, and the desk's image says now that they are Live. Where
    /// there is none, the desk has the image that it had.
    Found(Vec<Unsound>),
    /// The desk holds no image.
    NoImage,
    /// The desk's image has fewer bytes than it says.
    Cut,
    /// The last bytes of the image are not the digest of all before.
    Trailer { kept: Digest, computed: Digest },
    /// The field of the image at this place breaks its rule or does not end.
    Form { place: u64 },
    /// The desk failed. Its image is the old one, the new one or none.
    DeskFault,
    NoMemory,
}

/// All slots of the desk's image that are Lost or Broken are Live again, and the next session looks
/// whether their blocks are there. The image stays where there is no such slot, where it is
/// refused, and where memory runs out.
///
/// The image is written in the second format, and nothing else of it changes. So its number is
/// still that of the session that wrote it, and its logs are those of that session.
pub fn recheck<D: Desk>(alloc: Global, desk: &mut D) -> Rechecked
    ensures told { IsTrue D.account.tells
        → Rechecks (image_transition D.account desk.old desk.new) result }
    ensures cause { Faults D.account desk.old desk.new (result ≡ Rechecked.DeskFault) }
{
    match desk.read() {
        Ok(Some(bytes)) => recheck_bytes(alloc, &bytes, desk),
        Ok(None) => Rechecked::NoImage,
        Err(DeskFault::Failed) => Rechecked::DeskFault,
        Err(DeskFault::NoMemory) => Rechecked::NoMemory,
    }
}

/// The same of a desk that holds these bytes.
fn recheck_bytes<D: Desk>(alloc: Global, bytes: &[u8], desk: &mut D) -> Rechecked
    ensures told { IsTrue D.account.tells → (D.account.meaning desk.old).held.now ≡ Some bytes.now
        → Rechecks (image_transition D.account desk.old desk.new) result }
    ensures cause { Faults D.account desk.old desk.new (result ≡ Rechecked.DeskFault) }
{
    match read_image(alloc, bytes) {
        Ok(image) => recheck_image(alloc, image, desk),
        Err(ImageFault::Cut) => Rechecked::Cut,
        Err(ImageFault::Trailer { kept, computed }) => Rechecked::Trailer { kept, computed },
        Err(ImageFault::Form { place }) => Rechecked::Form { place },
        Err(ImageFault::NoMemory) => Rechecked::NoMemory,
    }
}

/// The same of a desk that holds this image.
fn recheck_image<D: Desk>(alloc: Global, image: Image, desk: &mut D) -> Rechecked
    requires fits { FitsTogether (contents image) }
    requires read { ImageWasRead image }
    ensures told { IsTrue D.account.tells → HoldsImage (D.account.meaning desk.old).held.now image
        → Rechecks (image_transition D.account desk.old desk.new) result }
    ensures cause { Faults D.account desk.old desk.new (result ≡ Rechecked.DeskFault) }
{
    match unsound_slots(alloc, &image) {
        Ok(found) => {
            if found.is_empty() {
                Rechecked::Found(found)
            } else {
                keep_found(alloc, image, found, desk)
            }
        }
        Err(NoMemory) => Rechecked::NoMemory,
    }
}

/// Puts the image in which these slots are Live in the place of the desk's.
fn keep_found<D: Desk>(alloc: Global, image: Image, found: Vec<Unsound>, desk: &mut D) -> Rechecked
    requires fits { FitsTogether (contents image) }
    requires read { ImageWasRead image }
    requires all { found.items ≡ in_image (contents image) }
    requires some { 0 < length found.items }
    ensures told { IsTrue D.account.tells → HoldsImage (D.account.meaning desk.old).held.now image
        → Rechecks (image_transition D.account desk.old desk.new) result }
    ensures cause { Faults D.account desk.old desk.new (result ≡ Rechecked.DeskFault) }
{
    match found_bytes(alloc, image, &found) {
        Ok(bytes) => match desk.replace(&bytes) {
            Ok(()) => Rechecked::Found(found),
            Err(Failed) => Rechecked::DeskFault,
        },
        Err(NoMemory) => Rechecked::NoMemory,
    }
}

/// The bytes of the image in which all slots are Live that are not Void.
fn found_bytes(alloc: Global, image: Image, found: &[Unsound]) -> Result<Vec<u8>, NoMemory>
    requires fits { FitsTogether (contents image) }
    requires read { ImageWasRead image }
    requires all { found.now ≡ in_image (contents image) }
    ensures bytes { IfOk result (λ bytes. bytes.items ≡ live_bytes image) }
    ensures rules { OnOk result (IsImage (all_live (contents image))) }
{
    let mut image = image;
    find_again(alloc, &mut image, found)?;
    write_image(alloc, &image)
}
