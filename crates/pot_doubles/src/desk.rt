use crate::calls::Calls;
use pot_outside::{Desk, DeskFault, Failed};
use std::alloc::{AllocError, Global};
use std::mem;

/// An image in memory, or none, and the images before it.
#[derive(Drop)]
pub struct MemDesk {
    alloc: Global,
    image: Option<Vec<u8>>,
    past: Vec<Vec<u8>>,
    calls: Calls,
}

impl MemDesk {
    ghost use Rattle.std.specs.Prelude.{◌≡◌, ◌++◌, ◌∷◌, [], Some, OnOk, OnErr, option_map};
    ghost use Rattle.std.specs.Option.{option_to_list};
    ghost use Rattle.pot_doubles.specs.Calls.{IsFresh};
    ghost use Rattle.pot_doubles.specs.Desks.{image_of, images_of, desk_calls};

    /// A desk with this image, or none. The calls of the numbers `fails` are to fail.
    pub fn new(alloc: Global, image: Option<Vec<u8>>, fails: Vec<u32>) -> MemDesk
        ensures image { image_of result ≡ option_map (λ v. v.items) image }
        ensures past { (images_of result).past ≡ option_to_list (image_of result) }
        ensures calls { IsFresh (desk_calls result) fails.items }
    {
        MemDesk {
            alloc,
            image,
            past: Vec::new(alloc),
            calls: Calls::new(fails),
        }
    }

    /// Whether a replacing found no memory. It then failed.
    pub fn starved(&self) -> bool
        ensures { result ≡ (desk_calls self.now).starved }
    {
        self.calls.starved()
    }

    /// Puts an image in the place of the one before, which is kept with those before it.
    fn put(&mut self, image: Vec<u8>) -> Result<(), AllocError>
        ensures now { OnOk result (image_of self.new ≡ Some image.items) }
        ensures past { OnOk result
            ((images_of self.new).past ≡ (images_of self.old).past ++ image.items ∷ []) }
        ensures same { OnErr result (images_of self.new ≡ images_of self.old) }
        ensures calls { desk_calls self.new ≡ desk_calls self.old }
    {
        self.past.reserve(1)?;
        if let Some(before) = mem::replace(&mut self.image, Some(image)) {
            self.past.push_reserved(before);
        }
        Ok(())
    }
}

impl Desk for MemDesk {
    ghost use Rattle.std.specs.Prelude.{◌≡◌, ◌↔◌, ◌++◌, ◌∷◌, [], Some, None, true, IfOk, OnOk};
    ghost use Rattle.std.specs.Prelude.{OnErr, MatchOption, IsTrue, IsErr, IsErrOf};
    ghost use Rattle.pot_outside.specs.Counts.{Caused};
    ghost use Rattle.pot_outside.specs.Desks.{HadItsImage, Replaces, MayCome};
    ghost use Rattle.pot_doubles.specs.Calls.{Counted, begun, is_due};
    ghost use Rattle.pot_doubles.specs.Desks.{image_of, images_of, desk_calls};

    ghost account = { record {
      tells = true;
      meaning = λ d. record { held = images_of d; faults = (desk_calls d).faults };
    } };

    fn read(&mut self) -> Result<Option<Vec<u8>>, DeskFault>
        ensures told { IfOk result (λ o. MatchOption o (image_of self.old ≡ None)
            (λ v. image_of self.old ≡ Some v.items)) }
        ensures keeps { images_of self.new ≡ images_of self.old }
        ensures had { HadItsImage (images_of self.new) }
        ensures cause { Caused (desk_calls self.old).faults (desk_calls self.new).faults
            (IsErrOf result DeskFault.Failed) }
        ensures fails { IsErrOf result DeskFault.Failed ↔ IsTrue (is_due (desk_calls self.old)) }
        ensures counted { desk_calls self.new ≡ begun (desk_calls self.old) }
    {
        if self.calls.begin() {
            return Err(DeskFault::Failed);
        }
        match &self.image {
            None => Ok(None),
            Some(image) => match image.as_slice().to_vec(self.alloc) {
                Ok(copy) => Ok(Some(copy)),
                Err(_) => Err(DeskFault::NoMemory),
            },
        }
    }

    fn replace(&mut self, image: &[u8]) -> Result<(), Failed>
        ensures told { Replaces (image_of self.old) (image_of self.new) image.now result }
        ensures cause { Caused (desk_calls self.old).faults (desk_calls self.new).faults
            (IsErr result) }
        ensures came { MayCome (images_of self.old).past image.now (images_of self.new).past }
        ensures had { HadItsImage (images_of self.new) }
        ensures puts { OnOk result
            ((images_of self.new).past ≡ (images_of self.old).past ++ image.now ∷ []) }
        ensures err { OnErr result (images_of self.new ≡ images_of self.old) }
        ensures counted { Counted (desk_calls self.old) (desk_calls self.new) result }
    {
        if self.calls.begin() {
            return Err(Failed);
        }
        let put = match image.to_vec(self.alloc) {
            Ok(copy) => self.put(copy),
            Err(e) => Err(e),
        };
        match put {
            Ok(()) => Ok(()),
            Err(AllocError) => {
                self.calls.starve();
                Err(Failed)
            }
        }
    }
}

#[cfg(test)]
mod tests {
    use super::*;
    use std::test::Fail;

    #[test]
    fn reads_and_replaces(rt: HostRuntime) -> Result<(), Fail> {
        let alloc = rt.alloc();
        let mut desk = MemDesk::new(alloc, None, [3, 4].to_vec(alloc)?);
        assert!(rt; desk.read().is_ok_and(|image| image.is_none()));
        assert_eq!(rt; desk.replace(b"one"), Ok(()));
        assert!(rt;
            desk.read().is_ok_and(|image| image.is_some_and(|v| v.as_slice() == b"one".as_slice()))
        );
        assert!(rt; desk.read().is_err_and(|fault| fault == DeskFault::Failed));
        assert_eq!(rt; desk.replace(b"two"), Err(Failed));
        assert!(rt;
            desk.read().is_ok_and(|image| image.is_some_and(|v| v.as_slice() == b"one".as_slice()))
        );
        assert_eq!(rt; desk.calls.faults(), 2);
        assert!(rt; !desk.starved());
        Ok(())
    }
}
