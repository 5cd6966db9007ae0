//! Texts that name places, and texts that name none.

use crate::{
    are_places, is_of_other_version, is_place_name, place_named, places_text, read_places,
};
use pot_bytes::Name;
use std::alloc::{AllocError, Global};
use std::test::Fail;

const THREE: &[u8] = b"potshards-places 1\nplace home\nplace office\nplace sister\nend\n";

// The names of these bytes.
fn names(alloc: Global, texts: &[&str]) -> Result<Vec<Name>, AllocError> {
    let mut all = Vec::new(alloc);
    for text in texts {
        if let Some(name) = Name::read(text.as_bytes()) {
            all.push(name)?;
        }
    }
    Ok(all)
}

// The number of the place of this name.
fn number_of(names: &[Name], text: &str) -> Option<usize> {
    let name = Name::read(text.as_bytes())?;
    place_named(names, &name)
}

#[test]
fn three_places(rt: HostRuntime) -> Result<(), Fail> {
    let three = names(rt.alloc(), &["home", "office", "sister"])?;
    assert!(rt; are_places(&three));
    assert!(rt; places_text(rt.alloc(), &three)?.as_slice() == THREE);
    let read = read_places(rt.alloc(), THREE)?;
    assert!(rt; read.as_deref() == Some(three.as_slice()));
    assert!(rt; number_of(&three, "sister") == Some(2));
    assert!(rt; number_of(&three, "bank").is_none());
    Ok(())
}

#[test]
fn texts_that_name_none(rt: HostRuntime) -> Result<(), Fail> {
    let texts: [&[u8]; 9] = [
        b"",
        b"potshards-places 1\nend\n",
        b"potshards-places 1\nplace home\nend\n",
        b"potshards-places 1\nplace home\nplace home\nend\n",
        b"potshards-places 1\nplace home\nplace office\n",
        b"potshards-places 1\nplace home\nplace office\nend\n\n",
        b"potshards-places 1\nplace home\nplace 4\nend\n",
        b"potshards-places 1\nplace home\nplace ..\nend\n",
        b"potshards-places 2\nplace home\nplace office\nend\n",
    ];
    for text in texts {
        assert!(rt; read_places(rt.alloc(), text)?.is_none());
    }
    assert!(rt; is_of_other_version(b"potshards-places 2\nplace home\nplace office\nend\n"));
    assert!(rt; !is_of_other_version(THREE));
    Ok(())
}

#[test]
fn names_of_places(rt: HostRuntime) -> Result<(), Fail> {
    for name in names(rt.alloc(), &["home", "a", "x-1.y_z"])?.iter() {
        assert!(rt; is_place_name(name));
    }
    for name in names(rt.alloc(), &["0", "4home", ".", "..", "-a", "_a"])?.iter() {
        assert!(rt; !is_place_name(name));
    }
    Ok(())
}
