//! A desk in the files of its folder.

use crate::desk::DeskFile;
use crate::limit::bound_in;
use crate::opening::read_file;
use pot_outside::{Desk, DeskFault};
use std::fs;
use std::os::unix::fs::{FileExt, symlink};
use std::test::Fail;

/// A file with a hole takes no room on the disk.
#[test]
fn a_file_that_is_too_long_is_not_read(rt: HostRuntime) -> Result<(), Fail> {
    let mut desk = new_desk(&rt);
    let file = fs::File::create(&rt, "desk.psi")?;
    file.set_len(100 << 30)?;
    drop(file);
    let refused = desk.read() == Err(DeskFault::Failed);
    remove_desk(&rt);
    assert!(rt; refused);
    fs::write(&rt, "nine", "nine bytes")?;
    for (most, is_read) in [(0u64, false), (9, false), (10, true), (11, true)] {
        let read = read_file(&rt, "nine", most);
        assert!(rt; read.is_ok() == is_read, "at most {most}");
    }
    fs::remove_file(&rt, "nine")?;
    Ok(())
}

#[test]
fn a_desk_that_is_read_makes_no_image(rt: HostRuntime) -> Result<(), Fail> {
    let mut desk = new_desk(&rt);
    assert!(rt; desk.read() == Ok(None));
    assert!(rt; fs::metadata(&rt, "desk.pss").is_err());
    remove_desk(&rt);
    Ok(())
}

#[test]
fn the_bound_of_a_file_is_read(rt: HostRuntime) {
    let texts = [
        ("", None),
        ("Max cpu time  1  2  seconds\n", None),
        (
            "Max file size             unlimited            unlimited            bytes\n",
            None,
        ),
        (
            "Max cpu time  1  2  s\nMax file size   1024   unlimited   bytes\n",
            Some(1024),
        ),
        ("Max file size\n", None),
    ];
    for (text, most) in texts {
        assert!(rt; bound_in(text) == most, "{text}");
    }
}

/// The files of a desk.
const DESK_FILES: [&str; 3] = ["desk.pss", "desk.psi", "desk.lock"];

fn remove_desk(rt: &HostRuntime) {
    for name in DESK_FILES {
        let _ = fs::remove_file(rt, name);
    }
}

/// A new desk, and no file of an earlier one.
fn new_desk(rt: &HostRuntime) -> DeskFile {
    remove_desk(rt);
    DeskFile::new(rt)
}

/// Whether a desk reads just this image.
fn has_image(desk: &mut DeskFile, image: &[u8]) -> bool {
    match desk.read() {
        Ok(Some(found)) => found.as_slice() == image,
        _ => false,
    }
}

#[test]
fn an_image_in_a_file(rt: HostRuntime) -> Result<(), Fail> {
    let mut desk = new_desk(&rt);
    assert!(rt; desk.read().is_ok_and(|image| image.is_none()));
    let images: [&[u8]; 4] = [b"first", b"", b"the third image", b"4"];
    for image in images {
        assert!(rt; desk.replace(image).is_ok());
        assert!(rt; has_image(&mut desk, image));
    }
    drop(desk);
    assert!(rt; has_image(&mut DeskFile::new(&rt), b"4"));
    assert!(rt; fs::read(&rt, "desk.psi").is_err());
    assert!(rt; fs::read(&rt, "desk.lock")?.is_empty());
    remove_desk(&rt);
    Ok(())
}

#[test]
fn an_image_of_an_earlier_program(rt: HostRuntime) -> Result<(), Fail> {
    let mut desk = new_desk(&rt);
    fs::write(&rt, "desk.psi", "as it was")?;
    assert!(rt; has_image(&mut desk, b"as it was"));
    assert!(rt; desk.replace(b"as it is").is_ok());
    assert!(rt; has_image(&mut desk, b"as it is"));
    assert!(rt; fs::read(&rt, "desk.psi")?.as_slice() == b"as it was".as_slice());
    remove_desk(&rt);
    Ok(())
}

/// A folder and devices, in the place of each file of a desk.
#[test]
fn what_is_no_file_is_no_desk(rt: HostRuntime) -> Result<(), Fail> {
    for target in [".", "/dev/zero", "/dev/null", "/dev/full"] {
        for name in DESK_FILES {
            let mut desk = new_desk(&rt);
            symlink(&rt, target, name)?;
            let refused = desk.read() == Err(DeskFault::Failed);
            drop(desk);
            remove_desk(&rt);
            assert!(rt; refused, "{name} leads to {target}");
        }
    }
    Ok(())
}

#[test]
fn a_second_desk_is_refused_until_the_first_is_gone(rt: HostRuntime) -> Result<(), Fail> {
    let mut first = new_desk(&rt);
    let mut second = DeskFile::new(&rt);
    assert!(rt; first.replace(b"of the first").is_ok());
    assert!(rt; second.read() == Err(DeskFault::Failed));
    assert!(rt; second.replace(b"of the second").is_err());
    assert!(rt; has_image(&mut first, b"of the first"));
    drop(first);
    assert!(rt; has_image(&mut second, b"of the first"));
    assert!(rt; second.replace(b"of the second").is_ok());
    assert!(rt; DeskFile::new(&rt).read() == Err(DeskFault::Failed));
    remove_desk(&rt);
    Ok(())
}

/// `desk.pss` is a folder, is full, or cannot be synced.
#[test]
fn an_image_that_is_not_replaced_stays(rt: HostRuntime) -> Result<(), Fail> {
    let mut desk = new_desk(&rt);
    fs::write(&rt, "desk.psi", "old")?;
    fs::create_dir(&rt, "desk.pss")?;
    let refused = desk.replace(b"new").is_err() && desk.read() == Err(DeskFault::Failed);
    fs::remove_dir(&rt, "desk.pss")?;
    assert!(rt; refused);
    for device in ["/dev/full", "/dev/null"] {
        symlink(&rt, device, "desk.pss")?;
        let refused = desk.replace(b"new").is_err();
        fs::remove_file(&rt, "desk.pss")?;
        assert!(rt; refused, "at {device}");
    }
    assert!(rt; has_image(&mut desk, b"old"));
    remove_desk(&rt);
    Ok(())
}

/// The second image is cut off behind its slot's header, and its gate is still shut.
#[test]
fn a_run_that_was_stopped_leaves_the_image_before(rt: HostRuntime) -> Result<(), Fail> {
    let mut desk = new_desk(&rt);
    assert!(rt; desk.replace(b"before").is_ok());
    assert!(rt; desk.replace(b"behind").is_ok());
    let file = fs::OpenOptions::new().write(true).open(&rt, "desk.pss")?;
    file.write_all_at(&[0], 1)?;
    file.set_len(4096 + (1 << 30) + 16)?;
    drop(file);
    assert!(rt; has_image(&mut desk, b"before"));
    remove_desk(&rt);
    Ok(())
}

/// A link to a disk that is not mounted is no desk without an image.
#[test]
fn a_desk_behind_a_link_that_leads_nowhere(rt: HostRuntime) -> Result<(), Fail> {
    let mut desk = new_desk(&rt);
    fs::write(&rt, "desk.psi", "long ago")?;
    symlink(&rt, "not-mounted/desk.pss", "desk.pss")?;
    let refused = desk.read() == Err(DeskFault::Failed);
    remove_desk(&rt);
    assert!(rt; refused);
    Ok(())
}
