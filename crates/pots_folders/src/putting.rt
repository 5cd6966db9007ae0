//! How folders, links, modes and times are put back.

use std::alloc::{AllocError, Global};
use std::fs;
use std::fs::Permissions;
use std::os::unix::fs::{PermissionsExt, symlink};
use std::str::from_utf8;
use std::time::{Duration, UNIX_EPOCH};

/// The path of an entry below a folder. None where it is no UTF-8, as every path of this system is.
pub fn whole_path(alloc: Global, folder: &str, path: &[u8]) -> Result<Option<String>, AllocError> {
    match from_utf8(path) {
        Ok(path) => Ok(Some(format!(in alloc; "{folder}/{path}")?)),
        Err(_) => Ok(None),
    }
}

/// Makes a folder, where it is missing. Answers whether one is there, and no link to one.
pub fn put_folder(rt: &HostRuntime, path: &str) -> bool {
    if fs::create_dir(rt, path).is_ok() {
        return true;
    }
    match fs::symlink_metadata(rt, path) {
        Ok(found) => found.is_dir(),
        Err(_) => false,
    }
}

/// Makes a link. Answers whether it is there; what was there before stays as it is.
pub fn put_link(rt: &HostRuntime, target: &[u8], path: &str) -> bool {
    match from_utf8(target) {
        Ok(target) => symlink(rt, target, path).is_ok() || leads_to(rt, path, target),
        Err(_) => false,
    }
}

// Whether a link with just this target is there.
fn leads_to(rt: &HostRuntime, path: &str, target: &str) -> bool {
    match fs::read_link(rt, path) {
        Ok(found) => found.as_str() == target,
        Err(_) => false,
    }
}

/// Sets the mode of a file or folder. Answers whether it is set.
pub fn set_mode(rt: &HostRuntime, path: &str, mode: u32) -> bool {
    fs::set_permissions(rt, path, Permissions::from_mode(mode)).is_ok()
}

/// Sets when a file or folder was changed, in seconds since 1970. Answers whether it is set.
pub fn set_time(rt: &HostRuntime, path: &str, seconds: u64) -> bool {
    let Some(time) = UNIX_EPOCH.checked_add(Duration::from_secs(seconds)) else {
        return false;
    };
    match fs::open(rt, path) {
        Ok(file) => file.set_modified(time).is_ok(),
        Err(_) => false,
    }
}
