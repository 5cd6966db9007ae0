//! The bound that the system sets to the length of a file, as by `ulimit -f`. A write behind it
//! ends the program by a signal, so it is looked at before.

use std::fs;

/// Where the second slot of `desk.pss` has its image.
const SECOND: u64 = 4096 + (1 << 30) + 16;

/// Whether `desk.pss` may become as long as an image of so many bytes needs it. Where it may not
/// that is told. Where the system does not tell the bound there is taken to be none.
pub fn has_length(rt: &HostRuntime, image: u64) -> bool {
    let wanted = SECOND.saturating_add(image);
    match longest_file(rt) {
        Some(most) if most < wanted => {
            let _ = eprintln!(rt;
                "potshards: files may have {most} bytes here, and desk.pss needs {wanted}, of which most take no room on the disk: give ulimit -f unlimited"
            );
            false
        }
        _ => true,
    }
}

/// The most bytes that a file may have, as Linux tells it to each program. None where it tells no
/// bound, or nothing.
pub fn longest_file(rt: &HostRuntime) -> Option<u64> {
    let text = fs::read_to_string(rt, "/proc/self/limits").ok()?;
    bound_in(text.as_str())
}

/// The bound in the table of a program's limits: the fourth word of its line. None where that says
/// `unlimited`.
pub(crate) fn bound_in(text: &str) -> Option<u64> {
    let line = text.lines().find(|line| line.starts_with("Max file size"))?;
    line.split_whitespace().nth(3)?.parse::<u64>().ok()
}
