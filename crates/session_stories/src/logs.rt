//! The logs of the desk's image.
use crate::entries::{group_entry, index_entry};
use crate::fault::Fault;
use crate::told::Told;
use pot_image::Image;
use pot_machine::Entry;
use std::alloc::Global;

/// The entries of a group.
fn tell_group(alloc: Global, group: usize, log: &[Entry], told: &mut Told) -> Result<(), Fault> {
    for entry in log {
        let text = group_entry(alloc, entry)?;
        told.outcome(&format!(in alloc; "group {group} {text}")?)?;
    }
    Ok(())
}

/// The entries of the groups and of the index.
pub fn tell_logs(alloc: Global, image: &Image, told: &mut Told) -> Result<(), Fault> {
    let mut none = image.index_log.is_empty();
    for (group, log) in image.group_logs.iter().enumerate() {
        none = none && log.is_empty();
        tell_group(alloc, group, log, told)?;
    }
    if none {
        return told.outcome("no entries");
    }
    for entry in &image.index_log {
        let text = index_entry(alloc, entry)?;
        told.outcome(&format!(in alloc; "index {text}")?)?;
    }
    Ok(())
}
