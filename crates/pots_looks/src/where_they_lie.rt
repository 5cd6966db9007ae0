//! Where archives lie, as few lines: archives in a row that are in one folder are told together.

use pot_image::Image;
use pot_report::{Holding, holdings, place_of};
use pots_vault::{Stop, Visit, place_text};

/// Archives in a row of one group in one folder.
#[derive(Drop)]
pub struct Row {
    pub place: u8,
    pub group: u8,
    pub first: u32,
    pub last: u32,
    pub folder: String,
}

/// The rows of all archives that the desk names.
pub fn rows(visit: &Visit, image: &Image) -> Result<Vec<Row>, Stop> {
    let mut all: Vec<Row> = Vec::new(visit.alloc());
    for holding in holdings(visit.alloc(), image)?.iter() {
        let folder = folder_of(visit, holding.archive)?;
        let goes_on = match all.last_mut() {
            Some(row) => goes_on(row, holding, folder.as_str()),
            None => false,
        };
        if !goes_on {
            all.push(Row {
                place: place_of(&image.rack, holding.group),
                group: holding.group,
                first: holding.archive,
                last: holding.archive,
                folder,
            })?;
        }
    }
    Ok(all)
}

// Adds an archive to the row, where it goes on with it.
fn goes_on(row: &mut Row, holding: &Holding, folder: &str) -> bool {
    let follows = row.last.checked_add(1) == Some(holding.archive);
    if follows && row.group == holding.group && row.folder.as_str() == folder {
        row.last = holding.archive;
        true
    } else {
        false
    }
}

// The folder to which the link of an archive leads.
fn folder_of(visit: &Visit, number: u32) -> Result<String, Stop> {
    let path = place_text(visit, number)?;
    let folder = match path.as_str().rsplit_once('/') {
        Some((folder, _)) => folder,
        None => "the folder of the desk",
    };
    Ok(String::from_str(visit.alloc(), folder)?)
}

impl Row {
    /// The numbers of its archives.
    pub fn numbers(&self, visit: &Visit) -> Result<String, Stop> {
        let first = self.first;
        let last = self.last;
        if first == last {
            Ok(format!(in visit.alloc(); "{first}")?)
        } else {
            Ok(format!(in visit.alloc(); "{first}-{last}")?)
        }
    }
}
