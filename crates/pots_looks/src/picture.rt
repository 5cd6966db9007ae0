//! A page that shows a vault: its places, groups and archives, who sees which files, when it was
//! last looked after, and the emergency sheet.
//!
//! It has no script and asks for nothing from outside. Text that comes from paths is escaped.

use crate::habits::habit_lines;
use crate::sheet::sheet_text;
use pot_image::Image;
use pot_looks::escape;
use pot_report::{Holding, holdings, place_of};
use pots_sites::{place_word, places_here};
use pots_vault::{Stop, Visit, image, place_text};
use std::str::from_utf8;

/// What stands before the map.
const HEAD: &str = "<!DOCTYPE html>
<html lang=\"en\">
<head>
<meta charset=\"utf-8\">
<title>A potshards vault</title>
<style>
body { font-family: sans-serif; margin: 2em; }
table { border-collapse: collapse; }
td, th { border: 1px solid #666; padding: 0.4em; text-align: left; font-size: 90%; }
td.S { background: #c8e6c9; }
td.L { background: #ffcdd2; }
td.F { background: #eeeeee; }
pre { border: 1px solid #666; padding: 1em; overflow-x: auto; }
</style>
</head>
<body>
<h1>A potshards vault</h1>
<p>S: all blocks are there. L: blocks are lost. F: no block yet. Behind the letter: blocks that are
there, that are lost, and slots that are free, by the desk.</p>
<table>
";

/// What stands between the map and the rows of who sees which files.
const SEEN: &str = "</table>
<h2>Who has all archives of these places sees these files</h2>
<p>A file counts where a piece of it is exposed, by the desk: pots audit tells of each.</p>
<table>
<tr><th>places</th><th>files that are exposed</th></tr>
";

/// What stands behind the last table.
const MIDDLE: &str = "</table>
<pre>
";

/// What stands between the days of the last looks and the sheet.
const LAST: &str = "</pre>
<pre>
";

/// What stands behind the sheet.
const TAIL: &str = "</pre>
</body>
</html>
";

/// What who has all archives of some places sees.
#[derive(Drop)]
pub struct SeenBy {
    /// The places, as the page names them.
    pub places: String,
    /// How many files there are.
    pub files: usize,
    /// How many of them are exposed.
    pub exposed: usize,
}

/// The page. Where nothing is known of who sees which files, it has no table of that.
pub fn page_text(visit: &mut Visit, seen: &[SeenBy]) -> Result<String, Stop> {
    let sheet = sheet_text(visit)?;
    let image = image(visit)?;
    let habits = habit_lines(visit)?;
    let mut page = String::from_str(visit.alloc(), HEAD)?;
    append_map(visit, &mut page, &image)?;
    append_seen(visit, &mut page, seen)?;
    page.push_str(MIDDLE)?;
    append_escaped(visit, &mut page, habits.as_str())?;
    page.push_str(LAST)?;
    append_escaped(visit, &mut page, sheet.as_str())?;
    page.push_str(TAIL)?;
    Ok(page)
}

// A row for each group, and a cell for each archive.
fn append_map(visit: &Visit, page: &mut String, image: &Image) -> Result<(), Stop> {
    let mut last = None;
    for holding in holdings(visit.alloc(), image)?.iter() {
        if last != Some(holding.group) {
            begin_row(visit, page, image, holding.group)?;
            last = Some(holding.group);
        }
        append_cell(visit, page, image, holding)?;
    }
    page.push_str("</tr>\n")?;
    Ok(())
}

fn begin_row(visit: &Visit, page: &mut String, image: &Image, group: u8) -> Result<(), Stop> {
    let named = places_here(&visit.rt)?;
    let place = place_word(visit.alloc(), &named, place_of(&image.rack, group))?;
    let end = if group == 0 { "" } else { "</tr>\n" };
    page.push_str(end)?;
    page.push_str("<tr><th>place ")?;
    append_escaped(visit, page, place.as_str())?;
    let text = format!(in visit.alloc(); "</th><th>group {group}</th>\n")?;
    page.push_str(text.as_str())?;
    Ok(())
}

fn append_cell(
    visit: &Visit,
    page: &mut String,
    image: &Image,
    holding: &Holding,
) -> Result<(), Stop> {
    let letter = letter_of(holding);
    let number = holding.archive;
    let live = holding.live;
    let gone = holding.gone();
    let free = image.rack.stripes.saturating_sub(live.saturating_add(gone));
    let kind = if holding.parity { "parity" } else { "data" };
    let path = place_text(visit, number)?;
    page.push_str(format!(in visit.alloc(); "<td class=\"{letter}\" title=\"")?.as_str())?;
    append_escaped(visit, page, path.as_str())?;
    let text = format!(in visit.alloc();
        "\">archive {number}, {kind}<br>{letter}: {live}, {gone}, {free}</td>\n"
    )?;
    page.push_str(text.as_str())?;
    Ok(())
}

// A row for each that has all archives of some places.
fn append_seen(visit: &Visit, page: &mut String, seen: &[SeenBy]) -> Result<(), Stop> {
    if !seen.is_empty() {
        page.push_str(SEEN)?;
    }
    for by in seen {
        append_seen_row(visit, page, by)?;
    }
    Ok(())
}

fn append_seen_row(visit: &Visit, page: &mut String, by: &SeenBy) -> Result<(), Stop> {
    let files = by.files;
    let exposed = by.exposed;
    page.push_str("<tr><td>")?;
    append_escaped(visit, page, by.places.as_str())?;
    let text = format!(in visit.alloc(); "</td><td>{exposed} of {files}</td></tr>\n")?;
    page.push_str(text.as_str())?;
    Ok(())
}

// How an archive stands, as a letter.
fn letter_of(holding: &Holding) -> &'static str {
    if holding.gone() > 0 {
        "L"
    } else if holding.live == 0 {
        "F"
    } else {
        "S"
    }
}

// Adds a text, escaped.
fn append_escaped(visit: &Visit, page: &mut String, text: &str) -> Result<(), Stop> {
    let escaped = escape(visit.alloc(), text.as_bytes())?;
    page.push_str(from_utf8(&escaped).unwrap_or(""))?;
    Ok(())
}
