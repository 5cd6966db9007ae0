//! Names in an image.
ghost use Rattle.std.specs.Prelude.{◌≡◌, ◌≤◌, ◌&&◌, drop, length, IfOk};
ghost use Rattle.pot_image.specs.Following.{Gives};
ghost use Rattle.pot_image.specs.Reading.{reading};
ghost use Rattle.pot_image.specs.Numbers.{text};
ghost use Rattle.pot_image.specs.Records.{is_name, is_above};

use crate::fault::Fault;
use pot_bytes::Name;
use pot_index::Record;

/// The name of so many bytes at the front.
pub(crate) fn read_name(bytes: &[u8], count: u8) -> Result<Name, Fault>
    requires some { 1 ≤ count }
    requires few { count ≤ 64 }
    ensures reads { Gives (λ x. (x, drop count bytes.now)) result
        (reading (text count is_name) bytes.now) }
    ensures within { IfOk result (λ x. count ≤ length bytes.now) }
{
    let count = usize::from(count);
    if bytes.len() < count {
        return Err(Fault::at(bytes));
    }
    match Name::read(&bytes[..count]) {
        None => Err(Fault::at(bytes)),
        Some(name) => Ok(name),
    }
}

/// Whether a name is above that of the last of these records.
fn is_above(before: &[Record], name: &Name) -> bool
    ensures { result ≡ is_above before.now name.now }
{
    match before.last() {
        None => true,
        Some(record) => record.name < *name,
    }
}

/// The name of so many bytes at the front, which is above that of the last of these records.
pub(crate) fn read_name_above(bytes: &[u8], count: u8, before: &[Record]) -> Result<Name, Fault>
    requires some { 1 ≤ count }
    requires few { count ≤ 64 }
    ensures reads { Gives (λ x. (x, drop count bytes.now)) result
        (reading (text count (λ x. is_name x && is_above before.now x)) bytes.now) }
    ensures within { IfOk result (λ x. count ≤ length bytes.now) }
{
    let name = read_name(bytes, count)?;
    if !is_above(before, &name) {
        return Err(Fault::at(bytes));
    }
    Ok(name)
}
