//! The rows of a placement's output sections, by their keys.

ghost use Rattle.std.specs.Prelude.{◌≡◌, bytes_eq};
ghost use Rattle.std.specs.Option.{option_copied};
ghost use Rattle.lk_model.specs.DynamicSection.{table_length, table_start};
ghost use Rattle.lk_model.specs.Keys.{row_of};
ghost use Rattle.lk_model.specs.SectionKeys.{named, same_key};

use lk_model::classes::same_class;
use lk_model::layouts::{Class, Placement, SectionKey, SectionRow};

/// Whether a name is this one.
fn is_name(name: &[u8], other: &[u8]) -> bool
    ensures { result ≡ bytes_eq name.now other.now }
{
    name == other
}

/// Whether a key is that of a name and a class.
pub fn is_key(key: &SectionKey, name: &[u8], class: Class) -> bool
    ensures { result ≡ same_key key.now (named name.now class) }
{
    same_class(key.class, class) && is_name(key.name.as_slice(), name)
}

/// The row of the section with a name and a class.
pub fn row_of<'a>(place: &'a Placement, name: &[u8], class: Class) -> Option<&'a SectionRow>
    ensures { option_copied result ≡ row_of place.now (named name.now class) }
{
    place
        .sections
        .as_slice()
        .iter()
        .find(|row| is_key(&row.key, name, class))
}

/// The address of the section with a name and a class; 0 where there is none.
pub(crate) fn section_start(place: &Placement, name: &[u8], class: Class) -> u64
    ensures { result ≡ table_start place.now (named name.now class) }
{
    match row_of(place, name, class) {
        None => 0,
        Some(row) => row.addr,
    }
}

/// The size of the section with a name and a class; 0 where there is none.
pub(crate) fn section_size(place: &Placement, name: &[u8], class: Class) -> u64
    ensures { result ≡ table_length place.now (named name.now class) }
{
    match row_of(place, name, class) {
        None => 0,
        Some(row) => row.size,
    }
}
