//! What an entry is, if there is one.
ghost use Rattle.std.specs.Prelude.{◌≡◌, false};
ghost use Rattle.std.specs.Option.{option_copied, option_map_or};
ghost use Rattle.osm_base.specs.Tags.{value_of};
ghost use Rattle.osm_base.specs.Content.{tags_of};
ghost use Rattle.osm_table.specs.Table as table;
ghost use Rattle.map_search.specs.Meets as meets;

use osm_base::{Content, Text};
use osm_table::{Base, SharedEntry};

/// Whether a server doesn't know it yet.
pub fn begins_new(entry: Option<&SharedEntry>) -> bool
    ensures { result ≡ option_map_or meets.begins_new (option_copied entry.entry) false }
{
    entry.is_some_and(|entry| match entry.base() {
        None => false,
        Some(base) => matches!(base, Base::New),
    })
}

pub fn is_changed(entry: Option<&SharedEntry>) -> bool
    ensures { result ≡ option_map_or table.is_changed (option_copied entry.entry) false }
{
    entry.is_some_and(|entry| entry.is_changed())
}

/// Whether it is known and not living.
pub fn is_deleted(entry: Option<&SharedEntry>) -> bool
    ensures { result ≡ option_map_or meets.is_deleted (option_copied entry.entry) false }
{
    entry.is_some_and(|entry| !entry.is_incomplete() && !entry.is_living())
}

pub fn is_incomplete(entry: Option<&SharedEntry>) -> bool
    ensures { result ≡ option_map_or table.is_incomplete (option_copied entry.entry) false }
{
    entry.is_some_and(|entry| entry.is_incomplete())
}

pub fn has_conflict(entry: Option<&SharedEntry>) -> bool
    ensures { result ≡ option_map_or meets.has_conflict (option_copied entry.entry) false }
{
    entry.is_some_and(|entry| entry.conflict().is_some())
}

/// Whether it is living and has the tag, with the value or any.
pub fn is_tagged(entry: Option<&SharedEntry>, key: &Text, value: &Option<Text>) -> bool
    ensures { result ≡ option_map_or (meets.is_tagged key.now value.now) (option_copied entry.entry) false }
{
    entry.is_some_and(|entry| match entry.mine() {
        None => false,
        Some(content) => has_tag(content, key, value),
    })
}

fn has_tag(content: &Content, key: &Text, wanted: &Option<Text>) -> bool
    ensures { result ≡ meets.has_tag key.now wanted.now content.now }
{
    let value = content.tags().get(key.as_bytes());
    value.is_some_and(|value| is_wanted(value, wanted))
}

fn is_wanted(value: &[u8], wanted: &Option<Text>) -> bool
    ensures { result ≡ meets.is_value wanted.now value.now }
{
    match wanted {
        None => true,
        Some(wanted) => wanted.as_bytes() == value,
    }
}
