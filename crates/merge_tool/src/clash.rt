//! Versions that clash.
ghost use Rattle.std.specs.Prelude.{◌≡◌, IfOk, slice_get};
ghost use Rattle.std.specs.Option.{option_copied};
ghost use Rattle.osm_base.specs.declared.key.Key.{Key};
ghost use Rattle.osm_base.specs.Order.{ranked};
ghost use Rattle.tool_api.specs.Merged.{clash_of, clash_test};
ghost use Rattle.merge_tool.specs.Drafts.{clashing_keys};
ghost use Rattle.merge_tool.specs.Passes.{version_told};

use dataset::DataSet;
use osm_base::{Key, ranked};
use osm_table::{SharedEntry, ToldMap};
use std::alloc::AllocError;
use tool_api::Refusal;

/// VersionClash with the least of the objects of which one version is told in two ways. It sorts these.
///
/// # Errors
/// No memory was left.
pub fn clash_test(
    ds: &DataSet,
    told: &ToldMap,
    clashes: Vec<Key>,
) -> Result<Option<Refusal>, AllocError>
    requires clashes { clashes.items ≡ clashing_keys ds.now told.now }
    ensures { IfOk result (λ r. r ≡ clash_test ds.now told.now.told) }
{
    told.sound();
    match least(clashes)? {
        None => Ok(None),
        Some(key) => Ok(Some(version_clash(told, key))),
    }
}

fn least(keys: Vec<Key>) -> Result<Option<Key>, AllocError>
    ensures { IfOk result (λ least. least ≡ slice_get (ranked keys.items) 0) }
{
    let ranked = ranked(keys)?;
    Ok(ranked.first().copied())
}

fn version_clash(told: &ToldMap, key: Key) -> Refusal
    ensures { result ≡ clash_of told.now.told key }
{
    Refusal::VersionClash(key, version_told(told.get(key)))
}

/// The version that is told, 0 where there is none.
fn version_told(news: Option<&SharedEntry>) -> u32
    ensures { result ≡ version_told (option_copied news.entry) }
{
    news.map_or(0, |news| match news.base() {
        None => 0,
        Some(base) => base.version(),
    })
}
