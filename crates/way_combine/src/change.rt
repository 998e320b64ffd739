//! The change that joins ways, as a draft.
ghost use Rattle.std.specs.Prelude.{◌≡◌, OnOk};
ghost use Rattle.dataset.specs.Draft.{drafted};
ghost use Rattle.tool_api.specs.Changes.{changed, edit};
ghost use Rattle.tool_api.specs.Combine.{combined, fold_runs, united, all_tags, relations_among};

use dataset::{DataSet, Draft};
use osm_base::{Content, Key, Refs, Tags};
use relation_upkeep::other_keys;
use std::alloc::AllocError;
use tool_api::{EditContent, delete_all, edit_all};

/// What becomes of the kept way: it has all references and tags.
#[derive(Drop)]
struct AsWay {
    refs: Refs,
    tags: Tags,
}

impl EditContent for AsWay {
    ghost use Rattle.tool_api.specs.Combine.{as_way};

    ghost edited = { λ r. as_way r.refs r.tags };

    fn edit(&self, content: Content) -> Result<Content, AllocError> {
        // Dropped by a call, and first: on each way out, the code of all that a content owns would be written out.
        drop(content);
        Ok(Content::Way {
            tags: self.tags.copy()?,
            refs: self.refs.copy()?,
        })
    }
}

/// Deletes the other ways and gives the kept way the references and the tags, in a draft that has the relations already.
///
/// # Errors
/// No memory was left; then the draft has some of it.
pub fn join_ways(
    ds: &DataSet,
    ways: &[Key],
    kept: Key,
    refs: Refs,
    tags: Tags,
    draft: &mut Draft,
) -> Result<(), AllocError>
    requires relations { drafted draft.old ds.now ≡ changed ds.now (edit ds.now (fold_runs ways.now kept)) (relations_among ds.now ways.now) }
    requires tags { tags ≡ united (all_tags ds.now ways.now) }
    ensures { OnOk result (drafted draft.new ds.now ≡ combined ds.now ways.now refs kept) }
{
    let others = other_keys(ds.alloc(), ways, kept)?;
    delete_all(ds, &others, draft)?;
    edit_all(ds, &[kept], &AsWay { refs, tags }, draft)
}
