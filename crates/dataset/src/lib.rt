//! A table of objects that is always sound, and what changes it.
//!
//! A data set holds a table with an index of who refers to what. Whatever call has ended, the table
//! is sound (`specs/Sound`) and the index exact, so that who stands above never thinks of either.
//! Who wants a change says it by a draft, a few keys with their new entries. `patch_of` gives the
//! difference, and a patch leads the table there (`apply`) and back (`revert`), all or nothing, at
//! the cost of its own entries and references. Where all that a download tells enters as it is, the
//! told map is the draft (`patch_of_told`), and where there was nothing before it is the patch too, and
//! becomes the table; the users of its keys stand beside it (`told_index`) until an edit moves a
//! reference. Who keeps another index of referrers puts the references of a content in and takes
//! them out by the same two calls (`add_content`, `take_content`). It stands on `osm_table` and
//! `ref_index`.
//!
//! Advice for who changes it: what a table has after edits is said key by key, so no law needs the
//! order in which they are made. By their sides edits bring a key, give one another entry, or take
//! one out (`specs/Sides`). The first are made before the index changes, and undone where it finds
//! no memory; the others come last, since they take none. In the index, likewise, the pairs that
//! come are added before those that go are taken. How a tool shows that its draft keeps the table
//! sound stands in `proofs/Kept` and `proofs/Changes`.
#![tactic(auto)]

mod dataset;
mod difference;
mod draft;
mod edit;
mod index;
mod pairs;
mod patch;
mod told_index;
mod walk;
mod writes;

pub use dataset::DataSet;
pub use draft::Draft;
pub use edit::Edit;
pub use pairs::{add_content, take_content};
pub use patch::Patch;
