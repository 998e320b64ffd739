//! Objects that refer to what isn't there.
ghost use Rattle.std.specs.Prelude.{◌≡◌, None, map, is_some, not, IfOk};
ghost use Rattle.std.specs.List.{find, list_any};
ghost use Rattle.osm_base.specs.Content.{node};
ghost use Rattle.upload_order.specs.World.{content_at, IsSoundWorld};
ghost use Rattle.server_world.specs.Unsound.{lacks, is_unsound_at, first_unsound};

use crate::world::World;
use osm_base::{Content, Key, Member, node_key};
use std::alloc::AllocError;

impl World {
    /// The least object whose content refers to a key without a content, if there is one.
    ///
    /// Costs a sort of all keys, a look-up for each of them, and one for each reference up to the first that is bad.
    ///
    /// # Errors
    /// No memory was left.
    pub fn first_unsound(&self) -> Result<Option<Key>, AllocError>
        ensures value { IfOk result (λ first. first ≡ first_unsound self.now) }
        // There is none exactly where the world is sound.
        ensures sound { IfOk result (λ first. first ≡ None → IsSoundWorld self.now) }
        ensures unsound { IfOk result (λ first. IsSoundWorld self.now → first ≡ None) }
    {
        let keys = self.keys()?;
        Ok(self.first_unsound_of(keys.as_slice()))
    }

    fn first_unsound_of(&self, keys: &[Key]) -> Option<Key>
        ensures { result ≡ find (is_unsound_at self.now) keys.now }
    {
        for key in keys {
            if self.is_unsound(*key) {
                return Some(*key);
            }
        }
        None
    }

    fn is_unsound(&self, key: Key) -> bool
        ensures { result ≡ is_unsound_at self.now key }
    {
        let Some(entry) = self.get(key) else {
            return false;
        };
        match entry.content() {
            None => false,
            Some(content) => self.lacks(content),
        }
    }

    /// Whether a reference has no content.
    fn lacks(&self, content: &Content) -> bool
        ensures { result ≡ lacks self.now content.now }
    {
        match content {
            Content::Node { .. } => false,
            Content::Way { refs, .. } => self.lacks_node(refs.as_slice()),
            Content::Relation { members, .. } => self.lacks_member(members.as_slice()),
        }
    }

    fn lacks_node(&self, ids: &[i64]) -> bool
        ensures { result ≡ list_any (λ r. not (is_some (content_at self.now r))) (map node ids.now) }
    {
        for id in ids {
            if !self.has_content(node_key(*id)) {
                return true;
            }
        }
        false
    }

    fn lacks_member(&self, members: &[Member]) -> bool
        ensures { result ≡ list_any (λ r. not (is_some (content_at self.now r))) (map (λ m. m.key) members.now) }
    {
        for member in members {
            if !self.has_content(member.key) {
                return true;
            }
        }
        false
    }
}
