//! The new objects that a file brings.
ghost use Rattle.std.specs.Prelude.{◌≡◌, [], length};
ghost use Rattle.tool_api.specs.Import.{AreNewObjects};

use osm_base::{Content, Key};
use std::alloc::Global;
use std::marker::Model;

/// An object that no server knows yet, as a file has it.
#[derive(Drop)]
pub struct NewObject {
    /// Its kind, and the file's own id, which is negative. The file's other objects refer to it by this key.
    pub key: Key,
    /// Its content, of the key's kind.
    pub content: Content,
}

/// New objects as one file may have them: each key once, its id negative, each content of its key's kind, and no reference
/// out of range (`AreNewObjects` in specs/). So an import asks nothing more of them.
#[derive(Drop)]
pub struct NewObjects {
    list: Vec<NewObject>,
}

impl Model for NewObjects {
    ghost use Rattle.std.specs.Prelude.{List};
    ghost use Rattle.tool_api.specs.Import.{AreNewObjects};
    ghost use Rattle.tool_api.specs.declared.new_objects.NewObject.{NewObject};

    ghost Value = { List NewObject };

    ghost view = { λ objects. objects.list.items };

    ghost invariant = { λ objects. AreNewObjects objects.list.items };
}

impl NewObjects {
    /// No object. It takes no memory.
    pub fn new(alloc: Global) -> NewObjects
        ensures { result ≡ [] }
    {
        NewObjects {
            list: Vec::new(alloc),
        }
    }

    /// These objects. The vector is kept as it is, so nothing is copied.
    pub fn from_vec(list: Vec<NewObject>) -> NewObjects
        requires { AreNewObjects list.items }
        ensures { result ≡ list.items }
    {
        NewObjects { list }
    }

    /// How many objects there are.
    pub fn len(&self) -> usize
        ensures { result ≡ length self.now }
    {
        self.list.len()
    }

    /// The objects, in order.
    pub fn as_slice(&self) -> &[NewObject]
        ensures value { result.now ≡ self.now }
        ensures new_objects { AreNewObjects self.now }
    {
        self.list.as_slice()
    }
}
