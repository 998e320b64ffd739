//! The members of a relation.
ghost use Rattle.std.specs.Prelude.{◌≡◌, ◌++◌, ◌∷◌, [], OnOk, OnErr, IfOk, IsTrue, ◌↔◌};
ghost use Rattle.osm_base.specs.Same.{same_member, same_members};

use crate::key::Key;
use crate::text::Text;
use std::alloc::{AllocError, Global};
use std::marker::Model;
use std::rc::Rc;

/// One member of a relation.
#[derive(Drop)]
pub struct Member {
    /// The object that is a member.
    pub key: Key,

    /// The part that it plays, which may be empty.
    pub role: Text,
}

/// The members of a relation, in order.
///
/// Copies share one list until one of them is changed. An empty list has a block too, so that there
/// is no option here and a list takes 8 bytes where it is kept.
#[derive(Drop)]
pub struct Members {
    shared: Rc<Vec<Member>>,
}

impl Model for Members {
    ghost use Rattle.std.specs.Prelude.{List};
    ghost use Rattle.osm_base.specs.declared.members.Member.{Member};

    ghost Value = { List Member };

    ghost view = { λ m. m.shared.value.items };
}

impl Clone for Member {
    ghost is_clone = { λ member copy. copy ≡ member };

    fn clone(&self) -> Result<Member, AllocError> {
        self.copy()
    }
}

impl Member {
    /// An equal member. It shares the role, so no block is made.
    ///
    /// # Errors
    /// The count of those who share the role is full.
    pub fn copy(&self) -> Result<Member, AllocError>
        ensures { IfOk result (λ member. member ≡ self.now) }
    {
        Ok(Member {
            key: self.key,
            role: self.role.copy()?,
        })
    }

    /// Whether object and role are equal.
    pub fn same(&self, other: &Member) -> bool
        ensures value { result ≡ same_member self.now other.now }
        ensures decides { IsTrue result ↔ (self.now ≡ other.now) }
    {
        self.key == other.key && self.role.same(&other.role)
    }
}

impl Members {
    /// The list without members. It takes a block.
    ///
    /// # Errors
    /// No memory was left.
    pub fn new(alloc: Global) -> Result<Self, AllocError>
        ensures { IfOk result (λ members. members ≡ []) }
    {
        Members::from_vec(Vec::new(alloc))
    }

    /// The list without members, with room for so many.
    ///
    /// # Errors
    /// No memory was left.
    pub fn with_capacity(alloc: Global, capacity: usize) -> Result<Self, AllocError>
        ensures { IfOk result (λ members. members ≡ []) }
    {
        Members::from_vec(Vec::with_capacity(alloc, capacity)?)
    }

    /// These members. The vector is kept as it is, so nothing is copied.
    ///
    /// # Errors
    /// No memory was left.
    pub fn from_vec(items: Vec<Member>) -> Result<Self, AllocError>
        ensures { IfOk result (λ members. members ≡ items.items) }
    {
        Ok(Members {
            shared: Rc::new(*items.allocator(), items)?,
        })
    }

    /// Adds a member at the end. A list that others share is copied first.
    ///
    /// # Errors
    /// No memory was left, and nothing has changed.
    #[tactic(auto, using(crate::proofs::Cloned::kept_or_cloned))]
    pub fn push(&mut self, member: Member) -> Result<(), AllocError>
        ensures ok { OnOk result (self.new ≡ self.old ++ member ∷ []) }
        ensures err { OnErr result (self.new ≡ self.old) }
    {
        Rc::make_mut(&mut self.shared)?.push(member)?;
        Ok(())
    }

    /// The members, in order.
    pub fn as_slice(&self) -> &[Member]
        ensures { result.now ≡ self.now }
    {
        self.shared.as_slice()
    }

    /// An equal list. It shares the members, so no block is made.
    ///
    /// # Errors
    /// The count of those who share the list is full.
    pub fn copy(&self) -> Result<Members, AllocError>
        ensures { IfOk result (λ members. members ≡ self.now) }
    {
        Ok(Members {
            shared: self.shared.clone()?,
        })
    }

    /// Whether the lists are equal. It walks them up to the first difference.
    pub fn same(&self, other: &Members) -> bool
        ensures value { result ≡ same_members self.now other.now }
        ensures decides { IsTrue result ↔ (self.now ≡ other.now) }
    {
        same_items(self.as_slice(), other.as_slice())
    }
}

fn same_items(a: &[Member], b: &[Member]) -> bool
    ensures { IsTrue result ↔ (a.now ≡ b.now) }
{
    if a.len() != b.len() {
        return false;
    }
    for i in 0..a.len() {
        if !a[i].same(&b[i]) {
            return false;
        }
    }
    true
}
