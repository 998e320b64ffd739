//! Tags: pairs of a key and a value, in the order of the keys' bytes.
ghost use Rattle.std.specs.Prelude.{◌≡◌, ◌<◌, ◌==◌, ◌&&◌, ◌∷◌, ◌↔◌, [], length, IfOk, OnOk, OnErr, IsTrue, T, nat_lt, slice_index_or};
ghost use Rattle.std.specs.Ordering.{is_lt, eq_by_cmp};
ghost use Rattle.std.specs.Option.{option_copied};
ghost use Rattle.osm_base.specs.Boxed.{items_of};
ghost use Rattle.osm_base.specs.Same.{same_tags};
ghost use Rattle.osm_base.specs.Tags.{bytes_cmp, are_tags, value_of, with_tag, without_tag, has_tag, place_of};

use crate::text::Text;
use std::alloc::{AllocError, Global};
use std::marker::Model;

/// The tags of an object: pairs of a key and a value, in the order of the keys' bytes.
///
/// No key is empty, and none stands twice. The texts are shared with those of other tags, the list
/// is not. It stands behind a box, so that tags take 16 bytes where they are kept; where no tag is
/// left there is neither box nor list. Each call finds its place by a binary search.
#[derive(Drop)]
pub struct Tags {
    alloc: Global,
    items: Pairs,
}

/// Pairs behind a box, or none without one.
type Pairs = Option<Box<Vec<(Text, Text)>>>;

impl Model for Tags {
    ghost use Rattle.std.specs.Prelude.{List, T};
    ghost use Rattle.osm_base.specs.Boxed.{items_of};
    ghost use Rattle.osm_base.specs.Tags.{Pair, are_tags};

    ghost Value = { List Pair };

    ghost view = { λ t. items_of t.items };

    ghost invariant = { λ t. T (are_tags (items_of t.items)) };
}

impl Tags {
    /// No tags. It takes no memory.
    pub fn new(alloc: Global) -> Self
        ensures { result ≡ [] }
    {
        Tags { alloc, items: None }
    }

    /// No tags, with room for so many. Where that is none it takes no memory.
    ///
    /// # Errors
    /// No memory was left.
    pub fn with_capacity(alloc: Global, capacity: usize) -> Result<Self, AllocError>
        ensures { IfOk result (λ tags. tags ≡ []) }
    {
        if capacity == 0 {
            return Ok(Tags::new(alloc));
        }
        Ok(Tags {
            alloc,
            items: boxed(alloc, Vec::with_capacity(alloc, capacity)?)?,
        })
    }

    /// How many tags there are.
    pub fn len(&self) -> usize
        ensures len { result ≡ length self.now }
        ensures tags { T (are_tags self.now) }
    {
        items_of(&self.items).len()
    }

    /// Whether there are no tags.
    pub fn is_empty(&self) -> bool
        ensures { result ≡ (length self.now == 0) }
    {
        items_of(&self.items).is_empty()
    }

    /// The tags, in order.
    pub fn as_slice(&self) -> &[(Text, Text)]
        ensures value { result.now ≡ self.now }
        ensures tags { T (are_tags self.now) }
    {
        items_of(&self.items)
    }

    /// The value of a key, None exactly where the key is not there.
    pub fn get(&self, key: &[u8]) -> Option<&[u8]>
        ensures { option_copied result ≡ value_of self.now key.now }
    {
        value_in(items_of(&self.items), key)
    }

    /// Whether the key is there.
    pub fn has(&self, key: &[u8]) -> bool
        ensures { result ≡ has_tag self.now key.now }
    {
        is_in(items_of(&self.items), key)
    }

    /// Gives the key this value, in place of the one that it had, if any. The key must not be empty.
    ///
    /// # Errors
    /// No memory was left, and nothing has changed.
    pub fn put(&mut self, key: Text, value: Text) -> Result<(), AllocError>
        requires { 0 < length key }
        ensures ok { OnOk result (self.new ≡ with_tag self.old key value) }
        ensures err { OnErr result (self.new ≡ self.old) }
    {
        put_boxed(self.alloc, &mut self.items, (key, value))?;
        Ok(())
    }

    /// Removes the key with its value, and tells whether it was there.
    pub fn take(&mut self, key: &[u8]) -> bool
        ensures value { result ≡ has_tag self.old key.now }
        ensures tags { self.new ≡ without_tag self.old key.now }
    {
        take_boxed(&mut self.items, key)
    }

    /// Equal tags. It makes a list of its own, and shares the texts.
    ///
    /// # Errors
    /// No memory was left.
    pub fn copy(&self) -> Result<Tags, AllocError>
        ensures { IfOk result (λ tags. tags ≡ self.now) }
    {
        Ok(Tags {
            alloc: self.alloc,
            items: copied(&self.items)?,
        })
    }

    /// Whether the tags are equal. It walks them up to the first difference.
    pub fn same(&self, other: &Tags) -> bool
        ensures value { result ≡ same_tags self.now other.now }
        ensures decides { IsTrue result ↔ (self.now ≡ other.now) }
    {
        same_items(items_of(&self.items), items_of(&other.items))
    }
}

fn items_of(items: &Pairs) -> &[(Text, Text)]
    ensures { result.now ≡ items_of items.now }
{
    match items {
        None => &[],
        Some(list) => list.as_slice(),
    }
}

fn boxed(alloc: Global, list: Vec<(Text, Text)>) -> Result<Pairs, AllocError>
    ensures { IfOk result (λ items. items_of items ≡ list.items) }
{
    Ok(Some(Box::new(alloc, list)?))
}

fn copied(items: &Pairs) -> Result<Pairs, AllocError>
    ensures { IfOk result (λ copy. items_of copy ≡ items_of items.now) }
{
    match items {
        None => Ok(None),
        Some(list) => Ok(Some(list.clone()?)),
    }
}

// The first tag has room for itself alone, since most objects that are tagged have few.
fn put_boxed(alloc: Global, items: &mut Pairs, tag: (Text, Text)) -> Result<(), AllocError>
    requires { T (are_tags (items_of items.old)) }
    ensures ok { OnOk result (items_of items.new ≡ with_tag (items_of items.old) tag.0 tag.1) }
    ensures err { OnErr result (items_of items.new ≡ items_of items.old) }
{
    match items {
        None => *items = boxed(alloc, one_tag(alloc, tag)?)?,
        Some(list) => put_item(list.as_mut(), tag)?,
    }
    Ok(())
}

fn one_tag(alloc: Global, tag: (Text, Text)) -> Result<Vec<(Text, Text)>, AllocError>
    ensures { IfOk result (λ list. list.items ≡ tag ∷ []) }
{
    let mut list = Vec::with_capacity(alloc, 1)?;
    list.push(tag)?;
    Ok(list)
}

fn take_boxed(items: &mut Pairs, key: &[u8]) -> bool
    requires { T (are_tags (items_of items.old)) }
    ensures value { result ≡ has_tag (items_of items.old) key.now }
    ensures tags { items_of items.new ≡ without_tag (items_of items.old) key.now }
{
    let Some(list) = items else {
        return false;
    };
    let was_there = take_item(list.as_mut(), key);
    // Gives the blocks back where no tag is left.
    if list.is_empty() {
        *items = None;
    }
    was_there
}

fn value_in<'a>(items: &'a [(Text, Text)], key: &[u8]) -> Option<&'a [u8]>
    requires { T (are_tags items.now) }
    ensures { option_copied result ≡ value_of items.now key.now }
{
    let at = place(items, key);
    if stands_at(items, at, key) {
        Some(items[at].1.as_bytes())
    } else {
        None
    }
}

fn is_in(items: &[(Text, Text)], key: &[u8]) -> bool
    requires { T (are_tags items.now) }
    ensures { result ≡ has_tag items.now key.now }
{
    let at = place(items, key);
    stands_at(items, at, key)
}

fn put_item(items: &mut Vec<(Text, Text)>, tag: (Text, Text)) -> Result<(), AllocError>
    requires { T (are_tags items.old.items) }
    ensures ok { OnOk result (items.new.items ≡ with_tag items.old.items tag.0 tag.1) }
    ensures err { OnErr result (items.new.items ≡ items.old.items) }
{
    let at = place(items, tag.0.as_bytes());
    if stands_at(items, at, tag.0.as_bytes()) {
        items[at] = tag;
    } else {
        items.insert(at, tag)?;
    }
    Ok(())
}

fn take_item(items: &mut Vec<(Text, Text)>, key: &[u8]) -> bool
    requires { T (are_tags items.old.items) }
    ensures value { result ≡ has_tag items.old.items key.now }
    ensures tags { items.new.items ≡ without_tag items.old.items key.now }
{
    let at = place(items, key);
    if stands_at(items, at, key) {
        items.remove(at);
        return true;
    }
    false
}

// How many tags have lesser keys, so where the key stands, or would stand.
fn place(items: &[(Text, Text)], key: &[u8]) -> usize
    requires { T (are_tags items.now) }
    ensures { result ≡ place_of key.now items.now }
{
    items.partition_point(|tag| is_before(tag, key))
}

fn is_before(tag: &(Text, Text), key: &[u8]) -> bool
    ensures { result ≡ is_lt (bytes_cmp tag.now.0 key.now) }
{
    tag.0.as_bytes().cmp(&key).is_lt()
}

fn stands_at(items: &[(Text, Text)], at: usize, key: &[u8]) -> bool
    ensures { result
        ≡ (nat_lt at (length items.now) && eq_by_cmp bytes_cmp key.now (slice_index_or items.now at ([], [])).0) }
{
    at < items.len() && is_at(&items[at], key)
}

fn is_at(tag: &(Text, Text), key: &[u8]) -> bool
    ensures { result ≡ eq_by_cmp bytes_cmp key.now tag.now.0 }
{
    key.cmp(&tag.0.as_bytes()).is_eq()
}

fn same_items(a: &[(Text, Text)], b: &[(Text, Text)]) -> bool
    ensures { IsTrue result ↔ (a.now ≡ b.now) }
{
    if a.len() != b.len() {
        return false;
    }
    for i in 0..a.len() {
        if !(a[i].0.same(&b[i].0) && a[i].1.same(&b[i].1)) {
            return false;
        }
    }
    true
}
