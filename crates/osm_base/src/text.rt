//! Texts: shared, unchangeable strings, seen by contracts as their UTF-8 bytes.
ghost use Rattle.std.specs.Prelude.{◌≡◌, IfOk, IsErrOf, ◌↔◌, IsTrue, []};
ghost use Rattle.std.specs.Str.{IsUtf8};
ghost use Rattle.osm_base.specs.Same.{same_text};

use std::alloc::{AllocError, Global};
use std::marker::Model;
use std::rc::Rc;
use thiserror::Error;

/// A text in UTF-8: a tag's key or value, a member's role, a user's name.
///
/// It is never changed, so all copies of one text share its bytes.
#[derive(Drop)]
pub struct Text {
    shared: Rc<String>,
}

/// Why bytes did not become a text.
#[derive(Error, Debug, Drop)]
pub enum TextFault {
    /// The bytes are not UTF-8.
    #[error("the bytes are not UTF-8")]
    BadText,

    /// No memory was left.
    #[error("out of memory")]
    Memory,
}

impl Model for Text {
    ghost use Rattle.std.specs.Prelude.{List, ℕ};

    ghost Value = { List ℕ };

    ghost view = { λ t. t.shared.value.bytes.items };
}

impl From<AllocError> for TextFault {
    ghost use Rattle.osm_base.specs.declared.text.TextFault.TheVariants.{Memory};

    ghost from_gives = { λ _ e. e ≡ Memory };

    fn from(_: AllocError) -> Self {
        TextFault::Memory
    }
}

impl Clone for Text {
    ghost is_clone = { λ text copy. copy ≡ text };

    fn clone(&self) -> Result<Text, AllocError> {
        self.copy()
    }
}

impl Text {
    /// The empty text.
    ///
    /// # Errors
    /// No memory was left.
    pub fn new(alloc: Global) -> Result<Text, AllocError>
        ensures { IfOk result (λ text. text ≡ []) }
    {
        Ok(Text {
            shared: shared(alloc, "")?,
        })
    }

    /// The text that the bytes are.
    ///
    /// # Errors
    /// `BadText` where the bytes are not UTF-8, `Memory` where no memory was left.
    pub fn from_bytes(alloc: Global, bytes: &[u8]) -> Result<Text, TextFault>
        ensures value { IfOk result (λ text. text ≡ bytes.now) }
        ensures utf8 { IfOk result (λ _. IsUtf8 bytes.now) }
        ensures fault { IsErrOf result TextFault.BadText → ¬ (IsUtf8 bytes.now) }
    {
        let Ok(text) = std::str::from_utf8(bytes) else {
            return Err(TextFault::BadText);
        };
        Ok(Text {
            shared: shared(alloc, text)?,
        })
    }

    /// The bytes of the text.
    pub fn as_bytes(&self) -> &[u8]
        ensures value { result.now ≡ self.now }
        ensures utf8 { IsUtf8 self.now }
    {
        self.shared.as_bytes()
    }

    /// The text as a string slice.
    pub fn as_str(&self) -> &str
        ensures value { result.now ≡ self.now }
        ensures utf8 { IsUtf8 self.now }
    {
        self.shared.as_str()
    }

    /// The same text once more. It shares the bytes, so no block is made.
    ///
    /// # Errors
    /// The count of those who share the bytes is full.
    pub fn copy(&self) -> Result<Text, AllocError>
        ensures { IfOk result (λ text. text ≡ self.now) }
    {
        Ok(Text {
            shared: self.shared.clone()?,
        })
    }

    /// Whether the texts are equal.
    pub fn same(&self, other: &Text) -> bool
        ensures value { result ≡ same_text self.now other.now }
        ensures decides { IsTrue result ↔ (self.now ≡ other.now) }
    {
        self.as_bytes() == other.as_bytes()
    }
}

fn shared(alloc: Global, text: &str) -> Result<Rc<String>, AllocError>
    ensures { IfOk result (λ rc. rc.value.bytes.items ≡ text.now) }
{
    Ok(Rc::new(alloc, String::from_str(alloc, text)?)?)
}
