//! A pool of texts by their written forms, by which equal texts come to share their bytes.
ghost use Rattle.std.specs.Prelude.{◌≡◌, ◌<◌, ◌≤◌, IfOk, [], Some, vec_len};
ghost use Rattle.std.specs.Option.{IfSome};
ghost use Rattle.std.proofs.Props.{props};
ghost use Rattle.opl_text.specs.Text.{unescaped};

use osm_base::{Text, TextFault};
use std::alloc::{AllocError, Global};

/// How many texts a pool remembers, a power of two.
const SLOTS: usize = 1024;

/// A written form and the text that it spells.
#[derive(Drop)]
struct Spelled {
    written: Text,
    text: Text,
    ghost spells: { unescaped written ≡ Some text } by { Prim.hlevel props },
}

/// Texts that were read before, so that one that comes again is shared.
///
/// A pool that is used has 1024 slots and never more. A text has its slot by its written form, and
/// stays there until another with this slot comes. What is found is compared before it is lent, and
/// each slot is proved to hold what its written form spells, so a pool gives just what reading gives.
#[derive(Drop)]
pub struct Pool {
    slots: Vec<Spelled>,
    ghost few: { vec_len slots ≤ 1024 },
}

impl Pool {
    /// A pool without texts. It takes no memory; its slots are made at the first use.
    pub fn new(alloc: Global) -> Pool {
        Pool {
            slots: Vec::new(alloc),
        }
    }

    /// The allocator that the texts are made with.
    pub fn allocator(&self) -> Global {
        *self.slots.allocator()
    }

    /// The empty text.
    ///
    /// # Errors
    /// No memory was left.
    #[tactic(auto, using(crate::proofs::NoBytes::empty_is, crate::proofs::NoBytes::empty_read))]
    pub fn empty(&mut self) -> Result<Text, AllocError>
        ensures { IfOk result (λ text. text ≡ []) }
    {
        if let Some(text) = self.find(&[])? {
            return Ok(text);
        }
        let text = Text::new(*self.slots.allocator())?;
        self.keep(&[], &text)?;
        Ok(text)
    }

    /// The text that the bytes spell, if their slot remembers it.
    ///
    /// # Errors
    /// The count of those who share the text is full.
    pub fn find(&self, written: &[u8]) -> Result<Option<Text>, AllocError>
        ensures { IfOk result (λ found. IfSome found (λ text. unescaped written.now ≡ Some text)) }
    {
        if let Some(slot) = self.slots.get(slot_of(written)) {
            if slot.written.as_bytes() == written {
                return Ok(Some(slot.text.copy()?));
            }
        }
        Ok(None)
    }

    /// Remembers in its slot what the bytes spell.
    ///
    /// # Errors
    /// No memory was left.
    pub fn keep(&mut self, written: &[u8], text: &Text) -> Result<(), AllocError>
        requires { unescaped written.now ≡ Some text.now }
    {
        if self.slots.is_empty() {
            self.slots = empty_slots(*self.slots.allocator())?;
        }
        let Some(written_text) = as_text(*self.slots.allocator(), written, text)? else {
            return Ok(());
        };
        if let Some(slot) = self.slots.get_mut(slot_of(written)) {
            *slot = remembered(written_text, text)?;
        }
        Ok(())
    }
}

fn remembered(written: Text, text: &Text) -> Result<Spelled, AllocError>
    requires { unescaped written ≡ Some text.now }
{
    Ok(Spelled {
        written,
        text: text.copy()?,
    })
}

// The bytes as a text, that of what they spell where it is the same. Bytes that spell a text are one.
fn as_text(alloc: Global, written: &[u8], text: &Text) -> Result<Option<Text>, AllocError>
    ensures { IfOk result (λ found. IfSome found (λ same. same ≡ written.now)) }
{
    if text.as_bytes() == written {
        return Ok(Some(text.copy()?));
    }
    match Text::from_bytes(alloc, written) {
        Ok(same) => Ok(Some(same)),
        Err(TextFault::Memory) => Err(AllocError),
        Err(TextFault::BadText) => Ok(None),
    }
}

// All slots with one empty text.
fn empty_slots(alloc: Global) -> Result<Vec<Spelled>, AllocError>
    ensures { IfOk result (λ slots. vec_len slots ≡ 1024) }
{
    let empty = Text::new(alloc)?;
    let mut slots = Vec::with_capacity(alloc, SLOTS)?;
    while slots.len() < SLOTS {
        slots.push(nothing(&empty)?)?;
    }
    Ok(slots)
}

// No bytes spell the empty text.
#[tactic(auto, using(crate::proofs::NoBytes::empty_read))]
fn nothing(empty: &Text) -> Result<Spelled, AllocError>
    requires { empty.now ≡ [] }
{
    remembered(empty.copy()?, empty)
}

// The slot of a written form: FNV-1a with 32 bits, its upper bits folded onto the lower ones. It takes a
// multiplication a byte, and tells short texts that differ in one byte well apart.
fn slot_of(bytes: &[u8]) -> usize
    ensures { result < 1024 }
{
    let mut hash = 2_166_136_261u32;
    for byte in bytes {
        hash = (hash ^ u32::from(*byte)).wrapping_mul(16_777_619);
    }
    (hash ^ (hash >> 10)) as usize & (SLOTS - 1)
}
