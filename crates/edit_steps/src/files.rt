// A whole file of a shelf.
ghost use Rattle.std.specs.Prelude.{◌≡◌, ◌<◌, ◌∷◌, ◌++◌, [], true, length, IfOk, IfSome, Some};
ghost use Rattle.osm_outside.specs.Outside.{held};
ghost use Rattle.edit_steps.specs.Fetch.{reading, is_there};
ghost use Rattle.edit_steps.specs.Given.{AreBytes, Finds};
ghost use Rattle.edit_steps.specs.Stop.{ReadCause};

use crate::stop::Stop;
use osm_outside::{Shelf, Sink};
use std::alloc::Global;
use std::marker::Model;

/// The bytes of a file.
#[derive(Drop)]
pub struct Bytes {
    items: Vec<u8>,
}

impl Model for Bytes {
    ghost use Rattle.std.specs.Prelude.{List, ℕ};

    ghost Value = { List ℕ };

    ghost view = { λ bytes. bytes.items.items };
}

impl Bytes {
    pub fn as_slice(&self) -> &[u8]
        ensures { result.now ≡ self.now }
    {
        self.items.as_slice()
    }
}

/// What a name gave.
#[derive(Drop)]
pub enum Fetched {
    Missing,
    TooLong,
    Whole(Bytes),
}

/// Reads a whole file, unless it has more bytes than the limit. The shelf notes what the sink has taken then.
pub fn fetch<S: Shelf, K: Sink>(
    alloc: Global,
    shelf: &mut S,
    out: &K,
    name: &[u8],
    limit: usize,
) -> Result<Fetched, Stop>
    ensures told { S.told shelf.new ≡ S.told shelf.old }
    ensures begun { IfOk result (λ fetched. S.begun shelf.new ≡ is_there fetched) }
    ensures found { IfOk result (λ fetched. Finds (S.told shelf.old) (λ files. held files name.now) fetched (reading limit)) }
    ensures noted { S.noted shelf.new ≡ S.noted shelf.old ++ (name.now, K.taken out.now) ∷ [] }
    ensures cause { ReadCause (S.faults shelf.old) (S.faults shelf.new) result }
{
    let Ok(found) = shelf.begin(name, out) else {
        return Err(Stop::ReadFault);
    };
    if !found {
        return Ok(Fetched::Missing);
    }
    let mut buffer = [0u8; 65_536];
    read_rest(alloc, shelf, &mut buffer, limit)
}

// Reads what is left of the file begun.
fn read_rest<S: Shelf>(
    alloc: Global,
    shelf: &mut S,
    buffer: &mut [u8],
    limit: usize,
) -> Result<Fetched, Stop>
    requires begun { S.begun shelf.old ≡ true }
    requires room { 0 < length buffer.old }
    ensures told { S.told shelf.new ≡ S.told shelf.old }
    ensures begun { IfOk result (λ fetched. (S.begun shelf.new ≡ true) × (is_there fetched ≡ true)) }
    ensures found { IfOk result (λ fetched. IfSome (S.rest shelf.old) (λ bytes. fetched ≡ reading limit (Some bytes))) }
    ensures read { IfOk result (λ fetched. AreBytes fetched (λ bytes. reading limit (Some bytes))) }
    ensures noted { S.noted shelf.new ≡ S.noted shelf.old }
    ensures cause { ReadCause (S.faults shelf.old) (S.faults shelf.new) result }
{
    let mut bytes = Vec::new(alloc);
    while bytes.len() <= limit {
        let Ok(count) = shelf.next(buffer) else {
            return Err(Stop::ReadFault);
        };
        if count == 0 {
            return Ok(Fetched::Whole(Bytes { items: bytes }));
        }
        bytes.extend_from_slice(&buffer[..count])?;
    }
    Ok(Fetched::TooLong)
}
