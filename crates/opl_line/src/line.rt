//! Lines, read.

ghost use Rattle.std.specs.Prelude.{◌≡◌, ◌≤◌, ◌<◌, [], Some, None, Ok, IfOk};
ghost use Rattle.std.specs.Option.{unwrap_or, option_map};
ghost use Rattle.std.specs.List.{list_all};
ghost use Rattle.opl_line.specs.Reads.{Gives, folded};
ghost use Rattle.opl_line.specs.Cut.{split, before, after};
ghost use Rattle.opl_line.specs.Field.{is_allowed, field_into};
ghost use Rattle.opl_line.specs.Line.{is_blank, id_at, key_at, no_fields, version_of, location_of, content_of, side_of, completed, meta_of, object_of, freed, is_skipped, kind_of_line, line_of};
ghost use Rattle.opl_line.specs.Writable.{IsReadObject};

use crate::fault::{LineAnswer, LineFault};
use crate::fields::field_into;
use crate::front::id_front;
use crate::mode::{Mode, is_allowed};
use crate::object::{Fields, LineKind, OplObject};
use crate::pieces::is_blank;
use opl_text::Pool;
use osm_base::{
    Content, Coord, Key, Kind, Members, Meta, Moment, Refs, Tags, Text, coord_of, kind_of,
};
use std::alloc::AllocError;

#[tactic(auto, unfolding(crate::specs::Line::id_at))]
fn id_at(mode: Mode, text: &[u8]) -> Result<(i64, Option<&[u8]>), LineAnswer>
    ensures id { Gives (λ r. r.0) result (id_at mode (before is_blank text.now)) }
    ensures rest { IfOk result (λ r. option_map (λ rest. rest.now) r.1 ≡ after is_blank text.now) }
{
    let Some((id, rest)) = id_front(text, b' ', b'\t') else {
        return Err(LineAnswer::Bad(LineFault::BadId));
    };
    if is_allowed(mode, id) {
        Ok((id, rest))
    } else {
        Err(LineAnswer::Bad(LineFault::NegativeId))
    }
}

/// The first field, and the bytes behind the blank after it.
#[tactic(auto, unfolding(crate::specs::Line::key_at), using(crate::proofs::Fronts::key_reads, crate::proofs::Fronts::key_leaves, crate::proofs::Fronts::kind_no_blank))]
fn key_at(mode: Mode, line: &[u8]) -> Result<(Key, Option<&[u8]>), LineAnswer>
    ensures key { Gives (λ r. r.0) result (key_at mode (before is_blank line.now)) }
    ensures rest { IfOk result (λ r. option_map (λ rest. rest.now) r.1 ≡ after is_blank line.now) }
{
    let [first, text @ ..] = line else {
        return Err(LineAnswer::Bad(LineFault::BadStart));
    };
    let Some(kind) = kind_of(*first) else {
        return Err(LineAnswer::Bad(LineFault::BadStart));
    };
    let (id, rest) = id_at(mode, text)?;
    Ok((Key { kind, id }, rest))
}

fn no_fields() -> Fields
    ensures { result ≡ no_fields }
{
    Fields {
        version: None,
        visible: None,
        changeset: None,
        time: None,
        uid: None,
        user: None,
        tags: None,
        x: None,
        y: None,
        refs: None,
        members: None,
    }
}

/// Takes the fields between blanks in, one after the other.
fn fields_of(
    pool: &mut Pool,
    mode: Mode,
    kind: Kind,
    fields: &mut Fields,
    bytes: &[u8],
) -> Result<(), LineAnswer>
    ensures { Gives (λ _. fields.new) result (folded (field_into mode kind) fields.old (split is_blank bytes.now)) }
{
    let mut rest = bytes;
    loop {
        match field_into(pool, mode, kind, fields, rest)? {
            None => return Ok(()),
            Some(next) => rest = next,
        }
    }
}

/// A positive id has a version; that of a negative one is dropped.
#[tactic(auto, unfolding(crate::specs::Line::version_of))]
fn version_of(id: i64, version: Option<u32>) -> Result<u32, LineAnswer>
    ensures { Gives (λ n. n) result (version_of id version) }
{
    if id < 0 {
        return Ok(0);
    }
    let version = version.unwrap_or(0);
    if version == 0 {
        return Err(LineAnswer::Bad(LineFault::NoVersion));
    }
    Ok(version)
}

#[tactic(auto, unfolding(crate::specs::Line::location_of))]
fn location_of(x: Option<Option<i64>>, y: Option<Option<i64>>) -> Result<Coord, LineAnswer>
    ensures { Gives (λ at. at) result (location_of x y) }
{
    let (Some(Some(lon)), Some(Some(lat))) = (x, y) else {
        return Err(LineAnswer::Bad(LineFault::NoLocation));
    };
    let Some(at) = coord_of(lon, lat) else {
        return Err(LineAnswer::Bad(LineFault::NoLocation));
    };
    Ok(at)
}

fn tags_or_none(pool: &Pool, tags: Option<Tags>) -> Tags
    ensures { result ≡ unwrap_or tags [] }
{
    match tags {
        None => Tags::new(pool.allocator()),
        Some(tags) => tags,
    }
}

fn refs_or_none(pool: &Pool, refs: Option<Refs>) -> Result<Refs, AllocError>
    ensures { IfOk result (λ list. list ≡ unwrap_or refs []) }
{
    match refs {
        None => Refs::new(pool.allocator()),
        Some(refs) => Ok(refs),
    }
}

fn members_or_none(pool: &Pool, members: Option<Members>) -> Result<Members, AllocError>
    ensures { IfOk result (λ list. list ≡ unwrap_or members []) }
{
    match members {
        None => Members::new(pool.allocator()),
        Some(members) => Ok(members),
    }
}

fn text_or_none(pool: &mut Pool, text: Option<Text>) -> Result<Text, LineAnswer>
    ensures { Gives (λ text. text) result (Ok (unwrap_or text [])) }
{
    match text {
        None => Ok(pool.empty()?),
        Some(text) => Ok(text),
    }
}

/// Takes the content.
#[tactic(auto, unfolding(crate::specs::Line::content_of))]
fn content_of(pool: &Pool, kind: Kind, fields: &mut Fields) -> Result<Content, LineAnswer>
    ensures { Gives (λ content. content) result (content_of kind fields.old) }
{
    match kind {
        Kind::Node => {
            let at = location_of(fields.x, fields.y)?;
            Ok(Content::Node {
                tags: tags_or_none(pool, fields.tags.take()),
                at,
            })
        }
        Kind::Way => {
            let refs = refs_or_none(pool, fields.refs.take())?;
            Ok(Content::Way {
                tags: tags_or_none(pool, fields.tags.take()),
                refs,
            })
        }
        Kind::Relation => {
            let members = members_or_none(pool, fields.members.take())?;
            Ok(Content::Relation {
                tags: tags_or_none(pool, fields.tags.take()),
                members,
            })
        }
    }
}

/// Takes what a visible object has.
#[tactic(auto, unfolding(crate::specs::Line::side_of))]
fn side_of(pool: &Pool, kind: Kind, fields: &mut Fields) -> Result<Option<Content>, LineAnswer>
    ensures { Gives (λ side. side) result (side_of kind fields.old) }
{
    if fields.visible.unwrap_or(true) {
        let side = content_of(pool, kind, fields)?;
        Ok(Some(side))
    } else {
        Ok(None)
    }
}

/// Takes what is known of the last change.
fn meta_of(pool: &mut Pool, fields: &mut Fields) -> Result<Meta, LineAnswer>
    ensures meta { Gives (λ meta. meta) result (Ok (meta_of fields.old)) }
    ensures others { fields.new ≡ (record fields.old { user = None }) }
{
    let user = text_or_none(pool, fields.user.take())?;
    Ok(Meta {
        changeset: fields.changeset.unwrap_or(0),
        time: Moment::new(fields.time.unwrap_or(None)),
        uid: fields.uid.unwrap_or(0),
        user,
    })
}

/// Takes the object, once all fields are there.
#[tactic(auto, unfolding(crate::specs::Line::completed, crate::specs::Line::side_of, crate::specs::Line::content_of))]
fn completed(pool: &mut Pool, key: Key, fields: &mut Fields) -> Result<OplObject, LineAnswer>
    ensures { Gives (λ object. object) result (completed key fields.old) }
{
    let version = version_of(key.id, fields.version)?;
    let meta = meta_of(pool, fields)?;
    let side = side_of(pool, key.kind, fields)?;
    Ok(OplObject {
        key,
        version,
        side,
        meta,
    })
}

/// The object of a line, by way of its fields, of which none is there yet.
#[tactic(auto, unfolding(crate::specs::Line::object_of), using(crate::proofs::Fronts::split_front))]
fn object_from(
    pool: &mut Pool,
    mode: Mode,
    line: &[u8],
    fields: &mut Fields,
) -> Result<OplObject, LineAnswer>
    requires { fields.old ≡ no_fields }
    ensures { Gives (λ object. object) result (object_of mode (split is_blank line.now)) }
{
    let (key, after) = key_at(mode, line)?;
    if let Some(rest) = after {
        fields_of(pool, mode, key.kind, fields, rest)?;
    }
    completed(pool, key, fields)
}

fn object_of(pool: &mut Pool, mode: Mode, line: &[u8]) -> Result<OplObject, LineAnswer>
    ensures { Gives (λ object. object) result (object_of mode (split is_blank line.now)) }
{
    let mut fields = no_fields();
    object_from(pool, mode, line, &mut fields)
}

/// The line without one CR at its end.
pub fn freed(line: &[u8]) -> &[u8]
    ensures { result.now ≡ freed line.now }
{
    if !line.is_empty() && line[line.len() - 1] == b'\r' {
        line.split_at(line.len() - 1).0
    } else {
        line
    }
}

fn all_blank(line: &[u8]) -> bool
    ensures { result ≡ list_all is_blank line.now }
{
    line.iter().all(|byte| is_blank(*byte))
}

fn is_skipped(line: &[u8]) -> bool
    ensures { result ≡ is_skipped line.now }
{
    all_blank(line) || line[0] == b'#' || line[0] == b'c'
}

#[tactic(auto, unfolding(crate::specs::Line::kind_of_line))]
fn kind_of_line(pool: &mut Pool, mode: Mode, line: &[u8]) -> Result<LineKind, LineAnswer>
    ensures { Gives (λ kind. kind) result (kind_of_line mode line.now) }
{
    if is_skipped(line) {
        return Ok(LineKind::Skipped);
    }
    let object = object_of(pool, mode, line)?;
    Ok(LineKind::Object(object))
}

/// What a line (without its LF) is: skipped, an object, or its first fault from the left.
///
/// Texts come from the pool, so that one that comes again is shared. The line is walked once, and of
/// a field that is a list the commas are counted first.
///
/// # Errors
/// `Bad` with the line's fault; `Memory` where memory ran out.
#[tactic(auto, unfolding(crate::specs::Line::line_of))]
pub fn read_line(pool: &mut Pool, line: &[u8], mode: Mode) -> Result<LineKind, LineAnswer>
    ensures meaning { Gives (λ kind. kind) result (line_of mode line.now) }
    ensures writable { IfOk result (IsReadObject mode) }
{
    kind_of_line(pool, mode, freed(line))
}
