//! Lines, written.

ghost use Rattle.std.specs.Prelude.{◌≡◌, ◌∷◌, ◌++◌, [], OnOk, OnErr, Some, None, ◌^◌, ◌<◌, is_some};
ghost use Rattle.std.specs.Option.{option_copied};
ghost use Rattle.std.specs.List.{flat_map};
ghost use Rattle.std.specs.Fmt.{decimal};
ghost use Rattle.osm_base.specs.Coord.{coord_written};
ghost use Rattle.osm_base.specs.Extends.{Extends};
ghost use Rattle.opl_line.specs.Written.{spaced, listed, tag_written, ref_written, member_written, sight, front_pieces, back_pieces, content_pieces, side_pieces, written, object_with, IsOneLine};
ghost use Rattle.opl_line.specs.Writable.{IsWritable, MayStand};
ghost use Rattle.opl_line.specs.Spelling.{Spells};
ghost use Rattle.opl_line.specs.declared.mode.Mode.{Mode};

use opl_text::{write_escaped, write_time};
use osm_base::{
    Content, Coord, Key, Kind, Member, Meta, Text, node_key, write_coord, write_digits, write_key,
};
use std::alloc::AllocError;

#[tactic(auto, using(osm_base::proofs::ExtendLaws::extends_steps))]
fn write_number(letter: u8, number: u32, out: &mut Vec<u8>) -> Result<(), AllocError>
    ensures written { OnOk result (out.new.items ≡ out.old.items ++ (32 ∷ letter ∷ decimal number)) }
    ensures kept { OnErr result (Extends out.old.items out.new.items) }
{
    out.push(b' ')?;
    out.push(letter)?;
    write_digits(u64::from(number), out)?;
    Ok(())
}

#[tactic(auto, using(osm_base::proofs::ExtendLaws::extends_steps))]
fn write_place(letter: u8, degrees: i32, out: &mut Vec<u8>) -> Result<(), AllocError>
    ensures written { OnOk result (out.new.items ≡ out.old.items ++ (32 ∷ letter ∷ coord_written degrees)) }
    ensures kept { OnErr result (Extends out.old.items out.new.items) }
{
    out.push(b' ')?;
    out.push(letter)?;
    write_coord(i64::from(degrees), out)?;
    Ok(())
}

fn sight(visible: bool) -> u8
    ensures { result ≡ sight visible }
{
    if visible { b'V' } else { b'D' }
}

#[tactic(auto, using(osm_base::proofs::ExtendLaws::extends_steps))]
fn write_front(
    version: u32,
    visible: bool,
    changeset: u32,
    out: &mut Vec<u8>,
) -> Result<(), AllocError>
    ensures written { OnOk result (out.new.items ≡ out.old.items ++ spaced (front_pieces version visible changeset)) }
    ensures kept { OnErr result (Extends out.old.items out.new.items) }
{
    write_number(b'v', version, out)?;
    out.extend_from_slice(b" d")?;
    out.push(sight(visible))?;
    write_number(b'c', changeset, out)?;
    Ok(())
}

#[tactic(auto, using(osm_base::proofs::ExtendLaws::extends_steps))]
fn write_back(meta: &Meta, out: &mut Vec<u8>) -> Result<(), AllocError>
    ensures written { OnOk result (out.new.items ≡ out.old.items ++ spaced (back_pieces meta.now)) }
    ensures kept { OnErr result (Extends out.old.items out.new.items) }
{
    out.extend_from_slice(b" t")?;
    write_time(meta.time.stamp(), out)?;
    write_number(b'i', meta.uid, out)?;
    out.extend_from_slice(b" u")?;
    write_escaped(&meta.user, out)?;
    Ok(())
}

#[tactic(auto, using(osm_base::proofs::ExtendLaws::extends_steps))]
fn write_tag(tag: &(Text, Text), out: &mut Vec<u8>) -> Result<(), AllocError>
    ensures written { OnOk result (out.new.items ≡ out.old.items ++ tag_written tag.now) }
    ensures kept { OnErr result (Extends out.old.items out.new.items) }
{
    write_escaped(&tag.0, out)?;
    out.push(b'=')?;
    write_escaped(&tag.1, out)?;
    Ok(())
}

#[tactic(auto, using(osm_base::proofs::ExtendLaws::extends_steps))]
fn write_more_tags(tags: &[(Text, Text)], out: &mut Vec<u8>) -> Result<(), AllocError>
    ensures written { OnOk result (out.new.items ≡ out.old.items ++ flat_map (λ item. 44 ∷ tag_written item) tags.now) }
    ensures kept { OnErr result (Extends out.old.items out.new.items) }
{
    for item in tags {
        out.push(b',')?;
        write_tag(item, out)?;
    }
    Ok(())
}

#[tactic(auto, using(osm_base::proofs::ExtendLaws::extends_steps))]
fn write_tags(tags: &[(Text, Text)], out: &mut Vec<u8>) -> Result<(), AllocError>
    ensures written { OnOk result (out.new.items ≡ out.old.items ++ listed tag_written tags.now) }
    ensures kept { OnErr result (Extends out.old.items out.new.items) }
{
    let [first, rest @ ..] = tags else {
        return Ok(());
    };
    write_tag(first, out)?;
    write_more_tags(rest, out)?;
    Ok(())
}

#[tactic(auto, using(osm_base::proofs::ExtendLaws::extends_steps))]
fn write_ref(id: i64, out: &mut Vec<u8>) -> Result<(), AllocError>
    ensures written { OnOk result (out.new.items ≡ out.old.items ++ ref_written id) }
    ensures kept { OnErr result (Extends out.old.items out.new.items) }
{
    write_key(node_key(id), out)?;
    Ok(())
}

#[tactic(auto, using(osm_base::proofs::ExtendLaws::extends_steps))]
fn write_more_refs(refs: &[i64], out: &mut Vec<u8>) -> Result<(), AllocError>
    ensures written { OnOk result (out.new.items ≡ out.old.items ++ flat_map (λ item. 44 ∷ ref_written item) refs.now) }
    ensures kept { OnErr result (Extends out.old.items out.new.items) }
{
    for item in refs {
        out.push(b',')?;
        write_ref(*item, out)?;
    }
    Ok(())
}

#[tactic(auto, using(osm_base::proofs::ExtendLaws::extends_steps))]
fn write_refs(refs: &[i64], out: &mut Vec<u8>) -> Result<(), AllocError>
    ensures written { OnOk result (out.new.items ≡ out.old.items ++ listed ref_written refs.now) }
    ensures kept { OnErr result (Extends out.old.items out.new.items) }
{
    let [first, rest @ ..] = refs else {
        return Ok(());
    };
    write_ref(*first, out)?;
    write_more_refs(rest, out)?;
    Ok(())
}

#[tactic(auto, using(osm_base::proofs::ExtendLaws::extends_steps))]
fn write_member(member: &Member, out: &mut Vec<u8>) -> Result<(), AllocError>
    ensures written { OnOk result (out.new.items ≡ out.old.items ++ member_written member.now) }
    ensures kept { OnErr result (Extends out.old.items out.new.items) }
{
    write_key(member.key, out)?;
    out.push(b'@')?;
    write_escaped(&member.role, out)?;
    Ok(())
}

#[tactic(auto, using(osm_base::proofs::ExtendLaws::extends_steps))]
fn write_more_members(members: &[Member], out: &mut Vec<u8>) -> Result<(), AllocError>
    ensures written { OnOk result (out.new.items ≡ out.old.items ++ flat_map (λ item. 44 ∷ member_written item) members.now) }
    ensures kept { OnErr result (Extends out.old.items out.new.items) }
{
    for item in members {
        out.push(b',')?;
        write_member(item, out)?;
    }
    Ok(())
}

#[tactic(auto, using(osm_base::proofs::ExtendLaws::extends_steps))]
fn write_members(members: &[Member], out: &mut Vec<u8>) -> Result<(), AllocError>
    ensures written { OnOk result (out.new.items ≡ out.old.items ++ listed member_written members.now) }
    ensures kept { OnErr result (Extends out.old.items out.new.items) }
{
    let [first, rest @ ..] = members else {
        return Ok(());
    };
    write_member(first, out)?;
    write_more_members(rest, out)?;
    Ok(())
}

#[tactic(auto, using(osm_base::proofs::ExtendLaws::extends_steps))]
fn write_tag_field(tags: &[(Text, Text)], out: &mut Vec<u8>) -> Result<(), AllocError>
    ensures written { OnOk result (out.new.items ≡ out.old.items ++ (32 ∷ 84 ∷ listed tag_written tags.now)) }
    ensures kept { OnErr result (Extends out.old.items out.new.items) }
{
    out.extend_from_slice(b" T")?;
    write_tags(tags, out)?;
    Ok(())
}

#[tactic(auto, using(osm_base::proofs::ExtendLaws::extends_steps))]
fn write_ref_field(refs: &[i64], out: &mut Vec<u8>) -> Result<(), AllocError>
    ensures written { OnOk result (out.new.items ≡ out.old.items ++ (32 ∷ 78 ∷ listed ref_written refs.now)) }
    ensures kept { OnErr result (Extends out.old.items out.new.items) }
{
    out.extend_from_slice(b" N")?;
    write_refs(refs, out)?;
    Ok(())
}

#[tactic(auto, using(osm_base::proofs::ExtendLaws::extends_steps))]
fn write_member_field(members: &[Member], out: &mut Vec<u8>) -> Result<(), AllocError>
    ensures written { OnOk result (out.new.items ≡ out.old.items ++ (32 ∷ 77 ∷ listed member_written members.now)) }
    ensures kept { OnErr result (Extends out.old.items out.new.items) }
{
    out.extend_from_slice(b" M")?;
    write_members(members, out)?;
    Ok(())
}

#[tactic(auto, using(osm_base::proofs::ExtendLaws::extends_steps))]
fn write_location(at: Coord, out: &mut Vec<u8>) -> Result<(), AllocError>
    ensures written { OnOk result (out.new.items ≡ out.old.items ++ spaced ((120 ∷ coord_written at.lon) ∷ (121 ∷ coord_written at.lat) ∷ [])) }
    ensures kept { OnErr result (Extends out.old.items out.new.items) }
{
    write_place(b'x', at.lon, out)?;
    write_place(b'y', at.lat, out)?;
    Ok(())
}

#[tactic(auto, using(osm_base::proofs::ExtendLaws::extends_steps))]
fn write_content(content: &Content, out: &mut Vec<u8>) -> Result<(), AllocError>
    ensures written { OnOk result (out.new.items ≡ out.old.items ++ spaced (content_pieces content.now)) }
    ensures kept { OnErr result (Extends out.old.items out.new.items) }
{
    match content {
        Content::Node { tags, at } => {
            write_tag_field(tags.as_slice(), out)?;
            write_location(*at, out)?;
        }
        Content::Way { tags, refs } => {
            write_tag_field(tags.as_slice(), out)?;
            write_ref_field(refs.as_slice(), out)?;
        }
        Content::Relation { tags, members } => {
            write_tag_field(tags.as_slice(), out)?;
            write_member_field(members.as_slice(), out)?;
        }
    }
    Ok(())
}

#[tactic(auto, using(osm_base::proofs::ExtendLaws::extends_steps))]
fn write_side(kind: Kind, side: Option<&Content>, out: &mut Vec<u8>) -> Result<(), AllocError>
    ensures written { OnOk result (out.new.items ≡ out.old.items ++ spaced (side_pieces kind (option_copied side.entry))) }
    ensures kept { OnErr result (Extends out.old.items out.new.items) }
{
    match (side, kind) {
        (Some(content), _) => write_content(content, out)?,
        (None, Kind::Node) => out.extend_from_slice(b" T x y")?,
        (None, Kind::Way) => out.extend_from_slice(b" T N")?,
        (None, Kind::Relation) => out.extend_from_slice(b" T M")?,
    }
    Ok(())
}

/// Appends the written form of an object, without LF. A deleted one has no side.
///
/// # Errors
/// Memory ran out; what stood in `out` stands at its front then.
#[tactic(auto, using(osm_base::proofs::ExtendLaws::extends_steps), unfolding(crate::specs::Written::written))]
pub fn write_line(
    key: Key,
    version: u32,
    side: Option<&Content>,
    meta: &Meta,
    out: &mut Vec<u8>,
) -> Result<(), AllocError>
    ensures written { OnOk result (out.new.items ≡ out.old.items ++ written key version (option_copied side.entry) meta.now) }
    ensures kept { OnErr result (Extends out.old.items out.new.items) }
    ensures line { IsOneLine (written key version (option_copied side.entry) meta.now) }
    // What is written spells the object again.
    ensures spells { (mode : Mode) → IsWritable key version (option_copied side.entry) meta.now → MayStand mode key (option_copied side.entry) → Spells mode (written key version (option_copied side.entry) meta.now) (object_with key version (option_copied side.entry) meta.now) }
{
    write_key(key, out)?;
    write_front(version, side.is_some(), meta.changeset, out)?;
    write_back(meta, out)?;
    write_side(key.kind, side, out)?;
    Ok(())
}
