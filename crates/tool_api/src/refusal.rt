//! Why a job is refused.

use osm_base::{Key, Text};

/// Why a job is refused, and what it concerns. A refused job changes nothing.
#[derive(Drop)]
pub enum Refusal {
    /// The object isn't in the table.
    Absent(Key),
    /// The object is only referred to.
    IncompleteObject(Key),
    /// The object is deleted.
    DeletedObject(Key),
    /// The object is in conflict.
    InConflict(Key),
    /// The object is used, by the least user that isn't named.
    InUse(Key, Key),
    /// The command doesn't take objects of this kind.
    WrongKind(Key),
    /// The object would not fit the limits of API 0.6.
    Unfit(Key),
    /// The node would leave the map.
    OutOfRange(Key),
    /// The object is named twice.
    NamedTwice(Key),
    /// The node isn't one of the way.
    NotInWay(Key),
    /// The nodes cut nothing off the way.
    NothingToSplit(Key),
    /// The way doesn't meet the end of those before.
    NotJoined(Key),
    /// Two of the ways have unlike values of the key.
    TagClash(Text),
    /// The relation's members don't name the ways as one run.
    MemberClash(Key),
    /// The object isn't in conflict.
    NoConflict(Key),
    /// The conflict can't be settled by parts of both sides: only one side changed the object, or one of the contents that
    /// are asked for isn't there.
    NotMixed(Key),
    /// The download tells a version of the object otherwise than it is known: gone where it lives, or living where it is
    /// gone.
    VersionClash(Key, u32),
    /// The table would have more objects than the limit, or no number is left.
    TableFull,
    /// The two sides' values of the tag with that key don't clash.
    NotClashing(Text),
    /// A check finds nothing there that the command would mend.
    NoFinding(Key),
    /// The node isn't at the place of the first one named.
    NotSamePlace(Key),
}
