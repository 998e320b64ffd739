//! The letters that begin fields.

ghost use Rattle.std.specs.Prelude.{◌≡◌};
ghost use Rattle.opl_line.specs.Field.{letter_of, has_field};

use osm_base::Kind;

/// A field, named for what it holds.
#[derive(Clone, Copy)]
pub enum Letter {
    Version,
    Visible,
    Changeset,
    Uid,
    Time,
    User,
    Tags,
    X,
    Y,
    Refs,
    Members,
}

/// The field that a byte begins.
#[tactic(auto, unfolding(crate::specs::Field::letter_of))]
pub fn letter_of(byte: u8) -> Option<Letter>
    ensures { result ≡ letter_of byte }
{
    match byte {
        b'v' => Some(Letter::Version),
        b'd' => Some(Letter::Visible),
        b'c' => Some(Letter::Changeset),
        b'i' => Some(Letter::Uid),
        b't' => Some(Letter::Time),
        b'u' => Some(Letter::User),
        b'T' => Some(Letter::Tags),
        b'x' => Some(Letter::X),
        b'y' => Some(Letter::Y),
        b'N' => Some(Letter::Refs),
        b'M' => Some(Letter::Members),
        _ => None,
    }
}

/// Whether objects of a kind have the field.
pub fn has_field(letter: Letter, kind: Kind) -> bool
    ensures { result ≡ has_field letter kind }
{
    match letter {
        Letter::X | Letter::Y => matches!(kind, Kind::Node),
        Letter::Refs => matches!(kind, Kind::Way),
        Letter::Members => matches!(kind, Kind::Relation),
        _ => true,
    }
}
