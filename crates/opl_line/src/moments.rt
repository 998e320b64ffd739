//! Times at the front of bytes.

ghost use Rattle.std.specs.Prelude.{◌≡◌, IfSome, Some};
ghost use Rattle.std.specs.Option.{option_map};
ghost use Rattle.opl_text.specs.Time.{time_text};
ghost use Rattle.opl_line.specs.Cut.{before, after};
ghost use Rattle.opl_line.specs.Line.{is_blank};

use crate::front::end_front;
use crate::pieces::cut;
use opl_text::{TimeFault, read_time};
use osm_base::Stamp;

/// The length of `YYYY-MM-DDThh:mm:ssZ`.
const LENGTH: usize = 20;

/// Nothing, or a time, and what is behind the blank after it. Only what isn't a time is cut first.
pub fn time_front(bytes: &[u8]) -> Option<(Option<Stamp>, Option<&[u8]>)>
    ensures value { option_map (λ r. r.0) result ≡ time_text (before is_blank bytes.now) }
    ensures rest { IfSome result (λ r. option_map (λ rest. rest.now) r.1 ≡ after is_blank bytes.now) }
{
    if let Some((stamp, rest)) = stamp_front(bytes) {
        return Some((Some(stamp), rest));
    }
    let (piece, rest) = cut(bytes, b' ', b'\t');
    match read_time(piece) {
        Ok(time) => Some((time, rest)),
        Err(_) => None,
    }
}

// A time. Nothing is answered by None too.
#[tactic(auto, using(crate::proofs::Times::time_before, crate::proofs::Times::time_after))]
fn stamp_front(bytes: &[u8]) -> Option<(Stamp, Option<&[u8]>)>
    ensures value { IfSome result (λ r. time_text (before is_blank bytes.now) ≡ Some (Some r.0)) }
    ensures rest { IfSome result (λ r. option_map (λ rest. rest.now) r.1 ≡ after is_blank bytes.now) }
{
    if bytes.len() < LENGTH {
        return None;
    }
    let (front, behind) = bytes.split_at(LENGTH);
    let rest = end_front(behind, b' ', b'\t')?;
    let Ok(Some(stamp)) = read_time(front) else {
        return None;
    };
    Some((stamp, rest))
}
