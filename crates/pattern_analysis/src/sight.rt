//! What was seen last of what stands side by side.

ghost use Rattle.std.specs.Prelude.{◌≡◌, ◌∷◌, ◌++◌, true, Some, IfNone, IfSome};
ghost use Rattle.pattern_analysis.specs.ClassValues.{characters};
ghost use Rattle.pattern_analysis.specs.Misleading.{are_one, misleads};
ghost use Rattle.pattern_analysis.specs.Read.{values_of};

use crate::character::{are_seen_as_one, is_joined};
use crate::class_values::Seen;

/// The last two of what stands side by side; none where something else stands between.
#[derive(Clone, Copy)]
pub(crate) struct Sight {
    pub before: Option<u32>,
    pub last: Option<u32>,
}

/// Whether with one more the last ones are seen as one character.
fn are_one(sight: Sight, value: Option<u32>) -> bool
    ensures { result ≡ are_one sight.before sight.last value }
{
    let Some(last) = sight.last else {
        return false;
    };
    let Some(value) = value else {
        return false;
    };
    are_seen_as_one(last, value) || is_joined(sight.before, last, value)
}

/// One more; none where it is seen with those before it.
fn see(sight: Sight, value: Option<u32>) -> Option<Sight>
    ensures some { IfSome result (λ s. (rest : _) → misleads sight.before sight.last (value ∷ rest) ≡ misleads s.before s.last rest) }
    ensures none { IfNone result ((rest : _) → misleads sight.before sight.last (value ∷ rest) ≡ true) }
{
    if are_one(sight, value) {
        return None;
    }
    Some(Sight {
        before: sight.last,
        last: value,
    })
}

/// A character, which is two units without `u` if it is none of the first plane.
fn see_character(is_unicode: bool, sight: Sight, value: u32) -> Option<Sight>
    ensures some { IfSome result (λ s. (rest : _) → misleads sight.before sight.last (characters is_unicode value ++ rest) ≡ misleads s.before s.last rest) }
    ensures none { IfNone result ((rest : _) → misleads sight.before sight.last (characters is_unicode value ++ rest) ≡ true) }
{
    if is_unicode || value < 0x1_0000 {
        return see(sight, Some(value));
    }
    let above = value - 0x1_0000;
    let Some(behind_lead) = see(sight, Some(0xD800 + above / 0x400)) else {
        return None;
    };
    see(behind_lead, Some(0xDC00 + above % 0x400))
}

/// What was read.
pub(crate) fn see_read(is_unicode: bool, sight: Sight, seen: Seen) -> Option<Sight>
    ensures some { IfSome result (λ s. (rest : _) → misleads sight.before sight.last (values_of is_unicode seen ++ rest) ≡ misleads s.before s.last rest) }
    ensures none { IfNone result ((rest : _) → misleads sight.before sight.last (values_of is_unicode seen ++ rest) ≡ true) }
{
    match seen {
        Seen::Nothing => Some(sight),
        Seen::Apart => see(sight, None),
        Seen::Character(value) => see_character(is_unicode, sight, value),
    }
}
