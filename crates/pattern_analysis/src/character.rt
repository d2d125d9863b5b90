//! Characters that are seen with the one before them, by their code points.

ghost use Rattle.std.specs.Prelude.{◌≡◌};
ghost use Rattle.pattern_analysis.specs.Misleading.{are_seen_as_one, is_combining, is_emoji_modifier, is_joined, is_joiner, is_regional_indicator};

use regular_expressions::{is_lead, is_trail};
use ucd_category::{GeneralCategory, GeneralCategoryGroup};

/// Whether the value is that of a mark.
fn is_combining(value: u32) -> bool
    ensures { result ≡ is_combining value }
{
    let Some(c) = char::from_u32(value) else {
        return false;
    };
    GeneralCategoryGroup::Mark.contains(GeneralCategory::for_char(c))
}

/// Whether the value is that of a skin tone.
fn is_emoji_modifier(value: u32) -> bool
    ensures { result ≡ is_emoji_modifier value }
{
    matches!(value, 0x1F3FB..=0x1F3FF)
}

/// Whether the value is that of a regional indicator.
fn is_regional_indicator(value: u32) -> bool
    ensures { result ≡ is_regional_indicator value }
{
    matches!(value, 0x1F1E6..=0x1F1FF)
}

/// Whether the value is that of the zero width joiner.
fn is_joiner(value: u32) -> bool
    ensures { result ≡ is_joiner value }
{
    value == 0x200D
}

/// Whether two characters side by side are seen as one.
pub(crate) fn are_seen_as_one(first: u32, second: u32) -> bool
    ensures { result ≡ are_seen_as_one first second }
{
    is_lead(first) && is_trail(second)
        || is_combining(second) && !is_combining(first)
        || is_emoji_modifier(second) && !is_emoji_modifier(first)
        || is_regional_indicator(first) && is_regional_indicator(second)
}

/// Whether a joiner stands between two other characters.
pub(crate) fn is_joined(first: Option<u32>, second: u32, third: u32) -> bool
    ensures { result ≡ is_joined first second third }
{
    let Some(first) = first else {
        return false;
    };
    is_joiner(second) && !is_joiner(first) && !is_joiner(third)
}
