//! Classes in whose characters others are seen.

ghost use Rattle.std.specs.Prelude.{◌≡◌, None};
ghost use Rattle.std.specs.Str.{chars};
ghost use Rattle.pattern_analysis.specs.ClassValues.{class_values};
ghost use Rattle.pattern_analysis.specs.Misleading.{has_misleading_class, misleads};

use crate::class_values::{Standing, read_step};
use crate::sight::{Sight, see_read};
use regular_expressions::pattern_of;
use tokens::char_at;

/// Whether characters of a class of a pattern are seen as one.
fn misleads(text: &str, is_unicode: bool) -> bool
    ensures { result ≡ misleads None None (class_values is_unicode (chars text.now)) }
{
    let mut sight = Sight {
        before: None,
        last: None,
    };
    let mut standing = Standing::Outside;
    let mut at = 0;
    while let Some(first) = char_at(text, at) {
        let step = read_step(text, is_unicode, standing, first);
        let Some(next) = see_read(is_unicode, sight, step.seen) else {
            return true;
        };
        sight = next;
        standing = step.standing;
        at = step.end;
    }
    false
}

/// Whether in a class of a literal's pattern characters stand side by side that are seen as one.
pub fn has_misleading_class(literal: &str) -> bool
    ensures { result ≡ has_misleading_class (chars literal.now) }
{
    let Some(pattern) = pattern_of(literal) else {
        return false;
    };
    misleads(pattern.text, pattern.is_unicode)
}
