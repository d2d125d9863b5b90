//! Parts of templates (ECMA-262 11.8.6).

ghost use Rattle.std.specs.Prelude.{◌≡◌, IfSome, IfNone};
ghost use Rattle.source_text.specs.Source.{IsPlace};
ghost use Rattle.tokens.specs.Scanned.{IsPartRest, IsWordAt, NoPartRest, NoWordAt};

use crate::TokenClass;
use crate::character::char_at;

/// Where the part of a template at this place ends, in bytes; none if there is none (11.8.6).
pub(crate) fn template_end(text: &str, at: usize) -> Option<usize>
    requires { IsPlace text.now at }
    ensures some { IfSome result (λ e. IsWordAt TokenClass.Template text.now at e) }
    ensures none { IfNone result (NoWordAt TokenClass.Template text.now at) }
{
    let Some(first) = char_at(text, at) else {
        return None;
    };
    if (first.c == '`') | (first.c == '}') {
        return part_end(text, first.end);
    }
    None
}

/// Where a template's part ends, in bytes: after the first `` ` `` or `${` from this place on that no backslash takes.
fn part_end(text: &str, at: usize) -> Option<usize>
    requires { IsPlace text.now at }
    ensures some { IfSome result (λ e. IsPartRest text.now at e) }
    ensures none { IfNone result (NoPartRest text.now at) }
{
    let mut end = at;
    let mut taken = false;
    let mut dollar = false;
    while let Some(step) = char_at(text, end) {
        let closes = (step.c == '`') | (dollar & (step.c == '{'));
        if !taken & closes {
            return Some(step.end);
        }
        dollar = !taken & (step.c == '$');
        taken = !taken & (step.c == '\\');
        end = step.end;
    }
    None
}
