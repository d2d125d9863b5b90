//! Where in a text is what a rule looks for.

ghost use Rattle.std.specs.Prelude.{◌≡◌, ◌++◌, ◌+◌, ◌^◌, ◌<◌, length, IfSome, OnOk};
ghost use Rattle.rule_words.specs.Appends.{Grows};
ghost use Rattle.literal_rules.specs.Marks.{each_mark, first_mark, report_if};

use crate::literal_rule::{LiteralRule, is_marked, words};
use crate::text_state::{TextState, next_state};
use rule_words::{Report, push_fixed_report};
use std::alloc::{AllocError, Global};
use tree::Span;

/// The first place in a text, in bytes from its start, at which what a rule looks for stands.
pub(crate) fn first_mark(rule: LiteralRule, from: TextState, text: &[u8]) -> Option<usize>
    ensures mark { result ≡ first_mark rule from 0 text.now }
    ensures within { IfSome result (λ at. at < length text.now) }
{
    let mut state = from;
    for index in 0..text.len() {
        if is_marked(rule, state, &text[index..]) {
            return Some(index);
        }
        state = next_state(state, text[index]);
    }
    None
}

/// Appends a report at each such place of a text that starts here.
pub(crate) fn push_marks(
    alloc: Global,
    rule: LiteralRule,
    from: TextState,
    start: usize,
    text: &[u8],
    out: &mut Vec<Report>,
) -> Result<(), AllocError>
    requires { start + length text.now < 2 ^ 64 }
    ensures found { OnOk result (out.new.items ≡ out.old.items ++ each_mark rule from start text.now) }
    ensures kept { Grows out.old.items out.new.items }
{
    let mut state = from;
    for index in 0..text.len() {
        let is_here = is_marked(rule, state, &text[index..]);
        push_if(alloc, is_here, rule, start + index, out)?;
        state = next_state(state, text[index]);
    }
    Ok(())
}

/// Appends a report of the byte at a place, if there is something.
fn push_if(
    alloc: Global,
    is_here: bool,
    rule: LiteralRule,
    at: usize,
    out: &mut Vec<Report>,
) -> Result<(), AllocError>
    requires { at + 1 < 2 ^ 64 }
    ensures found { OnOk result (out.new.items ≡ out.old.items ++ report_if is_here rule at) }
    ensures kept { Grows out.old.items out.new.items }
{
    if !is_here {
        return Ok(());
    }
    let span = Span {
        start: at,
        end: at + 1,
    };
    push_fixed_report(alloc, rule.name(), span, words(rule), out)
}
