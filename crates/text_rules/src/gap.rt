//! What stands between two places of a text, and the characters there that rules report.

ghost use Rattle.std.specs.Prelude.{◌≡◌, ◌++◌, ◌+◌, ◌<◌, ◌^◌, length, IsTrue, OnOk};
ghost use Rattle.std.specs.Str.{chars};
ghost use Rattle.source_text.specs.Source.{IsPlace};
ghost use Rattle.rule_words.specs.Appends.{Grows};
ghost use Rattle.text_rules.specs.Gaps.{is_place, piece};
ghost use Rattle.text_rules.specs.Readings.{start};
ghost use Rattle.text_rules.specs.Rows.{between, marked, report_if};

use crate::quiet::may_mark;
use crate::reading::{after, start};
use crate::text_rule::{TextRule, marks, words};
use rule_words::{Report, push_fixed_report};
use std::alloc::{AllocError, Global};
use tokens::char_at;
use tree::Span;

/// A rule, and the text that it looks at.
#[derive(Clone, Copy)]
pub(crate) struct Look<'s> {
    pub rule: TextRule,
    pub source: &'s str,
    pub alloc: Global,
}

/// Whether a character begins at a place, or the text ends there.
fn is_place(text: &str, at: usize) -> bool
    ensures value { result ≡ is_place text.now at }
    ensures place { IsTrue result → IsPlace text.now at }
{
    text.is_char_boundary(at)
}

/// What stands between two places; nothing, where they are no places in order.
pub fn piece(text: &str, from: usize, to: usize) -> &str
    ensures value { result.now ≡ piece text.now from to }
    ensures within { from + length result.now < 2 ^ 64 }
{
    if from <= to && is_place(text, from) && is_place(text, to) {
        &text[from..to]
    } else {
        ""
    }
}

/// Appends what a rule reports at a place, if it does.
pub(crate) fn push_if(
    so: bool,
    look: Look,
    span: Span,
    out: &mut Vec<Report>,
) -> Result<(), AllocError>
    ensures found { OnOk result (out.new.items ≡ out.old.items ++ report_if so look.entry.rule span.start span.end) }
    ensures kept { Grows out.old.items out.new.items }
{
    if so {
        push_fixed_report(look.alloc, look.rule.name(), span, words(look.rule), out)
    } else {
        Ok(())
    }
}

/// Appends what a rule reports of the characters between two places.
pub(crate) fn push_between(
    look: Look,
    from: usize,
    to: usize,
    out: &mut Vec<Report>,
) -> Result<(), AllocError>
    ensures found { OnOk result (out.new.items ≡ out.old.items ++ between look.entry.source.now look.entry.rule from to) }
    ensures kept { Grows out.old.items out.new.items }
{
    let text = piece(look.source, from, to);
    if may_mark(look.rule, text) {
        push_marked(look, from, text, out)
    } else {
        Ok(())
    }
}

/// Appends what a rule reports of a text that stands at a place.
fn push_marked(look: Look, from: usize, text: &str, out: &mut Vec<Report>) -> Result<(), AllocError>
    requires { from + length text.now < 2 ^ 64 }
    ensures found { OnOk result (out.new.items ≡ out.old.items ++ marked look.entry.rule start from (chars text.now)) }
    ensures kept { Grows out.old.items out.new.items }
{
    let mut reading = start();
    let mut at = 0;
    while let Some(step) = char_at(text, at) {
        let span = Span {
            start: from + at,
            end: from + step.end,
        };
        push_if(marks(look.rule, reading, step.c), look, span, out)?;
        reading = after(reading, step.c);
        at = step.end;
    }
    Ok(())
}
