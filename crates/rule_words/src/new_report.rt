//! Reports as they are made.

ghost use Rattle.std.specs.Prelude.{◌≡◌, ◌++◌, ◌∷◌, [], codes, string_bytes, IfOk, OnOk};
ghost use Rattle.rule_words.specs.Appends.{Grows};
ghost use Rattle.rule_words.specs.Reports.{quoted};

use crate::report::Report;
use std::alloc::{AllocError, Global};
use tree::Span;

/// Appends a report.
pub fn push_report(
    alloc: Global,
    rule: &str,
    span: Span,
    text: String,
    out: &mut Vec<Report>,
) -> Result<(), AllocError>
    ensures found { OnOk result (out.new.items ≡ out.old.items ++ record { start = span.start; stop = span.end; rule = rule.now; text = string_bytes text } ∷ []) }
    ensures kept { Grows out.old.items out.new.items }
{
    let rule = String::from_str(alloc, rule)?;
    out.push(Report::new(span.start, span.end, rule, text))?;
    Ok(())
}

/// Appends a report whose text is always the same.
pub fn push_fixed_report(
    alloc: Global,
    rule: &str,
    span: Span,
    words: &str,
    out: &mut Vec<Report>,
) -> Result<(), AllocError>
    ensures found { OnOk result (out.new.items ≡ out.old.items ++ record { start = span.start; stop = span.end; rule = rule.now; text = words.now } ∷ []) }
    ensures kept { Grows out.old.items out.new.items }
{
    let text = String::from_str(alloc, words)?;
    push_report(alloc, rule, span, text, out)
}

/// A name between quotes, and words behind it.
pub fn quoted(alloc: Global, name: &str, words: &str) -> Result<String, AllocError>
    ensures { IfOk result (λ s. string_bytes s ≡ codes "'" ++ (name.now ++ (codes "' " ++ words.now))) }
{
    let mut text = String::from_str(alloc, "'")?;
    text.push_str(name)?;
    text.push_str("' ")?;
    text.push_str(words)?;
    Ok(text)
}
