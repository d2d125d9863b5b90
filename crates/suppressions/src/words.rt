//! The words of a comment.

ghost use Rattle.std.specs.Prelude.{◌≡◌, ◌++◌, cond, [], IfOk, OnOk};
ghost use Rattle.source_text.specs.Source.{IsPlace};
ghost use Rattle.suppressions.specs.Words.{begins_reason, body, is_block, is_gap, word, words};

use source_text::{is_line_terminator, is_space};
use std::alloc::AllocError;
use std::marker::Model;
use text_rules::piece;
use tokens::{CharAt, char_at};

/// A word of a comment. Contracts see it by its bytes.
#[derive(Drop)]
pub(crate) struct Word<'s> {
    text: &'s str,
}

impl<'s> Model for Word<'s> {
    ghost use Rattle.std.specs.Prelude.{ℕ, List};

    ghost Value = { List ℕ };

    ghost view = { λ w. w.text.now };
}

impl<'s> Word<'s> {
    ghost use Rattle.std.specs.Prelude.{◌≡◌};

    /// Its text.
    pub(crate) fn text(&self) -> &'s str
        ensures { result.now ≡ self.now }
    {
        self.text
    }
}

/// Whether a comment begins with `/*`.
pub(crate) fn is_block(comment: &str) -> bool
    ensures { result ≡ is_block comment.now }
{
    let bytes = comment.as_bytes();
    bytes.len() > 1 && bytes[1] == b'*'
}

/// What stands between the marks with which a comment begins and ends.
pub(crate) fn body(comment: &str) -> &str
    ensures { result.now ≡ body comment.now }
{
    let end = comment.len();
    if is_block(comment) {
        piece(comment, 2, end.saturating_sub(2))
    } else {
        piece(comment, 2, end)
    }
}

/// Whether a character stands between words.
fn is_gap(c: char) -> bool
    ensures { result ≡ is_gap c }
{
    c == ',' || is_space(c) || is_line_terminator(c)
}

/// Whether a word is one with which the reason begins.
pub(crate) fn begins_reason(word: &str) -> bool
    ensures { result ≡ begins_reason word.now }
{
    let bytes = word.as_bytes();
    bytes.len() > 1 && bytes[0] == b'-' && bytes[1] == b'-'
}

/// Appends the word between two places, if there is one.
fn push_word<'s>(
    text: &'s str,
    from: usize,
    to: usize,
    out: &mut Vec<Word<'s>>,
) -> Result<(), AllocError>
    requires from { IsPlace text.now from }
    requires to { IsPlace text.now to }
    ensures { OnOk result (out.new.items ≡ out.old.items ++ word text.now from to) }
{
    if from < to {
        out.push(Word {
            text: &text[from..to],
        })?;
    }
    Ok(())
}

/// Appends the word that ends before a character, if one does, and answers where the next one begins, or this one.
fn end_word<'s>(
    text: &'s str,
    from: usize,
    at: usize,
    step: CharAt,
    out: &mut Vec<Word<'s>>,
) -> Result<usize, AllocError>
    requires from { IsPlace text.now from }
    requires at { IsPlace text.now at }
    requires end { IsPlace text.now step.end }
    ensures found { OnOk result (out.new.items ≡ out.old.items ++ cond (is_gap step.c) (word text.now from at) []) }
    ensures value { IfOk result (λ begin. begin ≡ cond (is_gap step.c) step.end from) }
    ensures place { IfOk result (IsPlace text.now) }
{
    if !is_gap(step.c) {
        return Ok(from);
    }
    push_word(text, from, at, out)?;
    Ok(step.end)
}

/// Appends the words of a text.
pub(crate) fn push_words<'s>(text: &'s str, out: &mut Vec<Word<'s>>) -> Result<(), AllocError>
    ensures { OnOk result (out.new.items ≡ out.old.items ++ words text.now) }
{
    let mut from = 0;
    let mut at = 0;
    while let Some(step) = char_at(text, at) {
        from = end_word(text, from, at, step, out)?;
        at = step.end;
    }
    push_word(text, from, at, out)?;
    Ok(())
}
