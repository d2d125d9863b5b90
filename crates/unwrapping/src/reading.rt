//! The tokens of a script, as its tree reads them.

ghost use Rattle.std.specs.Prelude.{◌≡◌, ◌≢◌, ◌≤◌, ◌<◌, ◌↔◌, ℕ, true, length, slice_range, List, IfOk, IfSome, IsTrue};
ghost use Rattle.source_text.specs.Source.{IsPlace};
ghost use Rattle.tokens.specs.Reading.{Reads};
ghost use Rattle.tokens.specs.Scanned.{token_of};
ghost use Rattle.tokens.specs.declared.token.Goal.TheVariants.{Div};
ghost use Rattle.tokens.specs.declared.token.TokenClass.TheVariants.{End};
ghost use Rattle.tree.specs.Tree.{Tree};
ghost use Rattle.tree.specs.Flat.{post_order};
ghost use Rattle.reading_laws.specs.TreeReadings.{hashbang_line, tree_goal};
ghost use Rattle.tokens.specs.Tokens.{size};
ghost use Rattle.unwrapping.specs.Readings.{IsRead, AreNoted, InOrder, goal_of, bytes_in};

use crate::note::{Note, Reading, are_ascending, notes};
use crate::pair_walk::PairWalk;
use source_text::Source;
use std::alloc::{AllocError, Global};
use tokens::{Goal, Token, TokenClass, hashbang_end, scan};
use tree::{Pair, Program};

/// A part of a text, in bytes, four bytes for each end.
#[derive(Clone, Copy)]
pub struct ByteSpan {
    pub start: u32,
    pub end: u32,
}

impl ByteSpan {
    /// The span from `start` to `end`, in bytes, neither over 16,777,216.
    pub(crate) fn of(start: usize, end: usize) -> ByteSpan
        requires start { start ≤ 16777216 }
        requires end { end ≤ 16777216 }
        ensures start { result.start ≡ start }
        ensures end { result.end ≡ end }
    {
        ByteSpan {
            start: start as u32,
            end: end as u32,
        }
    }

    /// The bytes of a text in the span, if it is within the text.
    #[inline]
    pub(crate) fn bytes_in(self, text: &[u8]) -> Option<&[u8]>
        ensures { IfSome result (λ bytes. bytes.now ≡ bytes_in text.now self) }
    {
        let start = self.start as usize;
        let end = self.end as usize;
        if start <= end && end <= text.len() {
            return Some(&text[start..end]);
        }
        None
    }
}

/// A token of a text.
#[derive(Clone, Copy)]
pub struct TokenRow {
    pub span: ByteSpan,
    pub class: TokenClass,
    /// It is `++` or `--` after its operand.
    pub is_postfix: bool,
    /// It ends an export of the module's own names: `}`, or the `;` behind it.
    pub ends_export: bool,
    /// It is a parenthesis of a grouping pair.
    pub is_grouping: bool,
}

/// The tokens of a text, in order, up to its end.
#[derive(Drop)]
pub struct TreeReading {
    /// Where they begin, in bytes: behind the line of `#!`, if there is one.
    pub start: u32,
    pub tokens: Vec<TokenRow>,
}

/// The next token, and the notes after it.
#[derive(Clone, Copy)]
struct Step<'s, 'n> {
    token: Token<'s>,
    is_postfix: bool,
    ends_export: bool,
    notes: &'n [Note],
}

/// The next token from a place on, if notes, of places that ascend, say how it is read.
fn next_token<'s, 'n>(source: &Source<'s>, at: usize, notes: &'n [Note]) -> Option<Step<'s, 'n>>
    requires place { IsPlace source.now at }
    requires order { InOrder notes.now }
    ensures read { IfSome result (λ s. (n : Tree) → AreNoted (post_order n) at notes.now → Reads source.now (tree_goal n s.token.start) at (token_of s.token)) }
    ensures noted { IfSome result (λ s. (n : Tree) → AreNoted (post_order n) at notes.now → AreNoted (post_order n) s.token.end s.notes.now) }
    ensures order { IfSome result (λ s. InOrder s.notes.now) }
    ensures within { IfSome result (λ s. (at ≤ s.token.start) × (s.token.start ≤ s.token.end) × IsPlace source.now s.token.end) }
    ensures goes_on { IfSome result (λ s. s.token.class ≢ End → s.token.start < s.token.end) }
    ensures slice { IfSome result (λ s. s.token.text.now ≡ slice_range source.now s.token.start s.token.end) }
{
    let Ok(token) = scan(source, at, Goal::Div) else {
        return None;
    };
    let Some(note) = notes.first() else {
        return Some(Step {
            token,
            is_postfix: false,
            ends_export: false,
            notes,
        });
    };
    if note.at > token.start {
        return Some(Step {
            token,
            is_postfix: false,
            ends_export: false,
            notes,
        });
    }
    if note.at < token.start {
        return None;
    }
    let Some(token) = noted_token(source, at, note.reading, token) else {
        return None;
    };
    if token.start >= token.end {
        return None;
    }
    Some(Step {
        token,
        is_postfix: matches!(note.reading, Reading::Postfix),
        ends_export: matches!(note.reading, Reading::ExportEnd),
        notes: &notes[1..],
    })
}

/// The token that begins where another one does, by how it is noted.
fn noted_token<'s>(
    source: &Source<'s>,
    at: usize,
    reading: Reading,
    token: Token<'s>,
) -> Option<Token<'s>>
    requires place { IsPlace source.now at }
    requires reads { Reads source.now Div at (token_of token) }
    requires within { (at ≤ token.start) × (token.start ≤ token.end) × IsPlace source.now token.end }
    requires goes_on { token.class ≢ End → token.start < token.end }
    requires slice { token.text.now ≡ slice_range source.now token.start token.end }
    ensures read { IfSome result (λ t. Reads source.now (goal_of reading) at (token_of t)) }
    ensures start { IfSome result (λ t. t.start ≡ token.entry.start) }
    ensures within { IfSome result (λ t. (at ≤ t.start) × (t.start ≤ t.end) × IsPlace source.now t.end) }
    ensures goes_on { IfSome result (λ t. t.class ≢ End → t.start < t.end) }
    ensures slice { IfSome result (λ t. t.text.now ≡ slice_range source.now t.start t.end) }
{
    let goal = match reading {
        Reading::Postfix | Reading::ExportEnd => return Some(token),
        Reading::RegularExpression => Goal::RegExp,
        Reading::TemplatePart => Goal::TemplateTail,
    };
    match scan(source, at, goal) {
        Ok(again) if again.start == token.start => Some(again),
        _ => None,
    }
}

/// Whether it is the class of the end of the text.
fn is_end(class: TokenClass) -> bool
    ensures { IsTrue result ↔ (class ≡ End) }
{
    matches!(class, TokenClass::End)
}

/// What is read of a text from a place on where the notes of its tree say how; nothing where they don't.
fn read(
    alloc: Global,
    source: &Source<'_>,
    start: usize,
    notes: &[Note],
    pairs: &[Pair],
) -> Result<Option<TreeReading>, AllocError>
    requires order { InOrder notes.now }
    requires place { IsPlace source.now start }
    ensures { IfOk result (λ found. IfSome found (λ read. (n : Tree) → AreNoted (post_order n) 0 notes.now → start ≡ size (hashbang_line n source.now) → IsRead source.now n pairs.now read)) }
{
    // (a text is short, and so is each place in it)
    let _text = source.text();
    let mut tokens = Vec::new(alloc);
    let mut walk = PairWalk::new(alloc, pairs);
    let mut rest = notes;
    let mut at = start;
    loop {
        let Some(step) = next_token(source, at, rest) else {
            return Ok(None);
        };
        let token = step.token;
        tokens.push(TokenRow {
            span: ByteSpan::of(token.start, token.end),
            class: token.class,
            is_postfix: step.is_postfix,
            ends_export: step.ends_export,
            is_grouping: walk.takes(token.text, token.start)?,
        })?;
        if is_end(token.class) {
            return Ok(Some(TreeReading {
                start: start as u32,
                tokens,
            }));
        }
        rest = step.notes;
        at = token.end;
    }
}

/// Where the tokens of a text with this tree begin: behind the line of `#!` in the language of 2022.
fn first_token_place(source: &Source<'_>, program: &Program<'_>) -> usize
    ensures place { IsPlace source.now result }
    ensures behind { result ≡ size (hashbang_line program.now source.now) }
{
    let text = source.text();
    match program.root().text() {
        "2022" | "module" => hashbang_end(text),
        _ => 0,
    }
}

/// The tokens of a script with these grouping pairs, in order of their `(`, as its tree reads them; nothing where the tree's own places
/// aren't in order, or don't tell how a token is read. Steps and memory grow with the text and the tree.
///
/// # Errors
///
/// `AllocError` where memory is refused.
pub fn tree_reading(
    alloc: Global,
    source: &Source<'_>,
    program: &Program<'_>,
    pairs: &[Pair],
) -> Result<Option<TreeReading>, AllocError>
    ensures { IfOk result (λ found. IfSome found (IsRead source.now program.now pairs.now)) }
{
    let notes = notes(alloc, program)?;
    if !are_ascending(&notes) {
        return Ok(None);
    }
    read(
        alloc,
        source,
        first_token_place(source, program),
        &notes,
        pairs,
    )
}
