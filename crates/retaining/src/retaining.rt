//! Whether a formatted text keeps the tokens and comments of a text.

ghost use Rattle.std.specs.Prelude.{◌≡◌, true, [], ◌∷◌, ℕ, List, IfOk, IfSome};
ghost use Rattle.tree.specs.Tree.{Tree};
ghost use Rattle.tree.specs.declared.kind.Pair.{Pair};
ghost use Rattle.unwrapping.specs.Readings.{IsRead, comments_in};
ghost use Rattle.unwrapping.specs.Comparing.{BeginsAlike};
ghost use Rattle.retaining.specs.Retains.{Retains, all_lines, begin_with, is_free};
ghost use Rattle.retaining.specs.Comparing.{AreSameRows, BeginsWith, IsShorter, Leads, RetainsRows, recent_in, words_in};

use crate::comments::are_same_comments;
use crate::side::Side;
use crate::words::are_same;
use source_text::Source;
use std::alloc::{AllocError, Global};
use tree::{Pair, Program};
use unwrapping::{ByteSpan, TokenRow, TreeReading, tree_reading};

/// What is left of a text and of its formatted text.
#[derive(Drop)]
pub(crate) struct Comparison<'t> {
    text: Side<'t>,
    formatted: Side<'t>,
}

impl<'t> Comparison<'t> {
    /// Whether all was compared, and each comment found.
    fn is_done(&self) -> bool
        ensures rows { result ≡ true → self.now.text.rows.now ≡ [] }
        ensures others { result ≡ true → self.now.formatted.rows.now ≡ [] }
        ensures comments { result ≡ true → self.now.text.comments.items ≡ [] }
        ensures comments_again { result ≡ true → self.now.formatted.comments.items ≡ [] }
    {
        self.text.rows.is_empty()
            && self.formatted.rows.is_empty()
            && self.text.comments.is_empty()
            && self.formatted.comments.is_empty()
    }

    /// The rows that come next, if they have the same token.
    fn next_alike(&self, text: &[u8], formatted: &[u8]) -> Option<(TokenRow, TokenRow)>
        ensures row { IfSome result (λ found. BeginsWith self.now.text.rows.now found.0) }
        ensures other { IfSome result (λ found. BeginsWith self.now.formatted.rows.now found.1) }
        ensures same { IfSome result (λ found. AreSameRows text.now found.0 formatted.now found.1) }
    {
        let Some(row) = self.text.rows.first() else {
            return None;
        };
        let Some(other) = self.formatted.rows.first() else {
            return None;
        };
        if row.class != other.class {
            return None;
        }
        if !are_same(text, row.span, formatted, other.span) {
            return None;
        }
        Some((*row, *other))
    }

    /// One turn: a token goes or comes, or `()` comes, or a token is kept. Says whether one of these may be.
    fn turn(&mut self, source: &Source<'_>, formatted: &Source<'_>) -> Result<bool, AllocError>
        ensures leads { IfOk result (λ is. is ≡ true → Leads source.now formatted.now self.old self.new) }
        ensures fewer { IfOk result (λ is. is ≡ true → IsShorter self.old self.new) }
    {
        if self.text.is_free(source.bytes()) {
            return self.text.pass(source);
        }
        if self.formatted.is_free(formatted.bytes()) {
            return self.formatted.pass(formatted);
        }
        if let Some((row, other)) = self.next_alike(source.bytes(), formatted.bytes()) {
            return self.keep(source, row, formatted, other);
        }
        if self.formatted.is_call(formatted.bytes()) {
            return self.call(formatted);
        }
        Ok(false)
    }

    /// `()` comes.
    fn call(&mut self, formatted: &Source<'_>) -> Result<bool, AllocError>
        requires { begin_with ("(" ∷ ")" ∷ []) (words_in formatted.now self.old.formatted.rows.now) ≡ true }
        ensures leads { IfOk result (λ is. is ≡ true → (text : List ℕ) → Leads text formatted.now self.old self.new) }
        ensures fewer { IfOk result (λ is. is ≡ true → IsShorter self.old self.new) }
    {
        let opened = self.formatted.pass(formatted)?;
        if !opened {
            return Ok(false);
        }
        self.formatted.pass(formatted)
    }

    /// A token is kept, with the comments before it, or these move behind it.
    fn keep(
        &mut self,
        source: &Source<'_>,
        row: TokenRow,
        formatted: &Source<'_>,
        other: TokenRow,
    ) -> Result<bool, AllocError>
        requires row { BeginsWith self.old.text.rows.now row }
        requires other { BeginsWith self.old.formatted.rows.now other }
        requires same { AreSameRows source.now row formatted.now other }
        ensures leads { IfOk result (λ is. is ≡ true → Leads source.now formatted.now self.old self.new) }
        ensures fewer { IfOk result (λ is. is ≡ true → IsShorter self.old self.new) }
    {
        let may_move = self.text.may_move(source.bytes(), row);
        let passed = self.text.pass(source)?;
        let passed_again = self.formatted.pass(formatted)?;
        if !passed || !passed_again {
            return Ok(false);
        }
        if self.have_same_comments(source, formatted) {
            self.text.settle();
            self.formatted.settle();
            return Ok(true);
        }
        if !may_move || !self.formatted.is_settled() {
            return Ok(false);
        }
        self.formatted.settle();
        Ok(true)
    }

    /// Whether the comments that weren't found yet are the same.
    fn have_same_comments(&self, source: &Source<'_>, formatted: &Source<'_>) -> bool
        ensures { result ≡ true → all_lines (comments_in source.now self.now.text.comments.items) ≡ all_lines (comments_in formatted.now self.now.formatted.comments.items) }
    {
        are_same_comments(
            source.text(),
            &self.text.comments,
            formatted.text(),
            &self.formatted.comments,
        )
    }
}

/// Whether the tokens and comments of a text are retained in another.
fn are_retained(
    alloc: Global,
    source: &Source<'_>,
    reading: &TreeReading,
    formatted: &Source<'_>,
    again: &TreeReading,
) -> Result<bool, AllocError>
    ensures { IfOk result (λ are. are ≡ true → RetainsRows reading.now.start source.now reading.now.tokens.items again.now.start formatted.now again.now.tokens.items) }
{
    let mut left = Comparison {
        text: Side::all(alloc, &reading.tokens, reading.start),
        formatted: Side::all(alloc, &again.tokens, again.start),
    };
    while !left.is_done() {
        if !left.turn(source, formatted)? {
            return Ok(false);
        }
    }
    Ok(true)
}

/// Whether the same bytes stand before the first tokens' beginnings: the line of `#!`, or none.
fn begin_alike_before(
    source: &Source<'_>,
    reading: &TreeReading,
    formatted: &Source<'_>,
    again: &TreeReading,
) -> bool
    ensures { result ≡ true → BeginsAlike source.now reading.now.start formatted.now again.now.start }
{
    let line = ByteSpan {
        start: 0,
        end: reading.start,
    };
    let line_again = ByteSpan {
        start: 0,
        end: again.start,
    };
    let (text, text_again) = (source.text(), formatted.text());
    are_same(text.as_bytes(), line, text_again.as_bytes(), line_again)
}

/// Whether a formatted text keeps the tokens of a text, but for the few that may go or come, and its comments, each between the same two
/// tokens that are kept, but for those that may move over a `,` or an operator. `reading` is what was read of the text, whose grouping pairs
/// are `pairs`; `program` is the script of the formatted text, and `pairs_again` are its grouping pairs. Steps and memory grow with both
/// texts and the tree.
///
/// # Errors
///
/// `AllocError` where memory is refused.
pub fn retains(
    alloc: Global,
    source: &Source<'_>,
    reading: &TreeReading,
    formatted: &Source<'_>,
    program: &Program<'_>,
    pairs_again: &[Pair],
) -> Result<bool, AllocError>
    ensures { IfOk result (λ retains. retains ≡ true → (n : Tree) (pairs : List Pair) → IsRead source.now n pairs reading.now → Retains source.now n pairs formatted.now program.now pairs_again.now) }
{
    let Some(again) = tree_reading(alloc, formatted, program, pairs_again)? else {
        return Ok(false);
    };
    if !begin_alike_before(source, reading, formatted, &again) {
        return Ok(false);
    }
    are_retained(alloc, source, reading, formatted, &again)
}
