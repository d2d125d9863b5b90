//! What is left of one of two texts that are compared, and what was passed of it.

ghost use Rattle.std.specs.Prelude.{◌≡◌, ◌||◌, ◌&&◌, true, false, [], ◌∷◌, IfOk, IfSome, IsTrue, IsSome};
ghost use Rattle.tokens.specs.Lexical.{is_one_of_words};
ghost use Rattle.unwrapping.specs.Readings.{bytes_in};
ghost use Rattle.retaining.specs.Retains.{begin_with, is_before_closing, is_free, is_behind_import, is_of_no_names, is_of_same_name, ends_operand, may_move_over};
ghost use Rattle.retaining.specs.Comparing.{PassesRow, IsSettled, words_in, word_in, recent_in, breaks_row};

use crate::free::{
    begins_call, closes_no_names, is_as, is_before_arrow, is_before_from, is_before_same,
    is_behind_import, is_closing_brace, is_comma, is_free_comma, is_from, is_import,
    is_opening_brace, is_plain_parameter,
};
use crate::words::{
    are_same, breaks_behind_comment, bytes_of, ends_operand, has_line_end, is_operator,
};
use source_text::Source;
use std::alloc::{AllocError, Global};
use unwrapping::{ByteSpan, CommentRow, TokenRow, push_comments};

/// What is left of one of two texts that are compared, and what was passed of it.
#[derive(Drop)]
pub(crate) struct Side<'t> {
    /// The rows of its tokens.
    pub rows: &'t [TokenRow],
    /// Where the token before them ends, in bytes.
    at: u32,
    /// That token, and the two before it.
    last: ByteSpan,
    second: ByteSpan,
    third: ByteSpan,
    /// Whether an operand may end with it.
    is_operand: bool,
    /// The comments before it that weren't found in the other text yet.
    pub comments: Vec<CommentRow>,
    /// Whether a line ends in or behind one of them.
    breaks: bool,
}

/// No bytes.
const NOWHERE: ByteSpan = ByteSpan { start: 0, end: 0 };

impl<'t> Side<'t> {
    /// All of a text from a place on; no memory.
    pub(crate) fn all(alloc: Global, rows: &'t [TokenRow], at: u32) -> Side<'t>
        ensures rows { result.rows.now ≡ rows.now }
        ensures at { result.at ≡ at }
        ensures last { result.last ≡ record { start = 0; end = 0 } }
        ensures second { result.second ≡ record { start = 0; end = 0 } }
        ensures third { result.third ≡ record { start = 0; end = 0 } }
        ensures operand { result.is_operand ≡ false }
        ensures comments { result.comments.items ≡ [] }
        ensures breaks { result.breaks ≡ false }
    {
        Side {
            rows,
            at,
            last: NOWHERE,
            second: NOWHERE,
            third: NOWHERE,
            is_operand: false,
            comments: Vec::new(alloc),
            breaks: false,
        }
    }

    /// The gap before a token.
    fn gap(&self, row: TokenRow) -> ByteSpan
        ensures start { result.start ≡ self.now.at }
        ensures end { result.end ≡ row.span.start }
    {
        ByteSpan {
            start: self.at,
            end: row.span.start,
        }
    }

    /// Whether a line ends in or behind one of the comments before a token that weren't found yet.
    fn breaks_before(&self, text: &[u8], row: TokenRow) -> bool
        ensures { result ≡ true → breaks_row text.now self.now row ≡ true }
    {
        if self.breaks {
            return true;
        }
        match bytes_of(text, self.gap(row)) {
            Some(gap) if self.comments.is_empty() => breaks_behind_comment(gap),
            Some(gap) => has_line_end(gap),
            None => false,
        }
    }

    /// Whether an operand may end with a token, which comes next.
    fn ends_operand(&self, text: &[u8], row: TokenRow) -> bool
        ensures { result ≡ true → ends_operand (bytes_in text.now self.now.last) (word_in text.now row) ≡ true }
    {
        let Some(last) = bytes_of(text, self.last) else {
            return false;
        };
        match bytes_of(text, row.span) {
            Some(word) => ends_operand(last, row.class, word),
            None => false,
        }
    }

    /// Passes a token with the comments before it, and says whether there is one, and nothing but blanks and comments before it.
    pub(crate) fn pass(&mut self, source: &Source<'_>) -> Result<bool, AllocError>
        ensures { IfOk result (λ passed. passed ≡ true → PassesRow source.now self.old self.new) }
    {
        let Some(row) = self.rows.first() else {
            return Ok(false);
        };
        let (span, text) = (row.span, source.bytes());
        let breaks = self.breaks_before(text, *row);
        let is_operand = self.ends_operand(text, *row);
        let passed = push_comments(source, self.at, span.start, &mut self.comments)?;
        if passed {
            self.breaks = breaks;
            self.is_operand = is_operand;
            self.third = self.second;
            self.second = self.last;
            self.last = span;
            self.at = span.end;
            self.rows = &self.rows[1..];
        }
        Ok(passed)
    }

    /// All comments were found.
    pub(crate) fn settle(&mut self)
        ensures { IsSettled self.old self.new }
    {
        self.comments.clear();
        self.breaks = false;
    }

    /// Whether all comments were found.
    pub(crate) fn is_settled(&self) -> bool
        ensures { result ≡ true → self.now.comments.items ≡ [] }
    {
        self.comments.is_empty()
    }

    /// Whether the next token may go or come.
    pub(crate) fn is_free(&self, text: &[u8]) -> bool
        ensures { result ≡ true → is_free (recent_in text.now self.now) (words_in text.now self.now.rows.now) ≡ true }
    {
        match self.rows.first() {
            Some(row) => self.is_free_row(text, *row, &self.rows[1..]),
            None => false,
        }
    }

    /// Whether a token that comes next may go or come, before these tokens.
    fn is_free_row(&self, text: &[u8], row: TokenRow, rest: &[TokenRow]) -> bool
        ensures { result ≡ true → is_free (recent_in text.now self.now) (word_in text.now row ∷ words_in text.now rest.now) ≡ true }
    {
        match bytes_of(text, row.span) {
            Some([b';']) => true,
            Some([b',']) => is_free_comma(text, rest),
            Some([b'(']) => is_plain_parameter(text, rest),
            Some([b')']) => is_before_arrow(text, rest),
            Some([b'{' | b'}'] | [b'f', ..]) if self.is_of_no_names(text, row, rest) => true,
            Some(_) => self.is_of_same_name(text, row, rest),
            None => false,
        }
    }

    /// Whether a token is `{` or `}` of an import without names, or `from` behind it where nothing else is imported.
    fn is_of_no_names(&self, text: &[u8], row: TokenRow, rest: &[TokenRow]) -> bool
        ensures { result ≡ true → is_of_no_names (recent_in text.now self.now) (word_in text.now row) (words_in text.now rest.now) ≡ true }
    {
        if is_opening_brace(text, row.span) {
            return is_behind_import(text, self.last) && closes_no_names(text, rest);
        }
        if is_closing_brace(text, row.span) {
            return self.is_behind_opened_import(text) && is_before_from(text, rest);
        }
        is_from(text, row.span) && self.is_behind_no_names(text)
    }

    /// Whether `import {` was passed last, or `, {`.
    fn is_behind_opened_import(&self, text: &[u8]) -> bool
        ensures opened { result ≡ true → IsTrue (is_one_of_words ("{" ∷ []) (bytes_in text.now self.now.last)) }
        ensures import { result ≡ true → is_behind_import (bytes_in text.now self.now.second) ≡ true }
    {
        is_opening_brace(text, self.last) && is_behind_import(text, self.second)
    }

    /// Whether `import {}` was passed last.
    fn is_behind_no_names(&self, text: &[u8]) -> bool
        ensures closed { result ≡ true → IsTrue (is_one_of_words ("}" ∷ []) (bytes_in text.now self.now.last)) }
        ensures opened { result ≡ true → IsTrue (is_one_of_words ("{" ∷ []) (bytes_in text.now self.now.second)) }
        ensures import { result ≡ true → IsTrue (is_one_of_words ("import" ∷ []) (bytes_in text.now self.now.third)) }
    {
        is_closing_brace(text, self.last)
            && is_opening_brace(text, self.second)
            && is_import(text, self.third)
    }

    /// Whether a token is `as`, or the second `a`, of `a as a`.
    fn is_of_same_name(&self, text: &[u8], row: TokenRow, rest: &[TokenRow]) -> bool
        ensures { result ≡ true → is_of_same_name (recent_in text.now self.now) (word_in text.now row) (words_in text.now rest.now) ≡ true }
    {
        if is_as(text, row.span) && is_before_same(text, self.last, rest) {
            return true;
        }
        is_as(text, self.last) && are_same(text, row.span, text, self.second)
    }

    /// Whether `()` comes next.
    pub(crate) fn is_call(&self, text: &[u8]) -> bool
        ensures { result ≡ true → begin_with ("(" ∷ ")" ∷ []) (words_in text.now self.now.rows.now) ≡ true }
    {
        begins_call(text, self.rows)
    }

    /// Whether the comments before a token that comes next may move over it: it is a `,` or an operator of two operands, and a line ends in
    /// or behind one of them.
    pub(crate) fn may_move(&self, text: &[u8], row: TokenRow) -> bool
        ensures over { result ≡ true → may_move_over self.now.is_operand (word_in text.now row) ≡ true }
        ensures breaks { result ≡ true → breaks_row text.now self.now row ≡ true }
    {
        self.is_movable(text, row) && self.breaks_before(text, row)
    }

    /// Whether comments may move over a token that comes next.
    fn is_movable(&self, text: &[u8], row: TokenRow) -> bool
        ensures { result ≡ true → may_move_over self.now.is_operand (word_in text.now row) ≡ true }
    {
        if is_comma(text, row.span) {
            return true;
        }
        match bytes_of(text, row.span) {
            Some(word) => self.is_operand && is_operator(word),
            None => false,
        }
    }
}
