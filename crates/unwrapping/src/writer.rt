//! The one pass that writes the text anew.

ghost use Rattle.std.specs.Prelude.{◌≤◌, length};

use crate::changes::{Addition, Changes};
use crate::cursor::Cursor;
use crate::gap::{Part, is_all_blank};
use crate::joint::{ends_in_line_comment, join_over_closing, join_over_opening, last_part};
use crate::lexeme::{Lexeme, bytes_between};
use crate::lines::has_line_end;
use crate::moving::{Indent, first_broken, last_broken};
use crate::reading::{TokenRow, TreeReading};
use crate::touching::{Next, touch_over_closing, touch_over_opening};
use source_text::Source;
use std::alloc::{AllocError, Global};
use tokens::TokenClass;

/// The token that was written last.
#[derive(Clone, Copy)]
pub(crate) struct Last<'s> {
    pub class: TokenClass,
    pub text: &'s [u8],
    /// Where it begins in what is written.
    pub start: usize,
    /// Where the first of the words begins that stand before it on its line, if no line may end after each of them; else where it does.
    pub first_word: usize,
    pub is_postfix: bool,
    /// Whether it is the `}` of an export of the module's own names.
    pub ends_export: bool,
    /// Whether `)` or `()` was put after it.
    pub is_closed: bool,
    /// Whether it is a `!` right after a `<`.
    pub follows_less: bool,
}

impl<'s> Last<'s> {
    /// The token of a row that was copied after the rows before it, up to a place in what is written.
    fn copied(bytes: &'s [u8], before: &[TokenRow], row: TokenRow, end: usize) -> Last<'s> {
        let text = row.text(bytes);
        let follows_less = match before.last() {
            Some(less) => less.span.end == row.span.start
                && is_less_and_not(less.text(bytes), text),
            None => false,
        };
        let start = end.saturating_sub(text.len());
        Last {
            class: row.class,
            text,
            start,
            first_word: start,
            is_postfix: row.is_postfix,
            ends_export: row.ends_export && matches!(text, b"}"),
            is_closed: false,
            follows_less,
        }
    }

    /// Where it ends in what is written.
    fn end(&self) -> usize {
        self.start.saturating_add(self.text.len())
    }

    /// Whether a token would go on with the statement that it ends, though another one begins with that.
    fn wants_semicolon(&self, token: &[u8]) -> bool {
        (self.is_postfix && goes_on(token)) || (self.ends_export && matches!(token, b"from"))
    }

    /// Whether it is a word that no line may end after.
    fn binds_its_line(&self) -> bool {
        binds_its_line(self.class, self.text)
    }
}

/// The parentheses that went since the last token was written; those between two tokens that stay are all of one side.
#[derive(Clone, Copy)]
enum Went {
    Nothing,
    /// `(`, and whether a line ended before the first.
    Opening { is_broken: bool },
    Closing,
}

/// What is written so far, and what stands before the next token.
#[derive(Drop)]
struct Writer<'s> {
    out: Vec<u8>,
    /// Up to where the text was passed, in bytes.
    passed: usize,
    last: Last<'s>,
    /// The parts of the gap, up to the last parenthesis that went.
    parts: Vec<Part<'s>>,
    went: Went,
    /// The `)` of the pairs that go whose `(` was passed, the innermost last.
    open: Vec<usize>,
}

impl<'s> Writer<'s> {
    /// A writer that has written nothing, with room for `capacity` bytes.
    fn new(alloc: Global, capacity: usize) -> Result<Writer<'s>, AllocError> {
        Ok(Writer {
            out: Vec::with_capacity(alloc, capacity)?,
            passed: 0,
            last: Last {
                class: TokenClass::End,
                text: b"",
                start: 0,
                first_word: 0,
                is_postfix: false,
                ends_export: false,
                is_closed: false,
                follows_less: false,
            },
            parts: Vec::new(alloc),
            went: Went::Nothing,
            open: Vec::new(alloc),
        })
    }

    /// The place before which tokens are copied as they stand, with what stands before them.
    fn next_place(&self, cursor: &Cursor<'_>) -> usize {
        if !matches!(self.went, Went::Nothing) || !self.parts.is_empty() {
            return 0;
        }
        let place = cursor.next_place();
        match self.open.last() {
            Some(right) => place.min(*right),
            None => place,
        }
    }

    /// Copies the tokens of rows, as far as the text wasn't passed, with what stands before them.
    fn copy(&mut self, bytes: &'s [u8], rows: &[TokenRow]) -> Result<(), AllocError> {
        let Some((row, before)) = rows.split_last() else {
            return Ok(());
        };
        let end = row.span.end as usize;
        if end <= self.passed {
            return Ok(());
        }
        self.out
            .extend_from_slice(bytes_between(bytes, self.passed, end))?;
        let from = self.passed;
        self.passed = end;
        let mut last = Last::copied(bytes, before, *row, self.out.len());
        if last.binds_its_line() {
            last.first_word = self.first_word(bytes, rows, from);
        }
        self.last = last;
        Ok(())
    }

    /// Where the first word begins, in what is written, of those with which copied rows end, if no line may end after each of them, and none
    /// ends. From a place on they were copied as they stand.
    fn first_word(&self, bytes: &'s [u8], rows: &[TokenRow], from: usize) -> usize {
        let Some(last) = rows.last() else {
            return self.out.len();
        };
        let mut first = *last;
        for index in 1..rows.len() {
            let row = rows[rows.len() - 1 - index];
            let end = row.span.end as usize;
            let gap = bytes_between(bytes, end, first.span.start as usize);
            if !binds_its_line(row.class, row.text(bytes)) || has_line_end(gap) {
                break;
            }
            if (row.span.start as usize) < from {
                return self.last.first_word;
            }
            first = row;
        }
        let length = (last.span.end as usize).saturating_sub(first.span.start as usize);
        self.out.len().saturating_sub(length)
    }

    /// Copies what stands before the first token's beginning: the line of `#!`, if there is one.
    fn copy_first_line(&mut self, bytes: &'s [u8], end: usize) -> Result<(), AllocError> {
        self.out.extend_from_slice(bytes_between(bytes, 0, end))?;
        self.passed = end;
        Ok(())
    }

    /// Takes the next token: it is written, unless it is a parenthesis that goes.
    fn take(&mut self, lexeme: Lexeme<'s>, cursor: &mut Cursor<'_>) -> Result<(), AllocError> {
        match lexeme.text {
            b"(" => {
                if let Some(pair) = cursor.take_removed(lexeme.start) {
                    self.open.push(pair.right)?;
                    return self.pass_opening(lexeme.gap);
                }
            }
            b")" => {
                if self.closes_removed(lexeme.start) {
                    return self.pass_closing(lexeme.gap);
                }
            }
            _ => {}
        }
        self.keep(lexeme, cursor)
    }

    /// Whether the `)` at a place is that of the innermost pair that goes.
    fn closes_removed(&mut self, at: usize) -> bool {
        match self.open.last() {
            Some(right) if *right == at => {
                let _ = self.open.pop();
                true
            }
            _ => false,
        }
    }

    /// A `(` goes, with a gap before it.
    fn pass_opening(&mut self, gap: &'s [u8]) -> Result<(), AllocError> {
        match self.went {
            Went::Opening { .. } => join_over_opening(&mut self.parts, gap),
            _ => {
                self.went = Went::Opening {
                    is_broken: has_line_end(gap),
                };
                join_over_closing(&mut self.parts, gap)
            }
        }
    }

    /// A `)` goes, with a gap before it.
    fn pass_closing(&mut self, gap: &'s [u8]) -> Result<(), AllocError> {
        match self.went {
            Went::Closing if is_all_blank(gap) => Ok(()),
            _ => {
                self.went = Went::Closing;
                join_over_closing(&mut self.parts, gap)
            }
        }
    }

    /// Writes a token that stays, with what stands before it.
    fn keep(&mut self, lexeme: Lexeme<'s>, cursor: &mut Cursor<'_>) -> Result<(), AllocError> {
        self.write_closed(lexeme.start, cursor)?;
        let opened = count_opened(lexeme.start, cursor);
        let is_tight = self.write_gap(lexeme, opened > 0)?;
        // (comments may have moved before the last token, so it is looked for only now)
        let goes_on = opened == 0
            && self.last.binds_its_line()
            && self.is_on_one_line(self.last.end());
        for _ in 0..opened {
            self.out.push(b'(')?;
        }
        let start = self.out.len();
        self.last = Last {
            class: lexeme.class,
            text: lexeme.text,
            start,
            first_word: if goes_on { self.last.first_word } else { start },
            is_postfix: lexeme.is_postfix,
            ends_export: lexeme.ends_export && matches!(lexeme.text, b"}"),
            is_closed: false,
            follows_less: is_tight && opened == 0 && is_less_and_not(self.last.text, lexeme.text),
        };
        self.out.extend_from_slice(lexeme.text)
    }

    /// Whether no line ends in what was written from a place on.
    fn is_on_one_line(&self, from: usize) -> bool {
        let out = self.out.as_slice();
        from <= out.len() && !has_line_end(&out[from..])
    }

    /// Writes what comes after the last token.
    fn write_closed(&mut self, at: usize, cursor: &mut Cursor<'_>) -> Result<(), AllocError> {
        while let Some(closing) = cursor.take_closed(at) {
            self.last.is_closed = true;
            self.out.extend_from_slice(match closing.addition {
                Addition::Parenthesis => b")",
                Addition::Arguments => b"()",
            })?;
        }
        Ok(())
    }

    /// Writes the gap before a token, and says whether it is nothing.
    fn write_gap(&mut self, lexeme: Lexeme<'s>, is_opened: bool) -> Result<bool, AllocError> {
        let went = self.went;
        self.went = Went::Nothing;
        match went {
            Went::Nothing => self.write_plain(lexeme.gap),
            Went::Opening { is_broken } => self.write_over_opening(lexeme, is_opened, is_broken),
            Went::Closing => self.write_over_closing(lexeme),
        }
    }

    /// A gap in which no parenthesis went, after comments that moved there.
    fn write_plain(&mut self, gap: &'s [u8]) -> Result<bool, AllocError> {
        if self.parts.is_empty() {
            self.out.extend_from_slice(gap)?;
            return Ok(gap.is_empty());
        }
        join_over_closing(&mut self.parts, gap)?;
        write_parts(&self.parts, false, &mut self.out)?;
        self.parts.clear();
        Ok(false)
    }

    /// A gap in which a `(` went.
    fn write_over_opening(
        &mut self,
        lexeme: Lexeme<'s>,
        is_opened: bool,
        is_broken: bool,
    ) -> Result<bool, AllocError> {
        join_over_opening(&mut self.parts, lexeme.gap)?;
        let binds = self.last.binds_its_line() && !is_broken;
        if binds {
            if let Some(index) = last_broken(&self.parts) {
                return self.lift(index);
            }
        }
        if !is_opened && self.last.wants_semicolon(lexeme.text) {
            self.out.push(b';')?;
        }
        let next = Next::of(&self.parts, is_opened, lexeme.class, lexeme.text);
        let touches = match (self.out.last(), next) {
            (Some(end), Some(next)) => touch_over_opening(self.last, *end, next),
            _ => false,
        };
        let is_tight = self.write_blank_if(touches)? && self.parts.is_empty();
        write_parts(&self.parts, binds, &mut self.out)?;
        self.parts.clear();
        Ok(is_tight)
    }

    /// A gap in which a `)` went. What can't stand before the token moves over it.
    fn write_over_closing(&mut self, lexeme: Lexeme<'s>) -> Result<bool, AllocError> {
        join_over_closing(&mut self.parts, lexeme.gap)?;
        let binds = lexeme.is_postfix
            || (matches!(lexeme.text, b";" | b",") && ends_in_line_comment(&self.parts));
        let staying = if binds {
            first_broken(&self.parts)
        } else {
            self.parts.len()
        };
        let next = Next::of(
            front(&self.parts, staying),
            false,
            lexeme.class,
            lexeme.text,
        );
        let touches = match (self.out.last(), next) {
            (Some(end), Some(next)) => touch_over_closing(self.last, *end, next),
            _ => false,
        };
        let is_tight = self.write_blank_if(touches)? && staying == 0;
        write_parts(front(&self.parts, staying), binds, &mut self.out)?;
        drop_front(&mut self.parts, staying)?;
        Ok(is_tight)
    }

    /// Writes a space if it is wanted, and says whether none is.
    fn write_blank_if(&mut self, wanted: bool) -> Result<bool, AllocError> {
        if wanted {
            self.out.push(b' ')?;
        }
        Ok(!wanted)
    }

    /// Writes the comments up to an index before the last token, a word that no line may end after, and before further such words right
    /// before it, with the comments between them; and the others after it.
    fn lift(&mut self, index: usize) -> Result<bool, AllocError> {
        let indent = Indent::of_last_line(&self.out);
        let from = self.last.first_word.min(self.out.len());
        let words = self.out.split_off(from)?;
        write_comments_between(words.as_slice(), &mut self.out)?;
        indent.write_lifted(&self.parts, index, &mut self.out)?;
        self.last.first_word = self.out.len();
        write_words(words.as_slice(), &mut self.out)?;
        self.last.start = self.out.len().saturating_sub(self.last.text.len());
        self.out.push(b' ')?;
        drop_front(&mut self.parts, index.saturating_add(1))?;
        if let Some(part) = self.parts.first() {
            if part.is_blank() {
                drop_front(&mut self.parts, 1)?;
            }
        }
        write_parts(&self.parts, true, &mut self.out)?;
        self.parts.clear();
        Ok(false)
    }
}

/// Writes the comments that stand between words on one line, each with a space behind it.
fn write_comments_between(words: &[u8], out: &mut Vec<u8>) -> Result<(), AllocError> {
    let mut at = 0;
    while at < words.len() {
        let end = comment_end(words, at);
        if end > at {
            out.extend_from_slice(&words[at..end])?;
            out.push(b' ')?;
            at = end;
        } else {
            at += 1;
        }
    }
    Ok(())
}

/// Writes the words that stand on one line, with a space between each two, and without the comments.
fn write_words(words: &[u8], out: &mut Vec<u8>) -> Result<(), AllocError> {
    let mut at = 0;
    let mut is_first = true;
    while at < words.len() {
        let end = word_end(words, at);
        if end > at {
            if !is_first {
                out.push(b' ')?;
            }
            out.extend_from_slice(&words[at..end])?;
            is_first = false;
            at = end;
        } else {
            at = comment_end(words, at).max(at + 1);
        }
    }
    Ok(())
}

/// Where the run of lower-case letters ends that begins at a place.
fn word_end(bytes: &[u8], at: usize) -> usize
    requires { at ≤ length bytes.now }
    ensures { (at ≤ result) × (result ≤ length bytes.now) }
{
    let mut end = at;
    while end < bytes.len() && bytes[end].is_ascii_lowercase() {
        end += 1;
    }
    end
}

/// Where the comment on one line ends that begins at a place; that place if none does.
fn comment_end(bytes: &[u8], at: usize) -> usize
    requires { at ≤ length bytes.now }
    ensures { (at ≤ result) × (result ≤ length bytes.now) }
{
    if !matches!(bytes.get(at), Some(b'/')) || !matches!(bytes.get(at + 1), Some(b'*')) {
        return at;
    }
    let mut end = at + 2;
    while end + 1 < bytes.len() {
        if bytes[end] == b'*' && bytes[end + 1] == b'/' {
            return end + 2;
        }
        end += 1;
    }
    bytes.len()
}

/// Whether no line may end after a token of this class and text.
fn binds_its_line(class: TokenClass, text: &[u8]) -> bool {
    matches!(class, TokenClass::IdentifierName) && matches!(text, b"return" | b"throw" | b"yield")
}

/// Writes parts of a gap, on one line if it is wanted.
fn write_parts(parts: &[Part<'_>], on_one_line: bool, out: &mut Vec<u8>) -> Result<(), AllocError> {
    for part in parts {
        let part = if on_one_line {
            part.on_one_line()
        } else {
            *part
        };
        out.extend_from_slice(part.text)?;
    }
    Ok(())
}

/// So many parts in front, or all where there are no more.
fn front<'p, 's>(parts: &'p [Part<'s>], count: usize) -> &'p [Part<'s>] {
    if count < parts.len() {
        return &parts[..count];
    }
    parts
}

/// So many parts in front go.
fn drop_front(parts: &mut Vec<Part<'_>>, count: usize) -> Result<(), AllocError> {
    if count >= parts.len() {
        parts.clear();
        return Ok(());
    }
    let rest = parts.split_off(count)?;
    *parts = rest;
    Ok(())
}

/// How many `(` come before the token at a place.
fn count_opened(at: usize, cursor: &mut Cursor<'_>) -> usize {
    let mut count = 0usize;
    while cursor.take_opened(at) {
        count = count.saturating_add(1);
    }
    count
}

/// Whether a token would go on with an expression that ends in a postfix `++` or `--`, though a statement begins with it.
fn goes_on(token: &[u8]) -> bool {
    match token {
        b"+" | b"-" => true,
        [b'/', ..] => true,
        _ => false,
    }
}

/// Whether `!` comes after `<`, with which an HTML-like comment could begin.
fn is_less_and_not(last: &[u8], token: &[u8]) -> bool {
    matches!(last, b"<") && matches!(token, b"!")
}

/// The text of a script with changes: one pass over its tokens.
///
/// # Errors
///
/// `AllocError` where memory is refused.
pub fn rewritten(
    alloc: Global,
    source: &Source<'_>,
    reading: &TreeReading,
    changes: &Changes,
) -> Result<Vec<u8>, AllocError> {
    let bytes = source.bytes();
    let rows = reading.tokens.as_slice();
    let mut writer = Writer::new(alloc, bytes.len())?;
    let mut cursor = Cursor::new(changes);
    writer.copy_first_line(bytes, reading.start as usize)?;
    let mut place = writer.next_place(&cursor);
    for index in 0..rows.len() {
        let row = rows[index];
        if (row.span.start as usize) < place {
            continue;
        }
        writer.copy(bytes, &rows[..index])?;
        let lexeme = Lexeme::of(bytes, writer.passed, row);
        writer.take(lexeme, &mut cursor)?;
        writer.passed = lexeme.end;
        place = writer.next_place(&cursor);
    }
    writer.copy(bytes, rows)?;
    Ok(writer.out)
}
