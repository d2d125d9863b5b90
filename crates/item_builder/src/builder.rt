//! Items, token by token.

use crate::comments::{has_line_end, lines, push_comment, push_last_comment};
use crate::gap::{Comment, Gap, LineEnds};
use crate::gap_part::begins_with_ended_comment;
use crate::options::Options;
use crate::run::Run;
use layout_items::{Item, ItemList, Style};
use std::alloc::{AllocError, Global};
use tokens::TokenClass;
use tree::Node;
use unwrapping::{TokenRow, TreeReading};

/// The items that were made, and the tokens that are left.
#[derive(Drop)]
pub struct Builder<'t> {
    pub(crate) text: &'t str,
    tokens: &'t [TokenRow],
    /// The next token.
    next: usize,
    /// What stands before it.
    pub(crate) gap: Gap<'t>,
    items: ItemList<'t>,
    /// Tokens that aren't among the items yet, since the next one may be of the same piece.
    run: Option<Run>,
    style: Style,
    options: Options,
    /// Where the last token ended, in bytes.
    end: usize,
    /// The first line end behind a place that was asked for.
    line_end: usize,
    /// The token before which a comment was written on its line.
    behind_comment: Option<usize>,
    /// The token before which a comment asks that what follows stays as it stands.
    ignored: Option<usize>,
    /// A space was asked for behind the last piece, or a break that is one when flat.
    is_behind_space: bool,
    /// The tree and the tokens don't agree.
    is_lost: bool,
    /// Memory was refused for comments.
    is_refused: bool,
}

impl<'t> Builder<'t> {
    /// Before the first token: behind the line of `#!`, if the text begins with one.
    ///
    /// # Errors
    /// `AllocError` where memory is refused.
    pub fn beginning(
        alloc: Global,
        text: &'t str,
        reading: &'t TreeReading,
        style: Style,
        options: Options,
    ) -> Result<Builder<'t>, AllocError> {
        let start = reading.start as usize;
        let mut builder = Builder {
            text,
            tokens: &reading.tokens,
            next: 0,
            gap: Gap::new(alloc),
            items: ItemList::new(alloc),
            run: None,
            style,
            options,
            end: start,
            line_end: 0,
            behind_comment: None,
            ignored: None,
            is_behind_space: false,
            is_lost: false,
            is_refused: false,
        };
        builder.read_beginning()?;
        Ok(builder)
    }

    /// Reads what stands before the first token.
    fn read_beginning(&mut self) -> Result<(), AllocError> {
        let start = self.end;
        let first = match self.row(0) {
            Some(row) => row.span.start as usize,
            None => self.text.len(),
        };
        if start == 0 {
            self.gap.begin_line();
        }
        self.gap.read(self.text, start, first)?;
        if start > 0 {
            let line = self.text.get(..start).unwrap_or("");
            self.push(piece(line));
            self.item_line(Item::HardLine);
        }
        Ok(())
    }

    /// The items, if the tree and the tokens agree: all tokens were passed but the end of the text.
    ///
    /// # Errors
    /// `AllocError` where memory was refused for comments.
    pub fn finished(mut self) -> Result<Option<ItemList<'t>>, AllocError> {
        self.end_run();
        let Builder {
            items,
            is_lost,
            is_refused,
            next,
            tokens,
            ..
        } = self;
        if is_refused {
            return Err(AllocError);
        }
        if is_lost || tokens.len().saturating_sub(next) != 1 {
            return Ok(None);
        }
        Ok(Some(items))
    }

    /// The tree and the tokens don't agree: nothing is answered in the end.
    pub fn lose(&mut self) {
        self.is_lost = true;
    }

    /// What the layout is asked to be.
    pub fn style(&self) -> Style {
        self.style
    }

    /// What may be chosen beside that.
    pub fn options(&self) -> Options {
        self.options
    }

    /// Where the last token ended, in bytes.
    pub fn end(&self) -> usize {
        self.end
    }

    /// Whether comments before the next token are left.
    pub fn has_comment(&self) -> bool {
        !self.gap.is_empty()
    }

    /// Whether one of them ends its line.
    pub fn has_ended_comment(&self) -> bool {
        self.gap.has_ended_comment()
    }

    /// Whether a line ends before the next token.
    pub fn has_line_end(&self) -> bool {
        self.gap.has_line_end()
    }

    /// Whether the first line end before it is followed by an empty line.
    pub fn begins_with_empty_line(&self) -> bool {
        self.gap.begins_with_empty_line()
    }

    /// The next token, or one further on.
    pub fn row(&self, ahead: usize) -> Option<TokenRow> {
        self.tokens.get(self.next.saturating_add(ahead)).copied()
    }

    /// The text of a token.
    pub fn text_of(&self, row: TokenRow) -> &'t str {
        self.text
            .get(row.span.start as usize..row.span.end as usize)
            .unwrap_or("")
    }

    /// Whether this is the text of a token.
    fn is_text_of(&self, row: TokenRow, text: &str) -> bool {
        let length = row.span.end.saturating_sub(row.span.start) as usize;
        length == text.len() && self.text_of(row) == text
    }

    /// The text of the next token, or one further on.
    pub fn peek(&self, ahead: usize) -> &'t str {
        match self.row(ahead) {
            Some(row) => self.text_of(row),
            None => "",
        }
    }

    /// Whether the next token is this punctuator or word.
    pub fn is(&self, text: &str) -> bool {
        match self.row(0) {
            Some(row) => {
                matches!(
                    row.class,
                    TokenClass::Punctuator | TokenClass::IdentifierName | TokenClass::Keyword
                ) && self.is_text_of(row, text)
            }
            None => false,
        }
    }

    /// Whether the next token is a string.
    fn is_string(&self) -> bool {
        match self.row(0) {
            Some(row) => matches!(row.class, TokenClass::StringLiteral),
            None => false,
        }
    }

    /// An item; a space behind a break that is one when flat goes, so that it isn't counted twice.
    pub fn push(&mut self, item: Item<'t>) {
        match item {
            Item::Space => {
                self.space();
                return;
            }
            Item::Line | Item::CutLine | Item::HardLine | Item::BlankLine => {
                self.is_behind_space = true
            }
            Item::Piece { .. } | Item::Lines { .. } | Item::LastOnLine { .. } => {
                self.is_behind_space = false
            }
            _ => {}
        }
        self.end_run();
        self.items.push(item);
    }

    /// A space.
    pub fn space(&mut self) {
        if self.is_behind_space {
            return;
        }
        self.is_behind_space = true;
        match self.run {
            Some(run) => self.run = Some(run.spaced()),
            None => self.items.push(Item::Space),
        }
    }

    /// The tokens that were left open are a piece.
    fn end_run(&mut self) {
        let Some(run) = self.run else {
            return;
        };
        self.run = None;
        self.items.push(Item::Piece {
            text: self.text.get(run.start..run.end).unwrap_or(""),
            columns: run.columns,
        });
        if run.is_spaced {
            self.items.push(Item::Space);
        }
    }

    /// A token of one line: of the same piece as the one before it, if the text has just what was asked for between them.
    fn push_token(&mut self, row: TokenRow, columns: u32) {
        self.is_behind_space = false;
        let start = row.span.start as usize;
        let end = row.span.end as usize;
        match self.run {
            Some(run) if run.goes_on_at(self.text, start) => {
                self.run = Some(run.with(end, columns));
            }
            _ => {
                self.end_run();
                self.run = Some(Run::of_token(start, end, columns));
            }
        }
    }

    /// A place where a line may end or must. What ends the line before it stands before it.
    pub fn line(&mut self, item: Item<'t>) {
        self.push_behind();
        self.push(item);
    }

    /// Passes the next token, so that the gap behind it follows what is in the gap.
    fn pass(&mut self) {
        let Some(row) = self.tokens.get(self.next) else {
            self.is_lost = true;
            return;
        };
        self.next += 1;
        self.end = row.span.end as usize;
        let Some(after) = self.row(0) else {
            return;
        };
        let start = after.span.start as usize;
        if self.gap.read(self.text, self.end, start).is_err() {
            self.is_refused = true;
        }
    }

    /// The next token goes; its comments stay.
    pub fn skip(&mut self) {
        self.pass();
    }

    /// All semicolons that come next go; their comments stay.
    pub fn skip_semicolons(&mut self) {
        for _ in self.next..self.tokens.len() {
            if !self.is(";") {
                return;
            }
            self.skip();
        }
    }

    /// All tokens before the next string go; their comments stay.
    pub fn skip_to_string(&mut self) {
        for _ in self.next..self.tokens.len() {
            if self.is_string() {
                return;
            }
            self.skip();
        }
    }

    /// The next token, a part of a template, as it stands.
    pub fn template_part(&mut self) {
        let text = self.peek(0);
        self.push_lead(text);
        self.push_as_it_stands(text);
        self.pass();
    }

    /// A text of one line or of several, as it stands.
    fn push_as_it_stands(&mut self, text: &'t str) {
        self.push(if has_line_end(text) {
            lines(text)
        } else {
            piece(text)
        });
    }

    /// A token that the text hasn't.
    pub fn put(&mut self, text: &'static str) {
        self.push(piece(text));
    }

    /// The next token, with the comments before it.
    pub fn any_token(&mut self) {
        let Some(row) = self.row(0) else {
            self.is_lost = true;
            return;
        };
        let text = self.text_of(row);
        if !self.gap.is_empty() && matches!(text, "?" | ":" | "." | "?.") {
            self.push_behind_in_line();
        }
        self.push_lead(text);
        self.push_token(row, columns_of_token(row, text));
        self.pass();
    }

    /// The next token, which must be this one.
    pub fn token(&mut self, text: &str) {
        match self.row(0) {
            Some(row) if self.is_text_of(row, text) => self.any_token(),
            _ => self.is_lost = true,
        }
    }

    /// Comments that end the line of the token before.
    pub fn push_behind(&mut self) {
        if self.gap.is_empty() || !self.gap.has_line_end() {
            return;
        }
        let count = self.gap.first_line();
        self.push_first(count, true);
    }

    /// The first comments of the gap, on the line of the token before, which a line end follows or not.
    fn push_first(&mut self, count: usize, ends: bool) {
        for index in 0..count {
            let Some(comment) = self.gap.get(index) else {
                break;
            };
            if (ends && index + 1 == count) || comment.is_line_comment() {
                push_last_comment(self, comment.text);
            } else {
                self.push(Item::Space);
                push_comment(self, comment.text);
            }
        }
        self.gap.pass(count);
    }

    /// Comments in the line, before a token that begins a line where its group is broken: they stand behind the token before.
    pub fn push_behind_in_line(&mut self) {
        if self.gap.has_ended_comment() {
            self.push_behind();
            return;
        }
        let count = self.gap.len();
        self.push_first(count, false);
    }

    /// The comments before the next token.
    fn push_lead(&mut self, token: &str) {
        if self.gap.is_empty() {
            self.gap.clear();
            return;
        }
        self.push_behind();
        let is_tight = matches!(token, "," | ";" | ")" | "]" | "." | "?.");
        let count = self.gap.len();
        let mut is_after_own = false;
        for index in 0..count {
            let Some(comment) = self.gap.get(index) else {
                break;
            };
            let begins = comment.before.is_some()
                && (is_after_own || self.gap.has_line_end_from(index + 1));
            self.push_break_before(comment, begins, is_after_own);
            if self.is_last_on_line(index) {
                push_last_comment(self, comment.text);
                is_after_own = true;
            } else {
                push_comment(self, comment.text);
                if !is_tight || index + 1 < count {
                    self.push(Item::Space);
                }
            }
        }
        if is_after_own && matches!(self.gap.after, LineEnds::More) {
            self.push(Item::BlankLine);
        }
        self.gap.clear();
    }

    /// What stands before a comment: a line end if it begins a line, with an empty line if that is kept.
    fn push_break_before(&mut self, comment: Comment<'_>, begins: bool, keeps_empty: bool) {
        if begins && keeps_empty && matches!(comment.before, LineEnds::More) {
            self.push(Item::BlankLine);
        } else if begins {
            self.push(Item::HardLine);
        } else if !self.is_behind_bracket() {
            self.push(Item::Space);
        }
    }

    /// Whether nothing was written since an opening bracket.
    fn is_behind_bracket(&self) -> bool {
        let last = self.text.as_bytes().get(self.end.saturating_sub(1));
        self.end > 0 && !self.gap.is_begun() && matches!(last, Some(b'(' | b'[' | b'{'))
    }

    /// Whether a line ends right behind a comment of the gap.
    fn is_last_on_line(&self, index: usize) -> bool {
        match self.gap.get(index.saturating_add(1)) {
            Some(next) => next.before.is_some(),
            None => self.gap.after.is_some(),
        }
    }

    /// The comments before the next token, outside of the groups that begin with it.
    pub fn lead(&mut self) {
        if self.gap.is_empty() {
            return;
        }
        self.note_last_comment();
        let text = self.peek(0);
        self.push_lead(text);
    }

    /// Notes what the last comment of the gap says of the next token.
    fn note_last_comment(&mut self) {
        if !self.gap.after.is_some() {
            self.behind_comment = Some(self.next);
        }
        let last = self.gap.get(self.gap.len().saturating_sub(1));
        if last.is_some_and(|c| c.is_ignoring()) {
            self.ignored = Some(self.next);
        }
    }

    /// All comments before a closing bracket, at the depth of what it closes.
    pub fn push_closing(&mut self, has_items: bool) {
        self.push_behind();
        let count = self.gap.len();
        for index in 0..count {
            let Some(comment) = self.gap.get(index) else {
                break;
            };
            let begins = comment.before.is_some();
            self.push_break_before(comment, begins, has_items || index > 0);
            if self.is_last_on_line(index) || comment.is_line_comment() {
                push_last_comment(self, comment.text);
            } else {
                push_comment(self, comment.text);
            }
        }
        self.gap.clear();
    }

    /// `,` or an operator of two operands: comments that end their line move over it.
    pub fn token_before_comments(&mut self, text: &str) {
        if !self.gap.has_ended_comment() {
            self.token(text);
            return;
        }
        let Some(row) = self.row(0) else {
            self.is_lost = true;
            return;
        };
        let found = self.text_of(row);
        if found != text {
            self.is_lost = true;
            return;
        }
        self.push(piece(found));
        self.pass();
    }

    /// `;` at the end of a statement, right behind the token before it, unless comments before it stay on its line.
    pub fn semicolon(&mut self) {
        if !self.is(";") {
            self.put(";");
            return;
        }
        if self.gap.has_ended_comment() {
            self.put(";");
            self.skip();
            return;
        }
        self.gap.join_lines();
        self.token(";");
    }

    /// The line end between two items of a list, with an empty line if the text has one.
    pub fn item_line(&mut self, item: Item<'t>) {
        let is_empty = self.gap.begins_with_empty_line();
        self.line(if is_empty { Item::BlankLine } else { item });
    }

    /// A comma behind the last item, where the list is broken.
    pub fn last_comma(&mut self, is_allowed: bool) {
        if self.is(",") {
            self.skip();
        }
        if is_allowed {
            self.push(Item::IfBroken {
                text: ",",
                columns: 1,
            });
        }
    }

    /// Whether comments stand between two parts of the text between which are no other tokens than punctuators.
    pub fn has_comments_between(&self, from: usize, to: usize) -> bool {
        self.text
            .get(from..to)
            .unwrap_or("")
            .as_bytes()
            .contains(&b'/')
    }

    /// Whether comments or an empty line stand there.
    pub fn has_gap_between(&self, from: usize, to: usize) -> bool {
        let between = self.text.get(from..to).unwrap_or("").as_bytes();
        self.has_comments_between(from, to) || between.iter().filter(|c| **c == b'\n').count() > 1
    }

    /// Whether a comment ends its line behind a place, closing parentheses aside, and before the next token.
    pub(crate) fn has_ended_comment_behind(&self, from: usize) -> bool {
        begins_with_ended_comment(self.text.get(from..).unwrap_or(""))
    }

    /// Whether a line ends between the last token and a place behind it. What is asked for goes on in the text, so each line end is looked for
    /// once.
    pub fn has_line_end_before(&mut self, place: usize) -> bool {
        if self.line_end < self.end {
            let rest = self.text.get(self.end..).unwrap_or("");
            self.line_end = match rest.find('\n') {
                Some(more) => self.end.saturating_add(more),
                None => self.text.len(),
            };
        }
        self.line_end < place
    }

    /// Whether a comment stands right before the next token, on its line.
    pub fn is_behind_comment(&self) -> bool {
        self.behind_comment == Some(self.next)
    }

    /// Writes an item as it stands, if the comment before it asks for that.
    pub fn is_ignored(&mut self, node: Node<'_, '_>) -> bool {
        if self.ignored != Some(self.next) {
            return false;
        }
        let span = node.span();
        let text = self.text.get(span.start..span.end).unwrap_or("");
        self.push_as_it_stands(text);
        self.pass_to(span.end);
        true
    }

    /// Passes the tokens up to a place, and what stands between them.
    fn pass_to(&mut self, end: usize) {
        self.pass_tokens(end);
        self.end = end;
        self.gap.clear();
        let start = match self.row(0) {
            Some(row) => row.span.start as usize,
            None => end,
        };
        if self.gap.read(self.text, end, start).is_err() {
            self.is_refused = true;
        }
    }

    /// Passes the tokens that begin before a place.
    fn pass_tokens(&mut self, end: usize) {
        for _ in self.next..self.tokens.len() {
            match self.tokens.get(self.next) {
                Some(row) if (row.span.start as usize) < end => self.next += 1,
                _ => return,
            }
        }
    }

    /// How many parentheses that group begin here, before the node.
    pub fn group_count(&self, node: Node<'_, '_>) -> usize {
        let start = node.span().start;
        let rest = self.tokens.get(self.next..).unwrap_or(&[]);
        for (count, row) in rest.iter().enumerate() {
            if !row.is_grouping || row.span.start as usize >= start || self.text_of(*row) != "(" {
                return count;
            }
        }
        rest.len()
    }
}

/// A piece with its columns: its characters, up to its first line end if it has one (a string that goes on behind a backslash).
pub(crate) fn piece(text: &str) -> Item<'_> {
    Item::Piece {
        text,
        columns: columns_of(text),
    }
}

/// The columns of a token: a string may have several lines, and other tokens that are pieces have one.
fn columns_of_token(row: TokenRow, text: &str) -> u32 {
    match row.class {
        TokenClass::StringLiteral | TokenClass::Template => columns_of(text),
        _ => characters_of(text),
    }
}

/// The characters of a text: bytes that aren't later ones of a character.
fn characters_of(text: &str) -> u32 {
    let bytes = text.as_bytes().iter();
    u32::try_from(bytes.filter(|c| !matches!(**c, 128..=191)).count()).unwrap_or(u32::MAX)
}

/// The characters of the first line of a text.
pub(crate) fn columns_of(text: &str) -> u32 {
    u32::try_from(text.chars().take_while(|c| *c != '\n').count()).unwrap_or(u32::MAX)
}
