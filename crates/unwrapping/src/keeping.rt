//! Whether an unwrapped text keeps the tokens of a text, and what stands between them.

ghost use Rattle.std.specs.Prelude.{◌≡◌, ◌≤◌, true, false, [], ◌∷◌, ℕ, List, length, take, IfOk, IfSome, IsTrue};
ghost use Rattle.tokens.specs.Lexical.{is_one_of_words};
ghost use Rattle.tree.specs.Tree.{Tree};
ghost use Rattle.tree.specs.declared.kind.Pair.{Pair};
ghost use Rattle.unwrapping.specs.Keeps.{Keeps, first_ends_line, last_ends_line};
ghost use Rattle.unwrapping.specs.Readings.{bytes_in, comments_in, IsRead};
ghost use Rattle.unwrapping.specs.Comparing.{AreSameRows, BeginsAlike, BeginsWith, Cancels, IsSameRest, IsShorter, KeepsRows, Leads, PassesRow, Settles, begins_call, from_rows, leads_rows, may_be_ended_before, next_is, next_is_grouping};

use crate::comment::{CommentRow, ends_line, push_comments};
use crate::gap::comment_count;
use crate::reading::{ByteSpan, TokenRow, TreeReading, tree_reading};
use source_text::Source;
use std::alloc::{AllocError, Global};
use tree::{Pair, Program};

/// What is left of one of two texts that are compared.
#[derive(Drop)]
pub(crate) struct Rest<'t> {
    /// The rows of its tokens.
    rows: &'t [TokenRow],
    /// Where the token before them ends, in bytes.
    at: u32,
    /// The comments before it that weren't found in the other text yet.
    passed: Vec<CommentRow>,
}

impl<'t> Rest<'t> {
    /// All of a text from a place on; no memory.
    fn all(alloc: Global, rows: &'t [TokenRow], at: u32) -> Rest<'t>
        ensures rows { result.rows.now ≡ rows.now }
        ensures at { result.at ≡ at }
        ensures passed { result.passed.items ≡ [] }
    {
        Rest {
            rows,
            at,
            passed: Vec::new(alloc),
        }
    }

    /// Passes a token with the comments before it, and says whether there is one, and nothing but blanks and comments before it.
    fn pass(&mut self, source: &Source<'_>) -> Result<bool, AllocError>
        ensures { IfOk result (λ passed. passed ≡ true → PassesRow source.now self.old self.new) }
    {
        let Some(row) = self.rows.first() else {
            return Ok(false);
        };
        let span = row.span;
        let passed = push_comments(source, self.at, span.start, &mut self.passed)?;
        if passed {
            self.at = span.end;
            self.rows = &self.rows[1..];
        }
        Ok(passed)
    }

    /// The gap before a token.
    fn gap(&self, row: TokenRow) -> ByteSpan
        ensures start { result.start ≡ self.now.at }
        ensures end { result.end ≡ row.span.start }
    {
        ByteSpan {
            start: self.at,
            end: row.span.start,
        }
    }

    /// The gap before the next token; at the end of the text nothing.
    fn next_gap(&self) -> ByteSpan {
        match self.rows.first() {
            Some(row) => self.gap(*row),
            None => ByteSpan { start: 0, end: 0 },
        }
    }

    /// How many comments stand before the next token that weren't found in the other text yet.
    fn comment_count(&self, text: &[u8]) -> usize {
        let before = match self.next_gap().bytes_in(text) {
            Some(gap) => comment_count(gap),
            None => 0,
        };
        before.saturating_add(self.passed.len())
    }

    /// Whether a grouping parenthesis comes next.
    fn is_grouping(&self) -> bool
        ensures { result ≡ next_is_grouping self.now.rows.now }
    {
        match self.rows.first() {
            Some(row) => row.is_grouping,
            None => false,
        }
    }
}

/// Whether the same bytes are in two spans.
#[inline]
fn are_same(text: &[u8], span: ByteSpan, other: &[u8], other_span: ByteSpan) -> bool
    ensures { result ≡ true → bytes_in text.now span ≡ bytes_in other.now other_span }
{
    let Some(bytes) = span.bytes_in(text) else {
        return false;
    };
    let Some(others) = other_span.bytes_in(other) else {
        return false;
    };
    bytes == others
}

/// Whether two tokens are of one class and have the same characters.
#[inline]
fn are_same_tokens(text: &[u8], row: TokenRow, other: &[u8], other_row: TokenRow) -> bool
    ensures { result ≡ true → AreSameRows text.now row other.now other_row }
{
    if row.class != other_row.class {
        return false;
    }
    are_same(text, row.span, other, other_row.span)
}

/// Whether a token is `(`.
fn is_opening(text: &[u8], row: TokenRow) -> bool
    ensures { result ≡ true → IsTrue (is_one_of_words ("(" ∷ []) (bytes_in text.now row.span)) }
{
    match row.span.bytes_in(text) {
        Some([b'(']) => true,
        _ => false,
    }
}

/// Whether a token is `)`.
fn is_closing(text: &[u8], row: TokenRow) -> bool
    ensures { result ≡ true → IsTrue (is_one_of_words (")" ∷ []) (bytes_in text.now row.span)) }
{
    match row.span.bytes_in(text) {
        Some([b')']) => true,
        _ => false,
    }
}

/// Whether a token is `;`.
fn is_semicolon(text: &[u8], row: TokenRow) -> bool
    ensures { result ≡ true → IsTrue (is_one_of_words (";" ∷ []) (bytes_in text.now row.span)) }
{
    match row.span.bytes_in(text) {
        Some([b';']) => true,
        _ => false,
    }
}

/// Whether a token is `++` or `--`.
#[inline]
fn is_update(text: &[u8], row: TokenRow) -> bool
    ensures { result ≡ true → IsTrue (is_one_of_words ("++" ∷ "--" ∷ []) (bytes_in text.now row.span)) }
{
    match row.span.bytes_in(text) {
        Some([b'+', b'+'] | [b'-', b'-']) => true,
        _ => false,
    }
}

/// Whether no line may end after a token.
#[inline(always)]
fn binds_next(text: &[u8], row: TokenRow) -> bool
    ensures { result ≡ true → IsTrue (is_one_of_words ("return" ∷ "throw" ∷ "yield" ∷ []) (bytes_in text.now row.span)) }
{
    let Some(bytes) = row.span.bytes_in(text) else {
        return false;
    };
    if bytes == b"return".as_slice() || bytes == b"throw".as_slice() {
        return true;
    }
    bytes == b"yield".as_slice()
}

/// Whether a token is `}`.
fn is_closing_brace(text: &[u8], row: TokenRow) -> bool
    ensures { result ≡ true → IsTrue (is_one_of_words ("}" ∷ []) (bytes_in text.now row.span)) }
{
    match row.span.bytes_in(text) {
        Some([b'}']) => true,
        _ => false,
    }
}

/// Whether, grouping parentheses aside, the word `from` comes next.
fn comes_from(text: &[u8], rows: &[TokenRow]) -> bool
    ensures { result ≡ true → from_rows text.now rows.now ≡ true }
{
    for row in rows {
        if !row.is_grouping {
            return match row.span.bytes_in(text) {
                Some(bytes) => bytes == b"from".as_slice(),
                None => false,
            };
        }
    }
    false
}

/// Whether a `;` may come behind a token of the unwrapped text, before these tokens of the text.
fn may_be_ended(unwrapped: &[u8], other: TokenRow, text: &[u8], rows: &[TokenRow]) -> bool
    ensures { result ≡ true → may_be_ended_before (bytes_in unwrapped.now other.span) text.now rows.now ≡ true }
{
    if is_update(unwrapped, other) {
        return true;
    }
    if !is_closing_brace(unwrapped, other) {
        return false;
    }
    comes_from(text, rows)
}

/// Whether a grouping parenthesis comes next, perhaps behind words that no line may end after.
fn leads_to_group(text: &[u8], rows: &[TokenRow]) -> bool
    ensures { result ≡ true → leads_rows text.now rows.now ≡ true }
{
    for row in rows {
        if row.is_grouping {
            return true;
        }
        if !binds_next(text, *row) {
            return false;
        }
    }
    false
}

/// Whether no line may end before a token, or none ends there in the usual layout.
fn binds_last(text: &[u8], row: TokenRow) -> bool
    ensures { result ≡ true → IsTrue (is_one_of_words ("++" ∷ "--" ∷ ";" ∷ "," ∷ []) (bytes_in text.now row.span)) }
{
    match row.span.bytes_in(text) {
        Some([b'+', b'+'] | [b'-', b'-'] | [b';'] | [b',']) => true,
        _ => false,
    }
}

/// Whether the first comments of a list are those of another, which isn't longer.
fn begin_alike(text: &[u8], comments: &[CommentRow], other: &[u8], others: &[CommentRow]) -> bool
    requires { length others.now ≤ length comments.now }
    ensures { result ≡ true → comments_in text.now (take (length others.now) comments.now) ≡ comments_in other.now others.now }
{
    for index in 0..others.len() {
        let (comment, like) = (comments[index], others[index]);
        if comment.has_line_end != like.has_line_end {
            return false;
        }
        if !are_same(text, comment.span, other, like.span) {
            return false;
        }
    }
    true
}

/// Takes the comments of a list from the front of another, which isn't shorter, and says whether they are there.
#[inline(always)]
fn cancel_front(
    text: &[u8],
    comments: &mut Vec<CommentRow>,
    other: &[u8],
    others: &mut Vec<CommentRow>,
) -> Result<bool, AllocError>
    requires { length others.old.items ≤ length comments.old.items }
    ensures { IfOk result (λ are. are ≡ true → Cancels text.now comments.old.items comments.new.items other.now others.old.items others.new.items) }
{
    if others.is_empty() {
        return Ok(true);
    }
    if !begin_alike(text, comments, other, others) {
        return Ok(false);
    }
    let left = comments.split_off(others.len())?;
    *comments = left;
    others.clear();
    Ok(true)
}

/// What is left of a text and of its unwrapped text.
#[derive(Drop)]
pub(crate) struct Comparison<'t> {
    text: Rest<'t>,
    unwrapped: Rest<'t>,
    /// How many comments stand before the text's next token that weren't found in the unwrapped text yet, where a `()` has come before it.
    comment_count: Option<usize>,
    /// Whether a `;` may come behind the last token that was kept.
    may_end: bool,
    /// Whether nothing has gone, come or moved since.
    alike: bool,
}

impl<'t> Comparison<'t> {
    /// Whether all was compared, and each comment found.
    fn is_done(&self) -> bool
        ensures rows { result ≡ true → self.now.text.rows.now ≡ [] }
        ensures others { result ≡ true → self.now.unwrapped.rows.now ≡ [] }
        ensures passed { result ≡ true → self.now.text.passed.items ≡ [] }
        ensures passed_again { result ≡ true → self.now.unwrapped.passed.items ≡ [] }
    {
        self.text.rows.is_empty()
            && self.unwrapped.rows.is_empty()
            && self.text.passed.is_empty()
            && self.unwrapped.passed.is_empty()
    }

    /// Whether `()` comes next in the unwrapped text, and isn't one that comes next in the text.
    fn is_called(&self, text: &[u8], unwrapped: &[u8]) -> bool
        ensures { result ≡ true → begins_call unwrapped.now self.now.unwrapped.rows.now ≡ true }
    {
        if !begins_call(unwrapped, self.unwrapped.rows) {
            return false;
        }
        !begins_call(text, self.text.rows) || !self.is_same_call(text, unwrapped)
    }

    /// Whether a `()` that comes next in both texts is the same: it has the same bytes inside, and as many comments before it, or where nothing
    /// has changed the same bytes.
    fn is_same_call(&self, text: &[u8], unwrapped: &[u8]) -> bool {
        let (call, other) = (self.text.rows, self.unwrapped.rows);
        if !are_same(text, inside_call(call), unwrapped, inside_call(other)) {
            return false;
        }
        if self.alike {
            return are_same(
                text,
                self.text.next_gap(),
                unwrapped,
                self.unwrapped.next_gap(),
            );
        }
        self.comment_count(text) == self.unwrapped.comment_count(unwrapped)
    }

    /// How many comments stand before the text's next token that weren't found in the unwrapped text yet. However many `()` come before it,
    /// they are counted twice at most.
    fn comment_count(&self, text: &[u8]) -> usize {
        match self.comment_count {
            Some(count) => count,
            None => self.text.comment_count(text),
        }
    }

    /// Whether a `;` comes next in the unwrapped text, and may.
    fn is_ended(&self, unwrapped: &[u8]) -> bool
        ensures may_end { result ≡ true → self.now.may_end ≡ true }
        ensures semicolon { result ≡ true → next_is (";" ∷ []) unwrapped.now self.now.unwrapped.rows.now ≡ true }
    {
        self.may_end
            && match self.unwrapped.rows.first() {
                Some(row) => is_semicolon(unwrapped, *row),
                None => false,
            }
    }

    /// The rows that come next, if they have the same token.
    fn next_alike(&self, text: &[u8], unwrapped: &[u8]) -> Option<(TokenRow, TokenRow)>
        ensures row { IfSome result (λ found. BeginsWith self.now.text.rows.now found.0) }
        ensures other { IfSome result (λ found. BeginsWith self.now.unwrapped.rows.now found.1) }
        ensures same { IfSome result (λ found. AreSameRows text.now found.0 unwrapped.now found.1) }
    {
        let Some(row) = self.text.rows.first() else {
            return None;
        };
        let Some(other) = self.unwrapped.rows.first() else {
            return None;
        };
        if !are_same_tokens(text, *row, unwrapped, *other) {
            return None;
        }
        Some((*row, *other))
    }

    /// One turn: a grouping parenthesis goes or comes, or `()` or a `;` comes, or a token is kept. Says whether one of these may be.
    ///
    /// # Errors
    ///
    /// `AllocError` where memory is refused.
    fn turn(&mut self, source: &Source<'_>, unwrapped: &Source<'_>) -> Result<bool, AllocError>
        ensures leads { IfOk result (λ is. is ≡ true → Leads source.now unwrapped.now self.old self.new) }
        ensures fewer { IfOk result (λ is. is ≡ true → IsShorter self.old self.new) }
    {
        if self.text.is_grouping() {
            self.alike = false;
            self.comment_count = None;
            return self.text.pass(source);
        }
        if self.unwrapped.is_grouping() {
            self.alike = false;
            return self.unwrapped.pass(unwrapped);
        }
        if self.is_called(source.bytes(), unwrapped.bytes()) {
            return self.call(source.bytes(), unwrapped);
        }
        if let Some((row, other)) = self.next_alike(source.bytes(), unwrapped.bytes()) {
            return self.keep(source, row, unwrapped, other);
        }
        if self.is_ended(unwrapped.bytes()) {
            return self.end(unwrapped);
        }
        Ok(false)
    }

    /// A `;` comes.
    fn end(&mut self, unwrapped: &Source<'_>) -> Result<bool, AllocError>
        requires may_end { self.old.may_end ≡ true }
        requires semicolon { next_is (";" ∷ []) unwrapped.now self.old.unwrapped.rows.now ≡ true }
        ensures leads { IfOk result (λ is. is ≡ true → (text : List ℕ) → Leads text unwrapped.now self.old self.new) }
        ensures fewer { IfOk result (λ is. is ≡ true → IsShorter self.old self.new) }
    {
        self.alike = false;
        self.may_end = false;
        self.unwrapped.pass(unwrapped)
    }

    /// `()` comes.
    fn call(&mut self, text: &[u8], unwrapped: &Source<'_>) -> Result<bool, AllocError>
        requires { begins_call unwrapped.now self.old.unwrapped.rows.now ≡ true }
        ensures leads { IfOk result (λ is. is ≡ true → (text : List ℕ) → Leads text unwrapped.now self.old self.new) }
        ensures fewer { IfOk result (λ is. is ≡ true → IsShorter self.old self.new) }
    {
        self.comment_count = Some(self.comment_count(text));
        self.alike = false;
        self.may_end = false;
        let opened = self.unwrapped.pass(unwrapped)?;
        if !opened {
            return Ok(false);
        }
        self.unwrapped.pass(unwrapped)
    }

    /// A token is kept, with the comments before it.
    fn keep(
        &mut self,
        source: &Source<'_>,
        row: TokenRow,
        unwrapped: &Source<'_>,
        other: TokenRow,
    ) -> Result<bool, AllocError>
        requires row { BeginsWith self.old.text.rows.now row }
        requires other { BeginsWith self.old.unwrapped.rows.now other }
        requires same { AreSameRows source.now row unwrapped.now other }
        ensures leads { IfOk result (λ is. is ≡ true → Leads source.now unwrapped.now self.old self.new) }
        ensures fewer { IfOk result (λ is. is ≡ true → IsShorter self.old self.new) }
    {
        let text = source.bytes();
        let again = unwrapped.bytes();
        let stays = self.stays(text, row, again, other);
        let may_follow = self.may_follow(text, row);
        self.comment_count = None;
        let passed = self.text.pass(source)?;
        let passed_again = self.unwrapped.pass(unwrapped)?;
        if !passed || !passed_again {
            return Ok(false);
        }
        self.may_end = may_be_ended(again, other, text, self.text.rows);
        let may_lead = self.may_lead(text, row);
        self.settle(text, again, stays, may_lead, may_follow)
    }

    /// Whether the bytes before a token stay, if they have to.
    fn stays(&self, text: &[u8], row: TokenRow, unwrapped: &[u8], other: TokenRow) -> bool
        ensures { result ≡ true → self.now.alike ≡ true → bytes_in text.now (record { start = self.now.text.at; end = row.span.start }) ≡ bytes_in unwrapped.now (record { start = self.now.unwrapped.at; end = other.span.start }) }
    {
        if !self.alike {
            return true;
        }
        are_same(
            text,
            self.text.gap(row),
            unwrapped,
            self.unwrapped.gap(other),
        )
    }

    /// Whether comments that stand before a token may move after it.
    fn may_follow(&self, text: &[u8], row: TokenRow) -> bool
        ensures alike { result ≡ true → self.now.alike ≡ false }
        ensures word { result ≡ true → IsTrue (is_one_of_words ("++" ∷ "--" ∷ ";" ∷ "," ∷ []) (bytes_in text.now row.span)) }
    {
        if self.alike {
            return false;
        }
        binds_last(text, row)
    }

    /// Whether comments that stand after a token, which was passed, may move before it.
    fn may_lead(&self, text: &[u8], row: TokenRow) -> bool
        ensures word { result ≡ true → IsTrue (is_one_of_words ("return" ∷ "throw" ∷ "yield" ∷ []) (bytes_in text.now row.span)) }
        ensures next { result ≡ true → leads_rows text.now self.now.text.rows.now ≡ true }
    {
        if !binds_next(text, row) {
            return false;
        }
        leads_to_group(text, self.text.rows)
    }

    /// Takes the comments that both texts have off their lists, and says whether those that are left may move over the token that was
    /// passed: before it or after it.
    fn settle(
        &mut self,
        text: &[u8],
        unwrapped: &[u8],
        stays: bool,
        may_lead: bool,
        may_follow: bool,
    ) -> Result<bool, AllocError>
        ensures settles { IfOk result (λ is. is ≡ true → Settles stays may_lead may_follow (comments_in text.now self.old.text.passed.items) (comments_in unwrapped.now self.old.unwrapped.passed.items)
            (comments_in text.now self.new.text.passed.items) (comments_in unwrapped.now self.new.unwrapped.passed.items) self.new.alike) }
        ensures rest { IfOk result (λ is. is ≡ true → IsSameRest self.old self.new) }
    {
        let is_front = self.text.passed.len() < self.unwrapped.passed.len();
        let are_found = match is_front {
            true => cancel_front(
                unwrapped,
                &mut self.unwrapped.passed,
                text,
                &mut self.text.passed,
            )?,
            false => cancel_front(
                text,
                &mut self.text.passed,
                unwrapped,
                &mut self.unwrapped.passed,
            )?,
        };
        if !are_found {
            return Ok(false);
        }
        self.alike = false;
        if is_front {
            return Ok(may_lead && last_ends_line(unwrapped, &self.unwrapped.passed));
        }
        if !self.text.passed.is_empty() {
            return Ok(may_follow && first_ends_line(text, &self.text.passed));
        }
        self.alike = true;
        Ok(stays)
    }
}

/// Whether a line ends with the first comment of a list.
fn first_ends_line(text: &[u8], comments: &[CommentRow]) -> bool
    ensures { result ≡ true → first_ends_line (comments_in text.now comments.now) ≡ true }
{
    match comments.first() {
        Some(comment) => ends_line(text, *comment),
        None => false,
    }
}

/// Whether a line ends with the last comment of a list.
fn last_ends_line(text: &[u8], comments: &[CommentRow]) -> bool
    ensures { result ≡ true → last_ends_line (comments_in text.now comments.now) ≡ true }
{
    match comments.last() {
        Some(comment) => ends_line(text, *comment),
        None => false,
    }
}

/// Whether `()` comes next.
fn begins_call(text: &[u8], rows: &[TokenRow]) -> bool
    ensures { result ≡ true → begins_call text.now rows.now ≡ true }
{
    match rows {
        [opening, closing, ..] => is_opening(text, *opening) && is_closing(text, *closing),
        _ => false,
    }
}

/// What stands between `(` and `)`, if these come next.
fn inside_call(rows: &[TokenRow]) -> ByteSpan {
    match rows {
        [opening, closing, ..] => ByteSpan {
            start: opening.span.end,
            end: closing.span.start,
        },
        _ => ByteSpan { start: 0, end: 0 },
    }
}

/// Whether the tokens of a text are kept in another, and what stands between them.
fn are_kept(
    alloc: Global,
    source: &Source<'_>,
    reading: &TreeReading,
    unwrapped: &Source<'_>,
    again: &TreeReading,
) -> Result<bool, AllocError>
    ensures { IfOk result (λ are. are ≡ true → KeepsRows reading.now.start source.now reading.now.tokens.items again.now.start unwrapped.now again.now.tokens.items) }
{
    let mut left = Comparison {
        text: Rest::all(alloc, &reading.tokens, reading.start),
        unwrapped: Rest::all(alloc, &again.tokens, again.start),
        comment_count: None,
        may_end: false,
        alike: true,
    };
    while !left.is_done() {
        if !left.turn(source, unwrapped)? {
            return Ok(false);
        }
    }
    Ok(true)
}

/// Whether the same bytes stand before the first tokens' beginnings: the line of `#!`, or none.
fn begin_alike_before(
    source: &Source<'_>,
    reading: &TreeReading,
    unwrapped: &Source<'_>,
    again: &TreeReading,
) -> bool
    ensures { result ≡ true → BeginsAlike source.now reading.now.start unwrapped.now again.now.start }
{
    let line = ByteSpan {
        start: 0,
        end: reading.start,
    };
    let line_again = ByteSpan {
        start: 0,
        end: again.start,
    };
    let (text, text_again) = (source.text(), unwrapped.text());
    are_same(text.as_bytes(), line, text_again.as_bytes(), line_again)
}

/// Whether an unwrapped text keeps the tokens of a text, and the comments and bytes between them. `reading` is what was read of the text,
/// whose grouping pairs are `pairs`; `program` is the script of the unwrapped text, and `pairs_again` are its grouping pairs. Steps and
/// memory grow with both texts and the tree.
///
/// # Errors
///
/// `AllocError` where memory is refused.
pub fn keeps(
    alloc: Global,
    source: &Source<'_>,
    reading: &TreeReading,
    unwrapped: &Source<'_>,
    program: &Program<'_>,
    pairs_again: &[Pair],
) -> Result<bool, AllocError>
    ensures { IfOk result (λ keeps. keeps ≡ true → (n : Tree) (pairs : List Pair) → IsRead source.now n pairs reading.now → Keeps source.now n pairs unwrapped.now program.now pairs_again.now) }
{
    let Some(again) = tree_reading(alloc, unwrapped, program, pairs_again)? else {
        return Ok(false);
    };
    if !begin_alike_before(source, reading, unwrapped, &again) {
        return Ok(false);
    }
    are_kept(alloc, source, reading, unwrapped, &again)
}
