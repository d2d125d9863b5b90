//! The next token of a text, by goal.

ghost use Rattle.std.specs.Prelude.{◌≡◌, ◌≢◌, ◌≤◌, ◌<◌, ◌+◌, ◌-◌, ℕ, true, false, IfOk, IfErr, IfSome, IfNone, slice_index_or};
ghost use Rattle.tokens.specs.Tokens.{LexicalToken};
ghost use Rattle.tokens.specs.Scanned.{token_of};
ghost use Rattle.tokens.specs.Reading.{Reads};
ghost use Rattle.tokens.specs.declared.token.TokenClass.{TokenClass as LexicalClass};
ghost use Rattle.tokens.specs.declared.token.Goal.{Goal as LexicalGoal};
ghost use Rattle.source_text.specs.Source.{IsPlace};
ghost use Rattle.language.specs.Token.{Token as Read, as_read};
ghost use Rattle.language.specs.Edges.{is_semicolon};
ghost use Rattle.language.specs.Claims.{max_open};
ghost use Rattle.language.specs.Languages.{is_of_2022, seen_in, beginning_in};
ghost use Rattle.token_cursor.specs.SourceText.{SeenNext, unseen};
ghost use Rattle.token_cursor.specs.StatementEnds.{EndsAt, IsEnd};
ghost use Rattle.token_cursor.specs.CursorState.{depends, Ahead, IsAhead, IsAheadBySome, NoneAhead, IsSeenScan, OnlyEnd, IsPlaceFrom, IsSyntax, Passes};

use crate::semicolon::{StatementEnd, is_punctuator, may_omit_semicolon};
use crate::token_tests::is_name_token;
use language::Language;
use language::limits::MAX_OPEN;
use source_text::{Fault, Source};
use std::marker::Model;
use tokens::{Goal, ScanFault, Token, TokenClass, hashbang_end, scan};

/// A place between two tokens of a text, with the parentheses that are open there and count. The tokens are as the language of the text
/// sees them.
#[derive(Drop)]
pub struct Cursor<'t, 's> {
    source: &'t Source<'s>,
    last: Token<'s>,
    opened: u32,
    language: Language,
    // What stands ahead, by the goal Div.
    ahead: Result<Token<'s>, ScanFault>,
}

impl<'t, 's> Model for Cursor<'t, 's> {
    ghost use Rattle.std.specs.Prelude.{◌≤◌};
    ghost use Rattle.source_text.specs.Source.{IsPlace};
    ghost use Rattle.tokens.specs.declared.token.Goal.TheVariants.{Div};
    ghost use Rattle.tokens.specs.Scanned.{token_of};
    ghost use Rattle.language.specs.Token.{as_read};
    ghost use Rattle.language.specs.Claims.{max_open};
    ghost use Rattle.std.specs.Prelude.{◌≡◌};
    ghost use Rattle.language.specs.Languages.{seen_in};
    ghost use Rattle.token_cursor.specs.SourceText.{unseen};
    ghost use Rattle.token_cursor.specs.CursorState.{CursorState, Ahead};

    ghost Value = { CursorState };

    ghost view = { λ c. record { text = record { bytes = c.source.now; language = c.language }; last = unseen (as_read (token_of c.last)); opened = c.opened } };

    ghost invariant = { λ c. IsPlace c.source.now c.last.end × (c.opened ≤ max_open) × Ahead Div (record { bytes = c.source.now; language = c.language }) c.last.end c.ahead × (seen_in c.language (unseen (as_read (token_of c.last))) ≡ as_read (token_of c.last)) };
}

/// The token that the goal reads after a place, in bytes, as the text has it.
fn scan_after<'s>(source: &Source<'s>, at: usize, goal: Goal) -> Result<Token<'s>, ScanFault>
    requires { IsPlace source.now at }
    ensures { Ahead goal (record { bytes = source.now; language = Language.Base }) at result }
{
    let _text = source.text();
    scan(source, at, goal)
}

/// Whether a text in this language is one of ECMAScript 2022.
#[inline(always)]
fn is_of_2022(language: Language) -> bool
    ensures { result ≡ is_of_2022 language }
{
    match language {
        Language::Base => false,
        Language::Script | Language::Module => true,
    }
}

/// Sees a scanned token as texts of ECMAScript 2022 do: a name that they reserve, and the base profile doesn't, is a keyword.
#[inline(never)]
fn see_keyword(scanned: &mut Result<Token<'_>, ScanFault>)
    ensures { IsSeenScan scanned.old scanned.new }
{
    let Ok(token) = scanned else {
        return;
    };
    if is_name_token(token, "await") {
        token.class = TokenClass::Keyword;
    }
}

/// The token that the goal Div reads after a place, in bytes, as the language sees it.
fn scan_in<'s>(source: &Source<'s>, at: usize, language: Language) -> Result<Token<'s>, ScanFault>
    requires { IsPlace source.now at }
    ensures { Ahead LexicalGoal.Div (record { bytes = source.now; language = language }) at result }
{
    let mut scanned = scan_after(source, at, Goal::Div);
    if is_of_2022(language) {
        see_keyword(&mut scanned);
    }
    scanned
}

/// Whether another goal may read another token there: it begins with `/` or `}`.
fn depends_on_goal(token: &Token<'_>) -> bool
    ensures { result ≡ depends (token_of token.now).text }
{
    match token.text.as_bytes().first() {
        Some(first) => *first == b'/' || *first == b'}',
        None => false,
    }
}

/// Whether the token is `;`.
fn is_semicolon(token: &Token<'_>) -> bool
    ensures { result ≡ is_semicolon (as_read (token_of token.now)) }
{
    is_punctuator(token, b';')
}

impl<'t, 's> Cursor<'t, 's> {
    /// Before the first token of a text in this language, behind the line of `#!` in those of ECMAScript 2022, with no parenthesis open.
    pub fn new(source: &'t Source<'s>, language: Language) -> Cursor<'t, 's>
        ensures text { result.text ≡ record { bytes = source.now; language = language } }
        ensures last { result.last ≡ beginning_in language source.now }
        ensures none { result.opened ≡ 0 }
    {
        let text = source.text();
        let at = match is_of_2022(language) {
            true => hashbang_end(text),
            false => 0,
        };
        let last = Token {
            class: TokenClass::End,
            text: "",
            start: 0,
            end: at,
            after_break: false,
        };
        let ahead = scan_in(source, at, language);
        Cursor {
            source,
            last,
            opened: 0,
            language,
            ahead,
        }
    }

    /// The language of the text.
    #[inline(always)]
    pub fn language(&self) -> Language
        ensures { result ≡ self.now.text.language }
    {
        self.language
    }

    /// Whether the text is one of ECMAScript 2022.
    #[inline(always)]
    pub fn is_of_2022(&self) -> bool
        ensures { result ≡ is_of_2022 self.now.text.language }
    {
        is_of_2022(self.language)
    }

    /// The token that the goal Div reads behind one that stands ahead, without a move; none where it reads none.
    #[inline(never)]
    pub fn peek_behind(&self, token: &Token<'_>) -> Option<Token<'s>>
        requires { IsAheadBySome self.now.text self.now.last.stop (token_of token.now) }
        ensures some { IfSome result (λ t. IsAhead LexicalGoal.Div self.now.text token.now.end (token_of t)) }
        ensures none { IfNone result (NoneAhead LexicalGoal.Div self.now.text token.now.end) }
    {
        let Ok(second) = scan_in(self.source, token.end, self.language) else {
            return None;
        };
        Some(second)
    }

    /// Where the last token ends, in bytes; 0 before the first.
    pub fn last_end(&self) -> usize
        ensures { result ≡ self.now.last.stop }
    {
        self.last.end
    }

    /// The last token; before the first, an empty one at 0.
    #[inline(always)]
    pub fn last_token(&self) -> Token<'s>
        ensures { seen_in self.now.text.language self.now.last ≡ as_read (token_of result) }
    {
        self.last
    }

    /// The token that the goal reads ahead, the end of the text too; none where it reads none.
    #[inline(always)]
    pub fn peek(&self, goal: Goal) -> Option<Token<'s>>
        ensures some { IfSome result (λ t. IsAhead goal self.now.text self.now.last.stop (token_of t)) }
        ensures none { IfNone result (NoneAhead goal self.now.text self.now.last.stop) }
    {
        match self.ahead_by(goal) {
            Ok(token) => Some(token),
            Err(_) => None,
        }
    }

    /// The token that the goal reads next; it is scanned again only if another goal may read another.
    #[inline(always)]
    fn ahead_by(&self, goal: Goal) -> Result<Token<'s>, ScanFault>
        ensures { Ahead goal self.now.text self.now.last.stop result }
    {
        let _text = self.source.text();
        match goal {
            Goal::Div => self.ahead,
            Goal::RegExp | Goal::TemplateTail => match self.ahead {
                Ok(token) if !depends_on_goal(&token) => Ok(token),
                _ => scan_after(self.source, self.last.end, goal),
            },
        }
    }

    /// Where what stands ahead begins, in bytes: the place that a syntax error names.
    pub fn next_start(&self) -> usize
        ensures place { IsPlaceFrom self.now.text self.now.last.stop result }
        ensures starts { (t : LexicalToken) → Reads self.now.text.bytes LexicalGoal.Div self.now.last.stop t → result ≡ t.start }
    {
        match self.ahead {
            Ok(token) => token.start,
            Err(fault) => fault.at,
        }
    }

    /// Goes past a token that stands ahead.
    #[inline(always)]
    pub fn advance(&mut self, token: Token<'s>)
        requires { IsAheadBySome self.old.text self.old.last.stop (token_of token) }
        ensures text { self.new.text ≡ self.old.text }
        ensures last { self.new.last ≡ unseen (as_read (token_of token.entry)) }
        ensures same_open { self.new.opened ≡ self.old.opened }
        ensures reads { SeenNext self.old.text self.old.last (as_read (token_of token.entry)) self.new.last }
        ensures passes { token.entry.class ≢ LexicalClass.End → Passes self.old self.new }
    {
        let _text = self.source.text();
        self.last = token;
        self.ahead = scan(self.source, token.end, Goal::Div);
        if is_of_2022(self.language) {
            see_keyword(&mut self.ahead);
        }
    }

    /// Goes past the token that the goal reads ahead, and gives it.
    ///
    /// # Errors
    /// `Syntax` at the end of the text, and where the goal reads none; then the cursor stays as it was.
    pub fn take(&mut self, goal: Goal) -> Result<Token<'s>, Fault>
        ensures text { self.new.text ≡ self.old.text }
        ensures same_open { self.new.opened ≡ self.old.opened }
        ensures ok { IfOk result (λ t. IsAhead goal self.old.text self.old.last.stop (token_of t) × (t.class ≢ LexicalClass.End) × (self.new.last ≡ unseen (as_read (token_of t)))) }
        ensures err { IfErr result (λ fault. IsSyntax self.old.text self.old.last.stop fault × OnlyEnd goal self.old.text self.old.last.stop × (self.new.last ≡ self.old.last)) }
    {
        let Some(token) = self.peek(goal) else {
            return Err(Fault::Syntax(self.next_start()));
        };
        match token.class {
            TokenClass::End => Err(Fault::Syntax(self.next_start())),
            _ => {
                self.advance(token);
                Ok(token)
            }
        }
    }

    /// Goes past the `;` of a statement, or stays where it may be missing (ECMA-262 11.9.1).
    ///
    /// # Errors
    /// `Syntax` where there is none and it may not be missing; then the cursor stays as it was.
    pub fn semicolon(&mut self, ending: StatementEnd) -> Result<(), Fault>
        ensures text { self.new.text ≡ self.old.text }
        ensures forward { self.old.last.stop ≤ self.new.last.stop }
        ensures same_open { self.new.opened ≡ self.old.opened }
        ensures ok { IfOk result (λ _. IsEnd self.old.text ending self.old.last self.new.last) }
        ensures err { IfErr result (λ fault. IsSyntax self.old.text self.old.last.stop fault × ((e : Read) → EndsAt self.old.text ending self.old.last e → ⊥) × (self.new.last ≡ self.old.last)) }
    {
        let _text = self.source.text();
        let Some(token) = self.peek(Goal::Div) else {
            return Err(Fault::Syntax(self.next_start()));
        };
        if is_semicolon(&token) {
            self.advance(token);
            return Ok(());
        }
        if may_omit_semicolon(ending, &self.last, &token) {
            return Ok(());
        }
        Err(Fault::Syntax(self.next_start()))
    }

    /// Opens a parenthesis that groups or holds an arrow's parameters.
    ///
    /// # Errors
    /// `TooDeep` where `MAX_OPEN` of them are open; then the cursor stays as it was.
    pub fn enter(&mut self) -> Result<(), Fault>
        ensures text { self.new.text ≡ self.old.text }
        ensures last { self.new.last ≡ self.old.last }
        ensures ok { IfOk result (λ _. (self.old.opened < max_open) × (self.new.opened ≡ self.old.opened + 1)) }
        ensures err { IfErr result (λ fault. (fault ≡ Fault.TooDeep) × (self.old.opened ≡ max_open) × (self.new.opened ≡ self.old.opened)) }
    {
        if self.opened >= MAX_OPEN {
            return Err(Fault::TooDeep);
        }
        self.opened += 1;
        Ok(())
    }

    /// Closes the last such parenthesis.
    pub fn leave(&mut self)
        ensures text { self.new.text ≡ self.old.text }
        ensures last { self.new.last ≡ self.old.last }
        ensures closed { self.new.opened ≡ self.old.opened - 1 }
    {
        self.opened = self.opened.saturating_sub(1);
    }
}
