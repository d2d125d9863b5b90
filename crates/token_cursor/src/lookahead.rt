//! What stands ahead, tested and passed.
#![tactic(auto, using(crate::proofs::PassedTokens::moves))]

ghost use Rattle.std.specs.Prelude.{◌≡◌, ◌≤◌, false, true, codes, IfOk, IfErr, IfSome, IfNone};
ghost use Rattle.std.specs.Bool.{OnTrue, OnFalse};
ghost use Rattle.tokens.specs.Scanned.{token_of};
ghost use Rattle.tokens.specs.declared.token.Goal.TheVariants.{RegExp};
ghost use Rattle.language.specs.Token.{Token as Read, as_read};
ghost use Rattle.token_cursor.specs.SourceText.{SeenNext, behind_in};
ghost use Rattle.language.specs.Derivation.{Reads};
ghost use Rattle.language.specs.Promises.{ReadBy};
ghost use Rattle.token_cursor.specs.CursorState.{Passes, IsSyntaxHere};
ghost use Rattle.token_cursor.specs.Refusals.{IsRefusal};
ghost use Rattle.token_cursor.specs.Seen.{ReadsHere, Sees, Misses, NameHere, NoName, WordHere, NoWord, is_free_name, declares};

use crate::cursor::Cursor;
use crate::token_tests::{
    is_declaration_word, is_identifier, is_identifier_name, is_keyword, is_name_token,
    is_punctuator,
};
use source_text::Fault;
use tokens::{Goal, Token, TokenClass};

impl<'t, 's> Cursor<'t, 's> {
    /// The refusal at what stands ahead.
    pub fn syntax_error(&self) -> Fault
        ensures refused { IsRefusal self.now.text result }
        ensures here { IsSyntaxHere self.now result }
    {
        Fault::Syntax(self.next_start())
    }

    /// Whether this punctuator stands ahead; not to be asked for a `/`.
    pub fn sees_punctuator(&self, mark: &str) -> bool
        ensures seen { OnTrue result (Sees self.now.text TokenClass.Punctuator mark.now self.now.last) }
        ensures missed { OnFalse result (Misses self.now.text TokenClass.Punctuator mark.now self.now.last) }
    {
        match self.peek(Goal::Div) {
            Some(token) => is_punctuator(&token, mark),
            None => false,
        }
    }

    /// Whether this name stands ahead.
    pub fn sees_word(&self, word: &str) -> bool
        ensures seen { OnTrue result (Sees self.now.text TokenClass.IdentifierName word.now self.now.last) }
        ensures missed { OnFalse result (Misses self.now.text TokenClass.IdentifierName word.now self.now.last) }
    {
        match self.peek(Goal::Div) {
            Some(token) => is_name_token(&token, word),
            None => false,
        }
    }

    /// Whether an Identifier stands ahead.
    pub fn sees_identifier(&self) -> bool
        ensures seen { OnTrue result ((t : Read) × NameHere self.now.text is_free_name self.now.last t) }
        ensures missed { OnFalse result (NoName self.now.text is_free_name self.now.last) }
    {
        match self.peek(Goal::Div) {
            Some(token) => is_identifier(&token),
            None => false,
        }
    }

    /// Whether `=>` stands ahead on the same line (14.2).
    #[inline(always)]
    pub fn sees_arrow(&self) -> bool
        ensures seen { OnTrue result ((t : Read) × (ReadsHere self.now.text TokenClass.Punctuator (codes "=>") self.now.last t) × (t.after_break ≡ false)) }
        ensures missed { OnFalse result ((t e : Read) → Reads Read (SeenNext self.now.text) (behind_in self.now.text) TokenClass.Punctuator (codes "=>") self.now.last t e → t.after_break ≡ true) }
    {
        match self.peek(Goal::Div) {
            Some(token) => is_punctuator(&token, "=>") && !token.after_break,
            None => false,
        }
    }

    /// Whether a line break stands before what is ahead.
    pub fn sees_line_break(&self) -> bool
        ensures seen { OnTrue result ((t e : Read) → SeenNext self.now.text self.now.last t e → t.after_break ≡ true) }
        ensures missed { OnFalse result ((t e : Read) → ReadBy Read (SeenNext self.now.text) (behind_in self.now.text) RegExp self.now.last t e → t.after_break ≡ false) }
    {
        match self.peek(Goal::RegExp) {
            Some(token) => token.after_break,
            None => false,
        }
    }

    /// Goes past this punctuator where it stands ahead.
    pub fn accept_punctuator(&mut self, mark: &str) -> bool
        ensures text { self.new.text ≡ self.old.text }
        ensures forward { self.old.last.stop ≤ self.new.last.stop }
        ensures passes { OnTrue result (Passes self.old self.new) }
        ensures same_open { self.new.opened ≡ self.old.opened }
        ensures accepted { OnTrue result (ReadsHere self.old.text TokenClass.Punctuator mark.now self.old.last self.new.last) }
        ensures missed { OnFalse result (Misses self.old.text TokenClass.Punctuator mark.now self.old.last × (self.new.last ≡ self.old.last)) }
    {
        let Some(token) = self.peek(Goal::Div) else {
            return false;
        };
        if !is_punctuator(&token, mark) {
            return false;
        }
        self.advance(token);
        true
    }

    /// Goes past this name where it stands ahead.
    #[inline(always)]
    pub fn accept_word(&mut self, word: &str) -> bool
        ensures text { self.new.text ≡ self.old.text }
        ensures forward { self.old.last.stop ≤ self.new.last.stop }
        ensures passes { OnTrue result (Passes self.old self.new) }
        ensures same_open { self.new.opened ≡ self.old.opened }
        ensures accepted { OnTrue result (ReadsHere self.old.text TokenClass.IdentifierName word.now self.old.last self.new.last) }
        ensures missed { OnFalse result (Misses self.old.text TokenClass.IdentifierName word.now self.old.last × (self.new.last ≡ self.old.last)) }
    {
        let Some(token) = self.peek(Goal::Div) else {
            return false;
        };
        if !is_name_token(&token, word) {
            return false;
        }
        self.advance(token);
        true
    }

    /// Whether the keyword `await` stands ahead: in texts of ECMAScript 2022.
    pub fn sees_await(&self) -> bool
        ensures seen { OnTrue result (Sees self.now.text TokenClass.Keyword (codes "await") self.now.last) }
        ensures missed { OnFalse result (Misses self.now.text TokenClass.Keyword (codes "await") self.now.last) }
    {
        match self.peek(Goal::Div) {
            Some(token) => is_keyword(&token),
            None => false,
        }
    }

    /// Goes past the keyword `await` where it stands ahead: in texts of ECMAScript 2022.
    pub fn accept_await(&mut self) -> bool
        ensures text { self.new.text ≡ self.old.text }
        ensures forward { self.old.last.stop ≤ self.new.last.stop }
        ensures passes { OnTrue result (Passes self.old self.new) }
        ensures same_open { self.new.opened ≡ self.old.opened }
        ensures accepted { OnTrue result (ReadsHere self.old.text TokenClass.Keyword (codes "await") self.old.last self.new.last) }
        ensures missed { OnFalse result (Misses self.old.text TokenClass.Keyword (codes "await") self.old.last × (self.new.last ≡ self.old.last)) }
    {
        let Some(token) = self.peek(Goal::Div) else {
            return false;
        };
        if !is_keyword(&token) {
            return false;
        }
        self.advance(token);
        true
    }

    /// Goes past this punctuator, and gives where it begins.
    ///
    /// # Errors
    /// `Syntax` where none stands ahead; then the cursor stays as it was.
    pub fn expect_punctuator(&mut self, mark: &str) -> Result<usize, Fault>
        ensures text { self.new.text ≡ self.old.text }
        ensures forward { self.old.last.stop ≤ self.new.last.stop }
        ensures passes { IfOk result (λ _. Passes self.old self.new) }
        ensures refused { IfErr result (IsRefusal self.new.text) }
        ensures same_open { self.new.opened ≡ self.old.opened }
        ensures accepted { IfOk result (λ start. ReadsHere self.old.text TokenClass.Punctuator mark.now self.old.last self.new.last × (self.new.last.start ≡ start)) }
        ensures missed { IfErr result (λ _. Misses self.old.text TokenClass.Punctuator mark.now self.old.last × (self.new.last ≡ self.old.last)) }
        ensures here { IfErr result (IsSyntaxHere self.new) }
    {
        if !self.accept_punctuator(mark) {
            return Err(self.syntax_error());
        }
        Ok(self.last_token().start)
    }

    /// Goes past this name.
    ///
    /// # Errors
    /// `Syntax` where none stands ahead; then the cursor stays as it was.
    pub fn expect_word(&mut self, word: &str) -> Result<Token<'s>, Fault>
        ensures text { self.new.text ≡ self.old.text }
        ensures forward { self.old.last.stop ≤ self.new.last.stop }
        ensures passes { IfOk result (λ _. Passes self.old self.new) }
        ensures refused { IfErr result (IsRefusal self.new.text) }
        ensures same_open { self.new.opened ≡ self.old.opened }
        ensures accepted { IfOk result (λ token. ReadsHere self.old.text TokenClass.IdentifierName word.now self.old.last self.new.last × (self.new.last ≡ as_read (token_of token))) }
        ensures missed { IfErr result (λ _. Misses self.old.text TokenClass.IdentifierName word.now self.old.last × (self.new.last ≡ self.old.last)) }
        ensures here { IfErr result (IsSyntaxHere self.new) }
    {
        if !self.accept_word(word) {
            return Err(self.syntax_error());
        }
        Ok(self.last_token())
    }

    /// Goes past an IdentifierName (ECMA-262 11.6).
    ///
    /// # Errors
    /// `Syntax` where none stands ahead; then the cursor stays as it was.
    pub fn expect_identifier_name(&mut self) -> Result<Token<'s>, Fault>
        ensures text { self.new.text ≡ self.old.text }
        ensures forward { self.old.last.stop ≤ self.new.last.stop }
        ensures passes { IfOk result (λ _. Passes self.old self.new) }
        ensures refused { IfErr result (IsRefusal self.new.text) }
        ensures same_open { self.new.opened ≡ self.old.opened }
        ensures accepted { IfOk result (λ token. WordHere self.old.text self.old.last self.new.last × (behind_in self.old.text self.new.last ≡ as_read (token_of token))) }
        ensures missed { IfErr result (λ _. NoWord self.old.text self.old.last × (self.new.last ≡ self.old.last)) }
        ensures here { IfErr result (IsSyntaxHere self.new) }
    {
        let Some(token) = self.peek(Goal::Div) else {
            return Err(self.syntax_error());
        };
        if !is_identifier_name(&token) {
            return Err(self.syntax_error());
        }
        self.advance(token);
        Ok(token)
    }

    /// Goes past an Identifier (12.1).
    ///
    /// # Errors
    /// `Syntax` where none stands ahead; then the cursor stays as it was.
    #[inline(always)]
    pub fn expect_identifier(&mut self) -> Result<Token<'s>, Fault>
        ensures text { self.new.text ≡ self.old.text }
        ensures forward { self.old.last.stop ≤ self.new.last.stop }
        ensures passes { IfOk result (λ _. Passes self.old self.new) }
        ensures refused { IfErr result (IsRefusal self.new.text) }
        ensures same_open { self.new.opened ≡ self.old.opened }
        ensures accepted { IfOk result (λ token. NameHere self.old.text is_free_name self.old.last self.new.last × (self.new.last ≡ as_read (token_of token))) }
        ensures missed { IfErr result (λ _. NoName self.old.text is_free_name self.old.last × (self.new.last ≡ self.old.last)) }
        ensures here { IfErr result (IsSyntaxHere self.new) }
    {
        let Some(token) = self.peek(Goal::Div) else {
            return Err(self.syntax_error());
        };
        if !is_identifier(&token) {
            return Err(self.syntax_error());
        }
        self.advance(token);
        Ok(token)
    }

    /// Goes past `var`, `let` or `const` where it stands ahead.
    pub fn accept_declaration_word(&mut self) -> Option<Token<'s>>
        ensures text { self.new.text ≡ self.old.text }
        ensures forward { self.old.last.stop ≤ self.new.last.stop }
        ensures same_open { self.new.opened ≡ self.old.opened }
        ensures accepted { IfSome result (λ token. NameHere self.old.text declares self.old.last self.new.last × (self.new.last ≡ as_read (token_of token))) }
        ensures missed { IfNone result (NoName self.old.text declares self.old.last × (self.new.last ≡ self.old.last)) }
    {
        let Some(token) = self.peek(Goal::Div) else {
            return None;
        };
        if !is_declaration_word(&token) {
            return None;
        }
        self.advance(token);
        Some(token)
    }
}
