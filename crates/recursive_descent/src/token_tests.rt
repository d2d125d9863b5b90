//! Single tokens.
#![tactic(auto, using(parser_tables::proofs::Refusals::refusals, crate::proofs::reading::AdvancedTokens::moves))]

ghost use Rattle.std.specs.Prelude.{◌≡◌, ◌≢◌, ◌≤◌, ◌&&◌, not, true, false, codes, IfOk, IfErr, IfSome, IfNone};
ghost use Rattle.std.specs.Bool.{OnTrue, OnFalse};
ghost use Rattle.tokens.specs.Scanned.{token_of};
ghost use Rattle.tokens.specs.declared.token.Goal.TheVariants.{RegExp};
ghost use Rattle.language.specs.Token.{Token as Read, as_read, is_mark};
ghost use Rattle.token_cursor.specs.SourceText.{SeenNext, behind_in, unseen};
ghost use Rattle.language.specs.Derivation.{Reads};
ghost use Rattle.language.specs.Promises.{ReadBy};
ghost use Rattle.token_cursor.specs.CursorState.{IsAheadBySome};
ghost use Rattle.token_cursor.specs.CursorState.{Passes};
ghost use Rattle.token_cursor.specs.CursorState.{IsSyntaxHere};
ghost use Rattle.token_cursor.specs.Refusals.{IsRefusal};
ghost use Rattle.token_cursor.specs.Seen.{ReadsHere, Sees, Misses, NameHere, NoName, WordHere, NoWord, is_free_name, declares};

use crate::parser::Parser;
use source_text::Fault;
use token_cursor::Cursor;
use tokens::{Token, TokenClass};
use tree::Span;

impl<'t, 's> Parser<'t, 's> {
    /// The refusal at what stands ahead.
    pub(crate) fn syntax_error(&self) -> Fault
        ensures refused { IsRefusal self.now.cursor.text result }
        ensures here { IsSyntaxHere self.now.cursor result }
    {
        self.cursor.syntax_error()
    }

    /// Goes past a token that stands ahead and isn't the end.
    #[inline(always)]
    pub(crate) fn advance(&mut self, token: Token<'s>)
        requires ahead { IsAheadBySome self.old.cursor.text self.old.cursor.last.stop (token_of token) }
        requires real { token.class ≢ TokenClass.End }
        ensures text { self.new.cursor.text ≡ self.old.cursor.text }
        ensures same_tree { self.new.tree ≡ self.old.tree }
        ensures last { self.new.cursor.last ≡ unseen (as_read (token_of token.entry)) }
        ensures same_open { self.new.cursor.opened ≡ self.old.cursor.opened }
        ensures same_pairs { self.new.pairs.items ≡ self.old.pairs.items }
        ensures reads { SeenNext self.old.cursor.text self.old.cursor.last (as_read (token_of token.entry)) self.new.cursor.last }
        ensures passes { Passes self.old.cursor self.new.cursor }
    {
        self.cursor.advance(token);
    }

    /// Whether this punctuator stands ahead; not to be asked for a `/`.
    pub(crate) fn sees_punctuator(&self, mark: &str) -> bool
        ensures seen { OnTrue result (Sees self.now.cursor.text TokenClass.Punctuator mark.now self.now.cursor.last) }
        ensures missed { OnFalse result (Misses self.now.cursor.text TokenClass.Punctuator mark.now self.now.cursor.last) }
    {
        self.cursor.sees_punctuator(mark)
    }

    /// Whether this name stands ahead.
    pub(crate) fn sees_word(&self, word: &str) -> bool
        ensures seen { OnTrue result (Sees self.now.cursor.text TokenClass.IdentifierName word.now self.now.cursor.last) }
        ensures missed { OnFalse result (Misses self.now.cursor.text TokenClass.IdentifierName word.now self.now.cursor.last) }
    {
        self.cursor.sees_word(word)
    }

    /// Whether an Identifier stands ahead.
    pub(crate) fn sees_identifier(&self) -> bool
        ensures seen { OnTrue result ((t : Read) × NameHere self.now.cursor.text is_free_name self.now.cursor.last t) }
        ensures missed { OnFalse result (NoName self.now.cursor.text is_free_name self.now.cursor.last) }
    {
        self.cursor.sees_identifier()
    }

    /// Whether `=>` stands ahead on the same line (14.2).
    #[inline(always)]
    pub(crate) fn sees_arrow(&self) -> bool
        ensures seen { OnTrue result ((t : Read) × (ReadsHere self.now.cursor.text TokenClass.Punctuator (codes "=>") self.now.cursor.last t) × (t.after_break ≡ false)) }
        ensures missed { OnFalse result ((t e : Read) → Reads Read (SeenNext self.now.cursor.text) (behind_in self.now.cursor.text) TokenClass.Punctuator (codes "=>") self.now.cursor.last t e → t.after_break ≡ true) }
    {
        self.cursor.sees_arrow()
    }

    /// Whether a line break stands before what is ahead.
    pub(crate) fn sees_line_break(&self) -> bool
        ensures seen { OnTrue result ((t e : Read) → SeenNext self.now.cursor.text self.now.cursor.last t e → t.after_break ≡ true) }
        ensures missed { OnFalse result ((t e : Read) → ReadBy Read (SeenNext self.now.cursor.text) (behind_in self.now.cursor.text) RegExp self.now.cursor.last t e → t.after_break ≡ false) }
    {
        self.cursor.sees_line_break()
    }

    /// Goes past this punctuator where it stands ahead.
    pub(crate) fn accept_punctuator(&mut self, mark: &str) -> bool
        ensures text { self.new.cursor.text ≡ self.old.cursor.text }
        ensures forward { self.old.cursor.last.stop ≤ self.new.cursor.last.stop }
        ensures same_tree { self.new.tree ≡ self.old.tree }
        ensures passes { OnTrue result (Passes self.old.cursor self.new.cursor) }
        ensures same_open { self.new.cursor.opened ≡ self.old.cursor.opened }
        ensures same_pairs { self.new.pairs.items ≡ self.old.pairs.items }
        ensures accepted { OnTrue result (ReadsHere self.old.cursor.text TokenClass.Punctuator mark.now self.old.cursor.last self.new.cursor.last) }
        ensures missed { OnFalse result (Misses self.old.cursor.text TokenClass.Punctuator mark.now self.old.cursor.last × (self.new.cursor.last ≡ self.old.cursor.last)) }
    {
        self.cursor.accept_punctuator(mark)
    }

    /// Goes past this name where it stands ahead.
    #[inline(always)]
    pub(crate) fn accept_word(&mut self, word: &str) -> bool
        ensures text { self.new.cursor.text ≡ self.old.cursor.text }
        ensures forward { self.old.cursor.last.stop ≤ self.new.cursor.last.stop }
        ensures same_tree { self.new.tree ≡ self.old.tree }
        ensures passes { OnTrue result (Passes self.old.cursor self.new.cursor) }
        ensures same_open { self.new.cursor.opened ≡ self.old.cursor.opened }
        ensures same_pairs { self.new.pairs.items ≡ self.old.pairs.items }
        ensures accepted { OnTrue result (ReadsHere self.old.cursor.text TokenClass.IdentifierName word.now self.old.cursor.last self.new.cursor.last) }
        ensures missed { OnFalse result (Misses self.old.cursor.text TokenClass.IdentifierName word.now self.old.cursor.last × (self.new.cursor.last ≡ self.old.cursor.last)) }
    {
        self.cursor.accept_word(word)
    }

    /// Goes past this punctuator, and gives where it begins.
    pub(crate) fn expect_punctuator(&mut self, mark: &str) -> Result<usize, Fault>
        ensures text { self.new.cursor.text ≡ self.old.cursor.text }
        ensures forward { self.old.cursor.last.stop ≤ self.new.cursor.last.stop }
        ensures same_tree { self.new.tree ≡ self.old.tree }
        ensures passes { IfOk result (λ _. Passes self.old.cursor self.new.cursor) }
        ensures refused { IfErr result (IsRefusal self.new.cursor.text) }
        ensures same_open { self.new.cursor.opened ≡ self.old.cursor.opened }
        ensures same_pairs { self.new.pairs.items ≡ self.old.pairs.items }
        ensures accepted { IfOk result (λ start. ReadsHere self.old.cursor.text TokenClass.Punctuator mark.now self.old.cursor.last self.new.cursor.last × (self.new.cursor.last.start ≡ start)) }
        ensures missed { IfErr result (λ _. Misses self.old.cursor.text TokenClass.Punctuator mark.now self.old.cursor.last × (self.new.cursor.last ≡ self.old.cursor.last)) }
        ensures here { IfErr result (IsSyntaxHere self.new.cursor) }
    {
        self.cursor.expect_punctuator(mark)
    }

    /// Goes past this name.
    pub(crate) fn expect_word(&mut self, word: &str) -> Result<Token<'s>, Fault>
        ensures text { self.new.cursor.text ≡ self.old.cursor.text }
        ensures forward { self.old.cursor.last.stop ≤ self.new.cursor.last.stop }
        ensures same_tree { self.new.tree ≡ self.old.tree }
        ensures passes { IfOk result (λ _. Passes self.old.cursor self.new.cursor) }
        ensures refused { IfErr result (IsRefusal self.new.cursor.text) }
        ensures same_open { self.new.cursor.opened ≡ self.old.cursor.opened }
        ensures same_pairs { self.new.pairs.items ≡ self.old.pairs.items }
        ensures accepted { IfOk result (λ token. ReadsHere self.old.cursor.text TokenClass.IdentifierName word.now self.old.cursor.last self.new.cursor.last × (self.new.cursor.last ≡ as_read (token_of token))) }
        ensures missed { IfErr result (λ _. Misses self.old.cursor.text TokenClass.IdentifierName word.now self.old.cursor.last × (self.new.cursor.last ≡ self.old.cursor.last)) }
        ensures here { IfErr result (IsSyntaxHere self.new.cursor) }
    {
        self.cursor.expect_word(word)
    }

    /// An IdentifierName (11.6).
    pub(crate) fn identifier_name(&mut self) -> Result<Token<'s>, Fault>
        ensures text { self.new.cursor.text ≡ self.old.cursor.text }
        ensures forward { self.old.cursor.last.stop ≤ self.new.cursor.last.stop }
        ensures same_tree { self.new.tree ≡ self.old.tree }
        ensures passes { IfOk result (λ _. Passes self.old.cursor self.new.cursor) }
        ensures refused { IfErr result (IsRefusal self.new.cursor.text) }
        ensures same_open { self.new.cursor.opened ≡ self.old.cursor.opened }
        ensures same_pairs { self.new.pairs.items ≡ self.old.pairs.items }
        ensures accepted { IfOk result (λ token. WordHere self.old.cursor.text self.old.cursor.last self.new.cursor.last × (behind_in self.old.cursor.text self.new.cursor.last ≡ as_read (token_of token))) }
        ensures missed { IfErr result (λ _. NoWord self.old.cursor.text self.old.cursor.last × (self.new.cursor.last ≡ self.old.cursor.last)) }
        ensures here { IfErr result (IsSyntaxHere self.new.cursor) }
    {
        self.cursor.expect_identifier_name()
    }

    /// An Identifier (12.1).
    #[inline(always)]
    pub(crate) fn identifier(&mut self) -> Result<Token<'s>, Fault>
        ensures text { self.new.cursor.text ≡ self.old.cursor.text }
        ensures forward { self.old.cursor.last.stop ≤ self.new.cursor.last.stop }
        ensures same_tree { self.new.tree ≡ self.old.tree }
        ensures passes { IfOk result (λ _. Passes self.old.cursor self.new.cursor) }
        ensures refused { IfErr result (IsRefusal self.new.cursor.text) }
        ensures same_open { self.new.cursor.opened ≡ self.old.cursor.opened }
        ensures same_pairs { self.new.pairs.items ≡ self.old.pairs.items }
        ensures accepted { IfOk result (λ token. NameHere self.old.cursor.text is_free_name self.old.cursor.last self.new.cursor.last × (self.new.cursor.last ≡ as_read (token_of token))) }
        ensures missed { IfErr result (λ _. NoName self.old.cursor.text is_free_name self.old.cursor.last × (self.new.cursor.last ≡ self.old.cursor.last)) }
        ensures here { IfErr result (IsSyntaxHere self.new.cursor) }
    {
        self.cursor.expect_identifier()
    }

    /// `var`, `let` or `const`, where it stands ahead.
    pub(crate) fn declaration_word(&mut self) -> Option<Token<'s>>
        ensures text { self.new.cursor.text ≡ self.old.cursor.text }
        ensures forward { self.old.cursor.last.stop ≤ self.new.cursor.last.stop }
        ensures same_tree { self.new.tree ≡ self.old.tree }
        ensures same_open { self.new.cursor.opened ≡ self.old.cursor.opened }
        ensures same_pairs { self.new.pairs.items ≡ self.old.pairs.items }
        ensures accepted { IfSome result (λ token. NameHere self.old.cursor.text declares self.old.cursor.last self.new.cursor.last × (self.new.cursor.last ≡ as_read (token_of token))) }
        ensures missed { IfNone result (NoName self.old.cursor.text declares self.old.cursor.last × (self.new.cursor.last ≡ self.old.cursor.last)) }
    {
        self.cursor.accept_declaration_word()
    }
}

/// From a place to the end of the last token.
pub(crate) fn span_from(cursor: &Cursor<'_, '_>, start: usize) -> Span
    ensures { result ≡ record { start = start; end = cursor.now.last.stop } }
{
    Span {
        start,
        end: cursor.last_end(),
    }
}
