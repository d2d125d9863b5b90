//! The next token of a text.

ghost use Rattle.std.specs.Prelude.{◌≡◌, ◌≢◌, ◌≤◌, ◌<◌, ◌++◌, ◌∷◌, ◌==◌, ◌&&◌, ℕ, List, [], slice_range, IsTrue, IfOk, IfErr, IfNone, IfSome, OnErr};
ghost use Rattle.std.specs.Str.{IsUtf8, chars};
ghost use Rattle.source_text.specs.Source.{IsPlace};
ghost use Rattle.tokens.specs.Tokens.{LexicalToken, IsTokenAt};
ghost use Rattle.tokens.specs.Reading.{behind, Reads};
ghost use Rattle.tokens.specs.Alphabet.{begins_with, is_decimal_digit, is_identifier_start, one_of};
ghost use Rattle.tokens.specs.TokenStarts.{begins_so, class_by, class_of, is_mark, is_operator, start_at};
ghost use Rattle.tokens.specs.Goals.{reads_regexps, reads_template_parts};
ghost use Rattle.tokens.specs.Scanned.{IsLexemeAt, IsWordAt, NoWordAt, Passed, token_of};
ghost use Rattle.tokens.specs.Strings.{is_string};

use crate::ascii::is_in;
use crate::character::{CharAt, ascii_char_at, char_at};
use crate::name::{ascii_run_end, name_end, private_name_end};
use crate::number::number_end;
use crate::punctuator::{goes_on, punctuator_end};
use crate::regexp::regexp_end;
use crate::string::string_end;
use crate::template::template_end;
use crate::trivia::{blanks, comment_begins, skip_trivia};
use crate::{Goal, Token, TokenClass};
use source_text::Source;

/// No token is read at a place; `at` is where it would begin, behind white space and comments, in bytes.
#[derive(Clone, Copy, Debug, PartialEq, Eq)]
pub struct ScanFault {
    pub at: usize,
}

/// Whether the goal reads a regular expression at `/`.
#[inline]
fn reads_regexps(goal: Goal) -> bool
    ensures { result ≡ reads_regexps goal }
{
    match goal {
        Goal::Div => false,
        Goal::RegExp => true,
        Goal::TemplateTail => false,
    }
}

/// Whether the goal reads a part of a template at `}`.
#[inline]
fn reads_template_parts(goal: Goal) -> bool
    ensures { result ≡ reads_template_parts goal }
{
    match goal {
        Goal::Div => false,
        Goal::RegExp => false,
        Goal::TemplateTail => true,
    }
}

/// The characters with which only punctuators begin: `{` `(` `)` `[` `]` `;` `,` `<` `>` `=` `!` `+` `-` `*` `%` `&`
/// `|` `^` `~` `?` `:`.
const PUNCTUATOR_STARTS: [u64; 2] = [0xFC00_3F62_0000_0000, 0x5800_0000_6800_0000];

/// Whether only punctuators begin with the character.
#[inline]
fn begins_punctuator(c: char) -> bool
    ensures { result ≡ is_mark c }
{
    if !c.is_ascii() {
        return false;
    }
    is_in(&PUNCTUATOR_STARTS, c)
}

/// Whether a decimal digit stands at this place.
#[inline]
fn digit_follows(text: &str, at: usize) -> bool
    requires { IsPlace text.now at }
    ensures { result ≡ begins_with is_decimal_digit (behind text.now at) }
{
    match char_at(text, at) {
        Some(step) => step.c.is_ascii_digit(),
        None => false,
    }
}

/// The class of the tokens that begin with a character, for a goal; `digit` says that a digit follows a point.
#[inline]
fn class_by(c: char, goal: Goal, digit: bool) -> TokenClass
    ensures { result ≡ class_by goal c digit }
{
    if c.is_ascii_alphabetic() {
        return TokenClass::IdentifierName;
    }
    if c.is_ascii_digit() {
        return TokenClass::NumericLiteral;
    }
    match c {
        '"' | '\'' => TokenClass::StringLiteral,
        '`' => TokenClass::Template,
        '}' => {
            if reads_template_parts(goal) {
                TokenClass::Template
            } else {
                TokenClass::Punctuator
            }
        }
        '/' => {
            if reads_regexps(goal) {
                TokenClass::RegularExpressionLiteral
            } else {
                TokenClass::Punctuator
            }
        }
        '.' => {
            if digit {
                TokenClass::NumericLiteral
            } else {
                TokenClass::Punctuator
            }
        }
        '#' => TokenClass::PrivateName,
        _ => {
            if begins_punctuator(c) {
                TokenClass::Punctuator
            } else {
                TokenClass::IdentifierName
            }
        }
    }
}

/// Whether the character is a point and a digit follows it, so that a number begins.
#[inline]
fn is_point_before_digit(text: &str, first: CharAt) -> bool
    requires { IsPlace text.now first.end }
    ensures { result ≡ ((first.c == 46) && begins_with is_decimal_digit (behind text.now first.end)) }
{
    if first.c != '.' {
        return false;
    }
    digit_follows(text, first.end)
}

/// Where the token of this class ends, in bytes; none if there is none. The class is the one that the goal reads at the
/// place.
#[inline]
fn token_end(text: &str, at: usize, first: CharAt, class: TokenClass) -> Option<usize>
    requires place { IsPlace text.now at }
    requires first { Passed text.now at first.end (first.c ∷ []) }
    requires class { class ≢ TokenClass.End }
    ensures some { IfSome result (λ e. IsWordAt class text.now at e) }
    ensures none { IfNone result (NoWordAt class text.now at) }
{
    match class {
        TokenClass::IdentifierName => name_end(text, first),
        TokenClass::Punctuator => punctuator_end(text, first),
        TokenClass::NumericLiteral => number_end(text, at),
        TokenClass::StringLiteral => string_end(text, at),
        TokenClass::Template => template_end(text, at),
        TokenClass::RegularExpressionLiteral => regexp_end(text, at),
        TokenClass::PrivateName => private_name_end(text, first),
        TokenClass::Keyword => None,
        TokenClass::End => None,
    }
}

/// A token's class, and the place after it, in bytes.
#[derive(Clone, Copy)]
struct Lexeme {
    class: TokenClass,
    end: usize,
}

/// The token that the goal reads at a place where no separator stands; none if it is no token.
#[inline]
fn lexeme_at(text: &str, at: usize, goal: Goal) -> Option<Lexeme>
    requires { IsPlace text.now at }
    ensures some { IfSome result (λ w. (w.class ≡ class_of goal (behind text.now at)) × IsWordAt w.class text.now at w.end) }
    ensures none { IfNone result (NoWordAt (class_of goal (behind text.now at)) text.now at) }
{
    let Some(first) = char_at(text, at) else {
        return Some(Lexeme {
            class: TokenClass::End,
            end: at,
        });
    };
    let digit = is_point_before_digit(text, first);
    let class = class_by(first.c, goal, digit);
    let Some(end) = token_end(text, at, first, class) else {
        return None;
    };
    Some(Lexeme { class, end })
}

/// What a character begins, as far as it shows it by itself.
#[derive(Clone, Copy)]
enum Start {
    /// A name.
    Name,
    /// A punctuator with which no longer one begins.
    Mark,
    /// `}`: such a punctuator, or a part of a template.
    Brace,
    /// A punctuator with which longer ones begin, or a number behind a point.
    Operator,
    /// Something else.
    Other,
}

/// What each character of ASCII begins: `a` stands for a name, `(` for a punctuator with which no longer one begins, `.` for one with which
/// longer ones do, `}` for itself, `0` for something else.
static STARTS: [u8; 128] = *b"\
    00000000000000000000000000000000\
    0.00a..0((..(..00000000000((....\
    0aaaaaaaaaaaaaaaaaaaaaaaaaa(0(.a\
    0aaaaaaaaaaaaaaaaaaaaaaaaaa(.}(0";

/// What a row of the table stands for.
#[inline]
fn start_at(row: u8) -> Start
    ensures { result ≡ start_at row }
{
    match row {
        b'a' => Start::Name,
        b'(' => Start::Mark,
        b'.' => Start::Operator,
        b'}' => Start::Brace,
        _ => Start::Other,
    }
}

/// What a character of ASCII begins.
#[inline]
fn start_of(c: char) -> Start
    requires { c < 128 }
    ensures { IsTrue (begins_so result c) }
{
    start_at(STARTS[c as usize])
}

/// The name that begins with this character, if all its characters are of ASCII.
#[inline(always)]
fn ascii_name(text: &str, first: CharAt) -> Option<Lexeme>
    requires place { IsPlace text.now first.end }
    requires start { IsTrue (is_identifier_start first.c) }
    ensures { (goal : Goal) (at : ℕ) → Passed text.now at first.end (first.c ∷ []) → IfSome result (λ w. IsLexemeAt goal text.now at w.class w.end) }
{
    let Some(end) = ascii_run_end(text, first.end) else {
        return None;
    };
    Some(Lexeme {
        class: TokenClass::IdentifierName,
        end,
    })
}

/// The punctuator that is this character, with which no longer one begins.
#[inline]
fn mark(first: CharAt) -> Option<Lexeme>
    requires { IsTrue (one_of "{()[];,:~" first.c) }
    ensures { (text : List ℕ) (goal : Goal) (at : ℕ) → IsUtf8 text → Passed text at first.end (first.c ∷ []) → IfSome result (λ w. IsLexemeAt goal text at w.class w.end) }
{
    Some(Lexeme {
        class: TokenClass::Punctuator,
        end: first.end,
    })
}

/// The punctuator `}`, if the goal reads no part of a template there.
#[inline]
fn closing_brace(first: CharAt, goal: Goal) -> Option<Lexeme>
    requires { IsTrue (one_of "}" first.c) }
    ensures { (text : List ℕ) (at : ℕ) → IsUtf8 text → Passed text at first.end (first.c ∷ []) → IfSome result (λ w. IsLexemeAt goal text at w.class w.end) }
{
    let is_part = reads_template_parts(goal);
    if is_part {
        return None;
    }
    Some(Lexeme {
        class: TokenClass::Punctuator,
        end: first.end,
    })
}

/// The punctuator that is this character, if the character behind it shows that no longer one begins here, nor a number.
#[inline(always)]
fn lone_operator(text: &str, first: CharAt) -> Option<Lexeme>
    requires place { IsPlace text.now first.end }
    requires operator { IsTrue (is_operator first.c) }
    ensures { (goal : Goal) (at : ℕ) → Passed text.now at first.end (first.c ∷ []) → IfSome result (λ w. IsLexemeAt goal text.now at w.class w.end) }
{
    let Some(next) = ascii_char_at(text, first.end) else {
        return None;
    };
    if goes_on(next.c) {
        return None;
    }
    Some(Lexeme {
        class: TokenClass::Punctuator,
        end: first.end,
    })
}

/// The token at a place, if it is a name of ASCII or a punctuator of one character and the character behind it shows that.
#[inline(always)]
fn quick_lexeme(text: &str, at: usize, goal: Goal) -> Option<Lexeme>
    requires { IsPlace text.now at }
    ensures { IfSome result (λ w. IsLexemeAt goal text.now at w.class w.end) }
{
    let Some(first) = ascii_char_at(text, at) else {
        return None;
    };
    match start_of(first.c) {
        Start::Name => ascii_name(text, first),
        Start::Mark => mark(first),
        Start::Brace => closing_brace(first, goal),
        Start::Operator => lone_operator(text, first),
        Start::Other => None,
    }
}

/// The token that the goal reads at a place (ECMA-262 clause 11): behind white space, line terminators and comments
/// the longest of its class, or the end of the text. Its text is a slice of the source; nothing is allocated.
///
/// # Errors
/// `ScanFault` where the goal reads none, with the place behind the separators: also where a `/*` there has no end.
pub fn scan<'s>(source: &Source<'s>, at: usize, goal: Goal) -> Result<Token<'s>, ScanFault>
    requires { IsPlace source.now at }
    ensures ok { IfOk result (λ t. Reads source.now goal at (token_of t)) }
    ensures within { IfOk result (λ t. (at ≤ t.start) × (t.start ≤ t.end) × IsPlace source.now t.start × IsPlace source.now t.end) }
    ensures goes_on { IfOk result (λ t. t.class ≢ TokenClass.End → t.start < t.end) }
    ensures slice { IfOk result (λ t. t.text.now ≡ slice_range source.now t.start t.end) }
    ensures string { IfOk result (λ t. t.class ≡ TokenClass.StringLiteral → IsTrue (is_string (chars t.text.now))) }
    ensures err { OnErr result ((t : LexicalToken) (rest : List ℕ) → IsTokenAt goal at (behind source.now at) t rest → ⊥) }
    ensures fault_place { IfErr result (λ f. (at ≤ f.at) × IsPlace source.now f.at) }
{
    let text = source.text();
    let blank = blanks(text, at);
    let Some(word) = quick_lexeme(text, blank.end, goal) else {
        return scan_any(source, at, goal);
    };
    Ok(Token {
        class: word.class,
        text: &text[blank.end..word.end],
        start: blank.end,
        end: word.end,
        after_break: blank.has_line_break,
    })
}

/// Scans without the quick look for a name or a punctuator behind white space.
#[inline(never)]
fn scan_any<'s>(source: &Source<'s>, at: usize, goal: Goal) -> Result<Token<'s>, ScanFault>
    requires { IsPlace source.now at }
    ensures ok { IfOk result (λ t. Reads source.now goal at (token_of t)) }
    ensures within { IfOk result (λ t. (at ≤ t.start) × (t.start ≤ t.end) × IsPlace source.now t.start × IsPlace source.now t.end) }
    ensures goes_on { IfOk result (λ t. t.class ≢ TokenClass.End → t.start < t.end) }
    ensures slice { IfOk result (λ t. t.text.now ≡ slice_range source.now t.start t.end) }
    ensures string { IfOk result (λ t. t.class ≡ TokenClass.StringLiteral → IsTrue (is_string (chars t.text.now))) }
    ensures err { OnErr result ((t : LexicalToken) (rest : List ℕ) → IsTokenAt goal at (behind source.now at) t rest → ⊥) }
    ensures fault_place { IfErr result (λ f. (at ≤ f.at) × IsPlace source.now f.at) }
{
    let text = source.text();
    let gap = skip_trivia(text, at);
    let start = gap.end;
    if comment_begins(text, start) {
        return Err(ScanFault { at: start });
    }
    let Some(word) = lexeme_at(text, start, goal) else {
        return Err(ScanFault { at: start });
    };
    Ok(Token {
        class: word.class,
        text: &text[start..word.end],
        start,
        end: word.end,
        after_break: gap.has_line_break,
    })
}
