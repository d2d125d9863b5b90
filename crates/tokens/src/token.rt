//! Tokens, as the scanner gives them.

/// What `/` and `}` begin (the goal symbols of ECMA-262 clause 11).
#[derive(Clone, Copy, Debug, PartialEq, Eq)]
pub enum Goal {
    /// `/` and `}` are punctuators.
    Div,
    /// `/` begins a regular expression.
    RegExp,
    /// `}` begins a part of a template.
    TemplateTail,
}

/// What a token is (ECMA-262 clause 11).
#[derive(Clone, Copy, Debug, PartialEq, Eq)]
pub enum TokenClass {
    /// An IdentifierName, reserved or not.
    IdentifierName,
    Punctuator,
    /// A NumericLiteral.
    NumericLiteral,
    /// A StringLiteral.
    StringLiteral,
    /// A part of a template, with its delimiters.
    Template,
    /// A RegularExpressionLiteral.
    RegularExpressionLiteral,
    /// A PrivateIdentifier, `#` included (12.6 of the 13th edition).
    PrivateName,
    /// A name that the language of the text reserves, and the base profile doesn't: `await`. No scan gives it; a language
    /// sees such a name so.
    Keyword,
    /// The end of the text.
    End,
}

/// A token and where it stands: `text` is the slice of the source from `start` to `end`, in bytes.
#[derive(Clone, Copy)]
pub struct Token<'s> {
    pub class: TokenClass,
    pub text: &'s str,
    pub start: usize,
    pub end: usize,
    /// Whether a line terminator stands between the place where reading began and the token, inside a comment too.
    pub after_break: bool,
}
