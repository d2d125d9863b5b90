//! What the comparison asks of a token's characters.

ghost use Rattle.std.specs.Prelude.{◌≡◌, true, [], ◌∷◌, IfSome, IsTrue};
ghost use Rattle.std.specs.Str.{bytes_eq};
ghost use Rattle.tokens.specs.Lexical.{is_one_of_words};
ghost use Rattle.unwrapping.specs.Readings.{bytes_in};
ghost use Rattle.retaining.specs.Retains.{has_line_end, begins_with_line_end, breaks_behind_comment, is_punctuator, ends_operand, operators};

use tokens::TokenClass;
use unwrapping::ByteSpan;

/// The bytes of a text in a span, if it is within the text.
#[inline]
pub(crate) fn bytes_of(text: &[u8], span: ByteSpan) -> Option<&[u8]>
    ensures { IfSome result (λ bytes. bytes.now ≡ bytes_in text.now span) }
{
    let start = span.start as usize;
    let end = span.end as usize;
    if start <= end && end <= text.len() {
        return Some(&text[start..end]);
    }
    None
}

/// Whether the same bytes are in two spans.
#[inline]
pub(crate) fn are_same(text: &[u8], span: ByteSpan, other: &[u8], other_span: ByteSpan) -> bool
    ensures { result ≡ true → bytes_in text.now span ≡ bytes_in other.now other_span }
{
    let Some(bytes) = bytes_of(text, span) else {
        return false;
    };
    let Some(others) = bytes_of(other, other_span) else {
        return false;
    };
    bytes == others
}

/// Whether a line terminator comes first.
fn begins_with_line_end(bytes: &[u8]) -> bool
    ensures { result ≡ true → begins_with_line_end bytes.now ≡ true }
{
    matches!(bytes, [b'\n' | b'\r', ..] | [0xE2, 0x80, 0xA8 | 0xA9, ..])
}

/// Whether a line ends in it.
pub(crate) fn has_line_end(bytes: &[u8]) -> bool
    ensures { result ≡ true → has_line_end bytes.now ≡ true }
{
    for index in 0..bytes.len() {
        if begins_with_line_end(&bytes[index..]) {
            return true;
        }
    }
    false
}

/// Whether a line ends in or behind the first comment of a gap.
pub(crate) fn breaks_behind_comment(gap: &[u8]) -> bool
    ensures { result ≡ true → breaks_behind_comment gap.now ≡ true }
{
    for index in 0..gap.len() {
        if gap[index] == b'/' {
            return has_line_end(&gap[index + 1..]);
        }
    }
    false
}

/// Whether it is a punctuator's class.
pub(crate) fn is_punctuator(class: TokenClass) -> bool
    ensures { result ≡ is_punctuator class }
{
    matches!(class, TokenClass::Punctuator)
}

/// Whether a punctuator may end an operand.
fn closes_operand(word: &[u8]) -> bool
    ensures { result ≡ true → IsTrue (is_one_of_words (")" ∷ "]" ∷ "}" ∷ "++" ∷ "--" ∷ []) word.now) }
{
    matches!(word, [b')' | b']' | b'}'] | [b'+', b'+'] | [b'-', b'-'])
}

/// Whether a token is `.` or `?.`.
fn is_dot(word: &[u8]) -> bool
    ensures { result ≡ true → IsTrue (is_one_of_words ("." ∷ "?." ∷ []) word.now) }
{
    matches!(word, [b'.'] | [b'?', b'.'])
}

/// Whether a token has the characters of a word.
fn is_word(token: &[u8], word: &[u8]) -> bool
    ensures { result ≡ bytes_eq token.now word.now }
{
    token == word
}

/// Whether a word is one of those before an expression.
fn stands_before_expression(word: &[u8]) -> bool
    ensures { result ≡ is_one_of_words ("case" ∷ "typeof" ∷ "void" ∷ "delete" ∷ "in" ∷ []) word.now }
{
    is_word(word, b"case")
        || is_word(word, b"typeof")
        || is_word(word, b"void")
        || is_word(word, b"delete")
        || is_word(word, b"in")
}

/// Whether a word is `instanceof`, or one of those before a statement or a clause.
fn stands_before_statement(word: &[u8]) -> bool
    ensures { result ≡ is_one_of_words ("instanceof" ∷ "else" ∷ "do" ∷ "default" ∷ []) word.now }
{
    is_word(word, b"instanceof")
        || is_word(word, b"else")
        || is_word(word, b"do")
        || is_word(word, b"default")
}

/// Whether a word is one of those before a class, a function's name or a `*`.
fn stands_before_star(word: &[u8]) -> bool
    ensures { result ≡ is_one_of_words ("extends" ∷ "function" ∷ "import" ∷ "export" ∷ []) word.now }
{
    is_word(word, b"extends")
        || is_word(word, b"function")
        || is_word(word, b"import")
        || is_word(word, b"export")
}

/// Whether a word is one that stands before an operand, or before a `*`.
fn stands_before_operand(word: &[u8]) -> bool
    ensures { result ≡ is_one_of_words ("case" ∷ "typeof" ∷ "void" ∷ "delete" ∷ "in" ∷ "instanceof" ∷ "else" ∷ "do" ∷ "default" ∷ "extends" ∷ "function" ∷ "import" ∷ "export" ∷ []) word.now }
{
    if stands_before_expression(word) {
        return true;
    }
    if stands_before_statement(word) {
        return true;
    }
    stands_before_star(word)
}

/// Whether an operand may end with a token, behind another one.
pub(crate) fn ends_operand(last: &[u8], class: TokenClass, word: &[u8]) -> bool
    ensures { result ≡ true → ends_operand last.now (record { class = class; text = word.now }) ≡ true }
{
    if is_punctuator(class) {
        return closes_operand(word);
    }
    is_dot(last) || !stands_before_operand(word)
}

/// Whether a token is `??`, or a logical or bitwise operator of two operands (13.12, 13.13).
fn is_logical(word: &[u8]) -> bool
    ensures { result ≡ true → IsTrue (is_one_of_words ("??" ∷ "||" ∷ "&&" ∷ "|" ∷ "^" ∷ "&" ∷ []) word.now) }
{
    matches!(word, b"??" | b"||" | b"&&" | b"|" | b"^" | b"&")
}

/// Whether a token is an operator of equality (13.11).
fn is_equality(word: &[u8]) -> bool
    ensures { result ≡ true → IsTrue (is_one_of_words ("==" ∷ "!=" ∷ "===" ∷ "!==" ∷ []) word.now) }
{
    matches!(word, b"==" | b"!=" | b"===" | b"!==")
}

/// Whether a token is a relational operator (13.10).
fn is_relational(word: &[u8]) -> bool
    ensures { result ≡ true → IsTrue (is_one_of_words ("<" ∷ ">" ∷ "<=" ∷ ">=" ∷ "in" ∷ "instanceof" ∷ []) word.now) }
{
    matches!(word, b"<" | b">" | b"<=" | b">=" | b"in") || is_word(word, b"instanceof")
}

/// Whether a token is an arithmetic operator of two operands, or one that shifts (13.6 to 13.9).
fn is_arithmetic(word: &[u8]) -> bool
    ensures { result ≡ true → IsTrue (is_one_of_words ("<<" ∷ ">>" ∷ ">>>" ∷ "+" ∷ "-" ∷ "*" ∷ "/" ∷ "%" ∷ "**" ∷ []) word.now) }
{
    matches!(
        word,
        b"<<" | b">>" | b">>>" | b"+" | b"-" | b"*" | b"/" | b"%" | b"**"
    )
}

/// Whether a token is an operator of two operands, where it stands behind one.
pub(crate) fn is_operator(word: &[u8]) -> bool
    ensures { result ≡ true → IsTrue (is_one_of_words operators word.now) }
{
    if is_logical(word) {
        return true;
    }
    if is_equality(word) {
        return true;
    }
    if is_relational(word) {
        return true;
    }
    is_arithmetic(word)
}
