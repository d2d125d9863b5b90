//! Lines and words at the front of a text, and what they are.

ghost use Rattle.std.specs.Prelude.{◌≡◌, ◌+◌, ◌<◌, ◌≤◌, ◌∷◌, length, take, drop};
ghost use Rattle.std.specs.Str.{bytes_eq};
ghost use Rattle.cost_certificate.specs.Forms.{cell_of, digits_value, number_of, split_words};
ghost use Rattle.cost_certificate.specs.Types.{kind_named as is_kind_named};
ghost use Rattle.cost_certificate.specs.Words.{IsLine, words_after};

use memchr::memchr;
use tree::Kind;

/// The format of a text: with all cells of each row, or without those of a row that has none but zeros.
#[derive(Clone, Copy, Debug, PartialEq, Eq)]
pub(crate) enum Format {
    Full,
    Short,
}

/// The most bytes that a line has.
const LONGEST: usize = 160;

/// The greatest number.
const LIMIT: u32 = 16777216;

/// The length of the first line; none where there is none, or where it has more bytes than any line of a table. No byte behind
/// those is looked at.
pub(crate) fn line_length(text: &[u8]) -> Option<usize>
    ensures { IsLine text.now result }
{
    let end = text.len().min(LONGEST + 1);
    memchr(b'\n', &text[..end])
}

/// A first line of so many bytes, and what stands behind its line feed.
pub(crate) fn split_line(text: &[u8], count: usize) -> (&[u8], &[u8])
    requires { count < length text.now }
    ensures line { result.0.now ≡ take count text.now }
    ensures behind { result.1.now ≡ drop (count + 1) text.now }
    ensures length { length result.1.now < length text.now }
{
    let (line, _) = text.split_at(count);
    let (_, behind) = text.split_at(count + 1);
    (line, behind)
}

/// The first word, and what stands behind it: nothing, or a space and further words.
pub(crate) fn split_word(text: &[u8]) -> (&[u8], &[u8])
    ensures words { split_words text.now ≡ result.0.now ∷ words_after result.1.now }
    ensures length { length result.0.now + length result.1.now ≡ length text.now }
{
    text.split_at(word_length(text))
}

/// The word behind a space, and what stands behind it.
pub(crate) fn next_word(text: &[u8]) -> (&[u8], &[u8])
    requires { 0 < length text.now }
    ensures words { words_after text.now ≡ result.0.now ∷ words_after result.1.now }
    ensures length { length result.0.now + length result.1.now < length text.now }
{
    let (_, words) = text.split_at(1);
    split_word(words)
}

/// The length of the first word.
fn word_length(text: &[u8]) -> usize
    ensures within { result ≤ length text.now }
    ensures words { split_words text.now ≡ take result text.now ∷ words_after (drop result text.now) }
{
    for index in 0..text.len() {
        if text[index] == b' ' {
            return index;
        }
    }
    text.len()
}

/// Whether a word is a text.
pub(crate) fn word_is(word: &[u8], text: &str) -> bool
    ensures { result ≡ bytes_eq word.now text.now }
{
    word == text.as_bytes()
}

/// The number that a word is, in decimal digits without leading zeros. No digit behind the limit is looked at.
pub(crate) fn number(word: &[u8]) -> Option<u32>
    ensures { result ≡ number_of word.now }
{
    if word.is_empty() {
        return None;
    }
    if word.len() > 1 && word[0] == b'0' {
        return None;
    }
    value(word)
}

/// The number that digits are.
fn value(word: &[u8]) -> Option<u32>
    ensures { result ≡ digits_value 0 word.now }
{
    let mut value = 0u32;
    for index in 0..word.len() {
        let byte = word[index];
        if byte < b'0' || byte > b'9' || value > LIMIT {
            return None;
        }
        value = value * 10 + (byte - b'0') as u32;
    }
    if value <= LIMIT { Some(value) } else { None }
}

/// The cell that a word is.
pub(crate) fn cell(word: &[u8]) -> Option<Option<u32>>
    ensures { result ≡ cell_of word.now }
{
    if word_is(word, "-") {
        return Some(None);
    }
    match number(word) {
        Some(number) => Some(Some(number)),
        None => None,
    }
}

/// The kinds that can have a row, the frequent ones first.
const ROW_KINDS: [Kind; 25] = [
    Kind::Identifier,
    Kind::MemberExpression,
    Kind::Literal,
    Kind::BinaryExpression,
    Kind::AssignmentExpression,
    Kind::CallExpression,
    Kind::ThisExpression,
    Kind::SequenceExpression,
    Kind::ArrowFunctionExpression,
    Kind::ConditionalExpression,
    Kind::LogicalExpression,
    Kind::UnaryExpression,
    Kind::UpdateExpression,
    Kind::ChainExpression,
    Kind::ImportExpression,
    Kind::TaggedTemplateExpression,
    Kind::NewExpression,
    Kind::MetaProperty,
    Kind::ArrayExpression,
    Kind::ObjectExpression,
    Kind::FunctionExpression,
    Kind::ClassExpression,
    Kind::TemplateLiteral,
    Kind::AwaitExpression,
    Kind::YieldExpression,
];

/// The kind that can have a row and has this name.
pub(crate) fn kind_named(word: &[u8]) -> Option<Kind>
    ensures { result ≡ is_kind_named word.now }
{
    for kind in ROW_KINDS {
        if kind.type_name().as_bytes() == word {
            return Some(kind);
        }
    }
    None
}
