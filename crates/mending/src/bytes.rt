//! What stands at a place of a text: blanks (11.2, 11.3) of ASCII, and words.

ghost use Rattle.std.specs.Prelude.{◌≤◌, length};

use crate::words::is_in_name;

/// The byte at a place; a line end past the text.
pub(crate) fn byte_at(text: &[u8], at: usize) -> u8 {
    match text.get(at) {
        Some(byte) => *byte,
        None => b'\n',
    }
}

/// The byte before a place; a line end where there is none.
pub(crate) fn byte_before(text: &[u8], at: usize) -> u8 {
    if at == 0 {
        return b'\n';
    }
    byte_at(text, at - 1)
}

/// Whether a byte is blank.
fn is_blank(byte: u8) -> bool {
    matches!(byte, b' ' | b'\t' | b'\n' | b'\r')
}

/// Where blanks end that stand from a place on.
pub(crate) fn blank_end(text: &[u8], at: usize) -> usize {
    for index in at..text.len() {
        if !is_blank(text[index]) {
            return index;
        }
    }
    at.max(text.len())
}

/// Where blanks begin that stand before a place.
pub(crate) fn blank_start(text: &[u8], at: usize) -> usize
    ensures { result ≤ at }
{
    let mut start = at;
    while start > 0 && is_blank(byte_at(text, start - 1)) {
        start -= 1;
    }
    start
}

/// Where a word ends that stands at a place.
pub(crate) fn word_end(text: &[u8], at: usize, word: &str) -> Option<usize> {
    let end = at.saturating_add(word.len());
    if end > text.len() || at > end {
        return None;
    }
    if &text[at..end] == word.as_bytes() {
        return Some(end);
    }
    None
}

/// Where a word ends that stands behind blanks from a place on.
pub(crate) fn end_behind(text: &[u8], at: usize, word: &str) -> Option<usize> {
    word_end(text, blank_end(text, at), word)
}

/// Whether nothing but a word, and blanks on both sides, stands between two places.
pub(crate) fn is_only(text: &[u8], start: usize, end: usize, word: &str) -> bool {
    match end_behind(text, start, word) {
        Some(behind) => behind <= end && blank_start(text, end) <= behind,
        None => false,
    }
}

/// A space, if the bytes on both sides of what goes would make one word.
pub(crate) fn space_between(text: &[u8], start: usize, end: usize) -> &'static str {
    if is_in_name(byte_before(text, start)) && is_in_name(byte_at(text, end)) {
        return " ";
    }
    ""
}

/// Where a comment ends that begins at a place; the place itself where none does.
fn comment_end(text: &[u8], at: usize) -> usize {
    let is_block = word_end(text, at, "/*").is_some();
    if !is_block && word_end(text, at, "//").is_none() {
        return at;
    }
    for index in at.saturating_add(2)..text.len() {
        if is_block && word_end(text, index, "*/").is_some() {
            return index + 2;
        }
        if !is_block && matches!(text[index], b'\n' | b'\r') {
            return index;
        }
    }
    text.len()
}

/// Where a token begins from a place on, blanks and comments aside; line ends beyond ASCII aren't seen.
pub(crate) fn token_start(text: &[u8], at: usize) -> usize {
    let mut start = blank_end(text, at);
    for _comment in 0..text.len() {
        let end = comment_end(text, start);
        if end <= start {
            return start;
        }
        start = blank_end(text, end);
    }
    start
}

/// Whether a string begins at a place: a statement of one may be a directive, where nothing stands before it.
pub(crate) fn is_quote_at(text: &[u8], at: usize) -> bool {
    matches!(byte_at(text, at), b'"' | b'\'')
}

/// Whether the statement before a place has surely ended there, or what stands behind another place can't go on with it.
pub(crate) fn is_apart(text: &[u8], start: usize, end: usize) -> bool {
    let before = byte_before(text, blank_start(text, start));
    if blank_start(text, start) == 0 || before == b';' || before == b'{' {
        return true;
    }
    !matches!(
        byte_at(text, token_start(text, end)),
        b'(' | b'[' | b'`' | b'+' | b'-' | b'*' | b'/' | b'.' | b',' | b'?'
    )
}
