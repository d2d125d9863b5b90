//! The character at a place of a text.

ghost use Rattle.std.specs.Prelude.{◌≡◌, ◌≤◌, ◌<◌, [], ◌∷◌, length, IfSome, IfNone, IsFalse};
ghost use Rattle.std.specs.Char.{is_ascii};
ghost use Rattle.source_text.specs.Source.{IsPlace};
ghost use Rattle.tokens.specs.Alphabet.{begins_with};
ghost use Rattle.tokens.specs.Reading.{behind};
ghost use Rattle.tokens.specs.Scanned.{Passed};

/// A character, and the place behind it.
#[derive(Clone, Copy)]
pub struct CharAt {
    pub c: char,
    pub end: usize,
}

/// The character at a place in bytes, with the place after it; none at the end of the text.
#[inline]
pub fn char_at(text: &str, at: usize) -> Option<CharAt>
    requires { IsPlace text.now at }
    ensures some { IfSome result (λ s. Passed text.now at s.end (s.c ∷ [])) }
    ensures within { IfSome result (λ s. (at < s.end) × (s.end ≤ length text.now)) }
    ensures none { IfNone result (behind text.now at ≡ []) }
{
    if let Some(step) = ascii_char_at(text, at) {
        return Some(step);
    }
    non_ascii_char_at(text, at)
}

/// The character at a place in bytes, if it is one of ASCII.
#[inline]
pub(crate) fn ascii_char_at(text: &str, at: usize) -> Option<CharAt>
    requires { IsPlace text.now at }
    ensures some { IfSome result (λ s. Passed text.now at s.end (s.c ∷ [])) }
    ensures within { IfSome result (λ s. (at < s.end) × (s.end ≤ length text.now)) }
    ensures ascii { IfSome result (λ s. s.c < 128) }
    ensures none { IfNone result (IsFalse (begins_with is_ascii (behind text.now at))) }
{
    let bytes = text.as_bytes();
    if at >= bytes.len() {
        return None;
    }
    let byte = bytes[at];
    if byte >= 128 {
        return None;
    }
    Some(CharAt {
        c: char::from(byte),
        end: at + 1,
    })
}

/// The character at a place, by decoding UTF-8: for characters that aren't of ASCII.
fn non_ascii_char_at(text: &str, at: usize) -> Option<CharAt>
    requires { IsPlace text.now at }
    ensures some { IfSome result (λ s. Passed text.now at s.end (s.c ∷ [])) }
    ensures within { IfSome result (λ s. (at < s.end) × (s.end ≤ length text.now)) }
    ensures none { IfNone result (behind text.now at ≡ []) }
{
    let mut rest = text[at..].chars();
    let Some(c) = rest.next() else {
        return None;
    };
    Some(CharAt {
        c,
        end: at + c.len_utf8(),
    })
}
