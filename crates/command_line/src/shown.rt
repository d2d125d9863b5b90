//! Characters of the user's words as they are shown on a terminal.

ghost use Rattle.std.specs.Prelude.{◌≡◌, ◌<◌, ◌≤◌, ◌+◌, ◌++◌, IfOk, encode_utf8, encode_utf8_all, false, length, string_bytes, true};
ghost use Rattle.std.specs.Char.{digit_char};
ghost use Rattle.command_line.specs.Shown.{escape, escaped_name, is_hidden, on_one_line, shown, shown_byte, shown_bytes, two_digits, within_line};

use source_text::OutputBuffer;
use std::alloc::{AllocError, Global};

/// Whether the character is not seen itself, and changes what is seen round it: a control character, one of Unicode's Bidi_Control,
/// which turn a text round, or a separator of lines or paragraphs.
pub(crate) fn is_hidden(c: char) -> bool
    ensures { result ≡ is_hidden c }
{
    c.is_control()
        || c == '\u{61c}'
        || matches!(c, '\u{200e}'..='\u{200f}')
        || matches!(c, '\u{202a}'..='\u{202e}')
        || matches!(c, '\u{2066}'..='\u{2069}')
        || matches!(c, '\u{2028}'..='\u{2029}')
}

/// A hexadecimal digit.
fn hex_digit(digit: u32) -> char
    requires { digit < 16 }
    ensures { result ≡ digit_char digit }
{
    match char::from_digit(digit, 16) {
        Some(found) => found,
        None => unreachable!(),
    }
}

/// Puts a character behind what waits.
fn push_char(waiting: &mut OutputBuffer, c: char)
    requires { length waiting.old ≤ 4092 }
    ensures text { waiting.new ≡ waiting.old ++ encode_utf8 c }
    ensures short { length waiting.new ≤ length waiting.old + 4 }
{
    let mut bytes = [0; 4];
    waiting.push_text(c.encode_utf8(&mut bytes));
}

/// Puts the last two hexadecimal digits of a number behind what waits.
fn push_two_digits(waiting: &mut OutputBuffer, number: u32)
    requires small { number < 256 }
    requires room { length waiting.old ≤ 4088 }
    ensures text { waiting.new ≡ waiting.old ++ encode_utf8_all (two_digits number) }
    ensures short { length waiting.new ≤ length waiting.old + 8 }
{
    push_char(waiting, hex_digit(number / 16));
    push_char(waiting, hex_digit(number % 16));
}

/// Puts the escape of a character behind what waits.
fn push_escape(waiting: &mut OutputBuffer, c: char)
    requires hidden { is_hidden c ≡ true }
    requires room { length waiting.old ≤ 4064 }
    ensures { waiting.new ≡ waiting.old ++ encode_utf8_all (escape c) }
{
    let code = c as u32;
    if code < 256 {
        waiting.push_text("\\x");
        push_two_digits(waiting, code);
        return;
    }
    waiting.push_text("\\u{");
    push_two_digits(waiting, code / 256);
    push_two_digits(waiting, code % 256);
    waiting.push(b'}');
}

/// Puts a character, or what is shown in its place, behind what waits. A line feed stays where the text may have lines.
pub(crate) fn push_shown(waiting: &mut OutputBuffer, c: char, has_lines: bool)
    requires { length waiting.old ≤ 4064 }
    ensures { waiting.new ≡ waiting.old ++ encode_utf8_all (shown has_lines c) }
{
    if is_hidden(c) && !(has_lines && c == '\n') {
        push_escape(waiting, c);
    } else {
        push_char(waiting, c);
    }
}

/// Adds a character of a text that is to stand on one line.
fn push_within_line(text: &mut String, c: char) -> Result<(), AllocError>
    ensures { IfOk result (λ _. string_bytes text.new ≡ string_bytes text.old ++ encode_utf8_all (within_line c)) }
{
    if c == '\n' {
        text.push_str("\\x0a")
    } else {
        text.push(c)
    }
}

/// The text with `\x0a` in place of each line feed.
///
/// # Errors
///
/// `AllocError` where memory is refused.
#[tactic(auto, using(crate::proofs::ShownMore::within_line_more))]
pub(crate) fn text_on_one_line(alloc: Global, text: &str) -> Result<String, AllocError>
    ensures { IfOk result (λ s. string_bytes s ≡ on_one_line text.now) }
{
    let mut out = String::new(alloc);
    for c in text.chars() {
        push_within_line(&mut out, c)?;
    }
    Ok(out)
}

/// The name on one line, each hidden character escaped, as a line about its file has it.
///
/// # Errors
///
/// `AllocError` where memory is refused.
pub fn shown_name(alloc: Global, name: &str) -> Result<Vec<u8>, AllocError>
    ensures { IfOk result (λ shown. shown.items ≡ escaped_name name.now) }
{
    let mut bytes = Vec::new(alloc);
    let mut waiting = OutputBuffer::new();
    for c in name.chars() {
        waiting.clear();
        push_shown(&mut waiting, c, false);
        bytes.extend_from_slice(waiting.as_bytes())?;
    }
    Ok(bytes)
}

/// Puts a byte of a name that isn't UTF-8, or what is shown in its place, behind what waits.
fn push_byte(waiting: &mut OutputBuffer, byte: u8)
    requires { length waiting.old ≤ 4064 }
    ensures { waiting.new ≡ waiting.old ++ shown_byte byte }
{
    if (32..=126).contains(&byte) {
        waiting.push(byte);
        return;
    }
    waiting.push_text("\\x");
    push_two_digits(waiting, u32::from(byte));
}

/// A name that isn't UTF-8 on one line: each byte that is no letter, digit or sign of ASCII escaped.
///
/// # Errors
///
/// `AllocError` where memory is refused.
pub fn shown_bytes(alloc: Global, name: &[u8]) -> Result<Vec<u8>, AllocError>
    ensures { IfOk result (λ shown. shown.items ≡ shown_bytes name.now) }
{
    let mut bytes = Vec::new(alloc);
    let mut waiting = OutputBuffer::new();
    for byte in name {
        waiting.clear();
        push_byte(&mut waiting, *byte);
        bytes.extend_from_slice(waiting.as_bytes())?;
    }
    Ok(bytes)
}
