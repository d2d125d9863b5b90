//! Line ends and indentation, in the bytes of a text (ECMA-262 11.2 and 11.3).

ghost use Rattle.std.specs.Prelude.{◌≤◌, length};

/// How many bytes the line end at the front has; 0 where none stands there. CR LF is one line end.
pub(crate) fn line_end(bytes: &[u8]) -> usize
    ensures { result ≤ length bytes.now }
{
    match bytes {
        [b'\r', b'\n', ..] => 2,
        [b'\n' | b'\r', ..] => 1,
        [0xE2, 0x80, 0xA8 | 0xA9, ..] => 3,
        _ => 0,
    }
}

/// Where the first line end stands; the length where there is none.
pub(crate) fn first_line_end(bytes: &[u8]) -> usize
    ensures { result ≤ length bytes.now }
{
    for index in 0..bytes.len() {
        if line_end(&bytes[index..]) > 0 {
            return index;
        }
    }
    bytes.len()
}

/// Whether a line ends in it.
pub(crate) fn has_line_end(bytes: &[u8]) -> bool {
    first_line_end(bytes) < bytes.len()
}

/// Where the last line begins.
pub(crate) fn last_line(bytes: &[u8]) -> usize
    ensures { result ≤ length bytes.now }
{
    let mut index = bytes.len();
    while index > 0 {
        index -= 1;
        let ending = line_end(&bytes[index..]);
        if ending > 0 {
            return index + ending;
        }
    }
    0
}

/// How many bytes the white space at the front has, one character of it; 0 where none stands there. The byte order mark isn't counted.
fn space(bytes: &[u8]) -> usize
    ensures { result ≤ length bytes.now }
{
    match bytes {
        [b' ' | b'\t' | 0x0B | 0x0C, ..] => 1,
        [0xC2, 0xA0, ..] => 2,
        [0xE1, 0x9A, 0x80, ..] => 3,
        [0xE2, 0x80, 0x80..=0x8A | 0xAF, ..] => 3,
        [0xE2, 0x81, 0x9F, ..] => 3,
        [0xE3, 0x80, 0x80, ..] => 3,
        _ => 0,
    }
}

/// How many bytes of white space a line begins with.
pub(crate) fn indentation(line: &[u8]) -> usize
    ensures { result ≤ length line.now }
{
    let mut end = 0;
    while end < line.len() {
        let more = space(&line[end..]);
        if more == 0 {
            return end;
        }
        end += more;
    }
    end
}

/// How many characters the bytes of a text are.
pub(crate) fn character_count(bytes: &[u8]) -> usize {
    bytes
        .iter()
        .filter(|byte| !matches!(**byte, 0x80..=0xBF))
        .count()
}
