//! Runs of characters that mean nothing in strings and comments.

ghost use Rattle.std.specs.Prelude.{◌≡◌};
ghost use Rattle.source_text.specs.Source.{IsPlace};
ghost use Rattle.tokens.specs.Closers.{is_plain};
ghost use Rattle.tokens.specs.Scanned.{AllPass};

/// The characters of ASCII that end neither a string nor a comment nor a line and begin no escape, each at its own place.
/// U+0000 is at every other place.
static PLAIN: [u8; 256] = *b"\
    \0\0\0\0\0\0\0\0\0\0\0\0\0\0\0\0\0\0\0\0\0\0\0\0\0\0\0\0\0\0\0\0\
    \x20!\0#$%&\0()\0+,-./0123456789:;<=>?\
    @ABCDEFGHIJKLMNOPQRSTUVWXYZ[\0]^_\
    `abcdefghijklmnopqrstuvwxyz{|}~\0\
    \0\0\0\0\0\0\0\0\0\0\0\0\0\0\0\0\0\0\0\0\0\0\0\0\0\0\0\0\0\0\0\0\
    \0\0\0\0\0\0\0\0\0\0\0\0\0\0\0\0\0\0\0\0\0\0\0\0\0\0\0\0\0\0\0\0\
    \0\0\0\0\0\0\0\0\0\0\0\0\0\0\0\0\0\0\0\0\0\0\0\0\0\0\0\0\0\0\0\0\
    \0\0\0\0\0\0\0\0\0\0\0\0\0\0\0\0\0\0\0\0\0\0\0\0\0\0\0\0\0\0\0\0";

/// Whether a byte is such a character.
#[inline]
fn is_plain_byte(byte: u8) -> bool
    ensures { result ≡ is_plain byte }
{
    PLAIN[byte as usize] != 0
}

/// Where the run of such characters from this place on ends, in bytes.
#[inline]
pub(crate) fn plain_end(text: &str, at: usize) -> usize
    requires { IsPlace text.now at }
    ensures { AllPass is_plain text.now at result }
{
    let bytes = text.as_bytes();
    let mut end = at;
    while end < bytes.len() && is_plain_byte(bytes[end]) {
        end += 1;
    }
    end
}
