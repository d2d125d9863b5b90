//! Reserved words (ECMA-262 clause 11.6.2), by their length.

ghost use Rattle.std.specs.Prelude.{◌≡◌, [], ◌∷◌};
ghost use Rattle.language.specs.Vocabulary.{is_reserved, among};

use crate::byte_text::is_exactly;

/// Whether strict code reserves the name (ECMA-262 clause 11.6.2), so that it is no identifier.
pub fn is_reserved(name: &str) -> bool
    ensures { result ≡ is_reserved name.now }
{
    match name.len() {
        2 => is_reserved_of_two(name),
        3 => is_reserved_of_three(name),
        4 => is_reserved_of_four(name),
        5 => is_reserved_of_five(name),
        6 => is_reserved_of_six(name),
        7 => is_reserved_of_seven(name),
        8 => is_reserved_of_eight(name),
        9 => is_reserved_of_nine(name),
        10 => is_reserved_of_ten(name),
        _ => false,
    }
}

/// Whether a name of two bytes is reserved in strict code (11.6.2).
fn is_reserved_of_two(name: &str) -> bool
    ensures { result ≡ among name.now ("do" ∷ "if" ∷ "in" ∷ []) }
{
    is_exactly(name, "do") || is_exactly(name, "if") || is_exactly(name, "in")
}

/// Whether a name of three bytes is reserved in strict code (11.6.2).
fn is_reserved_of_three(name: &str) -> bool
    ensures { result ≡ among name.now ("for" ∷ "new" ∷ "try" ∷ "var" ∷ "let" ∷ []) }
{
    is_exactly(name, "for")
        || is_exactly(name, "new")
        || is_exactly(name, "try")
        || is_exactly(name, "var")
        || is_exactly(name, "let")
}

/// Whether a name of four bytes is reserved in strict code (11.6.2).
fn is_reserved_of_four(name: &str) -> bool
    ensures { result ≡ among name.now ("case" ∷ "else" ∷ "enum" ∷ "null" ∷ "this" ∷ "true" ∷ "void" ∷ "with" ∷ []) }
{
    is_exactly(name, "case")
        || is_exactly(name, "else")
        || is_exactly(name, "enum")
        || is_exactly(name, "null")
        || is_exactly(name, "this")
        || is_exactly(name, "true")
        || is_exactly(name, "void")
        || is_exactly(name, "with")
}

/// Whether a name of five bytes is reserved in strict code (11.6.2).
fn is_reserved_of_five(name: &str) -> bool
    ensures { result ≡ among name.now ("break" ∷ "catch" ∷ "class" ∷ "const" ∷ "false" ∷ "super" ∷ "throw" ∷ "while" ∷ "yield" ∷ []) }
{
    is_exactly(name, "break")
        || is_exactly(name, "catch")
        || is_exactly(name, "class")
        || is_exactly(name, "const")
        || is_exactly(name, "false")
        || is_exactly(name, "super")
        || is_exactly(name, "throw")
        || is_exactly(name, "while")
        || is_exactly(name, "yield")
}

/// Whether a name of six bytes is reserved in strict code (11.6.2).
fn is_reserved_of_six(name: &str) -> bool
    ensures { result ≡ among name.now ("delete" ∷ "export" ∷ "import" ∷ "return" ∷ "switch" ∷ "typeof" ∷ "static" ∷ "public" ∷ []) }
{
    is_exactly(name, "delete")
        || is_exactly(name, "export")
        || is_exactly(name, "import")
        || is_exactly(name, "return")
        || is_exactly(name, "switch")
        || is_exactly(name, "typeof")
        || is_exactly(name, "static")
        || is_exactly(name, "public")
}

/// Whether a name of seven bytes is reserved in strict code (11.6.2).
fn is_reserved_of_seven(name: &str) -> bool
    ensures { result ≡ among name.now ("default" ∷ "extends" ∷ "finally" ∷ "package" ∷ "private" ∷ []) }
{
    is_exactly(name, "default")
        || is_exactly(name, "extends")
        || is_exactly(name, "finally")
        || is_exactly(name, "package")
        || is_exactly(name, "private")
}

/// Whether a name of eight bytes is reserved in strict code (11.6.2).
fn is_reserved_of_eight(name: &str) -> bool
    ensures { result ≡ among name.now ("continue" ∷ "debugger" ∷ "function" ∷ []) }
{
    is_exactly(name, "continue") || is_exactly(name, "debugger") || is_exactly(name, "function")
}

/// Whether a name of nine bytes is reserved in strict code (11.6.2).
fn is_reserved_of_nine(name: &str) -> bool
    ensures { result ≡ among name.now ("interface" ∷ "protected" ∷ []) }
{
    is_exactly(name, "interface") || is_exactly(name, "protected")
}

/// Whether a name of ten bytes is reserved in strict code (11.6.2).
fn is_reserved_of_ten(name: &str) -> bool
    ensures { result ≡ among name.now ("instanceof" ∷ "implements" ∷ []) }
{
    is_exactly(name, "instanceof") || is_exactly(name, "implements")
}
