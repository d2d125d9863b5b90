//! How far the raw text of a literal or of a part of a template has been read, byte by byte.

ghost use Rattle.std.specs.Prelude.{◌≡◌};
ghost use Rattle.literal_rules.specs.TextStates.{next_behind_dollar, next_escaped, next_in_body, next_in_class, next_in_template, next_of_quote, next_opened, next_plain, next_state, or_backslash};

/// How far a text has been read.
#[derive(Clone, Copy)]
pub(crate) enum TextState {
    /// Before the first `/` of a regular expression.
    Slash,
    /// In its body, outside brackets.
    Body,
    /// Behind a backslash there.
    BodyBackslash,
    /// Behind the `[` of a class.
    ClassStart,
    /// Further in a class.
    Class,
    /// Behind a backslash in a class.
    ClassBackslash,
    /// Behind the second `/`.
    Flags,
    /// Before the quotation mark of a string.
    Quote,
    /// In a string between `"`.
    Double,
    /// Behind a backslash there.
    DoubleBackslash,
    /// In a string between `'`.
    Single,
    /// Behind a backslash there.
    SingleBackslash,
    /// In a part of a template.
    Template,
    /// Behind a `$` there.
    TemplateDollar,
    /// Behind a backslash there.
    TemplateBackslash,
    /// In a string that may have a substitution in it.
    Plain,
    /// Behind a `$` there.
    Dollar,
    /// Behind `${`.
    Opened,
    /// Further in what `${` opened.
    Inside,
}

/// How far a text has been read behind one more byte.
pub(crate) fn next_state(state: TextState, byte: u8) -> TextState
    ensures { result ≡ next_state state byte }
{
    match state {
        TextState::Slash => TextState::Body,
        TextState::Body => next_in_body(byte),
        TextState::BodyBackslash => TextState::Body,
        TextState::ClassStart => next_in_class(byte),
        TextState::Class => next_in_class(byte),
        TextState::ClassBackslash => TextState::Class,
        TextState::Flags => TextState::Flags,
        TextState::Quote => next_of_quote(byte),
        TextState::Double => or_backslash(byte, TextState::DoubleBackslash, TextState::Double),
        TextState::DoubleBackslash => TextState::Double,
        TextState::Single => or_backslash(byte, TextState::SingleBackslash, TextState::Single),
        TextState::SingleBackslash => TextState::Single,
        TextState::Template => next_in_template(byte),
        TextState::TemplateDollar => next_in_template(byte),
        TextState::TemplateBackslash => next_escaped(byte),
        TextState::Plain => next_plain(byte),
        TextState::Dollar => next_behind_dollar(byte),
        TextState::Opened => next_opened(byte),
        TextState::Inside => TextState::Inside,
    }
}

/// In the body of a regular expression.
fn next_in_body(byte: u8) -> TextState
    ensures { result ≡ next_in_body byte }
{
    match byte {
        b'\\' => TextState::BodyBackslash,
        b'[' => TextState::ClassStart,
        b'/' => TextState::Flags,
        _ => TextState::Body,
    }
}

/// In a class.
fn next_in_class(byte: u8) -> TextState
    ensures { result ≡ next_in_class byte }
{
    match byte {
        b'\\' => TextState::ClassBackslash,
        b']' => TextState::Body,
        _ => TextState::Class,
    }
}

/// Behind the quotation mark that begins a string.
fn next_of_quote(byte: u8) -> TextState
    ensures { result ≡ next_of_quote byte }
{
    if byte == b'"' {
        TextState::Double
    } else {
        TextState::Single
    }
}

/// One state behind a backslash, another one behind any other byte.
fn or_backslash(byte: u8, behind: TextState, other: TextState) -> TextState
    ensures { result ≡ or_backslash byte behind other }
{
    if byte == b'\\' { behind } else { other }
}

/// In a part of a template.
fn next_in_template(byte: u8) -> TextState
    ensures { result ≡ next_in_template byte }
{
    match byte {
        b'\\' => TextState::TemplateBackslash,
        b'$' => TextState::TemplateDollar,
        _ => TextState::Template,
    }
}

/// Behind a backslash in a template.
fn next_escaped(byte: u8) -> TextState
    ensures { result ≡ next_escaped byte }
{
    if byte == b'$' {
        TextState::TemplateDollar
    } else {
        TextState::Template
    }
}

/// In a string that may have a substitution in it.
fn next_plain(byte: u8) -> TextState
    ensures { result ≡ next_plain byte }
{
    if byte == b'$' {
        TextState::Dollar
    } else {
        TextState::Plain
    }
}

/// Behind a `$` in such a string.
fn next_behind_dollar(byte: u8) -> TextState
    ensures { result ≡ next_behind_dollar byte }
{
    match byte {
        b'{' => TextState::Opened,
        b'$' => TextState::Dollar,
        _ => TextState::Plain,
    }
}

/// Behind `${` in such a string.
fn next_opened(byte: u8) -> TextState
    ensures { result ≡ next_opened byte }
{
    if byte == b'}' {
        TextState::Plain
    } else {
        TextState::Inside
    }
}
