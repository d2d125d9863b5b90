//! The directives, by the first word of a comment.

ghost use Rattle.std.specs.Prelude.{◌≡◌};
ghost use Rattle.suppressions.specs.Directives.{directive_of, eslint_directive, own_directive, reaches, turns_off};

/// What the first word of a comment asks for.
#[derive(Clone, Copy, Debug, PartialEq, Eq)]
pub(crate) enum Directive {
    Disable,
    DisableLine,
    DisableNextLine,
    Enable,
}

/// What a directive reaches.
#[derive(Clone, Copy, Debug, PartialEq, Eq)]
pub(crate) enum Reach {
    /// All that follows, up to a directive that says otherwise.
    Region,
    /// The line of the comment.
    Line,
    /// The line after that.
    NextLine,
}

/// The directive of a word.
fn own_directive(word: &str) -> Option<Directive>
    ensures { result ≡ own_directive word.now }
{
    match word {
        "jslint-disable" => Some(Directive::Disable),
        "jslint-disable-line" => Some(Directive::DisableLine),
        "jslint-disable-next-line" => Some(Directive::DisableNextLine),
        "jslint-enable" => Some(Directive::Enable),
        _ => None,
    }
}

/// The directive of a word of ESLint.
fn eslint_directive(word: &str) -> Option<Directive>
    ensures { result ≡ eslint_directive word.now }
{
    match word {
        "eslint-disable" => Some(Directive::Disable),
        "eslint-disable-line" => Some(Directive::DisableLine),
        "eslint-disable-next-line" => Some(Directive::DisableNextLine),
        "eslint-enable" => Some(Directive::Enable),
        _ => None,
    }
}

/// The directive of a word, where ESLint's are taken too or not.
pub(crate) fn directive_of(takes_eslint: bool, word: &str) -> Option<Directive>
    ensures { result ≡ directive_of takes_eslint word.now }
{
    match own_directive(word) {
        Some(directive) => Some(directive),
        None if takes_eslint => eslint_directive(word),
        None => None,
    }
}

/// Whether a directive, in a comment with `/*` or in one with `//`, reaches so far.
pub(crate) fn reaches(reach: Reach, is_block: bool, directive: Directive) -> bool
    ensures { result ≡ reaches reach is_block directive }
{
    match (reach, directive) {
        (Reach::Region, Directive::Disable | Directive::Enable) => is_block,
        (Reach::Line, Directive::DisableLine) => true,
        (Reach::NextLine, Directive::DisableNextLine) => true,
        _ => false,
    }
}

/// Whether a directive turns reports off, and not on again.
pub(crate) fn turns_off(directive: Directive) -> bool
    ensures { result ≡ turns_off directive }
{
    !matches!(directive, Directive::Enable)
}
