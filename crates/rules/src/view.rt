//! What rules look at.

use crate::settings::Settings;
use scopes::Scopes;
use tree::{Program, Span};

/// What a rule looks at: a script, its text, its scopes, the extra pairs of parentheses, and settings. The text, the scopes and the pairs
/// are those of an equal script, places included; no contract of this crate needs that, but what is reported is only then what
/// the rules mean. Where no rule that is on looks at scopes, they needn't be there.
#[derive(Clone, Copy)]
pub struct View<'v, 't, 's> {
    pub program: &'v Program<'s>,
    pub text: &'v str,
    /// The scopes: `None` where no rule that is on looks at them.
    pub scopes: Option<&'v Scopes<'t>>,
    /// The extra pairs, or none where no rule that is on looks at them; each from its `(` to behind its `)`.
    pub extra: &'v [Span],
    pub settings: &'v Settings,
}

impl<'v, 't, 's> View<'v, 't, 's> {
    ghost use Rattle.std.specs.Prelude.{◌≡◌, option_map};
    ghost use Rattle.rules.specs.RuleViews.{found_or_nothing, seen};

    /// A view of these. Takes no memory.
    pub fn new(
        program: &'v Program<'s>,
        text: &'v str,
        scopes: Option<&'v Scopes<'t>>,
        extra: &'v [Span],
        settings: &'v Settings,
    ) -> View<'v, 't, 's>
        ensures { seen result ≡ record { tree = program.now; text = text.now; found = found_or_nothing (option_map (λ s. s.now) scopes.entry); extra = extra.now; settings = settings.now } }
    {
        View {
            program,
            text,
            scopes,
            extra,
            settings,
        }
    }
}
