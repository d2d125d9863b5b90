//! `no-undef`: no names that nothing declares.

ghost use Rattle.std.specs.Prelude.{◌≡◌, ◌++◌, ◌∷◌, [], cond, map, OnOk};
ghost use Rattle.scopes.specs.Shown.{reference_shown};
ghost use Rattle.rule_words.specs.Appends.{Grows};
ghost use Rattle.tree.specs.Node.{node_tree};
ghost use Rattle.rules.specs.Rules.{each_undefined, is_of_2022, may_be_undefined, of_undefined};
ghost use Rattle.rules.specs.Nodes.{undefined_at};

use crate::rule::Rule;
use crate::rule_option::RuleOption;
use crate::settings::Settings;
use crate::view::View;
use reference_rules::is_built_in_for;
use rule_words::{Report, push_report, quoted};
use scopes::Reference;
use std::alloc::{AllocError, Global};
use tree::{Node, Span};

/// Reports each reference that means no binding of the script and whose name is neither built in (ECMA-262 clause 18) nor
/// one of the settings' `globals`, at its start; not the operand of a `typeof`, unless the settings' `typeof` asks for it.
///
/// Wrong: `a;`, `a = 1;`, `typeof a.b;`, `{ let b; } b;`. Right: `let a; a;`, `typeof a;`, `Math.max(1, 2);`,
/// `function f() { arguments; }`, and `a;` with `globals = ["a"]`.
///
/// ESLint's rule takes global names from its configuration and from comments as `/* global a */`. Here the settings alone name them, and
/// only the names of ECMAScript are built in: `window`, `process` and `console` are not.
#[derive(Drop)]
pub struct NoUndef {
    alloc: Global,
}

impl NoUndef {
    /// What settings and reports call the rule.
    pub const NAME: &'static str = "no-undef";

    /// The rule; its reports take their memory from here.
    pub fn new(alloc: Global) -> NoUndef {
        NoUndef { alloc }
    }
}

impl Rule for NoUndef {
    ghost use Rattle.std.specs.Prelude.{codes};
    ghost use Rattle.rules.specs.Rules.{no_undef};
    ghost use Rattle.rules.specs.RuleViews.{seen};

    ghost called = { λ _. codes "no-undef" };

    ghost finds = { λ _ v. no_undef v };

    /// The rule's name, by which settings turn it off.
    fn name(&self) -> &str {
        NoUndef::NAME
    }

    /// Adds what the rule finds.
    fn check(&self, view: &View, out: &mut Vec<Report>) -> Result<(), AllocError> {
        let Some(scopes) = view.scopes else {
            return Ok(());
        };
        let known = KnownNames {
            is_2022: is_of_2022(view.program.root()),
            settings: view.settings,
        };
        push_all_undefined(self.alloc, known, scopes.references(), out)
    }
}

/// Which names are known where nothing declares them.
#[derive(Clone, Copy)]
struct KnownNames<'v> {
    /// Those of the language of 2022.
    is_2022: bool,
    /// The settings' own.
    settings: &'v Settings,
}

/// Whether a Program is one of the language of 2022.
pub(crate) fn is_of_2022(program: Node) -> bool
    ensures { result ≡ is_of_2022 (node_tree program.entry) }
{
    let text = program.text();
    text == "2022" || text == "module"
}

/// Appends a report of each reference that nothing declares.
fn push_all_undefined(
    alloc: Global,
    known: KnownNames,
    references: &[Reference],
    out: &mut Vec<Report>,
) -> Result<(), AllocError>
    ensures found { OnOk result (out.new.items ≡ out.old.items ++ each_undefined known.entry.is_2022 known.entry.settings.now (map reference_shown references.now)) }
    ensures kept { Grows out.old.items out.new.items }
{
    for reference in references {
        push_undefined(alloc, known, *reference, out)?;
    }
    Ok(())
}

/// Adds the report of a reference that means nothing known.
fn push_undefined(
    alloc: Global,
    known: KnownNames,
    reference: Reference,
    out: &mut Vec<Report>,
) -> Result<(), AllocError>
    ensures found { OnOk result (out.new.items ≡ out.old.items ++ of_undefined known.entry.is_2022 known.entry.settings.now (reference_shown reference.entry)) }
    ensures kept { Grows out.old.items out.new.items }
{
    if !is_undefined(known, reference) {
        return Ok(());
    }
    let text = quoted(alloc, reference.name, "is not defined")?;
    let span = Span {
        start: reference.start,
        end: reference.end,
    };
    push_report(alloc, NoUndef::NAME, span, text, out)
}

/// Whether a reference may be undefined: as an operand of `typeof`, unless the settings ask for those.
fn may_be_undefined(known: KnownNames, reference: Reference) -> bool
    ensures { result ≡ may_be_undefined known.entry.settings.now (reference_shown reference.entry) }
{
    reference.typeof_operand && !known.settings.has_option(RuleOption::Typeof)
}

/// Whether a reference has no binding and no built-in or global of its name, and may not be undefined.
fn is_undefined(known: KnownNames, reference: Reference) -> bool
    ensures { of_undefined known.entry.is_2022 known.entry.settings.now (reference_shown reference.entry) ≡ cond result (undefined_at (reference_shown reference.entry) ∷ []) [] }
{
    reference.meaning.is_none()
        && !(may_be_undefined(known, reference)
            || is_built_in_for(known.is_2022, reference.name)
            || known.settings.is_global(reference.name))
}
