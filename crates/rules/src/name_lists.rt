//! Lists of names in the options of rules.

ghost use Rattle.std.specs.Prelude.{◌≡◌, drop, string_bytes};
ghost use Rattle.std.specs.List.{list_any};
ghost use Rattle.rules.specs.NamePatterns.{begins_with_star, ends_with_star, front, is_pattern, is_plain, stands_for, without_star};
ghost use Rattle.rules.specs.RuleOptions.{is_list};

use crate::rule_list::RuleName;

/// A list of names that a rule leaves alone. A text in it is a name; or its beginning, before a `*`; or its end, behind one.
#[derive(Clone, Copy, Debug, PartialEq, Eq)]
pub enum NameList {
    /// Parameters, of `no-unused-vars`.
    ArgsIgnore,
    /// Other names that are declared, of `no-unused-vars`.
    VarsIgnore,
    /// What `catch` binds, of `no-unused-vars`.
    CaughtErrorsIgnore,
    /// Names that may hide others, of `no-shadow`.
    Allow,
}

/// The lists.
const LISTS: [NameList; 4] = [
    NameList::ArgsIgnore,
    NameList::VarsIgnore,
    NameList::CaughtErrorsIgnore,
    NameList::Allow,
];

impl NameList {
    ghost use Rattle.std.specs.Prelude.{◌≡◌};
    ghost use Rattle.rules.specs.RuleOptions.{list_key_of, list_rule_of};

    /// Its key.
    pub(crate) fn key(self) -> &'static str
        ensures { result.now ≡ list_key_of self }
    {
        match self {
            NameList::ArgsIgnore => "args-ignore",
            NameList::VarsIgnore => "vars-ignore",
            NameList::CaughtErrorsIgnore => "caught-errors-ignore",
            NameList::Allow => "allow",
        }
    }

    /// The rule that has it.
    pub(crate) fn rule(self) -> RuleName
        ensures { result ≡ list_rule_of self }
    {
        match self {
            NameList::ArgsIgnore | NameList::VarsIgnore | NameList::CaughtErrorsIgnore => {
                RuleName::NoUnusedVars
            },
            NameList::Allow => RuleName::NoShadow,
        }
    }
}

/// Whether a rule has a list at this key.
#[tactic(auto, unfolding(crate::specs::RuleOptions::is_list))]
pub(crate) fn is_list(rule: &str, key: &str) -> bool
    ensures { result ≡ is_list rule.now key.now }
{
    LISTS
        .iter()
        .any(|list| rule == list.rule().as_str() && key == list.key())
}

/// The names in each list, as settings have them.
#[derive(Drop)]
pub(crate) struct NameLists {
    pub(crate) args_ignore: Vec<String>,
    pub(crate) vars_ignore: Vec<String>,
    pub(crate) caught_errors_ignore: Vec<String>,
    pub(crate) allow: Vec<String>,
}

impl NameLists {
    ghost use Rattle.std.specs.Prelude.{◌≡◌, map, string_bytes};
    ghost use Rattle.std.specs.List.{list_any};
    ghost use Rattle.rules.specs.NamePatterns.{stands_for};
    ghost use Rattle.rules.specs.ListsShown.{lists_shown};
    ghost use Rattle.rules.specs.RuleOptions.{is_listed, names_in};

    /// The names in a list.
    fn names(&self, list: NameList) -> &[String]
        ensures { map string_bytes result.now ≡ names_in (lists_shown self.now) list }
    {
        match list {
            NameList::ArgsIgnore => self.args_ignore.as_slice(),
            NameList::VarsIgnore => self.vars_ignore.as_slice(),
            NameList::CaughtErrorsIgnore => self.caught_errors_ignore.as_slice(),
            NameList::Allow => self.allow.as_slice(),
        }
    }

    /// Whether a text in a list stands for a name.
    pub(crate) fn is_listed(&self, list: NameList, name: &str) -> bool
        ensures { result ≡ is_listed (lists_shown self.now) list name.now }
    {
        is_any(name, self.names(list))
    }
}

/// Whether one of these texts stands for a name.
fn is_any(name: &str, texts: &[String]) -> bool
    ensures { result ≡ list_any (λ text. stands_for (string_bytes text) name.now) texts.now }
{
    texts
        .iter()
        .any(|text| stands_for(text.as_bytes(), name.as_bytes()))
}

/// Whether a text ends with `*`.
fn ends_with_star(text: &[u8]) -> bool
    ensures { result ≡ ends_with_star text.now }
{
    text.ends_with(b"*")
}

/// Whether a text begins with `*`.
fn begins_with_star(text: &[u8]) -> bool
    ensures { result ≡ begins_with_star text.now }
{
    text.starts_with(b"*")
}

/// All but the last byte of a text.
fn front(text: &[u8]) -> &[u8]
    ensures { result.now ≡ front text.now }
{
    &text[..text.len().saturating_sub(1)]
}

/// All but the first byte of a text.
fn behind_first(text: &[u8]) -> &[u8]
    ensures { result.now ≡ drop 1 text.now }
{
    if text.is_empty() { text } else { &text[1..] }
}

/// Whether a text stands for a name.
fn stands_for(text: &[u8], name: &[u8]) -> bool
    ensures { result ≡ stands_for text.now name.now }
{
    if ends_with_star(text) {
        name.starts_with(front(text))
    } else if begins_with_star(text) {
        name.ends_with(behind_first(text))
    } else {
        name == text
    }
}

/// A text without the `*` at its end, or else at its start.
fn without_star(text: &[u8]) -> &[u8]
    ensures { result.now ≡ without_star text.now }
{
    if ends_with_star(text) {
        front(text)
    } else if begins_with_star(text) {
        behind_first(text)
    } else {
        text
    }
}

/// Whether a text has no `*`.
fn is_plain(text: &[u8]) -> bool
    ensures { result ≡ is_plain text.now }
{
    text.iter().all(|byte| *byte != 42)
}

/// Whether a text may stand in a list of names: it has a `*` at one end at most.
pub(crate) fn is_pattern(text: &str) -> bool
    ensures { result ≡ is_pattern text.now }
{
    is_plain(without_star(text.as_bytes()))
}
