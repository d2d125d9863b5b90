//! Why settings don't fit, in words.

/// A key whose value is an array of names.
#[derive(Clone, Copy, Debug, PartialEq, Eq)]
pub(crate) enum ListKey {
    Extends,
    Only,
    Globals,
    Env,
}

/// Why a key of settings, its value or an element of it doesn't fit.
#[derive(Clone, Copy, Debug, PartialEq, Eq)]
pub enum Misfit {
    /// Settings have no such key.
    NoKey,
    /// There is no such rule.
    NoRule,
    /// The rule has no such option.
    NoOption,
    /// `rules` is no table.
    NoTable,
    /// `severity` in the table of a rule is none.
    NoSeverity,
    /// A rule has neither a severity nor a table.
    NoRuleSetting,
    /// What is on or off is neither true nor false.
    NoFlag,
    /// `args` has another word than its three.
    NoParams,
    /// `caught-errors` has another word than its two.
    NoCaughtErrors,
    /// A list of names is no array, or too long, or has an element that stands for no names.
    NoNameList,
    /// There is no such set of rules.
    NoSet,
    /// `extends` is neither the name of a set nor an array.
    NoSets,
    /// What should be an array is none.
    NoArray,
    /// An element that should be a string is none.
    NoString,
    /// There is no such environment.
    NoEnvironment,
    /// There is no such edition.
    NoEdition,
    /// There is no such source type.
    NoSourceType,
    /// `source-type` is "module", and `edition` is 2020.
    NoModules,
    /// `only` has a rule twice.
    Twice,
}

impl ListKey {
    ghost use Rattle.std.specs.Prelude.{◌≡◌, ◌≤◌, length};
    ghost use Rattle.rules.specs.Misfits.{item_misfit, list_key, list_misfit};

    /// The key.
    pub(crate) fn name(self) -> &'static str
        ensures name { result.now ≡ list_key self }
        ensures short { length result.now ≤ 7 }
    {
        match self {
            ListKey::Extends => "extends",
            ListKey::Only => "only",
            ListKey::Globals => "globals",
            ListKey::Env => "env",
        }
    }

    /// Why an element doesn't fit.
    pub(crate) fn item_misfit(self) -> Misfit
        ensures { result ≡ item_misfit self }
    {
        match self {
            ListKey::Extends => Misfit::NoSet,
            ListKey::Only => Misfit::NoRule,
            ListKey::Globals => Misfit::NoString,
            ListKey::Env => Misfit::NoEnvironment,
        }
    }

    /// Why a value that is no such array doesn't fit.
    pub(crate) fn list_misfit(self) -> Misfit
        ensures { result ≡ list_misfit self }
    {
        match self {
            ListKey::Extends => Misfit::NoSets,
            ListKey::Only | ListKey::Globals | ListKey::Env => Misfit::NoArray,
        }
    }
}

impl Misfit {
    ghost use Rattle.std.specs.Prelude.{◌≡◌, ◌≤◌, length};
    ghost use Rattle.rules.specs.Misfits.{misfit_words};

    /// What a line says of it behind the key: at most 100 bytes.
    pub fn words(self) -> &'static str
        ensures words { result.now ≡ misfit_words self }
        ensures short { length result.now ≤ 100 }
    {
        match self {
            Misfit::NoKey => ": there is no such key",
            Misfit::NoRule => ": there is no such rule",
            Misfit::NoOption => ": there is no such option",
            Misfit::NoTable => ": it takes a table",
            Misfit::NoSeverity => ": it takes true, false, \"off\", \"warn\", \"error\", 0, 1 or 2",
            Misfit::NoRuleSetting => {
                ": it takes true, false, \"off\", \"warn\", \"error\", 0, 1, 2 or a table with a severity or options"
            }
            Misfit::NoFlag => ": it takes true or false",
            Misfit::NoParams => ": it takes \"none\", \"after-used\" or \"all\"",
            Misfit::NoCaughtErrors => ": it takes \"none\" or \"all\"",
            Misfit::NoNameList => {
                ": it takes an array of 100 strings at most, each with a * at one end at most"
            }
            Misfit::NoSet => ": it takes \"nine\", \"recommended\", \"all\" or \"none\"",
            Misfit::NoSets => {
                ": it takes \"nine\", \"recommended\", \"all\", \"none\" or an array of these"
            }
            Misfit::NoArray => ": it takes an array of strings",
            Misfit::NoString => ": it takes strings",
            Misfit::NoEnvironment => {
                ": it takes \"browser\", \"node\", \"commonjs\", \"worker\", \"es2022\", \"mocha\" or \"jest\""
            }
            Misfit::NoEdition => ": it takes 2020 or 2022",
            Misfit::NoSourceType => ": it takes \"script\" or \"module\"",
            Misfit::NoModules => ": there are none in edition = 2020",
            Misfit::Twice => " twice",
        }
    }
}
