//! The languages that settings leave to scripts.

use language::Language;

/// Which languages a script may have.
#[derive(Clone, Copy, Debug, PartialEq, Eq)]
pub struct Languages {
    base: bool,
    scripts: bool,
    modules: bool,
}

impl Languages {
    ghost use Rattle.std.specs.Prelude.{◌≡◌};
    ghost use Rattle.rules.specs.Languages.{all_languages, both_of, edition_languages, has_language, has_none, source_type_languages};

    /// All of them.
    pub fn all() -> Languages
        ensures { result ≡ all_languages }
    {
        Languages {
            base: true,
            scripts: true,
            modules: true,
        }
    }

    /// Those of an edition, if there is one of this year.
    pub(crate) fn of_edition(year: i64) -> Option<Languages>
        ensures { result ≡ edition_languages year }
    {
        match year {
            2020 => Some(Languages {
                base: true,
                scripts: false,
                modules: false,
            }),
            2022 => Some(Languages {
                base: false,
                scripts: true,
                modules: true,
            }),
            _ => None,
        }
    }

    /// Those of a source type, if there is one of this name.
    pub(crate) fn of_source_type(name: &str) -> Option<Languages>
        ensures { result ≡ source_type_languages name.now }
    {
        match name {
            "script" => Some(Languages {
                base: true,
                scripts: true,
                modules: false,
            }),
            "module" => Some(Languages {
                base: false,
                scripts: false,
                modules: true,
            }),
            _ => None,
        }
    }

    /// Those that are among both.
    pub(crate) fn and(self, other: Languages) -> Languages
        ensures { result ≡ both_of self other }
    {
        Languages {
            base: self.base && other.base,
            scripts: self.scripts && other.scripts,
            modules: self.modules && other.modules,
        }
    }

    /// Whether there is none.
    pub(crate) fn is_empty(self) -> bool
        ensures { result ≡ has_none self }
    {
        !self.base && !self.scripts && !self.modules
    }

    /// Whether a language is among them.
    pub fn contains(self, language: Language) -> bool
        ensures { result ≡ has_language self language }
    {
        match language {
            Language::Base => self.base,
            Language::Script => self.scripts,
            Language::Module => self.modules,
        }
    }
}
