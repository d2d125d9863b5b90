//! The language of a tree.

ghost use Rattle.std.specs.Prelude.{◌≡◌};
ghost use Rattle.tree.specs.Node.{node_tree};
ghost use Rattle.early_errors.specs.Around.{outside_of};
ghost use Rattle.early_errors.specs.Owns.{program_beside, round};
ghost use Rattle.tree.specs.Tree.{Tree};

use crate::around::Context;
use tree::{Form, Node};

/// What a Program's text says of its language.
#[derive(Clone, Copy)]
pub(crate) struct Language {
    /// It is that of 2022, scripts or modules.
    pub(crate) is_2022: bool,
    /// It is that of modules.
    pub(crate) is_module: bool,
}

impl Language {
    /// That of the base profile.
    pub(crate) const BASE: Language = Language {
        is_2022: false,
        is_module: false,
    };

    /// That of a Program.
    pub(crate) fn of(program: Node) -> Language
        ensures of_2022 { result.is_2022 ≡ (outside_of (node_tree program.entry)).of_2022 }
        ensures in_module { result.is_module ≡ (outside_of (node_tree program.entry)).in_module }
    {
        let text = program.text();
        let is_module = text == "module";
        Language {
            is_2022: text == "2022" || is_module,
            is_module,
        }
    }

    /// What holds round a Program of this language: at the top of a module `await` may stand.
    pub(crate) fn outside(self) -> Context
        ensures around { (n : Tree) → self.is_2022 ≡ (outside_of n).of_2022 → self.is_module ≡ (outside_of n).in_module → round result (program_beside self) ≡ outside_of n }
        ensures unknown { result.labels_loop ≡ None }
    {
        Context {
            body_form: if self.is_module {
                Form::Async
            } else {
                Form::Init
            },
            ..Context::OUTSIDE
        }
    }
}
