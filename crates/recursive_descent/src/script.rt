//! Whole scripts and modules (ECMA-262 15.1; 16.2 of the 13th edition).
#![tactic(auto, using(parser_tables::proofs::Refusals::refusals, crate::proofs::reading::AdvancedTokens::moves))]

ghost use Rattle.std.specs.Prelude.{◌≡◌, ◌≤◌, length, IfErr, IfOk, []};
ghost use Rattle.std.specs.Str.{IsUtf8};
ghost use Rattle.token_cursor.specs.Refusals.{IsRefusal};
ghost use Rattle.source_text.specs.declared.fault.Fault.TheVariants.{OutOfMemory};
ghost use Rattle.tree.specs.Tree.{program_tree};
ghost use Rattle.recursive_descent.specs.Limits.{WithinLimitsIn};
ghost use Rattle.recursive_descent.specs.Scripts.{IsAnswered, program_text};

use crate::parser::Parser;
use language::Language;
use language::limits::MAX_HEIGHT;
use parser_tables::{StatementContext, StatementListEnd};
use source_text::{Fault, Source};
use std::alloc::Global;
use token_cursor::Cursor;
use tree::{BuildError, Pair, Program, Span, TextArena, TreeBuilder};

/// A script or module, with the pairs of parentheses that group, in order of their `(`.
#[derive(Drop)]
pub struct Script<'s> {
    pub program: Program<'s>,
    pub pairs: Vec<Pair>,
}

/// The script or module that a text is in a language. Texts of it that are no slice of the source stay in `texts`.
///
/// # Errors
/// `Syntax` with a place, a byte offset, where no derivation exists; `TooDeep` where none exists within the limits: a height of `MAX_HEIGHT`, and
/// `MAX_OPEN` parentheses that are open at one point and group or hold an arrow's parameters; `OutOfMemory`.
pub fn read<'s>(
    alloc: Global,
    texts: &'s TextArena,
    source: &Source<'s>,
    language: Language,
) -> Result<Script<'s>, Fault>
    ensures source { IfOk result (λ _. IsUtf8 source.now × (length source.now ≤ 16777216)) }
    ensures derived { IfOk result (λ script. WithinLimitsIn language source.now script.program script.pairs.items) }
    ensures complete { IsAnswered language source.now result }
    ensures refused { IfErr result (IsRefusal (record { bytes = source.now; language = language })) }
{
    let mut parser = Parser {
        cursor: Cursor::new(source, language),
        pairs: Vec::new(alloc),
        tree: TreeBuilder::new(alloc, texts),
        alloc,
    };
    match language {
        Language::Module => parser.module_items(MAX_HEIGHT - 1)?,
        Language::Base | Language::Script => parser.statements(
            StatementListEnd::EndOfText,
            StatementContext::SCRIPT,
            MAX_HEIGHT - 1,
        )?,
    };
    let Parser {
        cursor: _,
        mut pairs,
        tree,
        alloc: _,
    } = parser;
    pairs.retain(|pair| pair.left < pair.right);
    let span = Span {
        start: 0,
        end: source.text().len(),
    };
    let program = finished(tree, language, span)?;
    Ok(Script { program, pairs })
}

/// The text of the Program's node, which says its language.
fn program_text(language: Language) -> &'static str
    ensures { result.now ≡ program_text language }
{
    match language {
        Language::Base => "",
        Language::Script => "2022",
        Language::Module => "module",
    }
}

/// The finished script or module of what waits. `OutOfMemory` says also that it is too large to be finished.
fn finished<'s>(
    items: TreeBuilder<'s>,
    language: Language,
    span: Span,
) -> Result<Program<'s>, Fault>
    ensures built { IfOk result (λ program. program ≡ program_tree (program_text language) items.entry span) }
    ensures refused { IfErr result (λ fault. fault ≡ OutOfMemory) }
{
    match Program::build(items, program_text(language), span) {
        Ok(program) => Ok(program),
        Err(BuildError::Memory | BuildError::TooLarge) => Err(Fault::OutOfMemory),
    }
}
