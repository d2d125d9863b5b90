//! The finished tree beside one that is made anew from it, and its nodes one by one.

use crate::print::{show, word};
use language::Language;
use parser::parse;
use source_text::{Fault, Source};
use std::alloc::{AllocError, Global};
use tree::{Node, Program, TextArena, TreeBuilder};

/// Makes a node of a finished tree anew: first its parts, then itself.
#[tactic(auto, using(tree::proofs::PartWalk::part_steps))]
fn make_anew<'t>(node: Node<'t, '_>, tree: &mut TreeBuilder<'t>) {
    let count = node.part_count();
    for index in 0..count {
        match node.part(index) {
            Some(part) => make_anew(part, tree),
            None => tree.gap(),
        }
    }
    tree.finish(node.kind(), node.text(), node.flags(), node.span(), count);
}

/// Makes the parts of a finished script anew.
fn make_parts_anew<'t>(root: Node<'t, '_>, tree: &mut TreeBuilder<'t>) {
    for index in 0..root.part_count() {
        match root.part(index) {
            Some(part) => make_anew(part, tree),
            None => tree.gap(),
        }
    }
}

/// The lines of a finished script: its tree, and its nodes with their rows.
fn lines(alloc: Global, program: &Program) -> Result<String, AllocError> {
    let mut out = String::new(alloc);
    show(program.root(), &mut out)?;
    push_nodes(program, &mut out)?;
    Ok(out)
}

/// Says so where a tree that is made anew from a finished one shows another kind, place, text, flag, part or row than it.
pub(crate) fn push_difference(
    alloc: Global,
    program: &Program,
    out: &mut String,
) -> Result<(), AllocError> {
    let root = program.root();
    let texts = TextArena::new(alloc);
    let mut tree = TreeBuilder::new(alloc, &texts);
    make_parts_anew(root, &mut tree);
    let Ok(anew) = Program::build(tree, root.text(), root.span()) else {
        return Err(AllocError);
    };
    let is_other = lines(alloc, program)?.as_str() != lines(alloc, &anew)?.as_str();
    out.push_str(word(is_other, "another tree: "))
}

/// Of a text that is a script, where the tree that is made anew from its finished one shows something else than that.
pub(crate) fn push_difference_of_source(
    alloc: Global,
    texts: &TextArena,
    source: &Source,
    language: Language,
    out: &mut String,
) -> Result<(), AllocError> {
    match parse(alloc, texts, source, language) {
        Ok(parsed) => push_difference(alloc, parsed.program(), out),
        Err(Fault::OutOfMemory) => Err(AllocError),
        Err(_) => Ok(()),
    }
}

/// The kind of each node of a finished script, and its row, by their numbers.
pub(crate) fn push_nodes(program: &Program, out: &mut String) -> Result<(), AllocError> {
    for number in 0..program.node_count() {
        let node = program.node(number);
        write!(out, "{:?}", node.kind())?;
        if let Some(row) = node.row() {
            write!(out, " {row}")?;
        }
        out.push_str(";")?;
    }
    Ok(())
}

/// The kind of each node of a finished script, and how many rows are in it.
pub(crate) fn push_row_counts(program: &Program, out: &mut String) -> Result<(), AllocError> {
    for number in 0..program.node_count() {
        let node = program.node(number);
        write!(out, "{:?} {};", node.kind(), node.row_count())?;
    }
    Ok(())
}
