//! Trees written down as text: a node is its kind, its flags behind `#`, its text, which is one word, and its parts, in parentheses with a
//! space before each `)`; `_` is a gap. Each part begins where the one before it ends, or behind `@7` at 7; a node ends a byte behind its
//! last part, and a gap takes no place.

use crate::kinds::{kind, set_flag};
use productions::{MeasuredParts, finish_node};
use source_text::Fault;
use std::alloc::Global;
use tree::{Flags, Kind, Program, Span, TextArena, TreeBuilder};

/// A node whose `)` wasn't read yet.
#[derive(Drop)]
struct Open<'s> {
    kind: Kind,
    text: &'s str,
    flags: Flags,
    start: usize,
    nodes: MeasuredParts,
}

/// What was read.
#[derive(Drop)]
struct Reader<'s> {
    /// The nodes so far.
    tree: TreeBuilder<'s>,
    /// The greatest height that a node may have.
    high: u32,
    /// Where the last part ends.
    end: usize,
    /// The innermost node last; the script is the first.
    opened: Vec<Open<'s>>,
}

impl<'s> Reader<'s> {
    /// Opens a node of this kind.
    fn open(&mut self, kind: Kind) -> Result<(), Fault> {
        let open = Open {
            kind,
            text: "",
            flags: Flags::PLAIN,
            start: self.end,
            nodes: MeasuredParts::new(),
        };
        self.opened.push(open)?;
        Ok(())
    }

    /// A `)`: the innermost node is a part of the one that is open then.
    fn close(&mut self) -> Result<(), Fault> {
        let Some(open) = self.opened.pop() else {
            return Ok(());
        };
        self.end = self.end.saturating_add(1);
        let span = Span {
            start: open.start,
            end: self.end,
        };
        let node = finish_node(
            &mut self.tree,
            open.kind,
            open.text,
            open.flags,
            span,
            open.nodes,
            self.high,
        )?;
        if let Some(outer) = self.opened.last_mut() {
            outer.nodes.push(node)?;
        }
        Ok(())
    }

    /// Adds a missing part to the open node.
    fn push_gap(&mut self) -> Result<(), Fault> {
        match self.opened.last_mut() {
            Some(open) => open.nodes.push_gap(&mut self.tree),
            None => Ok(()),
        }
    }

    /// A flag of the innermost node, or its text.
    fn tell(&mut self, word: &'s str) {
        if let Some(open) = self.opened.last_mut() {
            match word.starts_with('#') {
                true => set_flag(&mut open.flags, word),
                false => open.text = word,
            }
        }
    }

    /// Takes one word of the sketch: it opens or closes a node, adds a gap, sets a place, or tells of the open node.
    fn take(&mut self, word: &'s str) -> Result<(), Fault> {
        match word.split_at_checked(1) {
            Some(("(", name)) => self.open(kind(name)),
            Some((")", _)) => self.close(),
            Some(("_", _)) => self.push_gap(),
            Some(("@", place)) => Ok(self.end = place.parse::<usize>().unwrap_or(0)),
            _ => Ok(self.tell(word)),
        }
    }

    /// The parts of a script; the script stays open.
    fn read(&mut self, text: &'s str) -> Result<(), Fault> {
        self.open(Kind::Program)?;
        for word in text.split_whitespace() {
            self.take(word)?;
        }
        Ok(())
    }
}

/// The parts of a script, which wait in the tree, and where the last one ends.
#[derive(Drop)]
pub(crate) struct Sketch<'s> {
    pub(crate) tree: TreeBuilder<'s>,
    pub(crate) nodes: MeasuredParts,
    pub(crate) end: usize,
}

/// The parts of a script, each this high at most, behind what waits in a tree.
pub(crate) fn parts<'s>(
    alloc: Global,
    tree: TreeBuilder<'s>,
    text: &'s str,
    high: u32,
) -> Result<Sketch<'s>, Fault> {
    let mut reader = Reader {
        tree,
        high,
        end: 0,
        opened: Vec::new(alloc),
    };
    reader.read(text)?;
    let Reader {
        tree,
        end,
        mut opened,
        ..
    } = reader;
    let nodes = match opened.pop() {
        Some(script) => script.nodes,
        None => MeasuredParts::new(),
    };
    Ok(Sketch { tree, nodes, end })
}

/// The script of all that waits in a tree.
pub(crate) fn program<'s>(tree: TreeBuilder<'s>, span: Span) -> Result<Program<'s>, Fault> {
    match Program::build(tree, "", span) {
        Ok(program) => Ok(program),
        Err(_) => Err(Fault::OutOfMemory),
    }
}

/// The script of these parts.
pub(crate) fn script<'s>(
    alloc: Global,
    texts: &'s TextArena,
    text: &'s str,
    high: u32,
) -> Result<Program<'s>, Fault> {
    let Sketch { tree, end, .. } = parts(alloc, TreeBuilder::new(alloc, texts), text, high)?;
    let end = end.saturating_add(1);
    program(tree, Span { start: 0, end })
}
