//! The edits of a round, as they are found and put in order.

use crate::asked::{begins_in, find, is_asked, place};
use crate::change::{Change, MendRule};
use crate::edits::{Edits, edits_of};
use crate::label::label_by;
use crate::rebuilt::{has_dotted_key, has_long_operation};
use crate::replaced::part_by;
use crate::splice::Edit;
use crate::tests::{has_bodies, has_statements, is_block};
use crate::words::span_at;
use std::alloc::{AllocError, Global};
use tree::{Kind, Node, Span};

/// An edit, and the number of the change that it is of.
#[derive(Clone, Copy)]
struct Found {
    edit: Edit,
    number: usize,
}

/// A reported place, by its number among those that are asked for, and the number of the change that it is of.
#[derive(Clone, Copy)]
struct Mark {
    asked: usize,
    number: usize,
}

/// The edits that were found so far.
#[derive(Drop)]
pub(crate) struct Plan<'a> {
    alloc: Global,
    text: &'a [u8],
    /// The changes that are asked for, in order of their places.
    asked: &'a [Change],
    found: Vec<Found>,
    marks: Vec<Mark>,
    /// Which changes are left out.
    left_out: Vec<bool>,
}

/// The rules that may change a node of a kind.
pub(crate) fn rules_at(kind: Kind) -> &'static [MendRule] {
    match kind {
        Kind::AssignmentExpression => &[MendRule::OperatorAssignment],
        Kind::BinaryExpression => &[MendRule::EqEqEq],
        Kind::BlockStatement => &[MendRule::NoLonelyIf],
        Kind::DebuggerStatement => &[MendRule::NoDebugger, MendRule::Curly],
        Kind::EmptyStatement => &[MendRule::NoExtraSemi, MendRule::Curly],
        Kind::ExportSpecifier | Kind::ImportSpecifier => &[MendRule::NoUselessRename],
        Kind::LabeledStatement => &[MendRule::NoUnusedLabels, MendRule::Curly],
        Kind::MemberExpression => &[MendRule::DotNotation],
        Kind::Property => &[
            MendRule::NoUselessComputedKey,
            MendRule::NoUselessRename,
            MendRule::ObjectShorthand,
        ],
        Kind::ReturnStatement => &[MendRule::NoUselessReturn, MendRule::Curly],
        Kind::UnaryExpression => &[MendRule::NoExtraBooleanCast],
        Kind::VariableDeclaration => &[MendRule::PreferConst, MendRule::Curly],
        Kind::BreakStatement
        | Kind::ContinueStatement
        | Kind::DoWhileStatement
        | Kind::ExpressionStatement
        | Kind::ForInStatement
        | Kind::ForOfStatement
        | Kind::ForStatement
        | Kind::FunctionDeclaration
        | Kind::IfStatement
        | Kind::SwitchStatement
        | Kind::ThrowStatement
        | Kind::TryStatement
        | Kind::WhileStatement => &[MendRule::Curly],
        _ => &[],
    }
}

/// Whether a rule has a change for a node in a node of this kind.
fn has_change(rule: MendRule, node: Node, parent: Kind) -> bool {
    match rule {
        MendRule::Curly => has_bodies(parent) && !is_block(node.kind()),
        MendRule::DotNotation => has_dotted_key(node),
        MendRule::NoDebugger | MendRule::NoExtraSemi | MendRule::NoUselessReturn => {
            has_statements(parent)
        },
        MendRule::NoExtraBooleanCast | MendRule::NoLonelyIf | MendRule::NoUnusedLabels => {
            part_by(rule, node).is_some()
        },
        MendRule::OperatorAssignment => has_long_operation(node),
        _ => label_by(rule, node).is_some(),
    }
}

impl<'a> Plan<'a> {
    /// No edits; no memory.
    pub(crate) fn new(alloc: Global, text: &'a [u8], asked: &'a [Change]) -> Plan<'a> {
        Plan {
            alloc,
            text,
            asked,
            found: Vec::new(alloc),
            marks: Vec::new(alloc),
            left_out: Vec::new(alloc),
        }
    }

    /// Adds the edits of changes at a node, and below it. What has the places of no change isn't entered: a rule reports a place in the node
    /// that it changes.
    #[tactic(auto, using(crate::proofs::MendSteps::part_steps))]
    pub(crate) fn push_node(&mut self, node: Node, parent: Kind) -> Result<(), AllocError> {
        if !begins_in(self.asked, node.span()) {
            return Ok(());
        }
        let kind = node.kind();
        for rule in rules_at(kind) {
            self.push_change(*rule, node, parent)?;
        }
        for index in 0..node.part_count() {
            if let Some(part) = node.part(index) {
                self.push_node(part, kind)?;
            }
        }
        Ok(())
    }

    /// Adds the edits of a rule's change at a node, if it is asked for.
    fn push_change(&mut self, rule: MendRule, node: Node, parent: Kind) -> Result<(), AllocError> {
        if !is_asked(rule, node, self.asked) || !has_change(rule, node, parent) {
            return Ok(());
        }
        let Some(edits) = edits_of(rule, self.text, node) else {
            return Ok(());
        };
        self.push_edits(edits)?;
        self.push_marks(rule, node)?;
        self.left_out.push(false)?;
        Ok(())
    }

    /// Adds the edits of the next change.
    fn push_edits(&mut self, edits: Edits) -> Result<(), AllocError> {
        let number = self.left_out.len();
        self.found.push(Found {
            edit: edits.first,
            number,
        })?;
        if let Some(edit) = edits.second {
            self.found.push(Found { edit, number })?;
        }
        Ok(())
    }

    /// Marks the places that the next change is of.
    fn push_marks(&mut self, rule: MendRule, node: Node) -> Result<(), AllocError> {
        let MendRule::PreferConst = rule else {
            return self.push_mark(rule, place(rule, node));
        };
        for index in 0..node.part_count() {
            if let Some(declarator) = node.part(index) {
                self.push_mark(rule, span_at(declarator, declarator.part(0)))?;
            }
        }
        Ok(())
    }

    /// Marks a place that the next change is of.
    fn push_mark(&mut self, rule: MendRule, span: Span) -> Result<(), AllocError> {
        let number = self.left_out.len();
        if let Some(asked) = find(self.asked, rule, span) {
            self.marks.push(Mark { asked, number })?;
        }
        Ok(())
    }

    /// Whether a change is left out.
    fn is_left_out(&self, number: usize) -> bool {
        match self.left_out.get(number) {
            Some(is) => *is,
            None => true,
        }
    }

    /// Leaves a change out.
    fn leave_out(&mut self, number: usize) {
        if let Some(is) = self.left_out.get_mut(number) {
            *is = true;
        }
    }

    /// Leaves out each change that overlaps an earlier one, of edits in order.
    fn leave_out_overlaps(&mut self) {
        let mut at = 0usize;
        for index in 0..self.found.len() {
            let Some(found) = self.found.get(index).copied() else {
                return;
            };
            if self.is_left_out(found.number) {
                continue;
            }
            if found.edit.start < at {
                self.leave_out(found.number);
            } else {
                at = found.edit.end;
            }
        }
    }

    /// The edits that aren't left out.
    fn edits_left(&self) -> Result<Vec<Edit>, AllocError> {
        let mut edits = Vec::with_capacity(self.alloc, self.found.len())?;
        for found in &self.found {
            if !self.is_left_out(found.number) {
                edits.push(found.edit)?;
            }
        }
        Ok(edits)
    }

    /// Which of the changes that are asked for are made.
    fn made(&self) -> Result<Vec<bool>, AllocError> {
        let mut made = Vec::with_capacity(self.alloc, self.asked.len())?;
        for _change in self.asked {
            made.push(false)?;
        }
        for mark in &self.marks {
            if !self.is_left_out(mark.number) && mark.asked < made.len() {
                made[mark.asked] = true;
            }
        }
        Ok(made)
    }

    /// The changes that are made.
    fn changes_left(&self) -> Result<Vec<Change>, AllocError> {
        let made = self.made()?;
        let mut changes = Vec::with_capacity(self.alloc, self.asked.len())?;
        for (change, is) in self.asked.iter().zip(made.iter()) {
            if *is {
                changes.push(*change)?;
            }
        }
        Ok(changes)
    }

    /// The edits in order, without those that overlap, and the changes that they make.
    pub(crate) fn settled(&mut self) -> Result<(Vec<Edit>, Vec<Change>), AllocError> {
        self.found
            .sort_by(|one, other| one.edit.start.cmp(&other.edit.start))?;
        self.leave_out_overlaps();
        let edits = self.edits_left()?;
        let changes = self.changes_left()?;
        Ok((edits, changes))
    }
}
