//! The parts of a node that is being made, with their height.

ghost use Rattle.std.specs.Prelude.{◌≡◌};

use crate::measured_node::MeasuredNode;
use crate::node_summary::{NodeSummary, summary_of_pattern};
use source_text::Fault;
use std::marker::Model;
use tree::{TreeBuilder, Witness, Witnessing};

/// The parts of a node, in source order, with the height of the tallest; contracts see them as those of its tree. They wait in the tree that
/// is built.
#[derive(Drop)]
pub struct MeasuredParts {
    shown: Witness,
    count: u32,
    levels: u32,
    /// Of the last; none where it is a gap, or there are none.
    last: Option<NodeSummary>,
}

impl Model for MeasuredParts {
    ghost use Rattle.std.specs.Prelude.{◌≡◌};
    ghost use Rattle.tree.specs.Tree.{Parts, parts_height, part_count};
    ghost use Rattle.tree.specs.TreeCode.{parts_code};
    ghost use Rattle.productions.specs.Summaries.{last_summary};

    ghost Value = { Parts };

    ghost coded = { parts_code };

    ghost view = { λ n. n.shown.parts };

    ghost invariant = { λ n. (n.count ≡ part_count n.shown.parts) × (n.levels ≡ parts_height n.shown.parts) × (n.last ≡ last_summary n.shown.parts) };
}

impl MeasuredParts {
    ghost use Rattle.std.specs.Prelude.{◌≡◌, IfOk, IfErr, IfSome, IfNone};
    ghost use Rattle.tree.specs.Patterns.{pattern_parts};
    ghost use Rattle.tree.specs.Tree.{Tree, Parts, none, part, push, push_gap, join, part_count, parts_height};

    /// No parts.
    #[inline(always)]
    pub fn new() -> MeasuredParts
        ensures { result ≡ none }
    {
        MeasuredParts {
            shown: Witness::of(&Witnessing::Nothing),
            count: 0,
            levels: 0,
            last: None,
        }
    }

    /// One part.
    #[inline(always)]
    pub fn one(sole: MeasuredNode) -> MeasuredParts
        ensures { result ≡ part sole none }
    {
        MeasuredParts {
            shown: sole.shown,
            count: 1,
            levels: sole.summary.levels,
            last: Some(sole.summary),
        }
    }

    /// Two parts.
    #[inline(always)]
    #[tactic(auto, using(crate::proofs::Growing::growing))]
    pub fn two(first: MeasuredNode, second: MeasuredNode) -> MeasuredParts
        ensures { result ≡ part first (part second none) }
    {
        let parts = MeasuredParts::one(first);
        MeasuredParts {
            shown: Witness::of(&Witnessing::Push {
                before: &parts.shown,
                node: &second.shown,
            }),
            count: 2,
            levels: parts.levels.max(second.summary.levels),
            last: Some(second.summary),
        }
    }

    /// One more part, behind the others; as they were where there is no number for it.
    ///
    /// # Errors
    /// `OutOfMemory`.
    #[inline(always)]
    #[tactic(auto, using(crate::proofs::Growing::growing))]
    pub fn push(&mut self, part: MeasuredNode) -> Result<(), Fault>
        ensures pushed { IfOk result (λ _. self.new ≡ push self.old part) }
        ensures kept { IfErr result (λ fault. (fault ≡ Fault.OutOfMemory) × (self.new ≡ self.old)) }
    {
        let Some(count) = self.count.checked_add(1) else {
            return Err(Fault::OutOfMemory);
        };
        self.shown = Witness::of(&Witnessing::Push {
            before: &self.shown,
            node: &part.shown,
        });
        self.count = count;
        self.levels = self.levels.max(part.summary.levels);
        self.last = Some(part.summary);
        Ok(())
    }

    /// A hole, or what is missing, behind the others, which waits behind what waited; as they were where there is no number for it.
    ///
    /// # Errors
    /// `OutOfMemory`.
    #[inline(always)]
    #[tactic(auto, using(crate::proofs::Growing::growing))]
    pub fn push_gap(&mut self, tree: &mut TreeBuilder<'_>) -> Result<(), Fault>
        ensures pushed { IfOk result (λ _. self.new ≡ push_gap self.old) }
        ensures kept { IfErr result (λ fault. (fault ≡ Fault.OutOfMemory) × (self.new ≡ self.old)) }
        ensures waits { IfOk result (λ _. tree.new ≡ push_gap tree.old) }
    {
        let Some(count) = self.count.checked_add(1) else {
            return Err(Fault::OutOfMemory);
        };
        tree.gap();
        self.shown = Witness::of(&Witnessing::PushGap {
            before: &self.shown,
        });
        self.count = count;
        self.last = None;
        Ok(())
    }

    /// Further parts, behind the others; as they were where there is no number for one.
    ///
    /// # Errors
    /// `OutOfMemory`.
    #[tactic(auto, using(crate::proofs::Growing::growing))]
    pub fn append(&mut self, further: MeasuredParts) -> Result<(), Fault>
        ensures joined { IfOk result (λ _. self.new ≡ join self.old further) }
        ensures kept { IfErr result (λ fault. (fault ≡ Fault.OutOfMemory) × (self.new ≡ self.old)) }
    {
        let Some(count) = self.count.checked_add(further.count) else {
            return Err(Fault::OutOfMemory);
        };
        self.shown = Witness::of(&Witnessing::Join {
            before: &self.shown,
            behind: &further.shown,
        });
        self.count = count;
        self.levels = self.levels.max(further.levels);
        if further.count != 0 {
            self.last = further.last;
        }
        Ok(())
    }

    /// How many they are, gaps included.
    pub fn len(&self) -> usize
        ensures { result ≡ part_count self.now }
    {
        self.count as usize
    }

    /// The height of the tallest; 0 where there is none.
    pub fn height(&self) -> u32
        ensures { result ≡ parts_height self.now }
    {
        self.levels
    }

    /// What stands for them in proofs.
    pub(crate) fn shown(&self) -> &Witness
        ensures { result.now.parts ≡ self.now }
    {
        &self.shown
    }

    /// The only part; none where there are others, or it is a gap.
    #[tactic(auto, using(crate::proofs::Growing::growing))]
    pub fn into_only(self) -> Option<MeasuredNode>
        ensures only { IfSome result (λ tall. self ≡ part tall none) }
        ensures none { IfNone result ((t : Tree) → self ≡ part t none → ⊥) }
    {
        if self.count != 1 {
            return None;
        }
        let Some(summary) = self.last else {
            return None;
        };
        Some(MeasuredNode {
            shown: self.shown,
            summary,
        })
    }

    /// The patterns that they become, of the same height, where they are what waits last.
    #[tactic(auto, using(crate::proofs::Growing::growing))]
    pub fn into_patterns(self, tree: &mut TreeBuilder<'_>) -> MeasuredParts
        ensures made { result ≡ pattern_parts 0 self }
        ensures waits { (base : Parts) → tree.old ≡ join base self → tree.new ≡ join base result }
    {
        tree.make_patterns(self.len());
        MeasuredParts {
            shown: Witness::of(&Witnessing::Patterns { of: &self.shown }),
            count: self.count,
            levels: self.levels,
            last: summary_of_pattern(self.last),
        }
    }
}
