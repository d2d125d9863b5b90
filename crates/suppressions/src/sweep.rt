//! Which suppression decides about a report, for one report after the other.

use crate::decision::Decision;
use crate::suppression::Suppression;
use name_tables::{HashKey, NameTable};
use std::alloc::{AllocError, Global};

/// What the suppressions that were passed decide: about rules by their names, and about all others.
#[derive(Drop)]
pub(crate) struct Sweep<'s> {
    hash: HashKey,
    named: NameTable<'s, Decision>,
    others: Option<Decision>,
    /// How many were passed.
    passed: usize,
    /// Up to where.
    reached: usize,
}

impl<'s> Sweep<'s> {
    ghost use Rattle.std.specs.Prelude.{◌≡◌, ◌<◌, ◌+◌, ◌^◌, ℕ, List, cond, Some, IfOk, OnOk};
    ghost use Rattle.suppressions.specs.Suppressions.{Suppression};
    ghost use Rattle.suppressions.specs.Deciding.{decided, decision, is_named};
    ghost use Rattle.suppressions.specs.Sweeps.{IsSwept, state};

    /// Before the first suppression.
    pub(crate) fn new(alloc: Global, hash: HashKey) -> Sweep<'s>
        ensures swept { (ss : List Suppression) → IsSwept ss result }
        ensures start { result.reached ≡ 0 }
    {
        Sweep {
            hash,
            named: NameTable::new(alloc, hash),
            others: None,
            passed: 0,
            reached: 0,
        }
    }

    /// Passes one suppression more.
    fn pass(&mut self, alloc: Global, suppression: &Suppression<'s>) -> Result<(), AllocError>
        requires { self.old.passed + 1 < 2 ^ 64 }
        ensures state { OnOk result ((rule : List ℕ) → state self.new rule ≡ cond (is_named suppression.now.rule rule) (Some (decision self.old.passed suppression.now)) (state self.old rule)) }
        ensures passed { OnOk result (self.new.passed ≡ self.old.passed + 1) }
        ensures reached { self.new.reached ≡ self.old.reached }
    {
        let decision = Decision {
            index: self.passed,
            from: suppression.from(),
            turns_off: suppression.turns_off(),
        };
        match suppression.rule() {
            None => {
                self.named = NameTable::new(alloc, self.hash);
                self.others = Some(decision);
            }
            Some(rule) => {
                let saved = self.named.save(rule)?;
                self.named.set(&saved, Some(decision))?;
            }
        }
        self.passed += 1;
        Ok(())
    }

    /// Goes on up to an offset or a line; from the beginning where that lies before what was reached.
    fn resume(&mut self, alloc: Global, key: usize)
        ensures swept { (ss : List Suppression) → IsSwept ss self.old → IsSwept ss self.new }
        ensures reached { self.new.reached ≡ key }
    {
        if self.reached <= key {
            self.reached = key;
            return;
        }
        *self = Sweep::new(alloc, self.hash);
        self.reached = key;
    }

    /// Passes all suppressions in front that begin at or before an offset or a line.
    fn advance(
        &mut self,
        alloc: Global,
        suppressions: &[Suppression<'s>],
        key: usize,
    ) -> Result<(), AllocError>
        requires { IsSwept suppressions.now self.old }
        ensures swept { OnOk result (IsSwept suppressions.now self.new) }
        ensures decided { OnOk result ((rule : List ℕ) → decided rule key suppressions.now ≡ state self.new rule) }
    {
        self.resume(alloc, key);
        'passing: while self.passed < suppressions.len() {
            let next = &suppressions[self.passed];
            if next.from() > key {
                return Ok(());
            }
            self.pass(alloc, next)?;
        }
        Ok(())
    }

    /// What decides about reports of a rule at an offset, or in a line.
    pub(crate) fn decided(
        &mut self,
        alloc: Global,
        suppressions: &[Suppression<'s>],
        rule: &str,
        key: usize,
    ) -> Result<Option<Decision>, AllocError>
        requires { IsSwept suppressions.now self.old }
        ensures swept { OnOk result (IsSwept suppressions.now self.new) }
        ensures decided { IfOk result (λ d. d ≡ decided rule.now key suppressions.now) }
    {
        self.advance(alloc, suppressions, key)?;
        match self.named.value(rule) {
            Some(decision) => Ok(Some(decision)),
            None => Ok(self.others),
        }
    }
}
