//! Which parentheses of a text group.

ghost use Rattle.std.specs.Prelude.{◌≡◌, ◌&&◌, true, [], ◌∷◌, IfOk, IsTrue};
ghost use Rattle.tokens.specs.Lexical.{is_one_of_words};
ghost use Rattle.unwrapping.specs.Keeps.{is_end_of};

use std::alloc::{AllocError, Global};
use tree::Pair;

/// The grouping pairs of a text, passed from its beginning on.
#[derive(Drop)]
pub(crate) struct PairWalk<'p> {
    /// The pairs, in order of their `(`.
    pairs: &'p [Pair],
    /// How many of them have begun.
    begun: usize,
    /// Those that have begun and not ended, by their index, the innermost last.
    open: Vec<usize>,
}

impl<'p> PairWalk<'p> {
    /// At the beginning; no memory.
    pub(crate) fn new(alloc: Global, pairs: &'p [Pair]) -> PairWalk<'p>
        ensures { result.pairs.now ≡ pairs.now }
    {
        PairWalk {
            pairs,
            begun: 0,
            open: Vec::new(alloc),
        }
    }

    /// Passes the token at a place, and says whether it is a parenthesis of a pair.
    ///
    /// # Errors
    ///
    /// `AllocError` where memory is refused.
    pub(crate) fn takes(&mut self, token: &str, at: usize) -> Result<bool, AllocError>
        ensures grouping { IfOk result (λ is. is ≡ true → IsTrue (is_one_of_words ("(" ∷ ")" ∷ []) token.now && is_end_of self.old.pairs.now at)) }
        ensures pairs { IfOk result (λ is. self.new.pairs.now ≡ self.old.pairs.now) }
    {
        match token {
            "(" => self.takes_opening(at),
            ")" => Ok(self.takes_closing(at)),
            _ => Ok(false),
        }
    }

    /// Passes a `(`, and says whether a pair begins with it.
    fn takes_opening(&mut self, at: usize) -> Result<bool, AllocError>
        ensures grouping { IfOk result (λ is. is ≡ true → IsTrue (is_end_of self.old.pairs.now at)) }
        ensures pairs { IfOk result (λ is. self.new.pairs.now ≡ self.old.pairs.now) }
    {
        match self.pairs.get(self.begun) {
            Some(pair) if pair.left == at => {
                self.open.push(self.begun)?;
                self.begun += 1;
                Ok(true)
            }
            _ => Ok(false),
        }
    }

    /// Passes a `)`, and says whether a pair ends with it.
    fn takes_closing(&mut self, at: usize) -> bool
        ensures grouping { result ≡ true → IsTrue (is_end_of self.old.pairs.now at) }
        ensures pairs { self.new.pairs.now ≡ self.old.pairs.now }
    {
        let Some(index) = self.open.last() else {
            return false;
        };
        match self.pairs.get(*index) {
            Some(pair) if pair.right == at => {
                let _ = self.open.pop();
                true
            }
            _ => false,
        }
    }
}
