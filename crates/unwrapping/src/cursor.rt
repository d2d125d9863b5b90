//! The changes that are ahead of the tokens, each kind in order.

ghost use Rattle.std.specs.Prelude.{◌≡◌, ◌<◌, length, true, IfSome};

use crate::changes::{Changes, Closing};
use tree::Pair;

/// How far changes were passed.
#[derive(Drop)]
pub(crate) struct Cursor<'c> {
    removed: &'c [Pair],
    opened: &'c [usize],
    closed: &'c [Closing],
}

impl<'c> Cursor<'c> {
    /// A cursor before the first of these changes.
    pub(crate) fn new(changes: &'c Changes) -> Cursor<'c> {
        Cursor {
            removed: changes.removed.as_slice(),
            opened: changes.opened.as_slice(),
            closed: changes.closed.as_slice(),
        }
    }

    /// The first place at or after which something changes; after all texts where nothing does.
    pub(crate) fn next_place(&self) -> usize {
        let removed = match self.removed.first() {
            Some(pair) => pair.left,
            None => usize::MAX,
        };
        let opened = match self.opened.first() {
            Some(start) => *start,
            None => usize::MAX,
        };
        let closed = match self.closed.first() {
            Some(closing) => closing.at,
            None => usize::MAX,
        };
        removed.min(opened).min(closed)
    }

    /// The next pair that goes, if its `(` stands at a place.
    pub(crate) fn take_removed(&mut self, at: usize) -> Option<Pair> {
        let removed = self.removed;
        match removed.first() {
            Some(pair) if pair.left == at => {
                self.removed = &removed[1..];
                Some(*pair)
            }
            _ => None,
        }
    }

    /// Whether a `(` comes before the token at a place, once more.
    pub(crate) fn take_opened(&mut self, at: usize) -> bool
        ensures { result ≡ true → length self.new.opened.now < length self.old.opened.now }
    {
        let opened = self.opened;
        match opened.first() {
            Some(start) if *start <= at => {
                self.opened = &opened[1..];
                true
            }
            _ => false,
        }
    }

    /// What comes next after the token before a place.
    pub(crate) fn take_closed(&mut self, at: usize) -> Option<Closing>
        ensures { IfSome result (λ _. length self.new.closed.now < length self.old.closed.now) }
    {
        let closed = self.closed;
        match closed.first() {
            Some(closing) if closing.at <= at => {
                self.closed = &closed[1..];
                Some(*closing)
            }
            _ => None,
        }
    }
}
