//! Groups and lookarounds that stand in one another, as far as references ask for them.

ghost use Rattle.std.specs.Prelude.{◌≡◌, ◌∷◌, ◌++◌, ◌≤◌, [], true, false, length, ltb, reverse};
ghost use Rattle.std.specs.List.Sorted.{IsNonDecreasingBy, IsPartitionPoint};
ghost use Rattle.pattern_analysis.specs.UselessReferences.{holding, outermost};

/// A group, a lookaround or the whole pattern.
#[derive(Clone, Copy)]
pub(crate) struct Frame {
    /// How many groups began before it.
    pub first: usize,
    /// How many groups began before the alternative in it that is read.
    pub since: usize,
    /// Whether it is a negative lookaround.
    pub is_negative: bool,
    /// Whether what stands in it is matched from the last to the first.
    pub is_backward: bool,
    /// Whether it is a lookbehind, or stands in one.
    pub in_lookbehind: bool,
}

impl Frame {
    ghost use Rattle.std.specs.Prelude.{◌≡◌};
    ghost use Rattle.pattern_analysis.specs.UselessReferences.{group_in, lookaround_in};

    /// A group in this frame.
    pub fn group(self, first: usize, since: usize) -> Frame
        ensures { result ≡ group_in self first since }
    {
        Frame {
            first,
            since,
            is_negative: false,
            is_backward: self.is_backward,
            in_lookbehind: self.in_lookbehind,
        }
    }

    /// A lookaround in this frame.
    pub fn lookaround(self, count: usize, is_backward: bool, is_negative: bool) -> Frame
        ensures { result ≡ lookaround_in self count is_backward is_negative }
    {
        Frame {
            first: count,
            since: count,
            is_negative,
            is_backward,
            in_lookbehind: is_backward || self.in_lookbehind,
        }
    }
}

/// The whole pattern.
pub(crate) fn outermost() -> Frame
    ensures { result ≡ outermost }
{
    Frame {
        first: 0,
        since: 0,
        is_negative: false,
        is_backward: false,
        in_lookbehind: false,
    }
}

/// How many of the frames, from the outermost on, began before a group.
fn count_before(number: usize, frames: &[Frame]) -> usize
    ensures within { result ≤ length frames.now }
    ensures point { IsNonDecreasingBy (λ f. f.first) frames.now → IsPartitionPoint (λ f. ltb f.first number ≡ true) (λ f. ltb f.first number ≡ false) frames.now result }
{
    frames.partition_point(|frame| frame.first < number)
}

/// The innermost of the frames around, from the outermost on, in which a group stands, or the whole pattern.
fn holding_around(number: usize, around: &[Frame]) -> Frame
    ensures { IsNonDecreasingBy (λ f. f.first) around.now → result ≡ holding number outermost (reverse around.now) }
{
    let count = count_before(number, around);
    if count == 0 {
        return outermost();
    }
    around[count - 1]
}

/// The innermost frame in which a group stands.
pub(crate) fn holding(number: usize, frame: Frame, around: &[Frame]) -> Frame
    ensures { IsNonDecreasingBy (λ f. f.first) around.now → result ≡ holding number outermost (frame ∷ reverse around.now) }
{
    if frame.first < number {
        return frame;
    }
    holding_around(number, around)
}
