//! What stands round the parts of blocks, switches and catch clauses.

ghost use Rattle.std.specs.Prelude.{◌≡◌, [], ◌∷◌};
ghost use Rattle.printer.specs.Bits.{shape_of, fused_shape};
ghost use Rattle.printer.specs.Shapes.{spelled, gapped, headed, braced_shape, case_shape, catch_shape};

use crate::fragments::{Fragment, Frame, ListLayout, front_frame, list_frame};
use crate::part_sites::PartSites;
use crate::shared_fragments::CLOSE_SPACE;

/// `{`.
const BRACE: &[Fragment] = &[Fragment::Token("{")];

/// `static {`.
const STATIC_BRACE: &[Fragment] = &[Fragment::Token("static {")];

/// `}`.
const END_BRACE: &[Fragment] = &[Fragment::Token("}")];

/// `}` on a line of its own.
const LINE_END_BRACE: &[Fragment] = &[Fragment::Line, Fragment::Token("}")];

/// `switch (`.
const SWITCH: &[Fragment] = &[Fragment::Token("switch (")];

/// `) {`, after the discriminant of a `switch`.
const SWITCH_BRACE: &[Fragment] = &[Fragment::Token(") {")];

/// The frame of a block that isn't empty: each statement on a line of its own.
static BLOCK: Frame = list_frame!(BRACE, Lines, LINE_END_BRACE);

/// The frame of an empty block: `{}`.
static EMPTY_BLOCK: Frame = list_frame!(BRACE, Nothing, END_BRACE);

/// The frame of a static block that isn't empty.
static STATIC_BLOCK: Frame = list_frame!(STATIC_BRACE, Lines, LINE_END_BRACE);

/// The frame of an empty static block.
static EMPTY_STATIC_BLOCK: Frame = list_frame!(STATIC_BRACE, Nothing, END_BRACE);

/// The frame of a `switch` with cases, each on a line of its own.
static CASES: Frame = Frame {
    front: &[SWITCH],
    opener: SWITCH_BRACE,
    series: ListLayout::Lines,
    closer: LINE_END_BRACE,
    sites: PartSites::AllPlain,
};

/// The frame of a `switch` without cases.
static NO_CASES: Frame = Frame {
    front: &[SWITCH],
    opener: SWITCH_BRACE,
    series: ListLayout::Nothing,
    closer: END_BRACE,
    sites: PartSites::AllPlain,
};

/// The frame of a `case`: its test, then each statement on a line of its own.
static CASE: Frame = Frame {
    front: &[&[Fragment::Token("case ")]],
    opener: &[Fragment::Token(":")],
    series: ListLayout::Lines,
    closer: &[],
    sites: PartSites::AllPlain,
};

/// The frame of a `default`: each statement on a line of its own.
static DEFAULT_CASE: Frame = Frame {
    front: &[&[]],
    opener: &[Fragment::Token("default:")],
    series: ListLayout::Lines,
    closer: &[],
    sites: PartSites::AllPlain,
};

/// The frame of a `catch` with a parameter.
static CATCH_BINDING: Frame = front_frame!(&[&[Fragment::Token("catch (")], CLOSE_SPACE,], &[]);

/// The frame of a `catch` without a parameter.
static CATCH: Frame = front_frame!(&[&[], &[Fragment::Token("catch ")]], &[]);

/// Parts on lines of their own, in braces.
pub(crate) fn braced(filled: bool) -> &'static Frame
    ensures { shape_of result.now ≡ fused_shape (braced_shape [] (spelled "{" ∷ []) filled) }
{
    if filled { &BLOCK } else { &EMPTY_BLOCK }
}

/// A static block.
pub(crate) fn static_block_frame(filled: bool) -> &'static Frame
    ensures { shape_of result.now ≡ fused_shape (braced_shape [] (spelled "static" ∷ gapped ∷ spelled "{" ∷ []) filled) }
{
    if filled {
        &STATIC_BLOCK
    } else {
        &EMPTY_STATIC_BLOCK
    }
}

/// A switch, by whether it has cases.
pub(crate) fn switch_frame(filled: bool) -> &'static Frame
    ensures { shape_of result.now ≡ fused_shape (braced_shape (headed "switch" ∷ []) (spelled ")" ∷ gapped ∷ spelled "{" ∷ []) filled) }
{
    if filled { &CASES } else { &NO_CASES }
}

/// A case, by whether it has a test.
pub(crate) fn case_frame(tested: bool) -> &'static Frame
    ensures { shape_of result.now ≡ fused_shape (case_shape tested) }
{
    if tested { &CASE } else { &DEFAULT_CASE }
}

/// A catch clause, by whether it has a binding.
pub(crate) fn catch_frame(binds: bool) -> &'static Frame
    ensures { shape_of result.now ≡ fused_shape (catch_shape binds) }
{
    if binds { &CATCH_BINDING } else { &CATCH }
}
