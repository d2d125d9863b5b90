//! What stands round the parts of statements, by which of their parts they have.

ghost use Rattle.std.specs.Prelude.{◌≡◌};
ghost use Rattle.printer.specs.Bits.{shape_of, fused_shape};
ghost use Rattle.printer.specs.Shapes.{declarator_shape, word_shape, if_shape, try_shape, for_shape};

use crate::fragments::{Fragment, Frame, asking_frame, front_frame};
use crate::shared_fragments::{CLOSE_SPACE, FOR, SEMICOLON};

/// `if (`.
const IF: &[Fragment] = &[Fragment::Token("if (")];

/// ` else `.
const ELSE: &[Fragment] = &[Fragment::Token(" else ")];

/// `; `.
const SEMICOLON_SPACE: &[Fragment] = &[Fragment::Token("; ")];

/// `try `.
const TRY: &[Fragment] = &[Fragment::Token("try ")];

/// A space.
const SPACE: &[Fragment] = &[Fragment::Space];

/// ` finally `.
const FINALLY: &[Fragment] = &[Fragment::Token(" finally ")];

/// `return`.
const RETURN: &[Fragment] = &[Fragment::Token("return")];

/// `return `.
const RETURN_SPACE: &[Fragment] = &[Fragment::Token("return ")];

/// `break`.
const BREAK: &[Fragment] = &[Fragment::Token("break")];

/// `break `.
const BREAK_SPACE: &[Fragment] = &[Fragment::Token("break ")];

/// `continue`.
const CONTINUE: &[Fragment] = &[Fragment::Token("continue")];

/// `continue `.
const CONTINUE_SPACE: &[Fragment] = &[Fragment::Token("continue ")];

/// The frame of a declarator without an initializer.
static DECLARATOR: Frame = front_frame!(&[&[], &[]], &[]);

/// The frame of a declarator with an initializer.
static INITIALIZED: Frame = front_frame!(&[&[], &[Fragment::Token(" = ")]], &[]);

/// The frame of `return` without a value.
static RETURN_NOTHING: Frame = front_frame!(&[RETURN], SEMICOLON);

/// The frame of `return` with a value.
static RETURN_VALUE: Frame = front_frame!(&[RETURN_SPACE], SEMICOLON);

/// The frame of `break` without a label.
static BREAK_OUT: Frame = front_frame!(&[BREAK], SEMICOLON);

/// The frame of `break` with a label.
static BREAK_LABEL: Frame = front_frame!(&[BREAK_SPACE], SEMICOLON);

/// The frame of `continue` without a label.
static CONTINUE_LOOP: Frame = front_frame!(&[CONTINUE], SEMICOLON);

/// The frame of `continue` with a label.
static CONTINUE_LABEL: Frame = front_frame!(&[CONTINUE_SPACE], SEMICOLON);

/// The frame of `if` without `else`.
static IF_ALONE: Frame = front_frame!(&[IF, CLOSE_SPACE, &[]], &[]);

/// The frame of `if` with `else`.
static IF_ELSE: Frame = front_frame!(&[IF, CLOSE_SPACE, ELSE], &[]);

/// The frame of `try` with a handler only.
static TRY_CATCH: Frame = front_frame!(&[TRY, SPACE, &[]], &[]);

/// The frame of `try` with a finalizer only.
static TRY_FINALLY: Frame = front_frame!(&[TRY, &[], FINALLY], &[]);

/// The frame of `try` with a handler and a finalizer.
static TRY_BOTH: Frame = front_frame!(&[TRY, SPACE, FINALLY], &[]);

/// The frame of a `for` with a test and an update.
static FOR_BOTH: Frame = asking_frame!(
    LoopHead,
    &[FOR, SEMICOLON_SPACE, SEMICOLON_SPACE, CLOSE_SPACE]
);

/// The frame of a `for` with a test and no update.
static FOR_TEST: Frame = asking_frame!(LoopHead, &[FOR, SEMICOLON_SPACE, SEMICOLON, CLOSE_SPACE]);

/// The frame of a `for` with an update and no test.
static FOR_UPDATE: Frame = asking_frame!(LoopHead, &[FOR, SEMICOLON, SEMICOLON_SPACE, CLOSE_SPACE]);

/// The frame of a `for` without a test and without an update.
static FOR_NEITHER: Frame = asking_frame!(LoopHead, &[FOR, SEMICOLON, SEMICOLON, CLOSE_SPACE]);

/// The frame of a declarator, by whether it has an initializer.
pub(crate) fn declarator_frame(initialized: bool) -> &'static Frame
    ensures { shape_of result.now ≡ fused_shape (declarator_shape initialized) }
{
    if initialized {
        &INITIALIZED
    } else {
        &DECLARATOR
    }
}

/// The frame of `return`, by whether it has a value.
pub(crate) fn return_frame(answers: bool) -> &'static Frame
    ensures { shape_of result.now ≡ fused_shape (word_shape "return" answers) }
{
    if answers {
        &RETURN_VALUE
    } else {
        &RETURN_NOTHING
    }
}

/// The frame of `break`, by whether it has a label.
pub(crate) fn break_frame(labelled: bool) -> &'static Frame
    ensures { shape_of result.now ≡ fused_shape (word_shape "break" labelled) }
{
    if labelled { &BREAK_LABEL } else { &BREAK_OUT }
}

/// The frame of `continue`, by whether it has a label.
pub(crate) fn continue_frame(labelled: bool) -> &'static Frame
    ensures { shape_of result.now ≡ fused_shape (word_shape "continue" labelled) }
{
    if labelled {
        &CONTINUE_LABEL
    } else {
        &CONTINUE_LOOP
    }
}

/// The frame of `if`, by whether it has an `else`.
pub(crate) fn if_frame(otherwise: bool) -> &'static Frame
    ensures { shape_of result.now ≡ fused_shape (if_shape otherwise) }
{
    if otherwise { &IF_ELSE } else { &IF_ALONE }
}

/// A `try`, by whether it has a handler and a `finally`.
pub(crate) fn try_frame(catches: bool, finishes: bool) -> &'static Frame
    ensures { shape_of result.now ≡ fused_shape (try_shape catches finishes) }
{
    match (catches, finishes) {
        (true, true) => &TRY_BOTH,
        (true, false) => &TRY_CATCH,
        (false, _) => &TRY_FINALLY,
    }
}

/// A `for`, by whether it has a test and an update.
pub(crate) fn for_frame(tests: bool, updates: bool) -> &'static Frame
    ensures { shape_of result.now ≡ fused_shape (for_shape tests updates) }
{
    match (tests, updates) {
        (true, true) => &FOR_BOTH,
        (true, false) => &FOR_TEST,
        (false, true) => &FOR_UPDATE,
        (false, false) => &FOR_NEITHER,
    }
}
