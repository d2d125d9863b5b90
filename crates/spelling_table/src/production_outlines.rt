//! The outline of each production, in a function of its own, and the slots that `first_slots` answers as well.

ghost use Rattle.std.specs.Prelude.{◌≡◌, true, false, cond};
ghost use Rattle.language.specs.declared.Rank.TheVariants.{LeftHandSide, Call, Primary, Assignment};
ghost use Rattle.language.specs.declared.Start.TheVariants.{Any};
ghost use Rattle.spelling_table.specs.declared.position.Position.TheVariants;
ghost use Rattle.spelling_table.specs.declared.position.Slot.TheVariants.{Fixed, Lead, Callee, LeadPattern};
ghost use Rattle.spelling_table.specs.declared.outline.FixedSlots.TheVariants.{One, Two};
ghost use Rattle.spelling_table.specs.declared.outline.ListSlots.TheVariants.{Arguments};
ghost use Rattle.spelling_table.specs.declared.production.Production.TheVariants as by;
ghost use Rattle.spelling_table.specs.Outlines.{fronted, lined};
ghost use Rattle.spelling_table.specs.Productions.{body_at, list_outline, key_slot as slot_of_key, outline_of, link_of, selected_if, for_slots as slots_of_for, for_rest as rest_of_for, for_after_first as behind_of_for, try_slots as slots_of_try};

use crate::outline::{FirstToken, FixedSlots, ListSlots, Outline};
use crate::position::{ASSIGNMENT, Position, Slot, WHOLE};
use crate::production::{ForInit, TryClauses};
use language::{Rank, Start};

/// The outline of two parts at these slots.
fn two(first: Slot, second: Slot) -> Outline
    ensures { result ≡ fronted Primary (Two first second) }
{
    Outline::of_front(Rank::Primary, FixedSlots::Two(first, second))
}

/// A list of all parts.
fn list(tail: ListSlots) -> Outline
    ensures { result ≡ list_outline tail }
{
    Outline::of_list(Rank::Primary, FixedSlots::Zero, tail, 0)
}

/// The outline of an ArrayLiteral (12.2.5).
pub(crate) fn array() -> Outline
    ensures { result ≡ outline_of by.Array }
{
    list(ListSlots::Arguments { holes: true })
}

/// The outline of an ObjectLiteral (12.2.6).
pub(crate) fn object() -> Outline
    ensures { result ≡ outline_of by.Object }
{
    list(ListSlots::ObjectParts).opening(FirstToken::Brace)
}

/// The outline of a TemplateLiteral (12.2.9).
pub(crate) fn template() -> Outline
    ensures { result ≡ outline_of by.Template }
{
    list(ListSlots::Chunks { is_first: true })
}

/// The outline of a tagged template (12.3.11).
pub(crate) fn tagged() -> Outline
    ensures { result ≡ outline_of by.Tagged }
{
    let front = FixedSlots::Two(Slot::Callee, Slot::Fixed(Position::TaggedQuasi));
    Outline::of_front(Rank::Member, front)
}

/// The outline of a member (12.3.2), or of one of `super` (12.3.7).
pub(crate) fn member(of_super: bool, is_computed: bool) -> Outline
    ensures { result ≡ outline_of (by.Member of_super is_computed) }
{
    let front = FixedSlots::Two(object_of(of_super), selected(is_computed));
    Outline::of_front(Rank::Member, front)
}

/// The outline of a member whose property is a private name (13th edition, 13.3).
pub(crate) fn private_member() -> Outline
    ensures { result ≡ outline_of by.PrivateMember }
{
    let front = FixedSlots::Two(Slot::Callee, Slot::Fixed(Position::PrivateName));
    Outline::of_front(Rank::Member, front)
}

/// The outline of a call (12.3.6), or of a SuperCall (12.3.7).
pub(crate) fn call(of_super: bool) -> Outline
    ensures { result ≡ outline_of (by.Call of_super) }
{
    with_arguments(Rank::Call, callee(of_super))
}

/// The outline of `new` with arguments (12.3.5).
pub(crate) fn new() -> Outline
    ensures { result ≡ outline_of by.New }
{
    with_arguments(Rank::Member, Slot::Fixed(at(Rank::Member)))
}

/// The outline of `new.target` (12.3.12).
pub(crate) fn meta() -> Outline
    ensures { result ≡ outline_of by.Meta }
{
    let word = Slot::Fixed(Position::IdentifierName);
    Outline::of_front(Rank::Member, FixedSlots::Two(word, word))
}

/// The outline of an ImportCall (12.3.10).
pub(crate) fn import() -> Outline
    ensures { result ≡ outline_of by.Import }
{
    Outline::of_front(Rank::Call, FixedSlots::One(Slot::Fixed(ASSIGNMENT)))
}

/// The outline of an OptionalExpression (12.3.9): its one part is the last link of the chain.
pub(crate) fn chain() -> Outline
    ensures { result ≡ outline_of by.Chain }
{
    Outline::of_front(Rank::LeftHandSide, FixedSlots::One(Slot::LeadSpine))
}

/// The outline of an UpdateExpression (12.4).
pub(crate) fn update(is_prefix: bool) -> Outline
    ensures { result ≡ outline_of (by.Update is_prefix) }
{
    Outline::of_front(Rank::Update, FixedSlots::One(update_operand(is_prefix)))
}

/// The outline of a UnaryExpression (12.5).
pub(crate) fn unary() -> Outline
    ensures { result ≡ outline_of by.Unary }
{
    Outline::of_front(Rank::Unary, FixedSlots::One(Slot::Fixed(at(Rank::Unary))))
}

/// The outline of an AssignmentExpression (12.15), to a target or to a pattern.
pub(crate) fn assignment(to_pattern: bool) -> Outline
    ensures { result ≡ outline_of (by.Assignment to_pattern) }
{
    let right = Slot::Tail(Rank::Assignment, Start::Any);
    Outline::of_front(
        Rank::Assignment,
        FixedSlots::Two(assigned(to_pattern), right),
    )
}

/// The outline of a sequence: an Expression with a comma (12.16).
pub(crate) fn sequence() -> Outline
    ensures { result ≡ outline_of by.Sequence }
{
    let front = FixedSlots::One(Slot::Left(Rank::Assignment));
    let tail = ListSlots::Each(Slot::Tail(Rank::Assignment, Start::Any));
    Outline::of_list(Rank::Expression, front, tail, 1)
}

/// The outline of a member in an optional chain (12.3.9); `goes_on` says whether the chain goes on in its object.
pub(crate) fn member_link(goes_on: bool, is_computed: bool) -> Outline
    ensures { result ≡ outline_of (by.MemberLink goes_on is_computed) }
{
    two(below(goes_on), selected(is_computed))
}

/// The outline of a member in an optional chain whose property is a private name (13th edition, 13.3).
pub(crate) fn private_link(goes_on: bool) -> Outline
    ensures { result ≡ outline_of (by.PrivateMemberLink goes_on) }
{
    two(below(goes_on), Slot::Fixed(Position::PrivateName))
}

/// The outline of two parts at these positions.
pub(crate) fn pair(first: Position, second: Position) -> Outline
    ensures { result ≡ outline_of (by.Pair first second) }
{
    two(Slot::Fixed(first), Slot::Fixed(second))
}

/// The outline of a module: its items (13th edition, 16.2).
pub(crate) fn module() -> Outline
    ensures { result ≡ outline_of by.Module }
{
    list(ListSlots::ModuleItems { is_open: true })
}

/// The outline of an import's specifiers and source (13th edition, 16.2.2).
pub(crate) fn import_list() -> Outline
    ensures { result ≡ outline_of by.ImportList }
{
    list(ListSlots::Specifiers)
}

/// The outline of an export's specifiers and source (13th edition, 16.2.3).
pub(crate) fn export_list() -> Outline
    ensures { result ≡ outline_of by.ExportList }
{
    Outline::of_list(Rank::Primary, FixedSlots::Zero, ListSlots::Specifiers, 1)
}

/// The outline of a call in an optional chain (12.3.9); `goes_on` says whether the chain goes on in its callee.
pub(crate) fn call_link(goes_on: bool) -> Outline
    ensures { result ≡ outline_of (by.CallLink goes_on) }
{
    with_arguments(Rank::Primary, below(goes_on))
}

/// The outline of a property with a key and a value at this position (12.2.6).
pub(crate) fn keyed(is_computed: bool, value: Position) -> Outline
    ensures { result ≡ outline_of (by.Keyed is_computed value) }
{
    two(key(is_computed), Slot::Fixed(value))
}

/// The outline of a shorthand property with its value at this position (12.2.6).
pub(crate) fn echo(value: Position) -> Outline
    ensures { result ≡ outline_of (by.ShorthandProperty value) }
{
    two(Slot::Fixed(Position::ShorthandKey), Slot::Fixed(value))
}

/// The outline of an array pattern that binds or assigns (13.3.3, 12.15.5).
pub(crate) fn array_pattern(binds: bool) -> Outline
    ensures { result ≡ outline_of (by.ArrayPattern binds) }
{
    list(ListSlots::PatternElements { binds })
}

/// The outline of an object pattern that binds or assigns (13.3.3, 12.15.5).
pub(crate) fn object_pattern(binds: bool) -> Outline
    ensures { result ≡ outline_of (by.ObjectPattern binds) }
{
    list(ListSlots::PatternProperties { binds }).opening(FirstToken::Brace)
}

/// The outline of a target at this position with its default (13.3.3, 12.15.5).
pub(crate) fn defaulted(target: Position) -> Outline
    ensures { result ≡ outline_of (by.WithDefault target) }
{
    two(Slot::Fixed(target), Slot::Fixed(ASSIGNMENT))
}

/// The outline of a node with one part, at this position.
pub(crate) fn single(part: Position) -> Outline
    ensures { result ≡ outline_of (by.Single part) }
{
    Outline::of_front(Rank::Primary, FixedSlots::One(Slot::Fixed(part)))
}

/// The outline of a ClassBody (14.6).
pub(crate) fn class_body() -> Outline
    ensures { result ≡ outline_of by.ClassBody }
{
    list(ListSlots::Each(Slot::Fixed(Position::Member)))
}

/// The outline of a setter's function, from its parameter on (14.3).
pub(crate) fn setter(parameter: Position) -> Outline
    ensures { result ≡ outline_of (by.Setter parameter) }
{
    two(Slot::Fixed(parameter), Slot::Fixed(Position::Body))
}

/// The outline of a method's function, from its parameters on (14.3).
pub(crate) fn method() -> Outline
    ensures { result ≡ outline_of by.Method }
{
    let tail = ListSlots::Parameters(Slot::Fixed(Position::Body));
    Outline::of_list(Rank::Primary, FixedSlots::Zero, tail, 1)
}

/// The outline of a Block: statements and declarations (13.2).
pub(crate) fn items(returns: bool) -> Outline
    ensures { result ≡ outline_of (by.Items returns) }
{
    list(ListSlots::Each(Slot::Fixed(Position::StatementListItem { returns })))
}

/// The outline of a body or a script: a directive prologue and items (14.1.1, 15.1).
pub(crate) fn prologue(returns: bool) -> Outline
    ensures { result ≡ outline_of (by.Prologue returns) }
{
    list(ListSlots::Prologue {
        returns,
        is_open: true,
    })
}

/// The outline of a declaration of one declarator or more, each at this position (13.3).
pub(crate) fn declarators(position: Position) -> Outline
    ensures { result ≡ outline_of (by.Declarators position) }
{
    list(ListSlots::Some(Slot::Fixed(position)))
}

/// The outline of a LabelledStatement (13.13).
pub(crate) fn labeled(returns: bool) -> Outline
    ensures { result ≡ outline_of (by.Labeled returns) }
{
    two(Slot::Fixed(Position::Name), body(returns))
}

/// The outline of a do-while statement (13.7.2).
pub(crate) fn do_while(returns: bool) -> Outline
    ensures { result ≡ outline_of (by.DoWhile returns) }
{
    two(body(returns), Slot::Fixed(WHOLE))
}

/// The outline of a while statement (13.7.3).
pub(crate) fn while_loop(returns: bool) -> Outline
    ensures { result ≡ outline_of (by.While returns) }
{
    two(Slot::Fixed(WHOLE), body(returns))
}

/// The outline of a `for` with semicolons in its head (13.7.4).
pub(crate) fn for_loop(init: ForInit, has_test: bool, has_update: bool, returns: bool) -> Outline
    ensures { result ≡ outline_of (by.For init has_test has_update returns) }
{
    let front = for_slots(init, has_test, has_update, body(returns));
    Outline::of_front(Rank::Primary, front)
}

/// The outline of a SwitchStatement (13.12).
pub(crate) fn switch(returns: bool) -> Outline
    ensures { result ≡ outline_of (by.Switch returns) }
{
    let tail = ListSlots::Each(Slot::Fixed(Position::SwitchCase { returns }));
    Outline::of_list(Rank::Primary, FixedSlots::One(Slot::Fixed(WHOLE)), tail, 1)
}

/// The outline of a TryStatement (13.15).
pub(crate) fn try_statement(guards: TryClauses, returns: bool) -> Outline
    ensures { result ≡ outline_of (by.Try guards returns) }
{
    Outline::of_front(Rank::Primary, try_slots(guards, returns))
}

/// The outline of a Catch with a parameter at this position (13.15).
pub(crate) fn catch(parameter: Position, returns: bool) -> Outline
    ensures { result ≡ outline_of (by.Catch parameter returns) }
{
    two(
        Slot::Fixed(parameter),
        Slot::Fixed(Position::Block { returns }),
    )
}

/// An expression's part at a symbol, with In.
pub(crate) fn at(rank: Rank) -> Position
    ensures { result ≡ TheVariants.Expression rank true Any }
{
    Position::Expression {
        rank,
        has_in: true,
        start: Start::Any,
    }
}

/// The outline of a function, with a name or without (14.1).
pub(crate) fn function(is_named: bool) -> Outline
    ensures { result ≡ outline_of (by.Function is_named) }
{
    let front = if is_named {
        FixedSlots::One(Slot::Fixed(Position::Name))
    } else {
        FixedSlots::Zero
    };
    let tail = ListSlots::Parameters(Slot::Fixed(Position::Body));
    Outline::of_list(Rank::Primary, front, tail, 1).opening(FirstToken::FunctionOrClass)
}

/// The outline of a class, with a name or without, with a superclass or without (14.6).
pub(crate) fn class(is_named: bool, extends: bool) -> Outline
    ensures { result ≡ outline_of (by.Class is_named extends) }
{
    let (name, body) = (
        Slot::Fixed(Position::Name),
        Slot::Fixed(Position::ClassBody),
    );
    let base = Slot::Fixed(at(Rank::LeftHandSide));
    let front = match (is_named, extends) {
        (false, false) => FixedSlots::One(body),
        (false, true) => FixedSlots::Two(base, body),
        (true, false) => FixedSlots::Two(name, body),
        (true, true) => FixedSlots::Three(name, base, body),
    };
    Outline::of_front(Rank::Primary, front).opening(FirstToken::FunctionOrClass)
}

/// The outline of an ArrowFunction, by what its body is (14.2).
pub(crate) fn arrow(is_expression: bool) -> Outline
    ensures { result ≡ outline_of (by.Arrow is_expression) }
{
    let body = if is_expression {
        Slot::Tail(Rank::Assignment, Start::NoBrace)
    } else {
        Slot::Fixed(Position::Body)
    };
    Outline::of_list(
        Rank::Assignment,
        FixedSlots::Zero,
        ListSlots::Parameters(body),
        0,
    )
}

/// What has arguments.
fn with_arguments(rank: Rank, callee: Slot) -> Outline
    ensures { result ≡ lined rank (One callee) (Arguments false) 1 }
{
    let tail = ListSlots::Arguments { holes: false };
    Outline::of_list(rank, FixedSlots::One(callee), tail, 1)
}

/// The object of a member.
pub(crate) fn object_of(of_super: bool) -> Slot
    ensures { result ≡ cond of_super (Fixed TheVariants.Super) Callee }
{
    if of_super {
        return Slot::Fixed(Position::Super);
    }
    Slot::Callee
}

/// What is called.
pub(crate) fn callee(of_super: bool) -> Slot
    ensures { result ≡ cond of_super (Fixed TheVariants.Super) (Lead Call) }
{
    if of_super {
        return Slot::Fixed(Position::Super);
    }
    Slot::Lead(Rank::Call)
}

/// The property of a member.
pub(crate) fn selected(is_computed: bool) -> Slot
    ensures { result ≡ selected_if is_computed }
{
    if is_computed {
        return Slot::Fixed(WHOLE);
    }
    Slot::Fixed(Position::IdentifierName)
}

/// What stands below a part of a chain.
fn below(goes_on: bool) -> Slot
    ensures { result ≡ link_of goes_on }
{
    if goes_on {
        return Slot::LeadSpine;
    }
    Slot::Lead(Rank::Call)
}

/// The operand of `++` or `--`.
pub(crate) fn update_operand(is_prefix: bool) -> Slot
    ensures { result ≡ cond is_prefix (Fixed (TheVariants.Expression LeftHandSide true Any)) (Lead LeftHandSide) }
{
    if is_prefix {
        return Slot::Fixed(at(Rank::LeftHandSide));
    }
    Slot::Lead(Rank::LeftHandSide)
}

/// The left side of an assignment.
pub(crate) fn assigned(to_pattern: bool) -> Slot
    ensures { result ≡ cond to_pattern LeadPattern (Lead LeftHandSide) }
{
    if to_pattern {
        return Slot::LeadPattern;
    }
    Slot::Lead(Rank::LeftHandSide)
}

/// The outline of a binary or logical expression with these symbols; `needs_in` for the operator `in` (12.7 to 12.13).
pub(crate) fn infix(own: Rank, right: Rank, needs_in: bool) -> Outline
    ensures { result ≡ outline_of (by.Infix own right needs_in) }
{
    let front = FixedSlots::Two(Slot::Left(own), Slot::Tail(right, Start::Any));
    Outline {
        needs_in,
        ..Outline::of_front(own, front)
    }
}

/// The outline of a private name before `in` (13th edition, 13.10).
pub(crate) fn private_in() -> Outline
    ensures { result ≡ outline_of by.PrivateIn }
{
    let right = Slot::Tail(Rank::Shift, Start::Any);
    let front = FixedSlots::Two(Slot::Fixed(Position::PrivateName), right);
    Outline {
        needs_in: true,
        ..Outline::of_front(Rank::Relational, front)
    }
}

/// The outline of an ExponentiationExpression (12.6).
pub(crate) fn power() -> Outline
    ensures { result ≡ outline_of by.Exponentiation }
{
    let right = Slot::Fixed(at(Rank::Exponentiation));
    let front = FixedSlots::Two(Slot::Lead(Rank::Update), right);
    Outline::of_front(Rank::Exponentiation, front)
}

/// The outline of a ConditionalExpression (12.14).
pub(crate) fn conditional() -> Outline
    ensures { result ≡ outline_of by.Conditional }
{
    let front = FixedSlots::Three(
        Slot::Left(Rank::ShortCircuit),
        Slot::Fixed(ASSIGNMENT),
        Slot::Tail(Rank::Assignment, Start::Any),
    );
    Outline::of_front(Rank::Conditional, front)
}

/// The outline of a YieldExpression, by whether it has an operand (14.4).
pub(crate) fn yield_expression(has_operand: bool) -> Outline
    ensures { result ≡ outline_of (by.Yield has_operand) }
{
    if has_operand {
        return Outline::of_front(
            Rank::Assignment,
            FixedSlots::One(Slot::Tail(Rank::Assignment, Start::Any)),
        );
    }
    Outline::of_front(Rank::Assignment, FixedSlots::Zero)
}

/// A property's key.
pub(crate) fn key(is_computed: bool) -> Slot
    ensures { result ≡ slot_of_key is_computed }
{
    if is_computed {
        return Slot::Fixed(ASSIGNMENT);
    }
    Slot::Fixed(Position::PropertyName)
}

/// The position of a statement's body.
pub(crate) fn body(returns: bool) -> Slot
    ensures { result ≡ body_at returns }
{
    Slot::Fixed(Position::Statement { returns })
}

/// The outline of a declarator with an initializer (13.3).
pub(crate) fn initialised(name: Position, has_in: bool) -> Outline
    ensures { result ≡ outline_of (by.Initialised name has_in) }
{
    two(Slot::Fixed(name), initialiser(has_in))
}

/// What initialises.
pub(crate) fn initialiser(has_in: bool) -> Slot
    ensures { result ≡ Fixed (TheVariants.Expression Assignment has_in Any) }
{
    Slot::Fixed(Position::Expression {
        rank: Rank::Assignment,
        has_in,
        start: Start::Any,
    })
}

/// The outline of an IfStatement (13.6).
pub(crate) fn if_statement(has_else: bool, returns: bool) -> Outline
    ensures { result ≡ outline_of (by.If has_else returns) }
{
    let (test, branch) = (Slot::Fixed(WHOLE), body(returns));
    if has_else {
        return Outline::of_front(Rank::Primary, FixedSlots::Three(test, branch, branch));
    }
    two(test, branch)
}

/// The head of a `for` and its body.
fn for_slots(init: ForInit, has_test: bool, has_update: bool, body: Slot) -> FixedSlots
    ensures { result ≡ slots_of_for init has_test has_update body }
{
    let first = match init {
        ForInit::Nothing => return for_rest(has_test, has_update, body),
        ForInit::Declaration => Position::ForDeclaration { initialised: true },
        ForInit::Value => Position::Expression {
            rank: Rank::Expression,
            has_in: false,
            start: Start::Any,
        },
    };
    for_after_first(Slot::Fixed(first), has_test, has_update, body)
}

/// The slots of a `for` after its first semicolon: test and update if they are there, and the body.
fn for_rest(has_test: bool, has_update: bool, body: Slot) -> FixedSlots
    ensures { result ≡ rest_of_for has_test has_update body }
{
    let whole = Slot::Fixed(WHOLE);
    match (has_test, has_update) {
        (false, false) => FixedSlots::One(body),
        (true, false) | (false, true) => FixedSlots::Two(whole, body),
        (true, true) => FixedSlots::Three(whole, whole, body),
    }
}

/// The slots of a `for` whose head begins with this slot, then as `for_rest` has them.
fn for_after_first(first: Slot, has_test: bool, has_update: bool, body: Slot) -> FixedSlots
    ensures { result ≡ behind_of_for first has_test has_update body }
{
    let whole = Slot::Fixed(WHOLE);
    match (has_test, has_update) {
        (false, false) => FixedSlots::Two(first, body),
        (true, false) | (false, true) => FixedSlots::Three(first, whole, body),
        (true, true) => FixedSlots::Four(first, whole, whole, body),
    }
}

/// The outline of a for-in or for-of statement (13.7.5).
pub(crate) fn for_in_of(left: Position, is_of: bool, returns: bool) -> Outline
    ensures { result ≡ outline_of (by.ForInOf left is_of returns) }
{
    let right = if is_of { ASSIGNMENT } else { WHOLE };
    let front = FixedSlots::Three(Slot::Fixed(left), Slot::Fixed(right), body(returns));
    Outline::of_front(Rank::Primary, front)
}

/// The outline of a case or default clause (13.12).
pub(crate) fn case(has_test: bool, returns: bool) -> Outline
    ensures { result ≡ outline_of (by.Case has_test returns) }
{
    let front = if has_test {
        FixedSlots::One(Slot::Fixed(WHOLE))
    } else {
        FixedSlots::Zero
    };
    let tail = ListSlots::Each(Slot::Fixed(Position::StatementListItem { returns }));
    Outline::of_list(Rank::Primary, front, tail, 1)
}

/// The slots of a TryStatement, by which of handler and finalizer it has (13.15).
fn try_slots(guards: TryClauses, returns: bool) -> FixedSlots
    ensures { result ≡ slots_of_try guards returns }
{
    let (block, handler) = (
        Slot::Fixed(Position::Block { returns }),
        Slot::Fixed(Position::CatchClause { returns }),
    );
    match guards {
        TryClauses::Handler => FixedSlots::Two(block, handler),
        TryClauses::Finalizer => FixedSlots::Two(block, block),
        TryClauses::Both => FixedSlots::Three(block, handler, block),
    }
}
