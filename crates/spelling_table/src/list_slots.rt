//! How positions go on behind the first ones, part by part.

ghost use Rattle.std.specs.Prelude.{◌≡◌, Bool, Option, Some, cond, false, IfSome};
ghost use Rattle.language.specs.Statements.{is_module_item};
ghost use Rattle.spelling_table.specs.declared.position.Position.TheVariants as at;
ghost use Rattle.spelling_table.specs.declared.outline.ListSlots.TheVariants;
ghost use Rattle.spelling_table.specs.Outlines.{chunk_at, item_at, module_item_at, specifier_at, tail_at, skips_gap as may_skip_gap, may_end as may_end_here, listed_at, bound_at, default_at, element_at, argument_at, object_part_at, pattern_part_at, is_over as is_over_tail, takes_all as takes_all_of, is_arguments as is_arguments_tail};

use crate::outline::ListSlots;
use crate::position::{ASSIGNMENT, Position, Slot, WHOLE};
use language::{Rank, Start};
use tree::Kind;

/// What stands next in a list: its kind, whether it is a directive, and whether none or one part is behind it.
#[derive(Clone, Copy)]
pub struct Next {
    pub kind: Kind,
    pub is_directive: bool,
    pub is_last: bool,
    pub is_before_last: bool,
}

/// The position of the next part, and how they go on behind it; none where the list refuses it.
pub fn next_slot(tail: ListSlots, next: Next) -> Option<(Slot, ListSlots)>
    ensures { result ≡ tail_at tail next.kind next.is_directive next.is_last next.is_before_last }
{
    match tail {
        ListSlots::Nothing => None,
        ListSlots::Each(slot) | ListSlots::Some(slot) => Some((slot, ListSlots::Each(slot))),
        ListSlots::Arguments { .. } => listed(
            Some(argument(next.kind)),
            next.kind,
            next.is_last,
            tail,
        ),
        ListSlots::ObjectParts => listed(object_part(next.kind), next.kind, next.is_last, tail),
        ListSlots::PatternElements { binds } => {
            listed(element(binds, next.kind), next.kind, next.is_last, tail)
        }
        ListSlots::PatternProperties { binds } => {
            listed(
                pattern_part(binds, next.kind),
                next.kind,
                next.is_last,
                tail,
            )
        }
        ListSlots::Parameters(slot) => parameter(slot, next),
        ListSlots::Chunks { .. } | ListSlots::Substitution => Some(template_part(
            tail,
            next.is_last,
        )),
        ListSlots::Prologue { returns, is_open } => Some(item(returns, is_open, next.is_directive)),
        ListSlots::ModuleItems { is_open } => Some(module_item(is_open, next)),
        ListSlots::Specifiers => Some((Slot::Fixed(specifier(next.is_last)), tail)),
    }
}

/// A part of a list at a position, which goes on so; behind a rest nothing stands.
fn listed(
    position: Option<Position>,
    kind: Kind,
    is_last: bool,
    tail: ListSlots,
) -> Option<(Slot, ListSlots)>
    ensures { result ≡ listed_at position kind is_last tail }
{
    let Some(position) = position else {
        return None;
    };
    if is_last || !kind.is_rest() {
        return Some((Slot::Fixed(position), tail));
    }
    None
}

/// The position of an argument or an array's element, by its kind: a spread, or an AssignmentExpression.
fn argument(kind: Kind) -> Position
    ensures { result ≡ argument_at kind }
{
    match kind {
        Kind::SpreadElement => Position::Spread,
        _ => ASSIGNMENT,
    }
}

/// The position of an object's part, by its kind; none if an object can't hold it.
fn object_part(kind: Kind) -> Option<Position>
    ensures { result ≡ object_part_at kind }
{
    match kind {
        Kind::SpreadElement => Some(Position::Spread),
        Kind::Property => Some(Position::Property),
        _ => None,
    }
}

/// The position of an object pattern's part, by its kind; none if an object pattern can't hold it.
fn pattern_part(binds: bool, kind: Kind) -> Option<Position>
    ensures { result ≡ pattern_part_at binds kind }
{
    match kind {
        Kind::RestElement => Some(Position::Rest {
            binds,
            of_object: true,
        }),
        Kind::Property => Some(Position::PatternProperty { binds }),
        _ => None,
    }
}

/// A name or binding pattern; a target or assignment pattern.
pub fn bound(binds: bool, kind: Kind) -> Option<Position>
    ensures { result ≡ bound_at binds kind }
{
    if kind.is_pattern() {
        return Some(Position::Pattern {
            binds,
            start: Start::Any,
        });
    }
    if binds && kind.is_identifier() {
        return Some(Position::Name);
    }
    if !binds && kind.is_target() {
        return Some(Position::Expression {
            rank: Rank::LeftHandSide,
            has_in: true,
            start: Start::Any,
        });
    }
    None
}

/// The position of what is bound or assigned, with a default or without.
pub fn with_default(binds: bool, kind: Kind) -> Option<Position>
    ensures { result ≡ default_at binds kind }
{
    match kind {
        Kind::AssignmentPattern => Some(Position::Element { binds }),
        _ => bound(binds, kind),
    }
}

/// The element of an array pattern, and a parameter.
pub(crate) fn element(binds: bool, kind: Kind) -> Option<Position>
    ensures { result ≡ element_at binds kind }
{
    match kind {
        Kind::RestElement => Some(Position::Rest {
            binds,
            of_object: false,
        }),
        _ => with_default(binds, kind),
    }
}

/// The slot of the next parameter and how the list goes on; the last part is the body, at `slot`.
fn parameter(slot: Slot, next: Next) -> Option<(Slot, ListSlots)>
    ensures { result ≡ tail_at (TheVariants.Parameters slot) next.kind next.is_directive next.is_last next.is_before_last }
{
    if next.is_last {
        return Some((slot, ListSlots::Nothing));
    }
    let position = element(true, next.kind);
    listed(
        position,
        next.kind,
        next.is_before_last,
        ListSlots::Parameters(slot),
    )
}

/// The slot of a template's next part and how the list goes on: elements and substitutions in turn.
fn template_part(tail: ListSlots, is_last: bool) -> (Slot, ListSlots)
    ensures { result ≡ chunk_at tail is_last }
{
    match tail {
        ListSlots::Chunks { is_first } => {
            let slot = Slot::Fixed(Position::TemplateElement { is_first, is_last });
            let rest = if is_last {
                ListSlots::Nothing
            } else {
                ListSlots::Substitution
            };
            (slot, rest)
        }
        _ => (Slot::Fixed(WHOLE), ListSlots::Chunks { is_first: false }),
    }
}

/// The slot of a body's next item and how the list goes on; its prologue is open as long as all items are directives
/// (14.1.1).
fn item(returns: bool, is_open: bool, is_directive: bool) -> (Slot, ListSlots)
    ensures { result ≡ item_at returns is_open is_directive }
{
    let position = if is_open {
        Position::PrologueItem { returns }
    } else {
        Position::StatementListItem { returns }
    };
    let rest = ListSlots::Prologue {
        returns,
        is_open: is_open && is_directive,
    };
    (Slot::Fixed(position), rest)
}

/// The slot of a module's next item and how the list goes on, as that of a script but for imports and exports.
fn module_item(is_open: bool, next: Next) -> (Slot, ListSlots)
    ensures { result ≡ module_item_at is_open next.kind next.is_directive }
{
    let rest = ListSlots::ModuleItems {
        is_open: is_open && next.is_directive,
    };
    (Slot::Fixed(module_item_position(is_open, next.kind)), rest)
}

/// The position of a module's item of this kind.
fn module_item_position(is_open: bool, kind: Kind) -> Position
    ensures { result ≡ cond (is_module_item kind) at.ModuleItem (cond is_open (at.PrologueItem false) (at.StatementListItem false)) }
{
    if is_module_item(kind) {
        return Position::ModuleItem;
    }
    if is_open {
        return Position::PrologueItem { returns: false };
    }
    Position::StatementListItem { returns: false }
}

/// Whether the kind is that of an import or export.
fn is_module_item(kind: Kind) -> bool
    ensures { result ≡ is_module_item kind }
{
    matches!(
        kind,
        Kind::ImportDeclaration
            | Kind::ExportNamedDeclaration
            | Kind::ExportDefaultDeclaration
            | Kind::ExportAllDeclaration
    )
}

/// The position of a part of an import or export; the last is the source.
fn specifier(is_last: bool) -> Position
    ensures { result ≡ specifier_at is_last }
{
    if is_last {
        Position::DirectiveString
    } else {
        Position::Specifier
    }
}

/// Whether a gap may be next.
pub fn skips_gap(tail: ListSlots) -> bool
    ensures { result ≡ may_skip_gap tail }
{
    match tail {
        ListSlots::Nothing | ListSlots::PatternElements { .. } | ListSlots::Specifiers => true,
        ListSlots::Arguments { holes } => holes,
        _ => false,
    }
}

/// Whether the parts may end here.
pub fn may_end(tail: ListSlots) -> bool
    ensures { result ≡ may_end_here tail }
{
    !matches!(
        tail,
        ListSlots::Some(_)
            | ListSlots::Parameters(_)
            | ListSlots::Chunks { .. }
            | ListSlots::Substitution
    )
}

/// Whether nothing more is at a position.
pub fn is_over(tail: ListSlots) -> bool
    ensures { result ≡ is_over_tail tail }
{
    matches!(tail, ListSlots::Nothing)
}

/// Whether a list takes each part, whatever it is.
pub fn takes_all(tail: ListSlots) -> bool
    ensures { result ≡ takes_all_of tail }
{
    matches!(
        tail,
        ListSlots::Each(_) | ListSlots::Prologue { .. } | ListSlots::ModuleItems { .. }
    )
}

/// Whether a list is of arguments, or of an array's elements.
pub fn is_of_arguments(tail: ListSlots) -> bool
    ensures { result ≡ is_arguments_tail tail }
{
    matches!(tail, ListSlots::Arguments { .. })
}

/// The slot of a part of this kind in a list that goes on as it is behind it, where that is seen at once.
#[tactic(auto, using(crate::proofs::Arguments::steady_argument))]
pub fn steady_slot(tail: ListSlots, kind: Kind) -> Option<Slot>
    ensures { IfSome result (λ s. (d l b : Bool) → tail_at tail kind d l b ≡ Some (s, tail)) }
{
    match tail {
        ListSlots::Each(slot) => Some(slot),
        ListSlots::Arguments { .. } => {
            if kind.is_rest() {
                return None;
            }
            Some(Slot::Fixed(argument(kind)))
        }
        ListSlots::ObjectParts => {
            match kind {
                Kind::Property => Some(Slot::Fixed(Position::Property)),
                _ => None,
            }
        }
        ListSlots::Prologue {
            returns,
            is_open: false,
        } => Some(Slot::Fixed(Position::StatementListItem { returns })),
        ListSlots::ModuleItems { is_open: false } => Some(Slot::Fixed(module_item_position(
            false, kind,
        ))),
        _ => None,
    }
}
