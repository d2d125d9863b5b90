//! The slots of a production: the first ones one by one, and the list behind them.

ghost use Rattle.std.specs.Prelude.{◌≡◌};
ghost use Rattle.spelling_table.specs.declared.outline.FixedSlots.TheVariants as front;
ghost use Rattle.spelling_table.specs.FirstSlots.{first_of, others_of, slot_at, next_of};
ghost use Rattle.spelling_table.specs.Productions.{outline_of};

use crate::outline::{FixedSlots, ListSlots};
use crate::position::{Position, Slot, WHOLE};
use crate::production::Production;
use crate::production_outlines::{
    assigned, at, body, callee, initialiser, key, object_of, selected, update_operand,
};
use language::{Rank, Start};

/// Which of the first slots.
#[derive(Clone, Copy)]
pub enum SlotIndex {
    First,
    Second,
    Third,
    Fourth,
    /// Behind them all.
    AfterAll,
}

impl SlotIndex {
    /// The index behind it.
    pub fn next(self) -> SlotIndex
        ensures { result ≡ next_of self }
    {
        match self {
            SlotIndex::First => SlotIndex::Second,
            SlotIndex::Second => SlotIndex::Third,
            SlotIndex::Third => SlotIndex::Fourth,
            SlotIndex::Fourth | SlotIndex::AfterAll => SlotIndex::AfterAll,
        }
    }
}

/// How the slots of a production go on behind the first ones, and from which part on.
#[inline(always)]
pub fn list_of(production: Production) -> (ListSlots, usize)
    ensures tail { result.0 ≡ (outline_of production).tail }
    ensures from { result.1 ≡ (outline_of production).from }
{
    match production {
        Production::Member { .. }
        | Production::Infix { .. }
        | Production::Single(_)
        | Production::Assignment { .. }
        | Production::Keyed { .. }
        | Production::Initialised { .. }
        | Production::If { .. }
        | Production::Unary
        | Production::Conditional => (ListSlots::Nothing, 0),
        Production::Call { .. } | Production::New => (ListSlots::Arguments { holes: false }, 1),
        Production::Array => (ListSlots::Arguments { holes: true }, 0),
        Production::Object => (ListSlots::ObjectParts, 0),
        Production::Function { .. } => (ListSlots::Parameters(Slot::Fixed(Position::Body)), 1),
        Production::Items { returns } => (
            ListSlots::Each(Slot::Fixed(Position::StatementListItem { returns })),
            0,
        ),
        Production::Prologue { returns } => {
            (
                ListSlots::Prologue {
                    returns,
                    is_open: true,
                },
                0,
            )
        }
        Production::Declarators(position) => (ListSlots::Some(Slot::Fixed(position)), 0),
        _ => list_of_outline(production),
    }
}

/// Gives what `list_of` gives, by the whole outline: for productions that have no quicker way.
#[inline(never)]
fn list_of_outline(production: Production) -> (ListSlots, usize)
    ensures tail { result.0 ≡ (outline_of production).tail }
    ensures from { result.1 ≡ (outline_of production).from }
{
    let outline = production.outline();
    (outline.tail, outline.from)
}

/// The first slot of a production that has this index; none where there are fewer.
#[inline(always)]
pub fn first_slot(production: &Production, ordinal: SlotIndex) -> Option<Slot>
    ensures { result ≡ slot_at (outline_of production.now).front ordinal }
{
    match production {
        Production::Array
        | Production::Object
        | Production::Items { .. }
        | Production::Prologue { .. }
        | Production::Declarators(_)
        | Production::Function { is_named: false } => of_none(ordinal),
        Production::Function { is_named: true } => of_one(Slot::Fixed(Position::Name), ordinal),
        Production::Member {
            of_super,
            is_computed,
        } => of_two(object_of(*of_super), selected(*is_computed), ordinal),
        Production::Call { of_super } => of_one(callee(*of_super), ordinal),
        Production::New => of_one(Slot::Fixed(at(Rank::Member)), ordinal),
        Production::Infix { own, right, .. } => {
            of_two(Slot::Left(*own), Slot::Tail(*right, Start::Any), ordinal)
        }
        Production::Assignment { to_pattern } => {
            of_two(
                assigned(*to_pattern),
                Slot::Tail(Rank::Assignment, Start::Any),
                ordinal,
            )
        }
        Production::Single(part) => of_one(Slot::Fixed(*part), ordinal),
        Production::Keyed { is_computed, value } => {
            of_two(key(*is_computed), Slot::Fixed(*value), ordinal)
        }
        Production::Initialised { name, has_in } => {
            of_two(Slot::Fixed(*name), initialiser(*has_in), ordinal)
        }
        Production::If {
            has_else: false,
            returns,
        } => of_two(Slot::Fixed(WHOLE), body(*returns), ordinal),
        Production::Unary => of_one(Slot::Fixed(at(Rank::Unary)), ordinal),
        _ => slot_of_outline(*production, ordinal),
    }
}

/// Gives what `first_slot` gives, by the whole outline: for productions that have no quicker way.
#[inline(never)]
fn slot_of_outline(production: Production, ordinal: SlotIndex) -> Option<Slot>
    ensures { result ≡ slot_at (outline_of production).front ordinal }
{
    slot_of_front(production.outline().front, ordinal)
}

/// The slot with this index among fixed slots; none if there are fewer.
fn slot_of_front(slots: FixedSlots, ordinal: SlotIndex) -> Option<Slot>
    ensures { result ≡ slot_at slots ordinal }
{
    match ordinal {
        SlotIndex::First => leading(slots),
        SlotIndex::Second => leading(others(slots)),
        SlotIndex::Third => leading(others(others(slots))),
        SlotIndex::Fourth => leading(others(others(others(slots)))),
        SlotIndex::AfterAll => None,
    }
}

/// The first of the fixed slots; none if there are none.
fn leading(slots: FixedSlots) -> Option<Slot>
    ensures { result ≡ first_of slots }
{
    match slots {
        FixedSlots::Zero => None,
        FixedSlots::One(first)
        | FixedSlots::Two(first, _)
        | FixedSlots::Three(first, _, _)
        | FixedSlots::Four(first, _, _, _) => Some(first),
    }
}

/// The fixed slots without the first.
fn others(slots: FixedSlots) -> FixedSlots
    ensures { result ≡ others_of slots }
{
    match slots {
        FixedSlots::Zero | FixedSlots::One(_) => FixedSlots::Zero,
        FixedSlots::Two(_, second) => FixedSlots::One(second),
        FixedSlots::Three(_, second, third) => FixedSlots::Two(second, third),
        FixedSlots::Four(_, second, third, fourth) => FixedSlots::Three(second, third, fourth),
    }
}

/// The slot with this index where there are no fixed slots: none.
fn of_none(ordinal: SlotIndex) -> Option<Slot>
    ensures { result ≡ slot_at front.Zero ordinal }
{
    match ordinal {
        SlotIndex::First
        | SlotIndex::Second
        | SlotIndex::Third
        | SlotIndex::Fourth
        | SlotIndex::AfterAll => None,
    }
}

/// The slot with this index where there is one fixed slot.
fn of_one(first: Slot, ordinal: SlotIndex) -> Option<Slot>
    ensures { result ≡ slot_at (front.One first) ordinal }
{
    match ordinal {
        SlotIndex::First => Some(first),
        _ => None,
    }
}

/// The slot with this index where there are two fixed slots.
fn of_two(first: Slot, second: Slot, ordinal: SlotIndex) -> Option<Slot>
    ensures { result ≡ slot_at (front.Two first second) ordinal }
{
    match ordinal {
        SlotIndex::First => Some(first),
        SlotIndex::Second => Some(second),
        _ => None,
    }
}
