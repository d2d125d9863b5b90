//! The pass back: what each group needs to be flat, and each choice to be joined.

ghost use Rattle.std.specs.Prelude.{◌≡◌, ◌+◌, ◌-◌, ◌≤◌, [], ◌∷◌, ◌++◌, ◌^◌, cond, nat_lt, true, List, reverse, OnOk, IfOk};
ghost use Rattle.layout_items.specs.declared.item.Item.{Item};
ghost use Rattle.layout_items.specs.declared.item.Item.TheVariants.{GroupEnd, GroupStart, WideStart, JoinStart, ChoiceStart, ChoiceEnd};
ghost use Rattle.layout_items.specs.Passes.{HasPassed, IsBehindEnd, IsBehindStart, AreFew, of_group, needs_of, sizes, with_item, around, around_group, around_wide, behind_choice, new_tail, with_part, with_head, with_cut, with_noted, is_outside, tail_joins, tail_need, before_choice};

use crate::item::{Item, UNBOUNDED};
use std::alloc::{AllocError, Global};

/// What a group needs: the columns up to the next place where a line may end behind it.
#[derive(Clone, Copy, Debug)]
pub(crate) struct Need {
    /// If it is flat.
    pub flat: usize,
    /// If it is a choice that is joined: up to the end of its first line.
    pub joined: usize,
}

impl Need {
    /// That of a group.
    fn of_group(flat: usize) -> Need
        ensures { result ≡ of_group flat }
    {
        Need {
            flat,
            joined: UNBOUNDED,
        }
    }
}

/// What was passed: columns of the items from here on, each at most their sizes.
#[derive(Clone, Copy)]
struct Columns {
    /// Of all, flat.
    flat: usize,
    /// The items after which a line must end.
    forced: usize,
    /// The same, where what is kept counts for nothing.
    firm: usize,
    /// Up to the next place where a line may end, the groups around and behind being broken.
    to_break: usize,
    /// Up to the end of this line in a choice that is joined, where the groups behind are flat unless a line must end in them.
    to_end: usize,
    /// The same, where what is kept counts for nothing.
    firm_to_end: usize,
}

impl Columns {
    const NOTHING: Columns = Columns {
        flat: 0,
        forced: 0,
        firm: 0,
        to_break: 0,
        to_end: 0,
        firm_to_end: 0,
    };

    /// With one item more before them, which is no mark.
    fn with(self, item: Item<'_>) -> Columns
        ensures { AreFew self → result ≡ with_item item.entry self }
    {
        match item {
            Item::Piece { columns, .. } => self.with_piece(columns as usize),
            Item::IndentStart | Item::IndentEnd | Item::HangStart | Item::HangEnd => self,
            _ => self.with_any(item),
        }
    }

    /// The same; the most frequent items are counted in a shorter way.
    fn with_any(self, item: Item<'_>) -> Columns
        ensures { AreFew self → result ≡ with_item item.entry self }
    {
        Columns {
            flat: self.flat.saturating_add(item.flat_columns()),
            forced: self.forced.saturating_add(one_if(item.must_end_a_line())),
            firm: self.firm.saturating_add(one_if(item.firmly_ends_a_line())),
            to_break: up_to(item.first_columns(), item.may_end_a_line(), self.to_break),
            to_end: up_to(
                item.joined_columns(),
                item.ends_a_joined_line(),
                self.to_end,
            ),
            firm_to_end: up_to(
                item.joined_columns(),
                item.ends_a_joined_line(),
                self.firm_to_end,
            ),
        }
    }

    /// With a piece more before them, of one line.
    fn with_piece(self, columns: usize) -> Columns
        ensures { AreFew self → columns ≤ 2 ^ 48 → result ≡ record self { flat = self.flat + columns; to_break = columns + self.to_break; to_end = columns + self.to_end; firm_to_end = columns + self.firm_to_end } }
    {
        Columns {
            flat: self.flat.saturating_add(columns),
            to_break: columns.saturating_add(self.to_break),
            to_end: columns.saturating_add(self.to_end),
            firm_to_end: columns.saturating_add(self.firm_to_end),
            ..self
        }
    }

    /// Whether a line must end between this place and another one behind it.
    fn is_forced_to(self, behind: Columns) -> bool
        ensures { result ≡ nat_lt behind.forced self.forced }
    {
        behind.forced < self.forced
    }

    /// The same, where what is kept counts for nothing.
    fn is_firm_to(self, behind: Columns) -> bool
        ensures { result ≡ nat_lt behind.firm self.firm }
    {
        behind.firm < self.firm
    }

    /// The columns between this place and another one behind it, flat, and others behind that.
    fn flat_to(self, behind: Columns, others: usize) -> usize
        ensures { AreFew self → others ≤ 2 ^ 48 → result ≡ self.flat - behind.flat + others }
    {
        self.flat.saturating_sub(behind.flat).saturating_add(others)
    }

    /// Before a group that ends at another place, whose first line ends after so many columns if a line must end in it.
    fn around(self, behind: Columns, to_end: usize, firm_to_end: usize) -> Columns
        ensures { AreFew self → AreFew behind → result ≡ around behind to_end firm_to_end self }
    {
        let mut all = self;
        all.to_end = if self.is_forced_to(behind) {
            to_end
        } else {
            self.flat_to(behind, behind.to_end)
        };
        all.firm_to_end = if self.is_firm_to(behind) {
            firm_to_end
        } else {
            self.flat_to(behind, behind.firm_to_end)
        };
        all
    }

    /// Before a group that ends at another place.
    fn around_group(self, behind: Columns) -> Columns
        ensures { AreFew self → AreFew behind → result ≡ around_group behind self }
    {
        self.around(behind, self.to_end, self.firm_to_end)
    }

    /// Before a group that ends at another place and whose width isn't asked.
    fn around_wide(self, behind: Columns) -> Columns
        ensures { AreFew self → AreFew behind → result ≡ around_wide behind self }
    {
        let mut all = self.around_group(behind);
        if !self.is_forced_to(behind) {
            all.to_break = self.flat_to(behind, behind.to_break);
        }
        all
    }

    /// Before the end of a choice.
    fn behind_choice(self) -> Columns
        ensures { result ≡ behind_choice self }
    {
        Columns {
            to_end: self.to_break,
            firm_to_end: self.to_break,
            ..self
        }
    }

    /// What a group needs that begins here and whose width isn't asked.
    fn wide_need_to(self, behind: Columns) -> usize
        ensures { result ≡ cond (nat_lt behind.forced self.forced) 65536 0 }
    {
        if self.is_forced_to(behind) {
            UNBOUNDED
        } else {
            0
        }
    }

    /// What a group needs that begins here, by what stands behind its end.
    fn need_to(self, behind: Columns) -> usize
        ensures { AreFew self → AreFew behind → result ≡ cond (nat_lt behind.forced self.forced) 65536 (self.flat - behind.flat + behind.to_break) }
    {
        if self.is_forced_to(behind) {
            UNBOUNDED
        } else {
            self.flat_to(behind, behind.to_break)
        }
    }
}

/// One if it is so.
fn one_if(is_so: bool) -> usize
    ensures { result ≡ cond is_so 1 0 }
{
    if is_so { 1 } else { 0 }
}

/// The columns of an item, and those behind it unless a line ends in it.
fn up_to(columns: usize, ends: bool, behind: usize) -> usize
    ensures { columns ≤ 2 ^ 48 → behind ≤ 2 ^ 48 → result ≡ columns + cond ends 0 behind }
{
    if ends {
        columns
    } else {
        columns.saturating_add(behind)
    }
}

/// A group whose start wasn't passed yet; what is noted of a choice stays as it is in another group.
#[derive(Clone, Copy)]
struct Tail {
    /// Behind its end.
    behind: Columns,
    /// Whether a line must end beside the part whose lines end in the joined form, behind it; none if no such part was passed.
    behind_part: Option<bool>,
    /// Before that part.
    part: Columns,
    /// Behind the last cut; before its cuts are passed, behind all.
    last_cut: Option<Columns>,
    /// Behind its head.
    head: Option<Columns>,
}

impl Tail {
    /// Behind a group of which nothing was passed.
    fn new(behind: Columns) -> Tail
        ensures { result ≡ new_tail behind }
    {
        Tail {
            behind,
            behind_part: None,
            part: behind,
            last_cut: None,
            head: None,
        }
    }

    /// With the part whose lines end in the joined form, by what stands before and behind it.
    fn with_part(self, part: Columns, behind_part: Columns) -> Tail
        ensures { result ≡ with_part part behind_part self }
    {
        Tail {
            part,
            behind_part: Some(behind_part.is_forced_to(self.behind)),
            ..self
        }
    }

    /// With a head, by what stands behind it.
    fn with_head(self, columns: Columns) -> Tail
        ensures { result ≡ with_head columns self }
    {
        Tail {
            head: Some(columns),
            ..self
        }
    }

    /// With a cut, by what stands behind it.
    fn with_cut(self, columns: Columns) -> Tail
        ensures { result ≡ with_cut columns self }
    {
        let last_cut = match self.last_cut {
            Some(last) => Some(last),
            None => Some(columns),
        };
        Tail { last_cut, ..self }
    }

    /// Notes an item that is no start and no end of a group, by what stands behind it.
    fn note(&mut self, item: Item<'_>, columns: Columns)
        ensures { self.new ≡ with_noted item.entry columns self.old }
    {
        match item {
            Item::HeadEnd => *self = self.with_head(columns),
            Item::CutLine | Item::CutSoftLine => *self = self.with_cut(columns),
            _ => {}
        }
    }

    /// Whether it can be joined, before the choice: a line must end nowhere beside the part whose lines end then; without such a part,
    /// nowhere between the head and the last cut.
    fn may_be_joined(self, before: Columns) -> bool
        ensures { result ≡ tail_joins before self }
    {
        if let Some(is_forced_behind) = self.behind_part {
            return !(before.is_forced_to(self.part) || is_forced_behind);
        }
        let Some(last) = self.last_cut else {
            return true;
        };
        !self.head.unwrap_or(before).is_firm_to(last)
    }

    /// What it needs to be joined, before the choice.
    fn joined_need(self, before: Columns) -> usize
        ensures { result ≡ tail_need before self }
    {
        if !self.may_be_joined(before) {
            UNBOUNDED
        } else if self.behind_part.is_some() {
            before.to_end
        } else {
            before.firm_to_end
        }
    }

    /// Before the choice.
    fn before_choice(self, before: Columns) -> Columns
        ensures { AreFew before → AreFew self.behind → result ≡ before_choice before self }
    {
        if self.may_be_joined(before) {
            before.around_group(self.behind)
        } else {
            before.around(self.behind, before.to_break, before.to_break)
        }
    }
}

/// What was passed.
#[derive(Drop)]
struct Measures {
    columns: Columns,
    /// The innermost group whose start wasn't passed yet; behind the last end one that ends behind all items.
    innermost: Tail,
    /// Those around it, the next one last.
    outer: Vec<Tail>,
    /// What each group needs that was passed, the first one last.
    needs: Vec<Need>,
}

impl Measures {
    fn new(alloc: Global) -> Measures
        ensures { HasPassed result [] }
    {
        Measures {
            columns: Columns::NOTHING,
            innermost: Tail::new(Columns::NOTHING),
            outer: Vec::new(alloc),
            needs: Vec::new(alloc),
        }
    }

    /// Passes the end of a group.
    fn pass_end(&mut self) -> Result<(), AllocError>
        ensures tails { OnOk result (IsBehindEnd self.old self.new) }
        ensures others { OnOk result ((self.new.columns ≡ self.old.columns) × (self.new.needs ≡ self.old.needs)) }
    {
        self.outer.push(self.innermost)?;
        self.innermost = Tail::new(self.columns);
        Ok(())
    }

    /// Passes the start of the innermost group, which needs so much.
    fn pass_start(&mut self, need: Need) -> Result<(), AllocError>
        ensures tails { OnOk result (IsBehindStart self.old self.new) }
        ensures others { OnOk result ((self.new.columns ≡ self.old.columns) × (self.new.needs.items ≡ self.old.needs.items ++ need ∷ [])) }
    {
        self.needs.push(need)?;
        self.innermost = self.outer.pop().unwrap_or(Tail::new(Columns::NOTHING));
        Ok(())
    }

    /// Passes the end of a choice.
    fn pass_choice_end(&mut self) -> Result<(), AllocError>
        ensures { (is : List Item) → sizes is ≤ 2 ^ 48 → HasPassed self.old is → OnOk result (HasPassed self.new (ChoiceEnd ∷ is)) }
    {
        self.pass_end()?;
        self.columns = self.columns.behind_choice();
        Ok(())
    }

    /// Passes the start of a choice.
    fn pass_choice_start(&mut self) -> Result<(), AllocError>
        ensures { (is : List Item) → sizes is ≤ 2 ^ 48 → HasPassed self.old is → OnOk result (HasPassed self.new (ChoiceStart ∷ is)) }
    {
        let tail = self.innermost;
        let need = Need {
            flat: self.columns.need_to(tail.behind),
            joined: tail.joined_need(self.columns),
        };
        self.pass_start(need)?;
        self.columns = tail.before_choice(self.columns);
        Ok(())
    }

    /// Passes the start of a group.
    fn pass_group_start(&mut self) -> Result<(), AllocError>
        ensures { (is : List Item) → sizes is ≤ 2 ^ 48 → HasPassed self.old is → OnOk result (HasPassed self.new (GroupStart ∷ is)) }
    {
        let behind = self.innermost.behind;
        self.pass_start(Need::of_group(self.columns.need_to(behind)))?;
        self.columns = self.columns.around_group(behind);
        Ok(())
    }

    /// Passes the start of a group whose width isn't asked.
    fn pass_wide_start(&mut self) -> Result<(), AllocError>
        ensures { (is : List Item) → sizes is ≤ 2 ^ 48 → HasPassed self.old is → OnOk result (HasPassed self.new (WideStart ∷ is)) }
    {
        let behind = self.innermost.behind;
        self.pass_start(Need::of_group(self.columns.wide_need_to(behind)))?;
        self.columns = self.columns.around_wide(behind);
        Ok(())
    }

    /// Passes the start of the part of a choice whose lines end in the joined form.
    fn pass_join_start(&mut self) -> Result<(), AllocError>
        ensures { (is : List Item) → sizes is ≤ 2 ^ 48 → HasPassed self.old is → OnOk result (HasPassed self.new (JoinStart ∷ is)) }
    {
        let behind = self.innermost.behind;
        self.pass_start(Need::of_group(self.columns.need_to(behind)))?;
        self.innermost = self.innermost.with_part(self.columns, behind);
        Ok(())
    }

    /// Passes an item that is no start and no end of a group.
    fn pass_other(&mut self, item: Item<'_>)
        ensures { (is : List Item) → sizes is ≤ 2 ^ 48 → is_outside item.entry ≡ true → HasPassed self.old is → HasPassed self.new (item.entry ∷ is) }
    {
        self.innermost.note(item, self.columns);
        self.columns = self.columns.with(item);
    }

    /// Passes an item.
    fn pass(&mut self, item: Item<'_>) -> Result<(), AllocError>
        ensures { (is : List Item) → sizes is ≤ 2 ^ 48 → HasPassed self.old is → OnOk result (HasPassed self.new (item.entry ∷ is)) }
    {
        match item {
            Item::GroupStart => self.pass_group_start(),
            Item::WideStart => self.pass_wide_start(),
            Item::JoinStart => self.pass_join_start(),
            Item::ChoiceStart => self.pass_choice_start(),
            Item::GroupEnd => self.pass_end(),
            Item::ChoiceEnd => self.pass_choice_end(),
            _ => {
                self.pass_other(item);
                Ok(())
            }
        }
    }
}

/// What each group needs, the first one last.
///
/// # Errors
/// `AllocError` where memory is refused.
pub(crate) fn needs_of_groups(items: &[Item<'_>], alloc: Global) -> Result<Vec<Need>, AllocError>
    requires { sizes items.now ≤ 2 ^ 48 }
    ensures { IfOk result (λ needs. needs.items ≡ reverse (needs_of items.now)) }
{
    let mut measures = Measures::new(alloc);
    let mut at = items.len();
    while at > 0 {
        at -= 1;
        measures.pass(items[at])?;
    }
    Ok(measures.needs)
}
