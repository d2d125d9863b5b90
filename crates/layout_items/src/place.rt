//! Where a layout stands between two items.

ghost use Rattle.std.specs.Prelude.{◌≡◌, ◌+◌, ◌≤◌, ◌||◌, cond, nat_lt, List, true};
ghost use Rattle.layout_items.specs.declared.item.Item.{Item};
ghost use Rattle.layout_items.specs.declared.item.Item.TheVariants.{ChoiceStart};
ghost use Rattle.layout_items.specs.Gaps.{spaced, ended};
ghost use Rattle.layout_items.specs.Items.{is_start};
ghost use Rattle.layout_items.specs.Layout.{choice_form, form_of};
ghost use Rattle.layout_items.specs.Places.{beginning, indent_columns, piece_room, behind_piece, behind_lines, behind_end, is_in_flat, is_flat_form, with_gap, with_line, indented, deeper_if_cut, less_deep_if_cut, behind_indentation, behind_item, behind_start};
ghost use Rattle.layout_items.specs.Passes.{next_place, need_at};

use crate::form::Form;
use crate::gap::Gap;
use crate::item::{Item, UNBOUNDED};
use crate::needs::Need;
use crate::style::Style;

/// What the next items are laid out by.
#[derive(Clone, Copy, Debug)]
pub(crate) struct Place {
    /// The columns that are left on the line behind its last piece, and one more; 0 where it is past the width.
    pub room: usize,
    /// How many levels deep lines begin, and by how many alignments more.
    pub levels: usize,
    pub aligned: usize,
    /// The same for the line that begins with the next piece: as it was where its beginning was asked for.
    pub line_levels: usize,
    pub line_aligned: usize,
    /// How many of the open groups are flat: the innermost ones, since a group in a flat one is flat.
    pub flat: usize,
    /// Whether the group that ended last is broken.
    pub is_behind_broken: bool,
    pub gap: Gap,
}

impl Place {
    /// Before the first item.
    pub(crate) fn beginning(style: Style) -> Place
        ensures { result ≡ beginning style }
    {
        Place {
            room: style.width as usize + 1,
            levels: 0,
            aligned: 0,
            line_levels: 0,
            line_aligned: 0,
            flat: 0,
            is_behind_broken: false,
            gap: Gap::Beginning,
        }
    }

    /// The columns of the indentation of the line that begins here.
    pub(crate) fn indent_columns(self, style: Style) -> usize
        requires { self.line_levels + self.line_aligned ≤ 281474976710656 }
        ensures { result ≡ indent_columns style self }
    {
        let indent = style.indent as usize;
        if style.tabs {
            indent * (self.line_levels + self.line_aligned)
        } else {
            indent * self.line_levels + 2 * self.line_aligned
        }
    }

    /// The room that the next piece has.
    pub(crate) fn piece_room(self, style: Style) -> usize
        requires { self.line_levels + self.line_aligned ≤ 281474976710656 }
        ensures value { result ≡ piece_room style self }
        ensures bound { self.room ≤ style.width + 1 → result ≤ 65536 }
    {
        match self.gap {
            Gap::Nothing | Gap::Beginning => self.room,
            Gap::Space => self.room.saturating_sub(1),
            Gap::LineEnd | Gap::EmptyLine => {
                (style.width as usize + 1).saturating_sub(self.indent_columns(style))
            }
        }
    }

    /// Behind a piece of so many columns.
    fn behind_piece(self, style: Style, columns: u32) -> Place
        requires { self.line_levels + self.line_aligned ≤ 281474976710656 }
        ensures { result ≡ behind_piece style columns self }
    {
        Place {
            room: self.piece_room(style).saturating_sub(columns as usize),
            gap: Gap::Nothing,
            ..self
        }
    }

    /// Behind a piece of so many columns that may be written or not.
    fn behind_piece_if(self, style: Style, is_written: bool, columns: u32) -> Place
        requires { self.line_levels + self.line_aligned ≤ 281474976710656 }
        ensures { result ≡ cond is_written (behind_piece style columns self) self }
    {
        if is_written {
            self.behind_piece(style, columns)
        } else {
            self
        }
    }

    /// Behind a piece of several lines.
    fn behind_lines(self, style: Style, last: u32) -> Place
        ensures { result ≡ behind_lines style last self }
    {
        Place {
            room: (style.width as usize + 1).saturating_sub(last as usize),
            gap: Gap::Nothing,
            ..self
        }
    }

    /// Whether the innermost open group is flat.
    pub(crate) fn is_in_flat(self) -> bool
        ensures { result ≡ is_in_flat self }
    {
        0 < self.flat
    }

    /// The same place where a space is asked for.
    fn spaced(self) -> Place
        ensures { result ≡ with_gap (spaced self.gap) self }
    {
        Place {
            gap: self.gap.spaced(),
            ..self
        }
    }

    /// The same place where a line is asked to begin, by a line end or an empty line: it is indented as lines are here.
    fn with_line(self, gap: Gap) -> Place
        ensures { result ≡ with_line gap self }
    {
        Place {
            gap,
            line_levels: self.levels,
            line_aligned: self.aligned,
            ..self
        }
    }

    /// The same place where a line end is asked for.
    fn ended(self) -> Place
        ensures { result ≡ with_line (ended self.gap) self }
    {
        self.with_line(self.gap.ended())
    }

    /// The same place where a line end is asked for, or nothing.
    fn ended_if(self, ends: bool) -> Place
        ensures { result ≡ cond ends (with_line (ended self.gap) self) self }
    {
        if ends { self.ended() } else { self }
    }

    /// The same place where a line end is asked for, or a space.
    fn ended_or_spaced(self, ends: bool) -> Place
        ensures { result ≡ cond ends (with_line (ended self.gap) self) (with_gap (spaced self.gap) self) }
    {
        if ends { self.ended() } else { self.spaced() }
    }

    /// Behind the end of a group.
    fn behind_end(self) -> Place
        ensures { result ≡ behind_end self }
    {
        Place {
            flat: self.flat.saturating_sub(1),
            is_behind_broken: !self.is_in_flat(),
            ..self
        }
    }

    /// The same place with another indentation.
    fn indented(self, levels: usize, aligned: usize) -> Place
        ensures { result ≡ indented levels aligned self }
    {
        Place {
            levels,
            aligned,
            ..self
        }
    }

    /// The same place one level deeper, in the form that is cut.
    pub(crate) fn deeper_if_cut(self, form: Form) -> Place
        requires depth { self.levels + self.aligned ≤ 281474976710656 }
        ensures { result ≡ deeper_if_cut form self }
    {
        if form.is_cut() {
            self.indented(self.levels + 1, self.aligned)
        } else {
            self
        }
    }

    /// The same place one level less deep, in the form that is cut.
    pub(crate) fn less_deep_if_cut(self, form: Form) -> Place
        ensures { result ≡ less_deep_if_cut form self }
    {
        if form.is_cut() {
            self.indented(self.levels.saturating_sub(1), self.aligned)
        } else {
            self
        }
    }

    /// Behind an item that isn't the start of a group, where the innermost choice has a form.
    fn behind_item(self, style: Style, form: Form, item: Item<'_>) -> Place
        requires depth { self.levels + self.aligned ≤ 281474976710656 }
        requires line_depth { self.line_levels + self.line_aligned ≤ 281474976710656 }
        requires flat { self.flat ≤ 281474976710656 }
        ensures { result ≡ behind_item style form self item.entry }
    {
        match item {
            Item::Piece { columns, .. } => self.behind_piece(style, columns),
            Item::IfBroken { columns, .. } => {
                self.behind_piece_if(style, !self.is_in_flat(), columns)
            }
            Item::IfCut { columns, .. } => self.behind_piece_if(style, form.is_cut(), columns),
            Item::IfJoined { columns, .. } => {
                self.behind_piece_if(style, form.is_joined(), columns)
            }
            Item::Lines { last, .. } => self.behind_lines(style, last),
            Item::LastOnLine { .. } => self.with_line(Gap::LineEnd),
            Item::Space => self.spaced(),
            Item::Line => self.ended_or_spaced(!self.is_in_flat()),
            Item::SoftLine => self.ended_if(!self.is_in_flat()),
            Item::CutLine => self.ended_or_spaced(form.is_cut()),
            Item::CutSoftLine => self.ended_if(form.is_cut()),
            Item::JoinedSoftLine => self.ended_if(form.is_joined()),
            Item::HardLine => self.ended(),
            Item::BlankLine => self.with_line(self.gap.parted()),
            Item::GroupEnd | Item::ChoiceEnd => self.behind_end(),
            _ => self.behind_indentation(form, item),
        }
    }

    /// Behind an item that changes the indentation, or nothing.
    fn behind_indentation(self, form: Form, item: Item<'_>) -> Place
        requires depth { self.levels + self.aligned ≤ 281474976710656 }
        ensures { result ≡ behind_indentation form self item.entry }
    {
        match item {
            Item::IndentStart => self.indented(self.levels + 1, self.aligned),
            Item::IndentEnd => self.indented(self.levels.saturating_sub(1), self.aligned),
            Item::AlignStart => self.indented(self.levels, self.aligned + 1),
            Item::AlignEnd => self.indented(self.levels, self.aligned.saturating_sub(1)),
            Item::HangStart => self.deeper_if_cut(Form::behind_group(self.is_behind_broken)),
            Item::CutIndentStart => self.deeper_if_cut(form),
            Item::HangEnd | Item::CutIndentEnd => self.less_deep_if_cut(form),
            _ => self,
        }
    }

    /// Behind the start of a group that is flat, or broken.
    fn opened(self, is_flat: bool) -> Place
        requires { self.flat ≤ 281474976710656 }
        ensures { result ≡ behind_start is_flat self }
    {
        if is_flat {
            Place {
                flat: self.flat + 1,
                ..self
            }
        } else {
            self
        }
    }

    /// The form of a choice that begins here and needs so much.
    pub(crate) fn form_of_choice(self, style: Style, need: Need) -> Form
        requires { self.line_levels + self.line_aligned ≤ 281474976710656 }
        ensures { (is : List Item) → self.room ≤ style.width + 1 → need ≡ need_at ChoiceStart is → result ≡ choice_form style self is }
    {
        let room = self.piece_room(style);
        if self.is_in_flat() || need.flat < room {
            Form::Flat
        } else if need.joined < room {
            Form::Joined
        } else {
            Form::Cut
        }
    }

    /// Whether a group that begins here and needs so much is flat by its width.
    fn fits(self, style: Style, need: Need) -> bool
        requires { self.line_levels + self.line_aligned ≤ 281474976710656 }
        ensures { result ≡ (is_in_flat self || nat_lt need.flat (piece_room style self)) }
    {
        self.is_in_flat() || need.flat < self.piece_room(style)
    }

    /// Whether a group that begins here is flat, where the innermost choice has a form, and it needs so much.
    fn is_flat_group(self, style: Style, form: Form, item: Item<'_>, need: Need) -> bool
        requires { self.line_levels + self.line_aligned ≤ 281474976710656 }
        ensures { (is : List Item) → self.room ≤ style.width + 1 → is_start item.entry ≡ true → need ≡ need_at item.entry is → result ≡ is_flat_form (form_of style form self item.entry is) }
    {
        let fits = self.fits(style, need);
        match item {
            Item::JoinStart => !form.is_joined() && fits,
            Item::WideStart => self.is_in_flat() || need.flat < UNBOUNDED,
            _ => fits,
        }
    }

    /// Behind the start of a group that needs so much.
    fn behind_start(self, style: Style, form: Form, item: Item<'_>, need: Need) -> Place
        requires depth { self.line_levels + self.line_aligned ≤ 281474976710656 }
        requires flat { self.flat ≤ 281474976710656 }
        ensures { (is : List Item) → self.room ≤ style.width + 1 → is_start item.entry ≡ true → need ≡ need_at item.entry is → result ≡ next_place style form self item.entry is }
    {
        let is_flat = match item {
            Item::ChoiceStart => matches!(self.form_of_choice(style, need), Form::Flat),
            _ => self.is_flat_group(style, form, item, need),
        };
        self.opened(is_flat)
    }

    /// Behind an item: if it is the start of a group, one that needs so much.
    pub(crate) fn behind(self, style: Style, form: Form, item: Item<'_>, need: Need) -> Place
        requires depth { self.levels + self.aligned ≤ 281474976710656 }
        requires line_depth { self.line_levels + self.line_aligned ≤ 281474976710656 }
        requires flat { self.flat ≤ 281474976710656 }
        ensures { (is : List Item) → self.room ≤ style.width + 1 → (is_start item.entry ≡ true → need ≡ need_at item.entry is) → result ≡ next_place style form self item.entry is }
    {
        if item.is_group_start() {
            self.behind_start(style, form, item, need)
        } else {
            self.behind_item(style, form, item)
        }
    }
}
