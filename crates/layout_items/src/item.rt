//! What a layout is made of.

ghost use Rattle.std.specs.Prelude.{◌≡◌};
ghost use Rattle.layout_items.specs.Items.{flat_columns, must_end_a_line, firmly_ends_a_line, first_columns, joined_columns, may_end_a_line, ends_a_joined_line, is_start};

/// More columns than any line has: what a group needs in which a line must end, so that it doesn't fit.
pub(crate) const UNBOUNDED: usize = 65536;

/// One item. A piece is a slice of some text, with the columns that it takes.
#[derive(Clone, Copy, Debug)]
pub enum Item<'t> {
    /// A piece of one line.
    Piece {
        text: &'t str,
        columns: u32,
    },
    /// A piece that is written only where the group around it is broken.
    IfBroken {
        text: &'t str,
        columns: u32,
    },
    /// A piece of several lines, as it stands, with the columns of its first and its last line.
    Lines {
        text: &'t str,
        first: u32,
        last: u32,
    },
    /// A piece behind a space, after which a line ends. Its columns aren't counted.
    LastOnLine {
        text: &'t str,
    },
    /// A space.
    Space,
    /// In a flat group a space, else a line end.
    Line,
    /// In a flat group nothing, else a line end.
    SoftLine,
    /// A line end.
    HardLine,
    /// A line end and an empty line.
    BlankLine,
    /// Nothing; but the groups around it are broken.
    Forced,
    /// The same, where a text is broken since it was before: what a layout itself may have brought about.
    Kept,
    GroupStart,
    GroupEnd,
    /// A group whose width isn't asked: it is flat unless a line must end in it. It ends with `GroupEnd`.
    WideStart,
    /// Lines that begin from here on stand one level deeper, up to the end.
    IndentStart,
    IndentEnd,
    /// The same, two columns deeper; with tabs a level.
    AlignStart,
    AlignEnd,
    /// The same, one level deeper, if the group that ended last is broken.
    HangStart,
    HangEnd,
    /// A group of three forms: flat; joined, where no line ends at its cuts; cut, where one ends at each of them.
    ChoiceStart,
    ChoiceEnd,
    /// The end of the head of a choice: a line that must end in the head doesn't cut it.
    HeadEnd,
    /// In the form that is cut a line end, else a space.
    CutLine,
    /// In the form that is cut a line end, else nothing.
    CutSoftLine,
    /// Lines that begin from here on stand one level deeper, up to the end, in the form that is cut.
    CutIndentStart,
    CutIndentEnd,
    /// A piece that is written only in the form that is cut.
    IfCut {
        text: &'t str,
        columns: u32,
    },
    /// The part of a choice whose lines end in the joined form: there it is a broken group, else a group. It ends with `GroupEnd`.
    JoinStart,
    /// In the joined form a line end, else nothing.
    JoinedSoftLine,
    /// A piece that is written only in the joined form.
    IfJoined {
        text: &'t str,
        columns: u32,
    },
}

impl<'t> Item<'t> {
    /// The columns that it takes in a flat group.
    pub(crate) fn flat_columns(self) -> usize
        ensures { result ≡ flat_columns self.entry }
    {
        match self {
            Item::Piece { columns, .. } => columns as usize,
            Item::Space | Item::Line | Item::CutLine => 1,
            _ => 0,
        }
    }

    /// Whether a line must end in it or right behind it, so that it breaks the groups around it.
    pub(crate) fn must_end_a_line(self) -> bool
        ensures { result ≡ must_end_a_line self.entry }
    {
        matches!(
            self,
            Item::Lines { .. }
                | Item::LastOnLine { .. }
                | Item::HardLine
                | Item::BlankLine
                | Item::Forced
                | Item::Kept
        )
    }

    /// The same, where what is kept counts for nothing.
    pub(crate) fn firmly_ends_a_line(self) -> bool
        ensures { result ≡ firmly_ends_a_line self.entry }
    {
        match self {
            Item::Kept => false,
            _ => self.must_end_a_line(),
        }
    }

    /// The columns that it takes before a line may end in it, if the groups around it are broken.
    pub(crate) fn first_columns(self) -> usize
        ensures { result ≡ first_columns self.entry }
    {
        match self {
            Item::Piece { columns, .. }
            | Item::IfBroken { columns, .. }
            | Item::IfCut { columns, .. }
            | Item::IfJoined { columns, .. } => columns as usize,
            Item::Lines { first, .. } => first as usize,
            Item::Space => 1,
            _ => 0,
        }
    }

    /// The columns that it takes on the first line of a choice that is joined.
    pub(crate) fn joined_columns(self) -> usize
        ensures { result ≡ joined_columns self.entry }
    {
        match self {
            Item::IfCut { .. } => 0,
            Item::CutLine => 1,
            _ => self.first_columns(),
        }
    }

    /// Whether a line may end in it, if the groups around it are broken.
    pub(crate) fn may_end_a_line(self) -> bool
        ensures { result ≡ may_end_a_line self.entry }
    {
        matches!(
            self,
            Item::Lines { .. }
                | Item::LastOnLine { .. }
                | Item::Line
                | Item::SoftLine
                | Item::HardLine
                | Item::BlankLine
                | Item::CutLine
                | Item::CutSoftLine
                | Item::JoinedSoftLine
        )
    }

    /// Whether the first line of a choice that is joined ends in it.
    pub(crate) fn ends_a_joined_line(self) -> bool
        ensures { result ≡ ends_a_joined_line self.entry }
    {
        match self {
            Item::CutLine | Item::CutSoftLine => false,
            _ => self.may_end_a_line(),
        }
    }

    /// Whether groups begin with it that need something.
    pub(crate) fn is_group_start(self) -> bool
        ensures { result ≡ is_start self.entry }
    {
        matches!(
            self,
            Item::GroupStart | Item::WideStart | Item::ChoiceStart | Item::JoinStart
        )
    }
}
