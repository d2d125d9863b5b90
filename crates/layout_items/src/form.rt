//! The forms of a choice.

ghost use Rattle.std.specs.Prelude.{◌≡◌};
ghost use Rattle.layout_items.specs.Places.{behind_group, is_cut_form, is_joined_form};

/// How a choice is laid out, or a part of it that hangs: in the form that is cut lines end at its cuts, and its lines are indented.
#[derive(Clone, Copy, Debug, PartialEq, Eq)]
pub(crate) enum Form {
    Flat,
    Joined,
    Cut,
}

impl Form {
    /// The form of what stands behind a group, which is broken or not.
    pub(crate) fn behind_group(is_broken: bool) -> Form
        ensures { result ≡ behind_group is_broken }
    {
        if is_broken { Form::Cut } else { Form::Joined }
    }

    /// Whether lines end at its cuts.
    pub(crate) fn is_cut(self) -> bool
        ensures { result ≡ is_cut_form self }
    {
        matches!(self, Form::Cut)
    }

    /// Whether it is joined.
    pub(crate) fn is_joined(self) -> bool
        ensures { result ≡ is_joined_form self }
    {
        matches!(self, Form::Joined)
    }
}
