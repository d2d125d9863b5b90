//! Tokens that stand beside each other in the text and in each layout.

/// A part of the text that is one piece: between two of its tokens nothing or a space stands, in the text and in each layout.
#[derive(Clone, Copy)]
pub(crate) struct Run {
    /// Where it begins, in bytes.
    pub start: usize,
    /// Where its last token ends.
    pub end: usize,
    pub columns: u32,
    /// A space was asked for behind it.
    pub is_spaced: bool,
}

impl Run {
    /// Of one token.
    pub(crate) fn of_token(start: usize, end: usize, columns: u32) -> Run {
        Run {
            start,
            end,
            columns,
            is_spaced: false,
        }
    }

    /// Whether it goes on with a token that begins at a place: if the text has just what was asked for between them.
    pub(crate) fn goes_on_at(self, text: &str, start: usize) -> bool {
        if !self.is_spaced {
            return self.end == start;
        }
        self.end.saturating_add(1) == start && text.as_bytes().get(self.end) == Some(&b' ')
    }

    /// A space is asked for behind it.
    pub(crate) fn spaced(self) -> Run {
        Run {
            is_spaced: true,
            ..self
        }
    }

    /// With one more token, behind the space if one was asked for.
    pub(crate) fn with(self, end: usize, columns: u32) -> Run {
        let space = if self.is_spaced { 1 } else { 0 };
        Run {
            end,
            columns: self.columns.saturating_add(space).saturating_add(columns),
            is_spaced: false,
            ..self
        }
    }
}
