//! What is written of a layout.

ghost use Rattle.std.specs.Prelude.{◌≤◌, length};
ghost use Rattle.std.specs.String.{string_bytes};

use crate::form::Form;
use crate::gap::Gap;
use crate::item::Item;
use crate::layout_error::LayoutError;
use crate::place::Place;
use crate::style::Style;
use std::alloc::Global;

/// A text of at most so many bytes.
#[derive(Drop)]
pub(crate) struct Output {
    text: String,
    limit: usize,
    ghost within: { length (string_bytes text) ≤ limit },
}

impl Output {
    ghost use Rattle.std.specs.Prelude.{◌≡◌, ℕ, ◌+◌, ◌≤◌, [], ◌∷◌, ◌++◌, length, replicate, cond};
    ghost use Rattle.std.specs.String.{string_bytes};
    ghost use Rattle.layout_items.specs.Layout.{gap_text, indentation, item_text, ending};
    ghost use Rattle.layout_items.specs.Written.{Appended, bytes_of};

    /// Nothing is written.
    pub(crate) fn new(alloc: Global, limit: usize) -> Output
        ensures text { bytes_of result ≡ [] }
        ensures limit { result.limit ≡ limit }
    {
        Output {
            text: String::new(alloc),
            limit,
        }
    }

    /// Writes a piece.
    fn append(&mut self, piece: &str) -> Result<(), LayoutError>
        ensures { Appended result self.old self.new piece.now }
    {
        if piece.len() > self.limit.saturating_sub(self.text.len()) {
            return Err(LayoutError::TooLong);
        }
        self.text.push_str(piece)?;
        Ok(())
    }

    /// Writes a blank so many times.
    fn append_blanks(&mut self, blank: &str, count: usize) -> Result<(), LayoutError>
        ensures { (b : ℕ) → blank.now ≡ b ∷ [] → Appended result self.old self.new (replicate count b) }
    {
        for _ in 0..count {
            self.append(blank)?;
        }
        Ok(())
    }

    /// Writes the indentation of a line that begins here.
    fn append_indentation(&mut self, style: Style, place: Place) -> Result<(), LayoutError>
        requires { place.line_levels + place.line_aligned ≤ 281474976710656 }
        ensures { Appended result self.old self.new (indentation style place) }
    {
        if style.tabs {
            self.append_blanks("\t", place.line_levels + place.line_aligned)
        } else {
            self.append_blanks(" ", place.indent_columns(style))
        }
    }

    /// Writes what stands before the next piece.
    fn append_gap(&mut self, style: Style, place: Place, gap: Gap) -> Result<(), LayoutError>
        requires { place.line_levels + place.line_aligned ≤ 281474976710656 }
        ensures { Appended result self.old self.new (gap_text style place gap) }
    {
        match gap {
            Gap::Nothing | Gap::Beginning => Ok(()),
            Gap::Space => self.append(" "),
            Gap::LineEnd => {
                self.append("\n")?;
                self.append_indentation(style, place)
            }
            Gap::EmptyLine => {
                self.append("\n\n")?;
                self.append_indentation(style, place)
            }
        }
    }

    /// Writes a piece, and what stands before it.
    fn append_piece(
        &mut self,
        style: Style,
        place: Place,
        gap: Gap,
        piece: &str,
    ) -> Result<(), LayoutError>
        requires { place.line_levels + place.line_aligned ≤ 281474976710656 }
        ensures { Appended result self.old self.new (gap_text style place gap ++ piece.now) }
    {
        self.append_gap(style, place, gap)?;
        self.append(piece)
    }

    /// Writes a piece that may be written or not, and what stands before it.
    fn append_piece_if(
        &mut self,
        style: Style,
        place: Place,
        is_written: bool,
        piece: &str,
    ) -> Result<(), LayoutError>
        requires { place.line_levels + place.line_aligned ≤ 281474976710656 }
        ensures { Appended result self.old self.new (cond is_written (gap_text style place place.gap ++ piece.now) []) }
    {
        if is_written {
            self.append_piece(style, place, place.gap, piece)
        } else {
            Ok(())
        }
    }

    /// Writes what an item adds, where the innermost choice has a form.
    pub(crate) fn append_item(
        &mut self,
        style: Style,
        place: Place,
        form: Form,
        item: Item<'_>,
    ) -> Result<(), LayoutError>
        requires { place.line_levels + place.line_aligned ≤ 281474976710656 }
        ensures { Appended result self.old self.new (item_text style form place item.entry) }
    {
        match item {
            Item::Piece { text, .. } | Item::Lines { text, .. } => {
                self.append_piece(style, place, place.gap, text)
            }
            Item::IfBroken { text, .. } => {
                self.append_piece_if(style, place, !place.is_in_flat(), text)
            }
            Item::IfCut { text, .. } => self.append_piece_if(style, place, form.is_cut(), text),
            Item::IfJoined { text, .. } => {
                self.append_piece_if(style, place, form.is_joined(), text)
            }
            Item::LastOnLine { text } => {
                self.append_piece(style, place, place.gap.spaced(), text)
            }
            _ => Ok(()),
        }
    }

    /// Ends the last line.
    pub(crate) fn append_ending(&mut self, place: Place) -> Result<(), LayoutError>
        ensures { Appended result self.old self.new (ending place.gap) }
    {
        match place.gap {
            Gap::LineEnd | Gap::EmptyLine => self.append("\n"),
            _ => Ok(()),
        }
    }

    /// The text.
    pub(crate) fn into_text(self) -> String
        ensures text { string_bytes result ≡ bytes_of self }
        ensures within { length (string_bytes result) ≤ self.limit }
    {
        self.text
    }
}
