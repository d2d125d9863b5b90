//! The items of a comment.

use crate::builder::{Builder, columns_of, piece};
use layout_items::Item;

/// A comment in a line.
pub(crate) fn push_comment<'t>(b: &mut Builder<'t>, text: &'t str) {
    if !has_line_end(text) {
        b.push(piece(text.trim_end()));
        return;
    }
    if all_lines_begin_with_stars(text) {
        push_starred(b, text);
        return;
    }
    b.push(lines(text));
}

/// A comment that ends its line. The columns of one that must end it aren't counted, since no layout makes the line shorter by another
/// place for it.
pub(crate) fn push_last_comment<'t>(b: &mut Builder<'t>, text: &'t str) {
    if text.as_bytes().starts_with(b"//") {
        b.push(Item::LastOnLine {
            text: text.trim_end(),
        });
        return;
    }
    b.push(Item::Space);
    push_comment(b, text);
    b.push(Item::HardLine);
}

/// A text of several lines, as it stands.
pub(crate) fn lines(text: &str) -> Item<'_> {
    let first = text.split('\n').next().unwrap_or("");
    let last = text.rsplit('\n').next().unwrap_or("");
    Item::Lines {
        text,
        first: columns_of(first),
        last: columns_of(last),
    }
}

/// Whether a line feed is in a text.
pub(crate) fn has_line_end(text: &str) -> bool {
    text.as_bytes().contains(&b'\n')
}

/// Whether each line but the first begins with `*`, blanks aside.
fn all_lines_begin_with_stars(text: &str) -> bool {
    text.split('\n')
        .skip(1)
        .all(|line| line.trim().as_bytes().starts_with(b"*"))
}

/// Such a comment: each star stands one column behind where the comment begins.
fn push_starred<'t>(b: &mut Builder<'t>, text: &'t str) {
    for (index, line) in text.split('\n').enumerate() {
        if index == 0 {
            b.push(piece(line.trim_end()));
            continue;
        }
        b.push(Item::HardLine);
        b.push(piece(" "));
        b.push(piece(line.trim()));
    }
}
