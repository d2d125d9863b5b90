//! Brackets with nothing between them.

use crate::builder::Builder;
use layout_items::Item;

/// Empty brackets, with comments perhaps.
pub fn empty_brackets<'t>(b: &mut Builder<'t>, close: &str) {
    let is_broken = b.has_line_end() && b.has_comment();
    if !is_broken {
        b.push_closing(false);
        b.token(close);
        return;
    }
    b.push(Item::GroupStart);
    b.push(Item::Forced);
    b.push(Item::IndentStart);
    b.push_closing(false);
    b.push(Item::IndentEnd);
    b.push(Item::SoftLine);
    b.token(close);
    b.push(Item::GroupEnd);
}

/// Braces with nothing between them but comments, which stand on lines of their own.
pub fn empty_braces<'t>(b: &mut Builder<'t>) {
    let has_comments = b.has_comment();
    if has_comments {
        b.push(Item::IndentStart);
        if !b.has_line_end() {
            b.push(Item::HardLine);
        }
        b.push_closing(false);
        b.push(Item::IndentEnd);
        b.push(Item::HardLine);
    }
    b.gap.clear();
    b.token("}");
}
