//! Parentheses, and single words.

use item_builder::Builder;

pub fn opening_parentheses<'t>(b: &mut Builder<'t>, count: usize) {
    for _ in 0..count {
        b.token("(");
    }
}

pub fn closing_parentheses<'t>(b: &mut Builder<'t>, count: usize) {
    for _ in 0..count {
        b.push_closing(true);
        b.token(")");
    }
}

pub fn meta_property<'t>(b: &mut Builder<'t>) {
    b.any_token();
    b.token(".");
    b.any_token();
}

/// Whether a number has digits alone, so that a `.` right behind it would belong to it.
pub fn is_integer(text: &str) -> bool {
    text.bytes().all(|c| matches!(c, b'0'..=b'9' | b'_'))
}

pub fn static_word<'t>(b: &mut Builder<'t>, is_static: bool) {
    if is_static {
        b.token("static");
        b.space();
    }
}
