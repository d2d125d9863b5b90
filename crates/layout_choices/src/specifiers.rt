//! What is imported and exported by names.

use item_builder::{Builder, empty_brackets};
use layout_items::Item;
use tree::{Kind, NodeList};

pub fn import<'t>(b: &mut Builder<'t>, list: NodeList<'_, '_>) {
    b.token("import");
    b.space();
    if list.len() == 0 {
        b.skip_to_string();
        b.any_token();
        b.semicolon();
        return;
    }
    let mut at = 0;
    if is_kind(list, 0, Kind::ImportDefaultSpecifier) {
        b.any_token();
        at = 1;
        if b.is(",") && list.len() == 1 {
            b.skip();
        } else if b.is(",") {
            b.token_before_comments(",");
            b.space();
        }
    }
    if is_kind(list, at, Kind::ImportNamespaceSpecifier) {
        b.token("*");
        b.space();
        b.token("as");
        b.space();
        b.any_token();
    } else if at < list.len() {
        braces(b, list.skip(at));
    } else if b.is("{") {
        b.skip();
        b.skip();
    }
    from(b);
    b.semicolon();
}

fn is_kind(list: NodeList<'_, '_>, index: usize, kind: Kind) -> bool {
    match list.get(index) {
        Some(node) => node.kind() == kind,
        None => false,
    }
}

pub fn from<'t>(b: &mut Builder<'t>) {
    b.space();
    b.token("from");
    b.space();
    b.any_token();
}

/// Specifiers in braces.
pub fn braces<'t>(b: &mut Builder<'t>, list: NodeList<'_, '_>) {
    if list.len() == 0 {
        b.token("{");
        empty_brackets(b, "}");
        return;
    }
    b.push(Item::GroupStart);
    b.token("{");
    b.push(Item::IndentStart);
    b.line(Item::Line);
    for index in 0..list.len() {
        if index > 0 {
            b.token_before_comments(",");
            b.line(Item::Line);
        }
        specifier(b);
    }
    let is_allowed = b.options().has_last_list_comma();
    b.last_comma(is_allowed);
    b.push_closing(true);
    b.push(Item::IndentEnd);
    b.push(Item::Line);
    b.token("}");
    b.push(Item::GroupEnd);
}

/// `a`, or `a as b`; `a as a` has a part more than `a`, and stays.
fn specifier<'t>(b: &mut Builder<'t>) {
    b.lead();
    b.any_token();
    if b.is("as") {
        b.space();
        b.any_token();
        b.space();
        b.any_token();
    }
}
