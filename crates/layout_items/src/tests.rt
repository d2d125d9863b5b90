//! Worked rows: items in short, a width, and the text that a person wrote down for them.

use crate::item::Item;
use crate::item_list::ItemList;
use crate::layout::lay_out;
use crate::layout_error::LayoutError;
use crate::style::Style;
use std::alloc::Global;

/// The item that a character stands for.
fn item_of(c: char) -> Item<'static> {
    match c {
        'a' => Item::Piece {
            text: "a",
            columns: 1,
        },
        'b' => Item::Piece {
            text: "bb",
            columns: 2,
        },
        'c' => Item::Piece {
            text: "ccc",
            columns: 3,
        },
        'd' => Item::Piece {
            text: "dddd",
            columns: 4,
        },
        'w' => Item::Piece {
            text: "中",
            columns: 2,
        },
        ',' => Item::IfBroken {
            text: ",",
            columns: 1,
        },
        '*' => Item::Lines {
            text: "x\n yyy",
            first: 1,
            last: 4,
        },
        '#' => Item::LastOnLine {
            text: "// a long comment",
        },
        ' ' => Item::Space,
        '_' => Item::Line,
        '.' => Item::SoftLine,
        '/' => Item::HardLine,
        '=' => Item::BlankLine,
        '!' => Item::Forced,
        '(' => Item::GroupStart,
        ')' => Item::GroupEnd,
        '>' => Item::IndentStart,
        '<' => Item::IndentEnd,
        '{' => Item::AlignStart,
        '}' => Item::AlignEnd,
        _ => item_of_choice(c),
    }
}

/// The item of a choice, or of what hangs, that a character stands for.
fn item_of_choice(c: char) -> Item<'static> {
    match c {
        '?' => Item::Kept,
        '[' => Item::WideStart,
        'h' => Item::HangStart,
        'H' => Item::HangEnd,
        'x' => Item::ChoiceStart,
        'X' => Item::ChoiceEnd,
        '-' => Item::CutLine,
        '\'' => Item::CutSoftLine,
        'i' => Item::CutIndentStart,
        'I' => Item::CutIndentEnd,
        ';' => Item::IfCut {
            text: ",",
            columns: 1,
        },
        '|' => Item::HeadEnd,
        'j' => Item::JoinStart,
        '^' => Item::JoinedSoftLine,
        _ => Item::IfJoined {
            text: ":",
            columns: 1,
        },
    }
}

/// The layout of the items that a text stands for.
fn laid(row: &str, style: Style, limit: usize, alloc: Global) -> Result<String, LayoutError> {
    let mut items = ItemList::new(alloc);
    for c in row.chars() {
        items.push(item_of(c));
    }
    lay_out(&items, style, limit, alloc)
}

/// Whether it is this text.
fn is_text(laid: &Result<String, LayoutError>, want: &str) -> bool {
    match laid {
        Ok(text) => text.as_str() == want,
        Err(_) => false,
    }
}

/// Items, a width, and their layout with levels of two spaces.
static ROWS: [(&str, u16, &str); 84] = [
    // nothing; a piece; blanks at both ends
    ("", 80, ""),
    ("a", 80, "a"),
    ("=/ a/", 80, "a\n"),
    ("a==", 80, "a\n"),
    ("a ", 80, "a"),
    // outside of groups each break is a line end
    ("a_b.c", 80, "a\nbb\nccc"),
    // a group at its width, and one column over
    ("(a_b)", 4, "a bb"),
    ("(a_b)", 3, "a\nbb"),
    ("(a.b)", 3, "abb"),
    ("(a.b)", 2, "a\nbb"),
    // what follows counts, up to the next place where a line may end
    ("(a_b)c", 7, "a bbccc"),
    ("(a_b)c", 6, "a\nbbccc"),
    ("(a_b)c_d", 7, "a bbccc\ndddd"),
    ("(a_b)(c_d)", 7, "a bbccc\ndddd"),
    ("(a_b)(c_d)", 6, "a\nbbccc\ndddd"),
    ("((a_b)c_d)", 7, "a bbccc\ndddd"),
    ("(a_b) c/", 8, "a bb ccc\n"),
    ("(a_b) c/", 7, "a\nbb ccc\n"),
    // a group in a flat one is flat; in a broken one it is asked
    ("(a_(b_c))", 8, "a bb ccc"),
    ("(a_(b_c))", 7, "a\nbb ccc"),
    ("(a_(b_c))", 5, "a\nbb\nccc"),
    // a line end breaks all groups around it and none beside it
    ("(a_(b/c)_d(a_a))", 80, "a\nbb\nccc\ndddda a"),
    ("(a_b!)", 80, "a\nbb"),
    ("(a_b)!", 80, "a bb"),
    // a piece that is written in a broken group alone, and counts there
    ("(a,.)", 80, "a"),
    ("(a,./)", 80, "a,\n"),
    ("((a_b),.c/)", 5, "a bb,\nccc\n"),
    ("((a_b),.c/)", 4, "a\nbb,\nccc\n"),
    // a piece that ends its line isn't counted
    ("(a_b)#c", 4, "a bb // a long comment\nccc"),
    ("(a_b)#c", 3, "a\nbb // a long comment\nccc"),
    ("(a_b#)", 80, "a\nbb // a long comment\n"),
    ("a/#/b", 80, "a\n// a long comment\nbb"),
    ("a#_b", 80, "a // a long comment\nbb"),
    ("a#(_b)", 80, "a // a long comment\nbb"),
    // pieces of several lines: the first counts before, the last behind
    ("(a_b)*", 5, "a bbx\n yyy"),
    ("(a_b)*", 4, "a\nbbx\n yyy"),
    ("*(a_b)", 8, "x\n yyya bb"),
    ("*(a_b)", 7, "x\n yyya\nbb"),
    ("(a_*)", 80, "a\nx\n yyy"),
    // one empty line, whatever is asked for beside it
    ("a=b", 80, "a\n\nbb"),
    ("a/=/ b", 80, "a\n\nbb"),
    // indentation: that of the first piece of a line
    ("a>/b<>>/c<</d", 80, "a\n  bb\n    ccc\ndddd"),
    ("(a>_b<_c)", 3, "a\n  bb\nccc"),
    ("(a>.(b.c)<!)", 7, "a\n  bbccc"),
    ("(a>.(b.c)<!)", 6, "a\n  bb\n  ccc"),
    ("a{/b}/c", 80, "a\n  bb\nccc"),
    // a line is indented as lines are where its beginning is asked for
    ("a/(>b.c<)", 5, "a\nbbccc"),
    ("a/(>b.c<)", 4, "a\nbb\n  ccc"),
    ("a>/<(b.c)", 80, "a\n  bbccc"),
    ("a>/</b", 80, "a\nbb"),
    ("a>#<b", 80, "a // a long comment\n  bb"),
    // a part hangs if the group of one break before it is broken
    ("a(>_<)h(b.c)H/d", 7, "a bbccc\ndddd"),
    ("a(>_<)h(b.c)H/d", 4, "a bb\nccc\ndddd"),
    ("a(>_<)h(b.c)H/d", 3, "a\n  bb\n  ccc\ndddd"),
    ("(a(>_<)hb/cH)/d", 4, "a bb\nccc\ndddd"),
    ("(a(>_<)hb/cH)/d", 3, "a\n  bb\n  ccc\ndddd"),
    ("a(_)h(>_<)hb/cHH/d", 1, "a\n    bb\n    ccc\ndddd"),
    // a wide group is flat, and no line may end in it, unless one must
    ("[a_b)", 2, "a bb"),
    ("[a_b!)", 80, "a\nbb"),
    ("([a.b)_c)", 6, "abb\nccc"),
    ("(c_a)[.b)c_d", 10, "ccc abbccc\ndddd"),
    ("(c_a)[.b)c_d", 9, "ccc\nabbccc\ndddd"),
    // a choice without a part to be joined by: flat, or cut
    ("xai'b-c;I'dX", 11, "abb cccdddd"),
    ("xai'b-c;I'dX", 10, "a\n  bb\n  ccc,\ndddd"),
    ("(_xai'b-cI'dX)", 11, "abb cccdddd"),
    ("(a_b)xci'dI'aX", 7, "a bbccc\n  dddd\na"),
    ("(a_b)xci'dI'aX", 6, "a\nbbccc\n  dddd\na"),
    // a choice with one: flat, joined, or cut
    ("xai'b-jc>.a<.b);I'dX", 14, "abb cccabbdddd"),
    ("xai'b-jc>.a<.b);I'dX", 13, "abb ccc\n  a\nbbdddd"),
    ("xai'b-jc>.a<.b);I'dX", 7, "abb ccc\n  a\nbbdddd"),
    (
        "xai'b-jc>.a<.b);I'dX",
        6,
        "a\n  bb\n  ccc\n    a\n  bb,\ndddd",
    ),
    ("xai'b-cj>_b<:^)I'dX", 14, "abb ccc bbdddd"),
    ("xai'b-cj>_b<:^)I'dX", 13, "abb ccc\n  bb:\ndddd"),
    ("xai'b-cj>_b<:^)I'dX", 6, "a\n  bb\n  ccc\n    bb\ndddd"),
    // a line must end in the part; beside it
    ("xai'b-jc>.a!<.b)I'dX", 80, "abb ccc\n  a\nbbdddd"),
    ("xai'b!-jc>.a<.b)I'dX", 80, "a\n  bb\n  cccabb\ndddd"),
    ("xai'jc>.a<.b)-b!I'dX", 80, "a\n  cccabb\n  bb\ndddd"),
    // a chain: a line must end behind the last cut; before it; where one was kept
    ("xa|bi'c'd(>/a<)IX", 10, "abbcccdddd\n  a"),
    ("xa|bi'c'd(>/a<)IX", 9, "abb\n  ccc\n  dddd\n    a"),
    ("xa|bi'c!'dIX", 80, "abb\n  ccc\n  dddd"),
    ("xa|bi'(c?_a)'dIX", 12, "abbccc\nadddd"),
    ("xa|bi'(c?_a)'dIX", 11, "abb\n  ccc\n  a\n  dddd"),
    ("xa!|bi'c'dIX", 10, "abbcccdddd"),
    // columns are those of the items
    ("(w_w)", 5, "中 中"),
];

#[test]
fn rows(rt: HostRuntime) {
    for (row, width, want) in &ROWS {
        let style = Style {
            width: *width,
            indent: 2,
            tabs: false,
        };
        let text = laid(row, style, 1000, rt.alloc());
        assert!(rt; is_text(&text, want), "{row} at {width}");
    }
}

#[test]
fn styles(rt: HostRuntime) {
    let tabs = Style {
        width: 9,
        indent: 4,
        tabs: true,
    };
    let text = laid("(a>.(b.c)<!)", tabs, 1000, rt.alloc());
    assert!(rt; is_text(&text, "a\n\tbbccc"));
    let text = laid("a>{/b}/c<", tabs, 1000, rt.alloc());
    assert!(rt; is_text(&text, "a\n\t\tbb\n\tccc"));
    let text = laid("(a>.(b.c)<!)", Style { width: 8, ..tabs }, 1000, rt.alloc());
    assert!(rt; is_text(&text, "a\n\tbb\n\tccc"));
    let wide = Style {
        width: 80,
        indent: 3,
        tabs: false,
    };
    let text = laid("a>{/b}/c<", wide, 1000, rt.alloc());
    assert!(rt; is_text(&text, "a\n     bb\n   ccc"));
}

#[test]
fn limits(rt: HostRuntime) {
    let style = Style {
        width: 80,
        indent: 2,
        tabs: false,
    };
    let text = laid("a>/b", style, 6, rt.alloc());
    assert!(rt; is_text(&text, "a\n  bb"));
    let text = laid("a>/b", style, 5, rt.alloc());
    assert!(rt; matches!(text, Err(LayoutError::TooLong)));
    let mut items = ItemList::new(rt.alloc());
    for _ in 0..100_000 {
        items.push(Item::GroupStart);
        items.push(Item::IndentStart);
        items.push(Item::Piece {
            text: "(",
            columns: 1,
        });
    }
    let text = lay_out(&items, style, 200_000, rt.alloc());
    assert!(rt; matches!(text, Ok(_)));
}

#[test]
fn groups_wider_than_any_line(rt: HostRuntime) {
    let style = Style {
        width: 80,
        indent: 2,
        tabs: false,
    };
    let long = Item::Piece {
        text: "a",
        columns: 70_000,
    };
    let mut items = ItemList::new(rt.alloc());
    for item in [
        item_of('a'),
        Item::WideStart,
        long,
        Item::Line,
        item_of('b'),
        Item::GroupEnd,
    ] {
        items.push(item);
    }
    let text = lay_out(&items, style, 1000, rt.alloc());
    assert!(rt; is_text(&text, "aa bb"));
    let mut items = ItemList::new(rt.alloc());
    for item in [
        Item::ChoiceStart,
        Item::GroupStart,
        Item::SoftLine,
        long,
        Item::GroupEnd,
        Item::CutSoftLine,
        item_of('b'),
        Item::ChoiceEnd,
    ] {
        items.push(item);
    }
    let text = lay_out(&items, style, 1000, rt.alloc());
    assert!(rt; is_text(&text, "a\nbb"));
}
