//! Statements.

use crate::assignments::assign;
use crate::classes::class;
use crate::expressions::{expression, expression_in, pattern, pattern_in};
use crate::functions::function;
use crate::modules::module_item;
use item_builder::{Around, Builder, Hug, empty_braces};
use layout_choices::{
    Assigned, has_initialiser, is_complex, is_empty_statement, jump, word_behind,
};
use layout_items::Item;
use node_parts::{case_of, catch_of, declarator_of, get, statement_of};
use tree::{Kind, Node, NodeList};
use typed_nodes::Statement;

/// Statements on lines of their own, with empty lines kept.
#[cycle(items)]
pub(crate) fn statements<'t>(b: &mut Builder<'t>, list: NodeList<'_, '_>) {
    for index in 0..list.len() {
        if index > 0 {
            b.item_line(Item::HardLine);
        }
        if let Some(node) = get(list, index) {
            statement(b, node);
        }
    }
}

/// A statement, with the comments before it.
#[cycle(items)]
pub(crate) fn statement<'t>(b: &mut Builder<'t>, node: Node<'_, '_>) {
    b.lead();
    if b.is_ignored(node) {
        return;
    }
    if let Some(found) = statement_of(node) {
        any_statement(b, found);
        return;
    }
    module_item(b, node);
}

#[cycle(items)]
fn any_statement<'t>(b: &mut Builder<'t>, found: Statement<'_, '_>) {
    match found {
        Statement::Expression { expression: e, .. } => expression_statement(b, e),
        Statement::Block { body } => block(b, body),
        Statement::Empty => b.token(";"),
        Statement::Debugger => {
            b.token("debugger");
            b.semicolon();
        }
        Statement::VariableDeclaration { declarations, .. } => {
            declaration(b, declarations, false);
            b.semicolon();
        }
        Statement::FunctionDeclaration(f) => function(b, f, Hug::No),
        Statement::ClassDeclaration(c) => class(b, c),
        Statement::Return { argument } => {
            b.token("return");
            argument_of_jump(b, argument);
        }
        Statement::Throw { argument } => {
            b.token("throw");
            argument_of_jump(b, Some(argument));
        }
        Statement::Break { label } | Statement::Continue { label } => jump(b, label.is_some()),
        Statement::Labeled { body, .. } => labeled(b, body),
        Statement::If {
            test,
            consequent,
            alternate,
        } => branches(b, test, consequent, alternate),
        _ => loop_or_switch(b, found),
    }
}

#[cycle(items)]
fn expression_statement<'t>(b: &mut Builder<'t>, node: Node<'_, '_>) {
    b.push(Item::GroupStart);
    expression_in(b, node, Around::STATEMENT);
    b.push(Item::GroupEnd);
    b.semicolon();
}

#[cycle(items)]
fn labeled<'t>(b: &mut Builder<'t>, body: Node<'_, '_>) {
    b.any_token();
    b.token(":");
    if !is_empty_statement(body) {
        b.space();
    }
    statement(b, body);
}

#[cycle(items)]
fn argument_of_jump<'t>(b: &mut Builder<'t>, argument: Option<Node<'_, '_>>) {
    if let Some(node) = argument {
        b.space();
        b.lead();
        b.push(Item::GroupStart);
        expression_in(b, node, Around::SOFT);
        b.push(Item::GroupEnd);
    }
    b.semicolon();
}

#[cycle(items)]
fn loop_or_switch<'t>(b: &mut Builder<'t>, found: Statement<'_, '_>) {
    match found {
        Statement::While { test, body } => {
            b.token("while");
            b.space();
            test_of(b, test);
            loop_body(b, body);
        }
        Statement::DoWhile { body, test } => {
            b.token("do");
            loop_body(b, body);
            word_behind(b, body);
            b.token("while");
            b.space();
            test_of(b, test);
            b.semicolon();
        }
        Statement::For {
            init,
            test,
            update,
            body,
        } => for_statement(b, init, test, update, body),
        Statement::ForIn { left, right, body } => for_each(b, left, "in", right, body),
        Statement::ForOf {
            left,
            right,
            body,
            ..
        } => for_each(b, left, "of", right, body),
        Statement::Switch {
            discriminant,
            cases,
        } => switch(b, discriminant, cases),
        Statement::Try {
            block,
            handler,
            finalizer,
        } => try_statement(b, block, handler, finalizer),
        _ => b.lose(),
    }
}

/// A block with its braces.
#[cycle(items)]
pub(crate) fn block<'t>(b: &mut Builder<'t>, list: NodeList<'_, '_>) {
    b.token("{");
    if list.len() == 0 {
        empty_braces(b);
        return;
    }
    b.push(Item::IndentStart);
    b.line(Item::HardLine);
    statements(b, list);
    b.push_closing(true);
    b.push(Item::IndentEnd);
    b.push(Item::HardLine);
    b.token("}");
}

/// What stands behind the head of a statement: a block on its line, another statement if it fits there.
#[cycle(items)]
fn clause<'t>(b: &mut Builder<'t>, node: Node<'_, '_>) {
    match node.kind() {
        Kind::BlockStatement => {
            b.space();
            statement(b, node);
        }
        Kind::EmptyStatement => statement(b, node),
        _ => {
            let is_open = b.has_ended_comment();
            b.push(Item::IndentStart);
            b.line(if is_open { Item::HardLine } else { Item::Line });
            statement(b, node);
            b.push(Item::IndentEnd);
        }
    }
}

/// The body of a loop, which is a group of its own if it is no block.
#[cycle(items)]
fn loop_body<'t>(b: &mut Builder<'t>, node: Node<'_, '_>) {
    match node.kind() {
        Kind::BlockStatement | Kind::EmptyStatement => clause(b, node),
        _ => {
            b.push(Item::GroupStart);
            clause(b, node);
            b.push(Item::GroupEnd);
        }
    }
}

/// A test in its parentheses.
#[cycle(items)]
fn test_of<'t>(b: &mut Builder<'t>, node: Node<'_, '_>) {
    b.lead();
    b.push(Item::GroupStart);
    b.token("(");
    b.push(Item::IndentStart);
    b.line(Item::SoftLine);
    expression_in(b, node, Around::TEST);
    b.push_closing(true);
    b.push(Item::IndentEnd);
    b.push(Item::SoftLine);
    b.token(")");
    b.push(Item::GroupEnd);
}

#[cycle(items)]
fn branches<'t>(
    b: &mut Builder<'t>,
    test: Node<'_, '_>,
    consequent: Node<'_, '_>,
    alternate: Option<Node<'_, '_>>,
) {
    b.push(Item::GroupStart);
    b.token("if");
    b.space();
    test_of(b, test);
    clause(b, consequent);
    b.push(Item::GroupEnd);
    let Some(other) = alternate else {
        return;
    };
    word_behind(b, consequent);
    if matches!(other.kind(), Kind::IfStatement) {
        b.token("else");
        b.space();
        statement(b, other);
        return;
    }
    b.lead();
    b.push(Item::GroupStart);
    b.token("else");
    clause(b, other);
    b.push(Item::GroupEnd);
}

#[cycle(items)]
fn for_statement<'t>(
    b: &mut Builder<'t>,
    init: Option<Node<'_, '_>>,
    test: Option<Node<'_, '_>>,
    update: Option<Node<'_, '_>>,
    body: Node<'_, '_>,
) {
    b.token("for");
    b.space();
    b.lead();
    b.push(Item::GroupStart);
    b.token("(");
    b.push(Item::IndentStart);
    let is_empty = init.is_none()
        && test.is_none()
        && update.is_none()
        && !b.has_comments_between(b.end(), body.span().start);
    if !is_empty {
        b.line(Item::SoftLine);
    }
    if let Some(node) = init {
        for_init(b, node);
    }
    b.token(";");
    for_part(b, test);
    b.token(";");
    for_part(b, update);
    b.push_closing(true);
    b.push(Item::IndentEnd);
    if !is_empty {
        b.push(Item::SoftLine);
    }
    b.token(")");
    b.push(Item::GroupEnd);
    loop_body(b, body);
}

#[cycle(items)]
fn for_init<'t>(b: &mut Builder<'t>, node: Node<'_, '_>) {
    match statement_of(node) {
        Some(Statement::VariableDeclaration { declarations, .. }) => {
            declaration(b, declarations, true)
        }
        _ => expression(b, node),
    }
}

#[cycle(items)]
fn for_part<'t>(b: &mut Builder<'t>, part: Option<Node<'_, '_>>) {
    if let Some(node) = part {
        b.line(Item::Line);
        expression(b, node);
    }
}

#[cycle(items)]
fn for_each<'t>(
    b: &mut Builder<'t>,
    left: Node<'_, '_>,
    word: &str,
    right: Node<'_, '_>,
    body: Node<'_, '_>,
) {
    b.token("for");
    if b.is("await") {
        b.space();
        b.any_token();
    }
    b.space();
    b.token("(");
    match statement_of(left) {
        Some(Statement::VariableDeclaration { declarations, .. }) => {
            declaration(b, declarations, true)
        }
        _ => pattern(b, left),
    }
    b.space();
    b.token(word);
    b.space();
    expression(b, right);
    b.push_closing(true);
    b.token(")");
    loop_body(b, body);
}

/// `var`, `let` or `const`, and what is declared.
#[cycle(items)]
pub(crate) fn declaration<'t>(b: &mut Builder<'t>, list: NodeList<'_, '_>, is_for: bool) {
    let count = list.len();
    let is_broken = count > 1 && !is_for && has_initialiser(list);
    b.push(Item::GroupStart);
    b.any_token();
    b.space();
    b.push(Item::IndentStart);
    for index in 0..count {
        if index > 0 {
            b.token_before_comments(",");
            b.line(if is_broken {
                Item::HardLine
            } else {
                Item::Line
            });
        }
        if count == 1 {
            b.push(Item::IndentEnd);
        }
        if let Some(node) = get(list, index) {
            declarator(b, node);
        }
    }
    if count > 1 {
        b.push(Item::IndentEnd);
    }
    b.push(Item::GroupEnd);
}

#[cycle(items)]
fn declarator<'t>(b: &mut Builder<'t>, node: Node<'_, '_>) {
    let Some(one) = declarator_of(node) else {
        return;
    };
    b.lead();
    pattern_in(b, one.id, true);
    if let Some(value) = one.init {
        assign(b, "=", value, Assigned::declarator(is_complex(one.id)));
    }
}

#[cycle(items)]
fn switch<'t>(b: &mut Builder<'t>, discriminant: Node<'_, '_>, cases: NodeList<'_, '_>) {
    b.token("switch");
    b.space();
    test_of(b, discriminant);
    b.space();
    b.token("{");
    if cases.len() == 0 {
        empty_braces(b);
        return;
    }
    b.push(Item::IndentStart);
    b.line(Item::HardLine);
    let mut is_deep = false;
    for index in 0..cases.len() {
        if index > 0 {
            b.item_line(Item::HardLine);
        }
        if let Some(node) = get(cases, index) {
            is_deep = node.part_count() > 1;
            switch_case(b, node);
        }
    }
    if is_deep {
        b.push(Item::IndentStart);
    }
    b.push_closing(true);
    if is_deep {
        b.push(Item::IndentEnd);
    }
    b.push(Item::IndentEnd);
    b.push(Item::HardLine);
    b.token("}");
}

#[cycle(items)]
fn switch_case<'t>(b: &mut Builder<'t>, node: Node<'_, '_>) {
    b.lead();
    if b.is_ignored(node) {
        return;
    }
    let Some(case) = case_of(node) else {
        b.lose();
        return;
    };
    match case.test {
        Some(test) => {
            b.token("case");
            b.space();
            expression(b, test);
        }
        None => b.token("default"),
    }
    b.token(":");
    let body = case.consequent;
    if body.len() == 0 {
        return;
    }
    if let (1, Some(only)) = (body.len(), get(body, 0)) {
        if matches!(only.kind(), Kind::BlockStatement) && !b.has_ended_comment() {
            b.space();
            statement(b, only);
            return;
        }
    }
    b.push(Item::IndentStart);
    b.line(Item::HardLine);
    statements(b, body);
    b.push(Item::IndentEnd);
}

#[cycle(items)]
fn try_statement<'t>(
    b: &mut Builder<'t>,
    block: Node<'_, '_>,
    handler: Option<Node<'_, '_>>,
    finalizer: Option<Node<'_, '_>>,
) {
    b.token("try");
    b.space();
    statement(b, block);
    if let Some(node) = handler {
        word_behind(b, block);
        catch(b, node);
    }
    if let Some(last) = finalizer {
        word_behind(b, last);
        b.token("finally");
        b.space();
        statement(b, last);
    }
}

#[cycle(items)]
fn catch<'t>(b: &mut Builder<'t>, node: Node<'_, '_>) {
    let Some(found) = catch_of(node) else {
        b.lose();
        return;
    };
    b.token("catch");
    if let Some(param) = found.param {
        b.space();
        b.token("(");
        pattern(b, param);
        b.push_closing(true);
        b.token(")");
    }
    b.space();
    statement(b, found.body);
}
