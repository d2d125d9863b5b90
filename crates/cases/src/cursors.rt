//! A cursor before the tokens of a text, by words that say what it is asked.

use crate::case::Case;
use crate::lexemes::goal;
use language::{Edge, Language};
use source_text::{Fault, Source};
use std::alloc::AllocError;
use token_cursor::{Cursor, StatementEnd, goes_on};
use tokens::{Goal, Token};

/// The right edge that a word names.
fn edge(word: &str) -> Edge {
    match word {
        "Arrow" => Edge::Arrow,
        "Postfix" => Edge::Postfix,
        "Closed" => Edge::Closed,
        _ => Edge::Other,
    }
}

/// The end of a statement that a word names.
fn ending(word: &str) -> StatementEnd {
    match word {
        "OfDo" => StatementEnd::DoWhile,
        _ => StatementEnd::AfterExpression(edge(word)),
    }
}

/// Says why a call refuses.
fn push_done(done: Result<(), Fault>, out: &mut String) -> Result<(), AllocError> {
    match done {
        Ok(()) => Ok(()),
        Err(fault) => write!(out, "{fault:?} "),
    }
}

/// The token that a goal reads ahead.
fn push_ahead(cursor: &Cursor, goal: Goal, out: &mut String) -> Result<(), AllocError> {
    match cursor.peek(goal) {
        Some(token) => write!(out, "{} ", token.text),
        None => out.push_str("none "),
    }
}

/// Whether what ends in such an edge goes on with the token that RegExp reads ahead.
fn push_going_on(cursor: &Cursor, edge: Edge, out: &mut String) -> Result<(), AllocError> {
    match cursor.peek(Goal::RegExp) {
        Some(token) => write!(out, "{:?} ", goes_on(edge, &token)),
        None => out.push_str("none "),
    }
}

/// Takes the token that a goal reads ahead.
fn taken(cursor: &mut Cursor, goal: Goal) -> Result<(), Fault> {
    match cursor.take(goal) {
        Ok(_) => Ok(()),
        Err(fault) => Err(fault),
    }
}

/// Where a cursor stands, and where what is ahead begins.
fn push_place(cursor: &Cursor, out: &mut String) -> Result<(), AllocError> {
    write!(out, "{:?}", (cursor.last_end(), cursor.next_start()))
}

/// Whether what a word names stands ahead.
fn push_seen(cursor: &Cursor, what: &str, text: &str, out: &mut String) -> Result<(), AllocError> {
    let seen = match what {
        "punctuator" => cursor.sees_punctuator(text),
        "word" => cursor.sees_word(text),
        "identifier" => cursor.sees_identifier(),
        "arrow" => cursor.sees_arrow(),
        _ => cursor.sees_line_break(),
    };
    write!(out, "{seen:?} ")
}

/// The word that declares variables and was passed.
fn push_declaration(passed: Option<Token>, out: &mut String) -> Result<(), AllocError> {
    match passed {
        Some(token) => write!(out, "{} ", token.text),
        None => out.push_str("none "),
    }
}

/// Whether what a word names was passed, of a word that declares variables which.
fn push_accepted(
    cursor: &mut Cursor,
    what: &str,
    text: &str,
    out: &mut String,
) -> Result<(), AllocError> {
    match what {
        "punctuator" => write!(out, "{:?} ", cursor.accept_punctuator(text)),
        "word" => write!(out, "{:?} ", cursor.accept_word(text)),
        _ => push_declaration(cursor.accept_declaration_word(), out),
    }
}

/// Where the punctuator begins that was passed, or why none was.
fn push_start(passed: Result<usize, Fault>, out: &mut String) -> Result<(), AllocError> {
    match passed {
        Ok(start) => write!(out, "{start} "),
        Err(fault) => write!(out, "{fault:?} "),
    }
}

/// The name that was passed, or why none was.
fn push_name(passed: Result<Token, Fault>, out: &mut String) -> Result<(), AllocError> {
    match passed {
        Ok(token) => write!(out, "{} ", token.text),
        Err(fault) => write!(out, "{fault:?} "),
    }
}

/// What was passed, or why it was not.
fn push_expected(
    cursor: &mut Cursor,
    what: &str,
    text: &str,
    out: &mut String,
) -> Result<(), AllocError> {
    match what {
        "punctuator" => push_start(cursor.expect_punctuator(text), out),
        "word" => push_name(cursor.expect_word(text), out),
        "name" => push_name(cursor.expect_identifier_name(), out),
        _ => push_name(cursor.expect_identifier(), out),
    }
}

/// What a cursor answers to a word of a token, and to the text that stands behind a colon.
fn push_token_step(
    cursor: &mut Cursor,
    mark: &str,
    word: &str,
    out: &mut String,
) -> Result<(), AllocError> {
    let (what, text) = word.split_once(':').unwrap_or((word, ""));
    match mark {
        "?" => push_seen(cursor, what, text, out),
        "~" => push_accepted(cursor, what, text, out),
        _ => push_expected(cursor, what, text, out),
    }
}

/// What a cursor answers to a word behind its mark.
fn push_step(
    cursor: &mut Cursor,
    mark: &str,
    word: &str,
    out: &mut String,
) -> Result<(), AllocError> {
    match mark {
        "=" => push_ahead(cursor, goal(word), out),
        ">" => push_done(taken(cursor, goal(word)), out),
        "+" => push_going_on(cursor, edge(word), out),
        ";" => push_done(cursor.semicolon(ending(word)), out),
        "(" => push_done(cursor.enter(), out),
        ")" => Ok(cursor.leave()),
        "@" => push_done(Err(cursor.syntax_error()), out),
        "?" | "~" | "!" => push_token_step(cursor, mark, word, out),
        _ => push_place(cursor, out),
    }
}

/// What a cursor before a text answers to words: to `=Div` what a goal reads ahead, to `>Div` why it isn't taken, to `+Arrow` whether what
/// ends in such an edge goes on, to `;OfDo` why the `;` may not be missing, to `(` why none can be opened, to `.` where it stands, to
/// `?word:let` whether it is ahead, to `~word:let` whether it was passed, to `!word:let` what was passed or why it wasn't, to `@` the
/// refusal at what is ahead.
pub(crate) fn push_steps(source: &Source, row: &Case, out: &mut String) -> Result<(), AllocError> {
    let mut cursor = Cursor::new(source, Language::Base);
    for word in row.text(2).split(' ') {
        let (mark, rest) = word.split_at_checked(1).unwrap_or(("", ""));
        push_step(&mut cursor, mark, rest, out)?;
    }
    Ok(())
}
