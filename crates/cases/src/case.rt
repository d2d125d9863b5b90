//! Lines of a file of rows: a call, its texts and what it is to answer, with tabs between them. `script ` or `module ` before the call says that
//! its texts are of ECMAScript 2022, `any ` that each language is tried; without it they are of the base profile. A control character is written as its
//! picture (U+2400 to U+241F), so a line feed as `␊`, and what stands so many times as `⟦a×12⟧`. Empty lines, and those that begin with
//! `#`, are no rows.

use language::Language;
use std::alloc::{AllocError, Global};

/// What a call is to answer for texts.
#[derive(Drop)]
pub(crate) struct Case {
    /// The language of its texts.
    language: Language,
    /// Whether each language is tried.
    is_any: bool,
    /// The call, then its texts.
    texts: Vec<String>,
    want: String,
}

impl Case {
    /// The row of a line.
    pub(crate) fn of(alloc: Global, line: &str) -> Result<Case, AllocError> {
        let (is_any, behind) = any_of(line);
        let (language, behind) = language_of(behind);
        let mut row = Case {
            language,
            is_any,
            texts: Vec::new(alloc),
            want: String::new(alloc),
        };
        row.read(alloc, behind)?;
        Ok(row)
    }

    /// The language of the row's texts.
    pub(crate) fn language(&self) -> Language {
        self.language
    }

    /// Whether each language is tried for the row's texts.
    pub(crate) fn is_any(&self) -> bool {
        self.is_any
    }

    /// Takes the texts of a line, of which the last is the answer.
    fn read(&mut self, alloc: Global, line: &str) -> Result<(), AllocError> {
        for text in line.split('\t') {
            self.texts.push(meant(alloc, text)?)?;
        }
        if let Some(want) = self.texts.pop() {
            self.want = want;
        }
        Ok(())
    }

    /// What the call is to answer.
    pub(crate) fn want(&self) -> &str {
        self.want.as_str()
    }

    /// The text at a place, from 1, the call at 0; else an empty one.
    pub(crate) fn text(&self, index: usize) -> &str {
        match self.texts.get(index) {
            Some(text) => text.as_str(),
            None => "",
        }
    }

    /// The number that a text is; else 0.
    pub(crate) fn number(&self, index: usize) -> usize {
        self.text(index).parse::<usize>().unwrap_or(0)
    }
}

/// Whether a line says that each language is tried, and what stands behind that.
fn any_of(line: &str) -> (bool, &str) {
    match line.strip_prefix("any ") {
        Some(behind) => (true, behind),
        None => (false, line),
    }
}

/// The language that a line says, and what stands behind it.
fn language_of(line: &str) -> (Language, &str) {
    if let Some(behind) = line.strip_prefix("script ") {
        return (Language::Script, behind);
    }
    match line.strip_prefix("module ") {
        Some(behind) => (Language::Module, behind),
        None => (Language::Base, line),
    }
}

/// Whether a line is a row.
pub(crate) fn is_case(line: &str) -> bool {
    !line.is_empty() && !line.starts_with('#')
}

/// The character that is meant: a picture of a control character is that character.
fn control(picture: char) -> char {
    match picture {
        '\u{2400}'..='\u{241F}' => char::from_u32(u32::from(picture) & 0x1F).unwrap_or(picture),
        _ => picture,
    }
}

/// The text that is meant.
fn meant(alloc: Global, written: &str) -> Result<String, AllocError> {
    let mut text = String::new(alloc);
    push_meant(&mut text, written)?;
    Ok(text)
}

/// Adds the text that a row writes, with the pieces in `⟦…×n⟧` repeated.
fn push_meant(text: &mut String, written: &str) -> Result<(), AllocError> {
    for piece in written.split('⟦') {
        push_piece(text, piece)?;
    }
    Ok(())
}

/// What stands before a `⟧` so many times, and what stands behind it.
fn push_piece(text: &mut String, piece: &str) -> Result<(), AllocError> {
    let Some((inside, behind)) = piece.split_once('⟧') else {
        return push_plain(text, piece);
    };
    push_repeated(text, inside)?;
    push_plain(text, behind)
}

/// Adds a piece as often as the number after `×` says; once without it.
fn push_repeated(text: &mut String, inside: &str) -> Result<(), AllocError> {
    let (piece, count) = inside.split_once('×').unwrap_or((inside, "1"));
    for _ in 0..count.parse::<u32>().unwrap_or(0) {
        push_plain(text, piece)?;
    }
    Ok(())
}

/// Adds characters, with those that picture control characters as these.
fn push_plain(text: &mut String, pictures: &str) -> Result<(), AllocError> {
    for each in pictures.chars() {
        text.push(control(each))?;
    }
    Ok(())
}
