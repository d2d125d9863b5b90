//! What the comments of a script ask for.

ghost use Rattle.std.specs.Prelude.{◌≡◌, ◌++◌, IfOk, OnOk};
ghost use Rattle.source_text.specs.Located.{IsLocated};
ghost use Rattle.suppressions.specs.Suppressions.{from_of, of_comment, of_comments, of_directive, of_words, suppressions_of};

use crate::comments::comments_of;
use crate::directive::{Directive, Reach, directive_of, reaches, turns_off};
use crate::lines::moved_to;
use crate::suppression::{Origin, Suppression, push_for_rules};
use crate::words::{Word, body, is_block, push_words};
use source_text::{LineWalker, Source};
use std::alloc::{AllocError, Global};
use text_rules::piece;
use tree::{Program, Span};

/// From where on a comment's directive counts, and a place from which lines are counted on.
fn from_of(reach: Reach, source: &Source<'_>, here: &mut LineWalker, comment: Span) -> usize
    requires here { IsLocated source.now here.old }
    ensures there { IsLocated source.now here.new }
    ensures value { result ≡ from_of reach source.now comment }
{
    match reach {
        Reach::Region => comment.start,
        Reach::Line => {
            *here = moved_to(source, *here, comment.start);
            here.line as usize
        }
        Reach::NextLine => {
            *here = moved_to(source, *here, comment.end);
            here.line as usize + 1
        }
    }
}

/// What is asked for in the comments of one reach.
#[derive(Clone, Copy)]
struct Asked<'o, 's> {
    reach: Reach,
    takes_eslint: bool,
    source: &'o Source<'s>,
}

/// Appends what a directive asks for of the rules that are named.
fn push_of_directive<'s>(
    asked: Asked<'_, 's>,
    here: &mut LineWalker,
    comment: Span,
    is_block: bool,
    directive: Option<Directive>,
    names: &[Word<'s>],
    out: &mut Vec<Suppression<'s>>,
) -> Result<(), AllocError>
    requires here { IsLocated asked.source.now here.old }
    ensures there { IsLocated asked.entry.source.now here.new }
    ensures found { OnOk result (out.new.items ≡ out.old.items ++ of_directive asked.entry.reach asked.entry.source.now comment is_block directive names.now) }
{
    let Some(directive) = directive else {
        return Ok(());
    };
    if !reaches(asked.reach, is_block, directive) {
        return Ok(());
    }
    let of = Origin {
        comment,
        from: from_of(asked.reach, asked.source, here, comment),
        turns_off: turns_off(directive),
    };
    push_for_rules(of, names, out)
}

/// Appends what a comment asks for. Its words are put into `words`, in place of those of another.
fn push_of_comment<'s>(
    asked: Asked<'_, 's>,
    here: &mut LineWalker,
    comment: Span,
    words: &mut Vec<Word<'s>>,
    out: &mut Vec<Suppression<'s>>,
) -> Result<(), AllocError>
    requires here { IsLocated asked.source.now here.old }
    ensures there { IsLocated asked.entry.source.now here.new }
    ensures found { OnOk result (out.new.items ≡ out.old.items ++ of_comment asked.entry.reach asked.entry.takes_eslint asked.entry.source.now comment) }
{
    let text = piece(asked.source.text(), comment.start, comment.end);
    words.clear();
    push_words(body(text), words)?;
    let words = words.as_slice();
    let Some(first) = words.first() else {
        return Ok(());
    };
    let directive = directive_of(asked.takes_eslint, first.text());
    push_of_directive(
        asked,
        here,
        comment,
        is_block(text),
        directive,
        &words[1..],
        out,
    )
}

/// What the comments of a script ask for, of one reach.
pub(crate) fn suppressions_of<'s>(
    alloc: Global,
    reach: Reach,
    takes_eslint: bool,
    source: &Source<'s>,
    program: &Program,
) -> Result<Vec<Suppression<'s>>, AllocError>
    ensures { IfOk result (λ ss. ss.items ≡ suppressions_of reach takes_eslint source.now program.now) }
{
    let asked = Asked {
        reach,
        takes_eslint,
        source,
    };
    let comments = comments_of(alloc, source.text(), program)?;
    let mut here = LineWalker::first();
    let mut words = Vec::new(alloc);
    let mut out = Vec::new(alloc);
    for comment in &comments {
        push_of_comment(asked, &mut here, *comment, &mut words, &mut out)?;
    }
    Ok(out)
}
