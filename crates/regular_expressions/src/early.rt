//! References and names of groups that are wrong (22.2.1.1).

ghost use Rattle.std.specs.Prelude.{◌≡◌, ◌≤◌, ◌||◌, ℕ, List, [], ◌∷◌, false, length, Some, IfOk, IfSome, OnOk};
ghost use Rattle.std.specs.Str.{chars};
ghost use Rattle.name_tables.specs.Sets.{contains};
ghost use Rattle.regular_expressions.specs.Patterns.{early_fault, first_wrong, group_count, group_names, has, is_wrong, name_of, pieces_of};
ghost use Rattle.regular_expressions.specs.Scanned.{piece_as};

use crate::count::exceeds;
use crate::name::spelled;
use crate::piece::Piece;
use crate::term::piece_at;
use name_tables::{KeyBuilder, NameSet};
use std::alloc::{AllocError, Global};
use tokens::char_at;
use tree::TextArena;

/// How many groups a piece is; its name comes among these.
fn add_group<'t>(
    alloc: Global,
    texts: &'t TextArena,
    piece: Piece<'t>,
    names: &mut NameSet<'t>,
) -> Result<usize, AllocError>
    ensures count { IfOk result (λ n. n ≡ group_count ((0, Some (piece_as piece.entry)) ∷ [])) }
    ensures names { OnOk result ((w : List ℕ) → contains names.new w ≡ (has (name_of (Some (piece_as piece.entry))) w || contains names.old w)) }
{
    match piece {
        Piece::Capturing => Ok(1),
        Piece::Naming(word) => {
            names.insert(spelled(alloc, texts, word)?)?;
            Ok(1)
        }
        _ => Ok(0),
    }
}

/// The number of groups of a pattern that is derived; their names come among these.
fn group_count<'t>(
    alloc: Global,
    texts: &'t TextArena,
    text: &'t str,
    is_unicode: bool,
    names: &mut NameSet<'t>,
) -> Result<usize, AllocError>
    ensures count { IfOk result (λ n. n ≡ group_count (pieces_of is_unicode (chars text.now))) }
    ensures names { OnOk result ((w : List ℕ) → contains names.new w ≡ (contains names.old w || has (group_names (pieces_of is_unicode (chars text.now))) w)) }
{
    let mut at = 0;
    let mut count = 0;
    while let Some(first) = char_at(text, at) {
        let Some(read) = piece_at(text, is_unicode, first) else {
            return Ok(count);
        };
        count += add_group(alloc, texts, read.piece, names)?;
        at = read.end;
    }
    Ok(count)
}

/// Whether a piece is an early error, by the number of all groups, their names and those before it, among which its own comes.
fn is_wrong<'t>(
    alloc: Global,
    texts: &'t TextArena,
    piece: Piece<'t>,
    groups: usize,
    names: &NameSet<'t>,
    before: &mut NameSet<'t>,
) -> Result<bool, AllocError>
    ensures wrong { IfOk result (λ b. (all earlier : List (List ℕ)) → ((w : List ℕ) → contains names.now w ≡ has all w) → ((w : List ℕ) → contains before.old w ≡ has earlier w) → b ≡ is_wrong groups all earlier (Some (piece_as piece.entry))) }
    ensures after { OnOk result ((w : List ℕ) → contains before.new w ≡ (has (name_of (Some (piece_as piece.entry))) w || contains before.old w)) }
{
    match piece {
        Piece::Reference(digits) => Ok(exceeds(digits, groups)),
        Piece::NameReference(word) => {
            let name = spelled(alloc, texts, word)?;
            Ok(!names.contains(name))
        }
        Piece::Naming(word) => {
            let is_new = before.insert(spelled(alloc, texts, word)?)?;
            Ok(!is_new)
        }
        _ => Ok(false),
    }
}

/// The first early error of a pattern that is derived.
fn first_wrong<'t>(
    alloc: Global,
    texts: &'t TextArena,
    text: &'t str,
    is_unicode: bool,
    groups: usize,
    names: &NameSet<'t>,
    before: &mut NameSet<'t>,
) -> Result<Option<usize>, AllocError>
    requires { (w : List ℕ) → contains before.old w ≡ false }
    ensures wrong { IfOk result (λ f. (all : List (List ℕ)) → ((w : List ℕ) → contains names.now w ≡ has all w) → f ≡ first_wrong groups all [] (pieces_of is_unicode (chars text.now))) }
    ensures within { IfOk result (λ f. IfSome f (λ place. place ≤ length text.now)) }
{
    let mut at = 0;
    while let Some(first) = char_at(text, at) {
        let Some(read) = piece_at(text, is_unicode, first) else {
            return Ok(None);
        };
        if is_wrong(alloc, texts, read.piece, groups, names, before)? {
            return Ok(Some(at));
        }
        at = read.end;
    }
    Ok(None)
}

/// The first early error of a pattern that has references or names.
pub(crate) fn early_fault(
    alloc: Global,
    text: &str,
    is_unicode: bool,
) -> Result<Option<usize>, AllocError>
    ensures fault { IfOk result (λ f. f ≡ early_fault (pieces_of is_unicode (chars text.now))) }
    ensures within { IfOk result (λ f. IfSome f (λ place. place ≤ length text.now)) }
{
    let mut builder = KeyBuilder::new();
    builder.add(text);
    let key = builder.build();
    let texts = TextArena::new(alloc);
    let mut names = NameSet::new(alloc, key);
    let groups = group_count(alloc, &texts, text, is_unicode, &mut names)?;
    let mut before = NameSet::new(alloc, key);
    first_wrong(alloc, &texts, text, is_unicode, groups, &names, &mut before)
}
