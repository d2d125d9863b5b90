//! What is left of the rows, and what is written by them.

ghost use Rattle.std.specs.Prelude.{codes, cond, ◌≡◌, ◌<◌, ◌∷◌, ◌++◌, ℕ, List, [], None, Some};
ghost use Rattle.tree.specs.Node.{node_tree};
ghost use Rattle.tree.specs.Tree.{text_of};
ghost use Rattle.language.specs.Layout.{indent};
ghost use Rattle.printer.specs.Standings.{Puts};
ghost use Rattle.printer.specs.Sheets.{Writes, seen, held, sign_code, flag_at, other_flags, chunk_text, piece_text, pieces_text};

use crate::fragments::{Fragment, FramedNode, SignOperator};
use crate::output_buffer::TextSink;
use source_text::OutputBuffer;
use wrap_flags::{WrapCursor, Wraps};

/// The levels of depth that one text has.
const LEVELS: usize = 8;

/// What waits to be written, and what is left of the flags.
#[derive(Drop)]
pub struct Emitter<'w> {
    room: OutputBuffer,
    /// A space comes first where what follows begins with this sign.
    apart: Option<SignOperator>,
    /// Which nodes are wrapped, from the next row on.
    wraps: WrapCursor<'w>,
}

impl<'w> Emitter<'w> {
    /// Before anything is written.
    pub(crate) fn new(wraps: &'w Wraps) -> Emitter<'w>
        ensures room { result.room ≡ [] }
        ensures apart { result.apart ≡ None }
        ensures wraps { result.wraps.flags.now ≡ wraps.now.flags.items }
    {
        Emitter {
            room: OutputBuffer::new(),
            apart: None,
            wraps: wraps.rows(),
        }
    }

    /// Writes all that waits.
    pub(crate) fn finish<O: TextSink>(&mut self, out: &mut O)
        ensures done { Puts (O.stands out.old self.old.room) (O.stands out.new []) [] }
    {
        out.finish(&mut self.room);
    }

    /// Writes some characters.
    #[inline(always)]
    pub(crate) fn push<O: TextSink>(&mut self, text: &str, out: &mut O)
        ensures written { Writes (seen (O.stands out.old self.old.room) self.old) (seen (O.stands out.new self.new.room) self.new) text.now }
        ensures parted { ¬ (text.now ≡ []) → self.new.apart ≡ None }
    {
        if self.apart.is_some() {
            self.push_apart(text, out);
            return;
        }
        out.put(&mut self.room, text);
    }

    /// Writes some characters where a sign may come first.
    #[inline(never)]
    fn push_apart<O: TextSink>(&mut self, text: &str, out: &mut O)
        ensures written { Writes (seen (O.stands out.old self.old.room) self.old) (seen (O.stands out.new self.new.room) self.new) text.now }
        ensures parted { ¬ (text.now ≡ []) → self.new.apart ≡ None }
    {
        let Some(sign) = self.apart else {
            out.put(&mut self.room, text);
            return;
        };
        let Some(first) = text.as_bytes().first() else {
            return;
        };
        self.apart = None;
        if *first == code_of(sign) {
            out.put(&mut self.room, " ");
            out.put(&mut self.room, text);
            return;
        }
        out.put(&mut self.room, text);
    }

    /// Begins a line at a depth of so many levels, by one text for fewer than `LEVELS` of them, and one more for each `LEVELS`.
    fn push_line<O: TextSink>(&mut self, depth: usize, out: &mut O)
        ensures { Writes (seen (O.stands out.old self.old.room) self.old) (seen (O.stands out.new self.new.room) self.new) (10 ∷ indent depth) }
    {
        if depth < LEVELS {
            self.push(line_start(depth), out);
            return;
        }
        self.push_line(depth - LEVELS, out);
        self.push("                ", out);
    }

    /// Parts what follows from this sign.
    pub(crate) fn keep_apart(&mut self, sign: SignOperator)
        ensures room { self.new.room ≡ self.old.room }
        ensures apart { self.new.apart ≡ Some sign }
        ensures wraps { self.new.wraps.flags.now ≡ self.old.wraps.flags.now }
    {
        self.apart = Some(sign);
    }

    /// Parts nothing.
    pub(crate) fn join(&mut self)
        ensures room { self.new.room ≡ self.old.room }
        ensures apart { self.new.apart ≡ None }
        ensures wraps { self.new.wraps.flags.now ≡ self.old.wraps.flags.now }
    {
        self.apart = None;
    }

    /// Whether the node of the next row is wrapped.
    pub(crate) fn is_wrapped(&self) -> bool
        ensures { result ≡ flag_at self.now.wraps.flags.now 0 }
    {
        self.wraps.is_wrapped()
    }

    /// Whether the next row is wrapped; goes on to the row behind it.
    pub(crate) fn next_row(&mut self) -> bool
        ensures flag { result ≡ flag_at self.old.wraps.flags.now 0 }
        ensures others { self.new.wraps.flags.now ≡ other_flags self.old.wraps.flags.now }
        ensures room { self.new.room ≡ self.old.room }
        ensures apart { self.new.apart ≡ self.old.apart }
    {
        self.wraps.take()
    }

    /// Writes pieces of a node's frame; `previous_is_bare` says that the part before them isn't wrapped.
    #[inline(always)]
    pub(crate) fn push_all<O: TextSink>(
        &mut self,
        pieces: &[Fragment],
        framed: FramedNode,
        previous_is_bare: bool,
        out: &mut O,
    )
        ensures { Writes (seen (O.stands out.old self.old.room) self.old) (seen (O.stands out.new self.new.room) self.new) (pieces_text (text_of (node_tree framed.entry.node)) framed.entry.depth previous_is_bare pieces.now) }
    {
        match pieces {
            [] => {}
            [piece] => match *piece {
                Fragment::Token(token) => self.push(token, out),
                Fragment::Line => self.push_line(framed.depth, out),
                _ => self.push_each(pieces, framed, previous_is_bare, out),
            },
            _ => self.push_each(pieces, framed, previous_is_bare, out),
        }
    }

    /// Writes pieces one by one.
    #[inline(never)]
    fn push_each<O: TextSink>(
        &mut self,
        pieces: &[Fragment],
        framed: FramedNode,
        previous_is_bare: bool,
        out: &mut O,
    )
        ensures { Writes (seen (O.stands out.old self.old.room) self.old) (seen (O.stands out.new self.new.room) self.new) (pieces_text (text_of (node_tree framed.entry.node)) framed.entry.depth previous_is_bare pieces.now) }
    {
        for piece in pieces {
            self.push_piece(*piece, framed, previous_is_bare, out);
        }
    }

    /// Writes one of them.
    fn push_piece<O: TextSink>(
        &mut self,
        piece: Fragment,
        framed: FramedNode,
        previous_is_bare: bool,
        out: &mut O,
    )
        ensures { Writes (seen (O.stands out.old self.old.room) self.old) (seen (O.stands out.new self.new.room) self.new) (piece_text (text_of (node_tree framed.entry.node)) framed.entry.depth previous_is_bare piece) }
    {
        match piece {
            Fragment::Token(token) => self.push(token, out),
            Fragment::NodeText => self.push(framed.node.text(), out),
            Fragment::TemplateElement { is_first, is_last } => self.push_template_element(
                framed.node.text(),
                is_first,
                is_last,
                out,
            ),
            Fragment::PrivateText => self.push_private_text(framed.node.text(), out),
            Fragment::Space => self.push(" ", out),
            Fragment::Line => self.push_line(framed.depth, out),
            Fragment::LineFeed => self.push("\n", out),
            Fragment::SpaceAfterNumber if previous_is_bare => self.push(" ", out),
            Fragment::SpaceAfterNumber => {}
        }
    }

    /// Writes a name behind `#`.
    fn push_private_text<O: TextSink>(&mut self, text: &str, out: &mut O)
        ensures { Writes (seen (O.stands out.old self.old.room) self.old) (seen (O.stands out.new self.new.room) self.new) (codes "#" ++ text.now) }
    {
        self.push("#", out);
        self.push(text, out);
    }

    /// Writes a template's part between its delimiters.
    fn push_template_element<O: TextSink>(
        &mut self,
        text: &str,
        is_first: bool,
        is_last: bool,
        out: &mut O,
    )
        ensures { Writes (seen (O.stands out.old self.old.room) self.old) (seen (O.stands out.new self.new.room) self.new) (chunk_text is_first is_last text.now) }
    {
        self.push(chunk_start(is_first), out);
        self.push(text, out);
        self.push(chunk_end(is_last), out);
    }
}

/// The byte of this sign.
fn code_of(sign: SignOperator) -> u8
    ensures { result ≡ sign_code sign }
{
    match sign {
        SignOperator::Plus => b'+',
        SignOperator::Minus => b'-',
    }
}

/// A line feed, and two spaces for each of fewer than `LEVELS` levels.
fn line_start(depth: usize) -> &'static str
    requires { depth < LEVELS }
    ensures { result.now ≡ 10 ∷ indent depth }
{
    match depth {
        0 => "\n",
        1 => "\n  ",
        2 => "\n    ",
        3 => "\n      ",
        4 => "\n        ",
        5 => "\n          ",
        6 => "\n            ",
        _ => "\n              ",
    }
}

/// What a part of a template begins with.
fn chunk_start(is_first: bool) -> &'static str
    ensures { result.now ≡ codes (cond is_first "`" "}") }
{
    if is_first { "`" } else { "}" }
}

/// What it ends with.
fn chunk_end(is_last: bool) -> &'static str
    ensures { result.now ≡ codes (cond is_last "`" "${") }
{
    if is_last { "`" } else { "${" }
}
