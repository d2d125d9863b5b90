//! Pieces of a node's text.

ghost use Rattle.std.specs.Prelude.{◌≡◌, nat_eq};
ghost use Rattle.printer.specs.Bits.{bits_of, chain_of, before_bits, after_bits, fused};

use crate::part_sites::PartSites;
use tree::Node;

/// What stands between the parts of a node.
#[derive(Clone, Copy)]
pub enum Fragment {
    /// These characters.
    Token(&'static str),
    /// The node's own text.
    NodeText,
    /// The node's own text as a part of a template, with what opens and closes it.
    TemplateElement { is_first: bool, is_last: bool },
    /// The node's own text behind `#`.
    PrivateText,
    /// A space.
    Space,
    /// A line feed, and two spaces for each level.
    Line,
    /// A line feed.
    LineFeed,
    /// A space behind a part that isn't wrapped.
    SpaceAfterNumber,
}

/// How the parts behind a node's first ones stand.
#[derive(Clone, Copy)]
pub enum ListLayout {
    /// There are none.
    Nothing,
    /// With nothing between them.
    Joined,
    /// With commas between them; behind a hole stands a comma of its own.
    Commas,
    /// Parameters with commas between them; then `)` and the body.
    Parameters,
    /// Parameters of an arrow function, with `=>` before the body.
    ArrowParameters,
    /// Each on a line of its own, a level deeper.
    Lines,
    /// Each with a line feed behind it.
    Feeds,
    /// Specifiers of an export with commas between them; then `}`, and a gap.
    Specifiers,
    /// Specifiers with commas between them; then `} from ` and the source.
    SpecifiersFrom,
}

/// What stands round the parts of a node.
#[derive(Clone, Copy)]
pub struct Frame {
    /// What stands before each of the first parts.
    pub front: &'static [&'static [Fragment]],
    /// What stands behind them.
    pub opener: &'static [Fragment],
    /// How the other parts stand.
    pub series: ListLayout,
    /// What stands behind these.
    pub closer: &'static [Fragment],
    /// What the layout asks of the parts.
    pub sites: PartSites,
}

/// A node with what stands round its parts.
#[derive(Clone, Copy)]
pub struct FramedNode<'t, 's> {
    pub node: Node<'t, 's>,
    pub frame: &'static Frame,
    /// How deep it stands, in levels.
    pub depth: usize,
}

/// A prefix that may not touch itself.
#[derive(Clone, Copy)]
pub enum SignOperator {
    Plus,
    Minus,
}

/// Nothing.
const NO_PIECES: &[Fragment] = &[];

/// `,`.
const COMMA: &[Fragment] = &[Fragment::Token(",")];

/// `, `.
const SEPARATOR: &[Fragment] = &[Fragment::Token(", ")];

/// A line feed, and the spaces of the level.
const LINE: &[Fragment] = &[Fragment::Line];

/// A line feed.
const FEED: &[Fragment] = &[Fragment::LineFeed];

/// `) `.
const CLOSE_SPACE: &[Fragment] = &[Fragment::Token(") ")];

/// `}`.
const CLOSE_BRACE: &[Fragment] = &[Fragment::Token("}")];

/// `} from `.
const CLOSE_FROM: &[Fragment] = &[Fragment::Token("} from ")];

/// `) => `.
const CLOSE_ARROW: &[Fragment] = &[Fragment::Token(") => ")];

/// A node with no parts but these.
macro_rules! front_frame {
    ($front:expr, $closer:expr) => {
        $crate::fragments::Frame {
            front: $front,
            opener: &[],
            series: $crate::fragments::ListLayout::Nothing,
            closer: $closer,
            sites: $crate::part_sites::PartSites::AllPlain,
        }
    };
}

/// A frame whose parts have nothing behind them, where the layout asks something of them.
macro_rules! asking_frame {
    ($sites:ident, $front:expr) => {
        $crate::fragments::Frame {
            front: $front,
            opener: &[],
            series: $crate::fragments::ListLayout::Nothing,
            closer: &[],
            sites: $crate::part_sites::PartSites::$sites,
        }
    };
}

/// A node that is a list.
macro_rules! list_frame {
    ($opener:expr, $series:ident, $closer:expr) => {
        $crate::fragments::Frame {
            front: &[],
            opener: $opener,
            series: $crate::fragments::ListLayout::$series,
            closer: $closer,
            sites: $crate::part_sites::PartSites::AllPlain,
        }
    };
}

/// A node that is a list of arguments, in parentheses, behind a part.
macro_rules! arguments_frame {
    ($front:expr, $opener:expr) => {
        $crate::fragments::Frame {
            front: $front,
            opener: $opener,
            series: $crate::fragments::ListLayout::Commas,
            closer: $crate::shared_fragments::CLOSE,
            sites: $crate::part_sites::PartSites::AllPlain,
        }
    };
}

pub(crate) use arguments_frame;
pub(crate) use asking_frame;
pub(crate) use front_frame;
pub(crate) use list_frame;

/// What stands before a part of a list.
pub(crate) fn before(series: ListLayout, is_last: bool) -> &'static [Fragment]
    ensures { bits_of result.now ≡ fused (before_bits (chain_of series) is_last) }
{
    match series {
        ListLayout::Parameters if is_last => CLOSE_SPACE,
        ListLayout::ArrowParameters if is_last => CLOSE_ARROW,
        ListLayout::Specifiers if is_last => CLOSE_BRACE,
        ListLayout::SpecifiersFrom if is_last => CLOSE_FROM,
        ListLayout::Lines => LINE,
        _ => NO_PIECES,
    }
}

/// What stands behind a part of a list, or a gap.
pub(crate) fn after(series: ListLayout, is_gap: bool, behind: usize) -> &'static [Fragment]
    ensures { bits_of result.now ≡ fused (after_bits (chain_of series) is_gap (nat_eq behind 0) (nat_eq behind 1)) }
{
    match series {
        ListLayout::Commas if behind > 0 => SEPARATOR,
        ListLayout::Commas if is_gap => COMMA,
        ListLayout::Parameters | ListLayout::ArrowParameters if behind > 1 => SEPARATOR,
        ListLayout::Specifiers | ListLayout::SpecifiersFrom if behind > 1 => SEPARATOR,
        ListLayout::Feeds => FEED,
        _ => NO_PIECES,
    }
}
