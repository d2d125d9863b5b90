//! What the layout asks of the parts of a node.

ghost use Rattle.std.specs.Prelude.{◌≡◌};
ghost use Rattle.printer.specs.Sites.{chunk_site, head_site as head_site_of, site_in};

use crate::site::Site;
use tree::Kind;

/// What the layout asks of the parts of a node, by their places.
#[derive(Clone, Copy)]
pub enum PartSites {
    /// Nothing.
    AllPlain,
    /// A shorthand property: its key has no text of its own.
    ShorthandPair,
    /// A key, and a method's function.
    KeyAndMethod,
    /// A `for`, which may begin with a declaration.
    LoopHead,
    /// A template: elements at even places, expressions between them.
    TemplateParts,
}

impl PartSites {
    /// The site of the part at a place.
    #[inline(always)]
    pub(crate) fn site_of_part(self, index: usize, kind: Kind, is_last: bool) -> Site
        ensures { result ≡ site_in self index kind is_last }
    {
        match self {
            PartSites::AllPlain => Site::Plain,
            PartSites::ShorthandPair if index == 0 => Site::ShorthandKey,
            PartSites::ShorthandPair => Site::Plain,
            PartSites::KeyAndMethod if index == 0 => Site::Plain,
            PartSites::KeyAndMethod => Site::Method,
            PartSites::LoopHead if index == 0 => head_site(kind),
            PartSites::LoopHead => Site::Plain,
            PartSites::TemplateParts if index % 2 == 0 => element_site(index == 0, is_last),
            PartSites::TemplateParts => Site::Plain,
        }
    }
}

/// That of what a `for` begins with.
fn head_site(kind: Kind) -> Site
    ensures { result ≡ head_site_of kind }
{
    match kind {
        Kind::VariableDeclaration => Site::ForDeclaration,
        _ => Site::Plain,
    }
}

/// That of an element of a template.
fn element_site(is_first: bool, is_last: bool) -> Site
    ensures { result ≡ chunk_site is_first is_last }
{
    match (is_first, is_last) {
        (true, true) => Site::OnlyTemplateElement,
        (true, false) => Site::FirstTemplateElement,
        (false, true) => Site::LastTemplateElement,
        (false, false) => Site::InnerTemplateElement,
    }
}
