//! What the layout asks of a node for the sake of what it is a part of.

ghost use Rattle.std.specs.Prelude.{◌≡◌};
ghost use Rattle.printer.specs.Sites.{is_plain};

/// What the layout asks of a node for the sake of what it is a part of.
#[derive(Clone, Copy)]
pub enum Site {
    /// That of a shorthand property's key, which has no text of its own.
    ShorthandKey,
    /// Those of a template's parts: of the only one, the first, the last, and another.
    OnlyTemplateElement,
    FirstTemplateElement,
    LastTemplateElement,
    InnerTemplateElement,
    /// That of a method's function.
    Method,
    /// That of a declaration in the head of a `for`.
    ForDeclaration,
    /// Any other.
    Plain,
}

/// Whether what stands round a node's parts is told by the node alone.
pub(crate) fn is_plain_site(site: Site) -> bool
    ensures { result ≡ is_plain site }
{
    matches!(site, Site::Plain)
}
