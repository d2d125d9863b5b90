//! The numbers of lines.

ghost use Rattle.std.specs.Prelude.{◌≡◌};
ghost use Rattle.source_text.specs.Located.{IsLocated};
ghost use Rattle.suppressions.specs.Lines.{line_of, within};

use source_text::{LineWalker, Source};

/// An offset, or the end of the text where it lies behind that.
fn within(source: &Source<'_>, offset: usize) -> usize
    ensures { result ≡ within source.now offset }
{
    let end = source.len();
    if offset <= end { offset } else { end }
}

/// Goes on to the line of an offset.
pub(crate) fn moved_to(source: &Source<'_>, here: LineWalker, offset: usize) -> LineWalker
    requires here { IsLocated source.now here }
    ensures there { IsLocated source.now result }
    ensures line { result.line ≡ line_of source.now offset }
{
    let place = within(source, offset);
    here.resumed(place).moved(source, place)
}
