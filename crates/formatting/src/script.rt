//! The items of a script.

use crate::statements::statements;
use item_builder::{Builder, Options};
use layout_items::{Item, ItemList, Style};
use source_text::Source;
use std::alloc::{AllocError, Global};
use tree::Program;
use unwrapping::TreeReading;

/// The items of a script, by its tree and its tokens; nothing where these don't agree.
///
/// # Errors
/// `AllocError` where memory is refused.
pub fn items_of<'t>(
    alloc: Global,
    source: &Source<'t>,
    program: &Program<'_>,
    reading: &'t TreeReading,
    style: Style,
    options: Options,
) -> Result<Option<ItemList<'t>>, AllocError> {
    let mut builder = Builder::beginning(alloc, source.text(), reading, style, options)?;
    let body = program.root().parts();
    statements(&mut builder, body);
    builder.push_closing(body.len() > 0);
    builder.push(Item::HardLine);
    builder.finished()
}
