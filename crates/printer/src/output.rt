//! The text of a tree, to a writer.

ghost use Rattle.std.specs.Prelude.{◌≡◌, ℕ, List, true, false};
ghost use Rattle.tree.specs.declared.kind.Pair.{Pair};
ghost use Rattle.language.specs.Pieces.{script};
ghost use Rattle.language.specs.Layout.{layout, fixed_text};
ghost use Rattle.language.specs.declared.Language.{Language};
ghost use Rattle.language.specs.Languages.{DerivesIn};
ghost use Rattle.language.specs.LayoutFits.{fits};
ghost use Rattle.printer.specs.Fits.{wrapped_by, IsPlanned};
ghost use Rattle.printer.specs.Texts.{IsWritten};

use crate::printer::print_whole;
use source_text::{Fault, Sink};
use tree::Program;
use wrap_flags::Wraps;

/// Writes the text of a script as `print_text` makes it, while it walks the tree, in pieces of at most `PIECE` bytes. It
/// takes no memory. What was written is always a beginning of the text.
///
/// # Errors
///
/// `WriteFailed` where the writer fails, which is not asked again.
pub fn print<W: Sink>(program: &Program<'_>, wraps: &Wraps, writer: &mut W) -> Result<(), Fault>
    requires ready { W.failed writer.old ≡ false }
    ensures some { (text : List ℕ) × IsWritten text result (W.taken writer.old) (W.taken writer.new) (W.failed writer.new) }
    ensures laid { fits (wrapped_by wraps.now.flags.items) program.now script 1 ≡ true → IsWritten (layout (wrapped_by wraps.now.flags.items) program.now script 1 0) result (W.taken writer.old) (W.taken writer.new) (W.failed writer.new) }
    ensures fixed { (language : Language) (text : List ℕ) (pairs : List Pair) → DerivesIn language text program.now pairs → IsPlanned wraps.now.flags.items program.now → IsWritten (fixed_text program.now) result (W.taken writer.old) (W.taken writer.new) (W.failed writer.new) }
{
    print_whole(program, wraps, writer);
    if writer.has_failed() {
        return Err(Fault::WriteFailed);
    }
    Ok(())
}
