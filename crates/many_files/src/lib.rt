#![tactic(auto)]

//! Many files, one after the other.
//! - May touch: the two writers that it is lent, and what tells of one file.
//! - Contract: `TellsEach` in `specs/ManyFiles.antt`: what is written is what is told of each file alone, in order.
//! - Begin at: `tell_each`; `told.rt`, `tell_bytes`, writes what is told of one file; `names.rt`, `names_in`, has the names of a list.

mod named;
mod names;
mod told;

ghost use Rattle.std.specs.Prelude.{◌≡◌, false, map};
ghost use Rattle.many_files.specs.ManyFiles.{Alone, TellsEach, TellsOne};

pub use named::with_name;
pub use names::names_in;
use source_text::Sink;
pub use told::tell_bytes;

/// What tells of one file: it opens it, runs a command over it, and gives back all that it took.
pub trait Teller<O: Sink, E: Sink> {
    /// What is told of a file of a name, if nothing else is.
    ghost alone: { Self → Alone };

    /// Tells of the file of a name, and answers the exit status. A name is bytes, as a list of names has it, and may be no UTF-8.
    /// Standard error may have failed: then nothing goes there.
    fn tell(&self, name: &[u8], output: &mut O, errors: &mut E) -> u8
        requires writes { O.failed output.old ≡ false }
        ensures { TellsOne (alone self.now) name.now (record { before = O.taken output.old; after = O.taken output.new; had_failed = O.failed output.old; failed = O.failed output.new }) (record { before = E.taken errors.old; after = E.taken errors.new; had_failed = E.failed errors.old; failed = E.failed errors.new }) result };
}

/// Tells of each file, in order; one that is refused doesn't stop the others. It ends where standard output fails. Answers the
/// worst exit status, 0 where there is no file.
pub fn tell_each<T: Teller<O, E>, O: Sink, E: Sink>(
    teller: &T,
    names: &[&[u8]],
    output: &mut O,
    errors: &mut E,
) -> u8
    requires writes { O.failed output.old ≡ false }
    ensures { TellsEach (T.alone teller.now) (map (λ n. n.now) names.now) (record { before = O.taken output.old; after = O.taken output.new; had_failed = O.failed output.old; failed = O.failed output.new }) (record { before = E.taken errors.old; after = E.taken errors.new; had_failed = E.failed errors.old; failed = E.failed errors.new }) result }
{
    let mut worst = 0u8;
    let mut at = 0;
    while at < names.len() {
        let status = teller.tell(names[at], output, errors);
        if output.has_failed() {
            return 2;
        }
        worst = worst.max(status);
        at += 1;
    }
    worst
}
