//! Writers and readers of std, as a device asks them.

ghost use Rattle.std.specs.Prelude.{◌≡◌, List, ℕ, Result};
ghost use Rattle.std.specs.Io.{ReadsAtMost, WritesAtMost};
ghost use Rattle.std.specs.Io.KnownBytes.{ReadConsumes, WriteAppends};
ghost use Rattle.std.specs.declared.io.Error.{Error};

use std::io::{self, Read, Write};

/// A writer of std. What `write` may answer has a name here, and code that knows of a type only that it is such a writer has an answer
/// from a call alone.
pub trait Writer: Write {
    /// The writer before a call, the piece, an answer that it may give, and the writer after.
    ghost may_answer: { Self → List ℕ → Result ℕ Error → Self → Type 0 };

    /// `write`, and nothing else.
    fn ask(&mut self, piece: &[u8]) -> io::Result<usize>
        ensures bound { WritesAtMost result piece.now }
        ensures bytes { WriteAppends (Self.contents self.old) (Self.contents self.new) result piece.now }
        ensures answer { may_answer self.old piece.now result self.new };
}

impl<T: Write> Writer for T {
    ghost may_answer = { λ old piece answer new. WritesAtMost answer piece × WriteAppends (T.contents old) (T.contents new) answer piece };

    /// Calls `write` of std once.
    fn ask(&mut self, piece: &[u8]) -> io::Result<usize> {
        self.write(piece)
    }
}

/// A reader of std. What `read` may answer has a name here, and code that knows of a type only that it is such a reader has an answer
/// from a call alone.
pub trait Reader: Read {
    /// The reader before a call, what stands in the room after it, an answer that it may give, and the reader after.
    ghost may_answer: { Self → List ℕ → Result ℕ Error → Self → Type 0 };

    /// `read`, and nothing else.
    fn ask(&mut self, room: &mut [u8]) -> io::Result<usize>
        ensures bound { ReadsAtMost result room.new }
        ensures bytes { ReadConsumes (Self.remaining self.old) (Self.remaining self.new) result room.new }
        ensures answer { may_answer self.old room.new result self.new };
}

impl<T: Read> Reader for T {
    ghost may_answer = { λ old room answer new. ReadsAtMost answer room × ReadConsumes (T.remaining old) (T.remaining new) answer room };

    /// Calls `read` of std once.
    fn ask(&mut self, room: &mut [u8]) -> io::Result<usize> {
        self.read(room)
    }
}
