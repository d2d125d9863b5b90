//! Room for bytes that wait to be written.

ghost use Rattle.std.specs.Prelude.{◌≡◌, ◌≤◌, ◌<◌, ◌+◌, ◌-◌, [], ◌∷◌, ◌++◌, length, take, IsTrue, ◌↔◌};
ghost use Rattle.std.specs.Fmt.{decimal};

use crate::whole_text::MAX_PIECE;
use itoa::Buffer;
use std::marker::Model;

/// Bytes that wait to be written: at most `MAX_PIECE`, as many as a device is handed at once. It takes no memory of the heap.
#[derive(Drop)]
pub struct OutputBuffer {
    bytes: [u8; MAX_PIECE],
    used: usize,
}

impl Model for OutputBuffer {
    ghost use Rattle.std.specs.Prelude.{ℕ, List, ◌≤◌, take};

    ghost Value = { List ℕ };

    ghost view = { λ r. take r.used r.bytes };

    ghost invariant = { λ r. r.used ≤ 4096 };
}

impl OutputBuffer {
    /// An empty one.
    pub fn new() -> OutputBuffer
        ensures { result ≡ [] }
    {
        OutputBuffer {
            bytes: [0; MAX_PIECE],
            used: 0,
        }
    }

    /// How many bytes wait.
    pub fn len(&self) -> usize
        ensures { result ≡ length self.now }
    {
        self.used
    }

    /// The bytes that wait.
    pub fn as_bytes(&self) -> &[u8]
        ensures { result.now ≡ self.now }
    {
        &self.bytes[..self.used]
    }

    /// Whether there is room for so many more.
    pub fn fits(&self, count: usize) -> bool
        ensures { IsTrue result ↔ length self.now + count ≤ MAX_PIECE }
    {
        count <= MAX_PIECE - self.used
    }

    /// Puts a byte behind those that wait.
    pub fn push(&mut self, byte: u8)
        requires { length self.old < MAX_PIECE }
        ensures { self.new ≡ self.old ++ byte ∷ [] }
    {
        self.bytes[self.used] = byte;
        self.used += 1;
    }

    /// Puts bytes behind those that wait: a single one, as most tokens are, in place.
    #[inline(always)]
    pub fn push_bytes(&mut self, bytes: &[u8])
        requires { length self.old + length bytes.now ≤ MAX_PIECE }
        ensures { self.new ≡ self.old ++ bytes.now }
    {
        match bytes.len() {
            1 => self.push(bytes[0]),
            _ => self.push_any(bytes),
        }
    }

    /// Any number of bytes. A short text is copied by its two ends, which may overlap.
    #[inline(never)]
    fn push_any(&mut self, bytes: &[u8])
        requires { length self.old + length bytes.now ≤ MAX_PIECE }
        ensures { self.new ≡ self.old ++ bytes.now }
    {
        match bytes.len() {
            2..=3 => self.push_ends::<2>(bytes),
            4..=7 => self.push_ends::<4>(bytes),
            8..=16 => self.push_ends::<8>(bytes),
            _ => self.push_long(bytes),
        }
    }

    /// Puts a text behind what waits.
    #[inline(always)]
    pub fn push_text(&mut self, text: &str)
        requires { length self.old + length text.now ≤ MAX_PIECE }
        ensures { self.new ≡ self.old ++ text.now }
    {
        self.push_bytes(text.as_bytes());
    }

    /// Puts a number behind what waits, in decimal digits.
    pub fn push_number(&mut self, number: usize)
        requires { length self.old + length (decimal number) ≤ MAX_PIECE }
        ensures { self.new ≡ self.old ++ decimal number }
    {
        let mut digits = Buffer::new();
        self.push_text(digits.format(number));
    }

    /// Bytes that their first `N` and their last `N` cover.
    fn push_ends<const N: usize>(&mut self, bytes: &[u8])
        requires room { length self.old + length bytes.now ≤ 4096 }
        requires least { N ≤ length bytes.now }
        requires most { length bytes.now ≤ N + N }
        ensures { self.new ≡ self.old ++ bytes.now }
    {
        let fewer = bytes.len() - N;
        self.push_exactly::<N>(&bytes[..N]);
        self.take_back(N - fewer);
        self.push_exactly::<N>(&bytes[fewer..]);
    }

    /// Bytes of this number, over a copy of their own: so the compiler needn't ask whether they stand in the room itself.
    fn push_exactly<const N: usize>(&mut self, bytes: &[u8])
        requires room { length self.old + N ≤ 4096 }
        requires count { length bytes.now ≡ N }
        ensures { self.new ≡ self.old ++ bytes.now }
    {
        let mut copy = [0; N];
        copy.copy_from_slice(bytes);
        let end = self.used + N;
        self.bytes[self.used..end].copy_from_slice(&copy);
        self.used = end;
    }

    /// Lets the last bytes go.
    #[tactic(auto, using(crate::proofs::EndsMeet::kept))]
    fn take_back(&mut self, count: usize)
        requires { count ≤ length self.old }
        ensures { self.new ≡ take (length self.old - count) self.old }
    {
        self.used -= count;
    }

    /// Bytes of any number, copied at once.
    #[inline(never)]
    fn push_long(&mut self, bytes: &[u8])
        requires { length self.old + length bytes.now ≤ 4096 }
        ensures { self.new ≡ self.old ++ bytes.now }
    {
        let end = self.used + bytes.len();
        self.bytes[self.used..end].copy_from_slice(bytes);
        self.used = end;
    }

    /// Lets all bytes go.
    pub fn clear(&mut self)
        ensures { self.new ≡ [] }
    {
        self.used = 0;
    }
}
