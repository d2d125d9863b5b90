#![tactic(auto)]

//! Checked source text, its lines and columns, refusals, and the devices that texts are read from and written to.
//! - May touch: bytes, characters, readers and writers. It knows no token. A text's bytes are never copied.
//! - Contract: `Source::new` answers a text of at most 16,777,216 bytes in UTF-8, or says what it isn't, and from
//!   which byte.
//! - Begin at: `source.rt`, `Source`; then `sink.rt` (`Sink`, `Feed`), `line_walker.rt`, `output_buffer.rt`.

mod character;
mod device;
mod fault;
mod inner;
mod line_walker;
mod memory_device;
mod output_buffer;
mod sink;
mod source;
mod whole_text;

pub use character::{is_line_terminator, is_space};
pub use device::Device;
pub use fault::{Fault, Reason};
pub use inner::{Reader, Writer};
pub use line_walker::LineWalker;
pub use memory_device::{FailurePlan, MemoryFeed, MemorySink};
pub use output_buffer::OutputBuffer;
pub use sink::{DeviceFault, Feed, Sink};
pub use source::{MAX_BYTES, Source};
pub use whole_text::{MAX_PIECE, write_text};
