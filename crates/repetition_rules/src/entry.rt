//! What is compared with those before it in one node.

ghost use Rattle.std.specs.Prelude.{◌≡◌, string_bytes};

use std::marker::Model;
use tree::Span;

/// A property, a member or a case: what it is compared by, whether it says what is read or what is done when something is written, and
/// where it stands. Contracts see the label by its bytes.
#[derive(Drop)]
pub(crate) struct Entry {
    label: String,
    is_read: bool,
    is_written: bool,
    start: usize,
    end: usize,
}

impl Model for Entry {
    ghost use Rattle.std.specs.Prelude.{string_bytes};
    ghost use Rattle.repetition_rules.specs.Entries.{Entry};

    ghost Value = { Entry };

    ghost view = { λ e. record { label = string_bytes e.label; is_read = e.is_read; is_written = e.is_written; start = e.start; stop = e.end } };
}

impl Entry {
    /// What stands here under a label.
    pub(crate) fn new(label: String, is_read: bool, is_written: bool, span: Span) -> Entry
        ensures { result ≡ record { label = string_bytes label; is_read = is_read; is_written = is_written; start = span.start; stop = span.end } }
    {
        Entry {
            label,
            is_read,
            is_written,
            start: span.start,
            end: span.end,
        }
    }

    /// What it is compared by.
    pub(crate) fn label(&self) -> &str
        ensures { result.now ≡ self.now.label }
    {
        self.label.as_str()
    }

    /// Whether it says what is read.
    pub(crate) fn is_read(&self) -> bool
        ensures { result ≡ self.now.is_read }
    {
        self.is_read
    }

    /// Whether it says what is done when something is written.
    pub(crate) fn is_written(&self) -> bool
        ensures { result ≡ self.now.is_written }
    {
        self.is_written
    }

    /// Where it stands.
    pub(crate) fn span(&self) -> Span
        ensures starts { result.start ≡ self.now.start }
        ensures ends { result.end ≡ self.now.stop }
    {
        Span {
            start: self.start,
            end: self.end,
        }
    }
}
