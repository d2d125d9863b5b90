//! A report.

ghost use Rattle.std.specs.Prelude.{◌≡◌, string_bytes};
ghost use Rattle.rule_words.specs.Order.{report_cmp};

use std::cmp::Ordering;
use std::marker::Model;

/// What a rule says of a place. Contracts see it by its places and by the bytes of its two texts.
#[derive(Drop)]
pub struct Report {
    start: usize,
    end: usize,
    rule: String,
    text: String,
}

impl Model for Report {
    ghost use Rattle.std.specs.Prelude.{string_bytes};
    ghost use Rattle.rule_words.specs.Reports.{Report};

    ghost Value = { Report };

    ghost view = { λ r. record { start = r.start; stop = r.end; rule = string_bytes r.rule; text = string_bytes r.text } };
}

impl Report {
    /// A report of a rule. The two places are byte offsets in the source.
    pub fn new(start: usize, end: usize, rule: String, text: String) -> Report
        ensures { result ≡ record { start = start; stop = end; rule = string_bytes rule; text = string_bytes text } }
    {
        Report {
            start,
            end,
            rule,
            text,
        }
    }

    /// Which of two reports comes first: by start, then rule, then end, then text. Texts are compared as bytes.
    pub fn compare(&self, other: &Report) -> Ordering
        ensures { result ≡ report_cmp self.now other.now }
    {
        self.start
            .cmp(&other.start)
            .then(self.rule.as_str().cmp(other.rule.as_str()))
            .then(self.end.cmp(&other.end))
            .then(self.text.as_str().cmp(other.text.as_str()))
    }

    /// Where what is reported starts: a byte offset in the source.
    pub fn start(&self) -> usize
        ensures { result ≡ self.now.start }
    {
        self.start
    }

    /// Where what is reported ends: the offset behind its last byte.
    pub fn end(&self) -> usize
        ensures { result ≡ self.now.stop }
    {
        self.end
    }

    /// The name of the rule.
    pub fn rule(&self) -> &str
        ensures { result.now ≡ self.now.rule }
    {
        self.rule.as_str()
    }

    /// What the rule says.
    pub fn text(&self) -> &str
        ensures { result.now ≡ self.now.text }
    {
        self.text.as_str()
    }
}
