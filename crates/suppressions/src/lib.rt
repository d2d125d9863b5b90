//! Comments of a script that turn reports off: which comments these are, what they ask for, and which reports they leave.
//! - May touch: the text of a script, the literals of its tree, reports, and memory. It knows no rule: a rule is a name.
//! - Contract: `told_reports` gives just the reports that `told` of `specs/Told.antt` has, in order. A text without the beginning of a directive is
//!   searched once and not read; another one is read three times.
//! - Begin at: `told.rt`, `told_reports`; `comments.rt` has the comments, `words.rt` and `directive.rt` what they say, `suppression.rt` what
//!   they ask for, `sweep.rt` which of them decides about a report.
#![tactic(auto)]

mod comments;
mod decision;
mod directive;
mod left;
mod lines;
mod reading;
mod suppression;
mod sweep;
mod terms;
mod told;
mod unused;
mod words;

pub use terms::Terms;
pub use told::told_reports;
