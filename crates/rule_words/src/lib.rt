//! What a report is, and how rules append reports.
//! - May touch: memory, and places (`Span`). It knows no rule and looks at no tree.
//! - Contract: what is appended is just the report that was asked for, behind what was there.
//! - Begin at: `report.rt`, `Report`; `new_report.rt`, `push_report`. Definitions: `specs/Reports.antt`.
#![tactic(auto)]

mod new_report;
mod report;

pub use new_report::{push_fixed_report, push_report, quoted};
pub use report::Report;
