#![tactic(auto)]

//! Runs of the commands over bytes in memory, for hosts without files.
//! - May touch: the caller's bytes, and memory. Its readers never fail, and its writer only if memory is refused.
//! - Contract: `run_on_bytes` answers the output and the status of a run over just these bytes.
//! - Begin at: `output.rt`, `run_on_bytes`; `bytes_feed.rt` and `vec_sink.rt` are its devices.

mod bytes_feed;
mod output;
mod vec_sink;

pub use output::{Output, refusal_text, run_on_bytes};
