//! The jobs of the program, over sources and sinks: to show, check, digest, canonicalise and compare. Use it to run a job of the program
//! over inputs of your own.
//!
//! ```
//! let verdict = run(alloc, Job::Check, false, &mut source, &mut sink)?;
//! ```
#![tactic(auto)]

mod job;
mod lines;
mod messages;
mod piece;
mod refused;
mod result;
mod same;
mod write_job;
mod written;

pub use ill_json::{RefusalKind, RefusalPlace};
pub use ill_normal::{
    Counts, MAX_HEX_TEXT, OnRefusal, RefusalReport, ReportRefusals, RunFault, StreamEnd, Verdict,
    read_at_most, read_hex, text_octets,
};
pub use job::{Job, JobOptions, verdict_of};
pub use lines::{
    AnswerLines, LineJob, LineOptions, LineVerdict, answer_lines, run_lines, run_lines_as,
};
pub use messages::{run, run_as, run_job, run_with};
pub use refused::{RefusedLine, refusal_kind, refused_json};
pub use same::{run_same, run_same_as};
pub use write_job::WriteJob;
