//! A message in each line of an input, in hexadecimal, and a line with its result for each. Use it to serve a process that asks message
//! by message.
//!
//! ```
//! let all_good = run_lines(alloc, LineJob::Check, &mut source, &mut sink)?;
//! ```
mod answer;
mod job;
mod reader;
mod result;
mod run;
mod words;

pub use answer::{AnswerLines, LineVerdict};
pub use job::{LineJob, LineOptions};
pub use run::{answer_lines, run_lines, run_lines_as};
