//! The program `illcanon` between its orders and its files: what each command opens and does, and what it counts.
//!
//! All of it is generic over the runtime, so that tests run it on words, streams and files of their own. A program is
//!
//! ```
//! fn main(rt: HostRuntime) -> ExitCode {
//!     ExitCode::from(ill_cli::run_program(&rt))
//! }
//! ```
#![tactic(auto)]

mod build;
mod build_report;
mod collect;
mod commands;
mod compare;
mod in_turn;
mod input;
mod limit;
mod plan;
mod print;
mod refused;
mod report_lines;
mod results;
mod run;
mod summary;
mod tally;
mod write;

pub use build::{BuildCounts, BuildForm, BuildOptions};
pub use build_report::{BuildReport, WhyUnbuilt};
pub use commands::{run_order, run_program};
pub use plan::{Action, InputAction, ReadOptions};
pub use report_lines::ReportLine;
pub use summary::{JsonSummary, LeftAt, LineSummary, Summary};
