//! The words and files of the program `illcanon`: its inputs and outputs, the line that an error is printed as, and the exit status.
//!
//! All of it is generic over the runtime, so that tests run it on streams and files of their own. A file is opened and read by
//!
//! ```
//! let mut source = open_alone(rt, "messages.ber")?;
//! let count = source.take(&mut buffer)?;
//! ```
#![tactic(auto)]

mod count;
mod error;
mod host;
mod input;
mod listed;
mod names;
mod opening;
mod output;
mod progress;
mod replacement;
mod same_file;
mod streams;
mod words;

pub use count::Count;
pub use error::{
    CauseName, MissingMessage, ProgramError, RefusedCount, RunLine, combined_status, is_of_folder,
    is_output_lost, keeps_output, keeps_refused, print_error, print_error_of, status_of,
};
pub use host::Host;
pub use input::{
    AloneSource, InputSource, Opened, Shared, open_alone, open_and_identify, open_input, read_whole,
};
pub use listed::{input_names, list_of, text_of};
pub use names::{FileName, FileNameRef, printable, printed, word};
pub use output::{
    FlushBeforeRead, Output, OutputDestination, OutputOf, ToOutput, close_output, open_output,
    open_standard_output,
};
pub use progress::{ProgressLine, ProgressReader};
pub use replacement::ReplaceObstacle;
pub use same_file::{FileId, are_one_target, is_standard_output};
pub use streams::open_closed_streams;
pub use words::{printable_error, words_of};
