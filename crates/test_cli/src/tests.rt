//! The whole program over a runtime of ours, with files of the host; and what it prints where it fails.
mod builds;
mod commands;
mod contracts;
mod files;
mod json;
mod lines;
mod lists;
mod names;
mod orders;
mod outputs;
mod profiles;
mod program;
mod progress;
mod refused;
mod reports;
mod skipping;
