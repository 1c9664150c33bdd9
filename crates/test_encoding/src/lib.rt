//! Tests alone: of headers and frames, of leaves, of sources and sinks, and of buffers for DER.
#![tactic(auto)]

#[cfg(test)]
mod buffers;
#[cfg(test)]
mod contracts;
#[cfg(test)]
mod der_buffers;
#[cfg(test)]
mod fake;
#[cfg(test)]
mod frames;
#[cfg(test)]
mod headers;
#[cfg(test)]
mod leaves;
#[cfg(test)]
mod lookahead;
#[cfg(test)]
mod readers;
#[cfg(test)]
mod writers;
