//! Typed parts and APDUs.
mod contracts;
mod memory;
mod parts;
mod round_trips;
