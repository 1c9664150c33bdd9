//! Numbers of things in the lines that the program prints.
use std::fmt;

/// A number and its noun: `1 file`, `2 files`.
#[derive(Clone, Copy, Debug, PartialEq, Eq)]
pub struct Count(pub u64, pub &'static str);

impl fmt::Display for Count {
    fn fmt<W: fmt::Write>(&self, f: &mut fmt::Formatter<W>) -> fmt::Result {
        let Count(number, name) = *self;
        if number == 1 {
            write!(f, "1 {name}")
        } else {
            write!(f, "{number} {name}s")
        }
    }
}
