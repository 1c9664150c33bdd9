//! Why a line is refused, in words and in JSON.
use crate::build::BuildOptions;
use ill_build::{BuildCause, BuildRefusal, column_of};
use ill_files::FileNameRef;
use ill_json::{LinePlace, Unbuilt};
use std::alloc::{AllocError, Global};
use std::{fmt, str};

/// The place of the fault of a line.
#[derive(Clone, Copy)]
enum FaultPlace<'a> {
    /// The line itself.
    Line,
    /// The octet of this number, from 1, where the text stops being JSON.
    Column(u64),
    /// The value with this JSON pointer.
    Value(&'a [u8]),
}

/// The reason why a line is refused: `refused at /apdu: UnknownName`.
#[derive(Clone, Copy)]
pub struct WhyUnbuilt<'a> {
    place: FaultPlace<'a>,
    cause: BuildCause,
}

impl<'a> WhyUnbuilt<'a> {
    ghost use Rattle.std.specs.Prelude.{◌≡◌, IfOk};
    ghost use Rattle.ill_build.specs.Causes.{cause_name};

    /// The reason why the line of this text is refused.
    ///
    /// # Errors
    ///
    /// Only out of memory.
    pub fn of(
        alloc: Global,
        text: &[u8],
        refusal: &'a BuildRefusal,
    ) -> Result<WhyUnbuilt<'a>, AllocError>
        ensures { IfOk result (λ why. why.cause ≡ refusal.entry.now.cause) }
    {
        let cause = refusal.cause;
        let place = if cause == BuildCause::NotJson {
            FaultPlace::Column(column_of(alloc, text)?)
        } else if refusal.pointer.is_empty() {
            FaultPlace::Line
        } else {
            FaultPlace::Value(&refusal.pointer)
        };
        Ok(WhyUnbuilt { place, cause })
    }

    /// The same for a line of JSON.
    pub fn in_json(self) -> Unbuilt<'a>
        ensures { result.cause.now ≡ cause_name self.entry.cause }
    {
        let pointer = match self.place {
            FaultPlace::Value(pointer) => str::from_utf8(pointer).ok(),
            FaultPlace::Line | FaultPlace::Column(_) => None,
        };
        let column = match self.place {
            FaultPlace::Column(column) => Some(column),
            FaultPlace::Line | FaultPlace::Value(_) => None,
        };
        Unbuilt {
            cause: self.cause.name(),
            pointer,
            column,
        }
    }

    /// Writes `refused at`, and the place, where there is one.
    fn fmt_place<W: fmt::Write>(&self, f: &mut fmt::Formatter<W>) -> fmt::Result {
        match self.place {
            FaultPlace::Line => f.write_str("refused"),
            FaultPlace::Column(column) => write!(f, "refused at column {column}"),
            FaultPlace::Value(pointer) => write!(f, "refused at {}", FileNameRef(pointer)),
        }
    }
}

impl fmt::Display for WhyUnbuilt<'_> {
    fn fmt<W: fmt::Write>(&self, f: &mut fmt::Formatter<W>) -> fmt::Result {
        self.fmt_place(f)?;
        write!(f, ": {}", self.cause.name())
    }
}

/// The hint at a line without a value, as some commands write it.
const NO_VALUE: &str = " (`check` and `digest` write no value; `show --json` does)";

/// A line that is refused, with its number, and its file, if it is named: `refused at /apdu in line 3: UnknownName`.
#[derive(Clone, Copy)]
pub struct BuildReport<'a> {
    pub place: LinePlace<'a>,
    pub why: WhyUnbuilt<'a>,
}

impl BuildReport<'_> {
    /// Tells whether the fault is one that lines of `check --json` and `digest --json` have.
    fn lacks_value(&self) -> bool {
        let FaultPlace::Value(pointer) = self.why.place else {
            return false;
        };
        match self.why.cause {
            BuildCause::MissingMember => pointer == b"/value".as_slice(),
            BuildCause::UnknownMember => {
                pointer == b"/digest".as_slice() || pointer == b"/refused".as_slice()
            }
            _ => false,
        }
    }
}

impl fmt::Display for BuildReport<'_> {
    fn fmt<W: fmt::Write>(&self, f: &mut fmt::Formatter<W>) -> fmt::Result {
        if let Some(file) = self.place.file {
            write!(f, "{}: ", FileNameRef(file.as_bytes()))?;
        }
        self.why.fmt_place(f)?;
        write!(
            f,
            " in line {}: {}",
            self.place.number,
            self.why.cause.name()
        )?;
        if self.lacks_value() {
            f.write_str(NO_VALUE)?;
        }
        Ok(())
    }
}
