//! The reasons why a file can't be opened, in words.
use std::io::ErrorKind;

/// The kind of error of a name that isn't UTF-8 text. No call of the system fails so.
pub(crate) const NAME_NOT_TEXT: ErrorKind = ErrorKind::InvalidData;

/// The reason why a file can't be opened, in words; None where none is known.
pub(crate) fn why_not_opened(kind: ErrorKind) -> Option<&'static str> {
    match kind {
        ErrorKind::NotFound => Some("no such file"),
        ErrorKind::PermissionDenied => Some("permission denied"),
        ErrorKind::IsADirectory => Some("is a directory"),
        ErrorKind::NotADirectory => Some("not a directory"),
        ErrorKind::FilesystemLoop => Some("too many links"),
        ErrorKind::InvalidFilename => Some("name too long"),
        NAME_NOT_TEXT => Some("name is not UTF-8 text"),
        _ => None,
    }
}
