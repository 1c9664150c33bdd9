//! Comparison of an input with an output: whether they are one file.
use std::fs::{self, Metadata};
use std::io::{self, ErrorKind};
use std::os::unix::fs::MetadataExt;
use std::path::{Path, PathBuf};
use std::rt::Files;

/// The name by which the system knows standard input.
pub(crate) const STANDARD_INPUT: &str = "/dev/stdin";

/// The names by which systems know standard input.
const STANDARD_INPUTS: [&str; 3] = [STANDARD_INPUT, "/proc/self/fd/0", "/dev/fd/0"];

/// The names by which systems know standard output.
const STANDARD_OUTPUTS: [&str; 3] = ["/dev/stdout", "/proc/self/fd/1", "/dev/fd/1"];

/// Tells whether a word names standard output: `-`, or a name that the system has for it.
pub fn is_standard_output(word: &str) -> bool {
    word == "-" || STANDARD_OUTPUTS.contains(&word)
}

/// The identity of a regular file: its device and its number there.
#[derive(Clone, Copy, Debug, PartialEq, Eq)]
pub struct FileId {
    device: u64,
    number: u64,
}

impl FileId {
    /// The regular file that this was read of; None for all else, and where it can't be known.
    pub fn of(found: io::Result<Metadata>) -> Option<FileId> {
        match found {
            Ok(found) if found.is_file() => Some(FileId {
                device: found.dev(),
                number: found.ino(),
            }),
            _ => None,
        }
    }

    /// The regular file that standard input comes from.
    pub fn of_standard_input<R: Files>(rt: &R) -> Option<FileId> {
        FileId::of(metadata_of_first(rt, &STANDARD_INPUTS))
    }

    /// Tells whether the system says which file standard input comes from. It has a name for it unless neither `/proc` nor `/dev` is there.
    pub fn knows_standard_input<R: Files>(rt: &R) -> bool {
        metadata_of_first(rt, &STANDARD_INPUTS).is_ok()
    }

    /// Tells whether the system says which file standard output goes to, as [`FileId::knows_standard_input`] does of standard input.
    pub fn knows_standard_output<R: Files>(rt: &R) -> bool {
        metadata_of_first(rt, &STANDARD_OUTPUTS).is_ok()
    }

    /// The regular file that standard output goes to.
    pub fn of_standard_output<R: Files>(rt: &R) -> Option<FileId> {
        FileId::of(metadata_of_first(rt, &STANDARD_OUTPUTS))
    }

    /// The regular file that an input with this name comes from, standard input for `-`.
    pub fn of_input<R: Files>(rt: &R, name: &str) -> Option<FileId> {
        if name == "-" {
            return FileId::of_standard_input(rt);
        }
        FileId::of_name(rt, name)
    }

    /// The regular file that an output with this name goes to, standard output for `-`.
    pub fn of_output<R: Files>(rt: &R, name: &str) -> Option<FileId> {
        if name == "-" {
            return FileId::of_standard_output(rt);
        }
        FileId::of_name(rt, name)
    }

    /// The regular file with this name.
    pub fn of_name<R: Files>(rt: &R, name: &str) -> Option<FileId> {
        FileId::of(fs::metadata(rt, name))
    }
}

/// The metadata of the first of these names that the system has.
fn metadata_of_first<R: Files>(rt: &R, names: &[&str]) -> io::Result<Metadata> {
    for name in names {
        if let Ok(found) = fs::metadata(rt, *name) {
            return Ok(found);
        }
    }
    Err(io::Error::from(ErrorKind::NotFound))
}

/// Tells whether two names of files stand for one target: one regular file, or one name in one folder, which no file has yet. Links to an
/// absent file stand for the name that they lead to.
pub fn are_one_target<R: Files + AllocGlobal>(rt: &R, one: &str, other: &str) -> bool {
    if let Some(file) = FileId::of_output(rt, one) {
        return FileId::of_output(rt, other) == Some(file);
    }
    match (absent_target(rt, one), absent_target(rt, other)) {
        (Ok(one), Ok(other)) => are_one_name(rt, one.to_string_lossy(), other.to_string_lossy()),
        // A name that can't be followed is no name of its own.
        _ => true,
    }
}

/// The greatest number of links that a name is followed through.
const MAX_LINKS: u32 = 40;

/// The name that a name leads to by links of which the last one leads to no file; the name itself where it is no link.
///
/// # Errors
///
/// There are too many links, or memory ran out.
fn absent_target<R: Files + AllocGlobal>(rt: &R, name: &str) -> io::Result<PathBuf> {
    let mut path = Path::new(name).to_path_buf(rt.alloc())?;
    for _ in 0..MAX_LINKS {
        let Ok(target) = path.read_link(rt) else {
            return Ok(path);
        };
        path = match path.parent() {
            Some(folder) => folder.join(rt.alloc(), target)?,
            None => target,
        };
    }
    Err(io::Error::from(ErrorKind::FilesystemLoop))
}

/// Tells whether two names are one name in one folder.
fn are_one_name<R: Files>(rt: &R, one: &str, other: &str) -> bool {
    let (folder, name) = folder_and_name(one);
    let (other_folder, other_name) = folder_and_name(other);
    name == other_name && are_one_folder(rt, folder, other_folder)
}

/// The folder of a name, and the name that the file has there.
pub(crate) fn folder_and_name(name: &str) -> (&str, &str) {
    match name.rsplit_once('/') {
        Some(("", name)) => ("/", name),
        Some((folder, name)) => (folder, name),
        None => (".", name),
    }
}

/// Tells whether two names stand for one folder.
fn are_one_folder<R: Files>(rt: &R, one: &str, other: &str) -> bool {
    match (fs::metadata(rt, one), fs::metadata(rt, other)) {
        (Ok(one), Ok(other)) => one.dev() == other.dev() && one.ino() == other.ino(),
        _ => false,
    }
}
