//! A new file that is written beside the one that it replaces, so that this one is replaced or as it was.
use crate::error::ProgramError;
use crate::host::Host;
use crate::same_file::folder_and_name;
use std::alloc::{AllocError, Global};
use std::fmt;
use std::fs::{self, Metadata, OpenFile, OpenOptions, Permissions};
use std::io::{self, ErrorKind};
use std::os::unix::fs::{MetadataExt, OpenOptionsExt, PermissionsExt};
use std::rt::Files;

/// The number of names that a new file is tried under.
const MAX_PART_NAMES: u32 = 100;

/// The bits of a mode that say who may read, write and run a file.
const PERMISSIONS: u32 = 0o7777;

/// The bit of a mode that says that the owner may write a file.
const OWNER_WRITES: u32 = 0o200;

/// The user that may write every file.
const ROOT: u32 = 0;

/// A new file, and the name that it has until it replaces another.
#[derive(Drop)]
pub struct Replacement<F> {
    pub name: String,
    pub file: F,
}

/// The way in which the file of a name is written.
#[derive(Drop)]
pub enum ReplaceMode<F> {
    /// To a new file beside it, which takes its name at the end.
    Beside(Replacement<F>),
    /// Directly, since it can't be replaced for this reason.
    Direct(ReplaceObstacle),
}

/// The reason why a file can't be replaced. It stays as it was, unless it is written directly.
#[derive(Clone, Copy, Debug, PartialEq, Eq)]
pub enum ReplaceObstacle {
    /// Its name is a link to it.
    Link,
    /// It has other names.
    Names,
    /// No new file can be made beside it.
    Folder,
    /// A new file can't be given its owner, group and mode.
    Owner,
    /// It is a device, a pipe or a folder.
    NoRegularFile,
    /// Another file has the name of the new one by now.
    NewNameTaken,
    /// A call of the system failed so.
    System(ErrorKind),
}

impl fmt::Display for ReplaceObstacle {
    fn fmt<W: fmt::Write>(&self, f: &mut fmt::Formatter<W>) -> fmt::Result {
        let why = match self {
            ReplaceObstacle::Link => "it is a link",
            ReplaceObstacle::Names => "it has several names",
            ReplaceObstacle::Folder => "no new file can be made beside it",
            ReplaceObstacle::Owner => "its owner and mode can't be given to a new file",
            ReplaceObstacle::NoRegularFile => "it is no regular file",
            ReplaceObstacle::NewNameTaken => "another file has the name of the new one",
            ReplaceObstacle::System(kind) => return write!(f, "{kind}"),
        };
        f.write_str(why)
    }
}

/// The file that a name stands for before it is written to.
#[derive(Drop)]
enum ExistingFile {
    /// No file.
    Absent,
    /// A regular file with no other name.
    File(Metadata),
    /// A file that can't be replaced, for this reason, or a link to no file.
    Other(ReplaceObstacle),
}

/// Creates a new file beside the one with this name, with its owner, group and mode, or says why the file with this name has to
/// be written directly.
///
/// # Errors
///
/// The file with this name is there and may not be written to, all names for a new file are taken, no new file can be made for a reason that
/// may pass, as a full disk, or memory ran out.
pub fn begin<R: Host + AllocGlobal>(
    rt: &R,
    name: &str,
) -> Result<ReplaceMode<R::File>, ProgramError> {
    match existing_file(rt, name) {
        ExistingFile::Other(obstacle) => Ok(ReplaceMode::Direct(obstacle)),
        ExistingFile::Absent => match create_beside(rt, name, 0o666)? {
            Ok(new) => Ok(ReplaceMode::Beside(new)),
            // The call that makes the file itself says what is wrong with its name.
            Err(kind) if allows_no_new_file(kind) || is_of_name(kind) => {
                Ok(ReplaceMode::Direct(ReplaceObstacle::Folder))
            }
            Err(kind) => Err(ProgramError::cannot_replace(
                rt.alloc(),
                name,
                ReplaceObstacle::System(kind),
            )),
        },
        ExistingFile::File(old) => begin_beside(rt, name, &old),
    }
}

/// Tells whether a folder gets no new file for a reason that stays: its mode, or a file system that is read only.
fn allows_no_new_file(kind: ErrorKind) -> bool {
    matches!(
        kind,
        ErrorKind::PermissionDenied | ErrorKind::ReadOnlyFilesystem
    )
}

/// Tells whether a call failed because of the name of a file.
fn is_of_name(kind: ErrorKind) -> bool {
    matches!(
        kind,
        ErrorKind::NotFound
            | ErrorKind::NotADirectory
            | ErrorKind::FilesystemLoop
            | ErrorKind::InvalidFilename
    )
}

/// Tells whether the owner or the mode of a file can't be set for a reason that stays: the rights of the user, or the file system.
fn keeps_owner(kind: ErrorKind) -> bool {
    matches!(
        kind,
        ErrorKind::PermissionDenied
            | ErrorKind::ReadOnlyFilesystem
            | ErrorKind::InvalidInput
            | ErrorKind::Unsupported
    )
}

/// Creates a new file beside a regular one.
fn begin_beside<R: Host + AllocGlobal>(
    rt: &R,
    name: &str,
    old: &Metadata,
) -> Result<ReplaceMode<R::File>, ProgramError> {
    let alloc = rt.alloc();
    let new = match create_beside(rt, name, old.mode() & 0o700)? {
        Ok(new) => new,
        Err(kind) if allows_no_new_file(kind) => {
            return Ok(ReplaceMode::Direct(ReplaceObstacle::Folder));
        }
        Err(kind) => {
            let obstacle = ReplaceObstacle::System(kind);
            return Err(ProgramError::cannot_replace(alloc, name, obstacle));
        }
    };
    let taken_over = copy_owner_and_mode(rt, &new, old);
    if let Ok(true) = taken_over {
        return Ok(ReplaceMode::Beside(new));
    }
    let _ = fs::remove_file(rt, new.name.as_str());
    match taken_over {
        Ok(_) => Err(ProgramError::cannot_open(alloc, name, ErrorKind::PermissionDenied)),
        Err(error) if keeps_owner(error.kind()) => {
            Ok(ReplaceMode::Direct(ReplaceObstacle::Owner))
        }
        Err(error) => {
            let obstacle = ReplaceObstacle::System(error.kind());
            Err(ProgramError::cannot_replace(alloc, name, obstacle))
        }
    }
}

/// The target of a name. It is not opened, since what it stands for may change meanwhile, and to open a pipe may wait.
fn existing_file<R: Files>(rt: &R, name: &str) -> ExistingFile {
    if name.is_empty() || name.ends_with('/') {
        return ExistingFile::Other(ReplaceObstacle::NoRegularFile);
    }
    match fs::symlink_metadata(rt, name) {
        Ok(found) if found.is_file() && found.nlink() == 1 => ExistingFile::File(found),
        Ok(found) if found.is_file() => ExistingFile::Other(ReplaceObstacle::Names),
        Ok(_) => match fs::metadata(rt, name) {
            Ok(found) if found.is_file() => ExistingFile::Other(ReplaceObstacle::Link),
            Err(error) if error.kind() == ErrorKind::NotFound => {
                ExistingFile::Other(ReplaceObstacle::Link)
            }
            _ => ExistingFile::Other(ReplaceObstacle::NoRegularFile),
        },
        Err(error) if error.kind() == ErrorKind::NotFound => ExistingFile::Absent,
        Err(_) => ExistingFile::Other(ReplaceObstacle::NoRegularFile),
    }
}

/// Creates a new file `NAME.part`, or `NAME.part1` and so on where that name is taken, or says how the call failed.
///
/// # Errors
///
/// All these names are taken, or memory ran out.
fn create_beside<R: Files + AllocGlobal>(
    rt: &R,
    name: &str,
    mode: u32,
) -> Result<Result<Replacement<R::File>, ErrorKind>, ProgramError> {
    for number in 0..MAX_PART_NAMES {
        let part = part_name(rt.alloc(), name, number).map_err(|_| ProgramError::out_of_memory())?;
        let mut options = OpenOptions::new();
        options.write(true).create_new(true).mode(mode);
        match options.open(rt, part.as_str()) {
            Ok(file) => return Ok(Ok(Replacement { name: part, file })),
            Err(error) if error.kind() == ErrorKind::AlreadyExists => {}
            Err(error) => return Ok(Err(error.kind())),
        }
    }
    Err(ProgramError::names_are_taken(rt.alloc(), name))
}

/// `NAME.part`, and `NAME.part1` and so on.
fn part_name(alloc: Global, name: &str, number: u32) -> Result<String, AllocError> {
    if number == 0 {
        format!(in alloc; "{name}.part")
    } else {
        format!(in alloc; "{name}.part{number}")
    }
}

/// Gives a new file the owner, the group and the mode of the old one. False where the old one may not be written: it has the owner that
/// new files have, and this owner may not write it.
fn copy_owner_and_mode<R: Host>(
    rt: &R,
    new: &Replacement<R::File>,
    old: &Metadata,
) -> io::Result<bool> {
    let made = new.file.metadata()?;
    let is_own = made.uid() == old.uid();
    if is_own && made.uid() != ROOT && old.mode() & OWNER_WRITES == 0 {
        return Ok(false);
    }
    if !is_own || made.gid() != old.gid() {
        rt.change_owner(&new.file, old.uid(), old.gid())?;
    }
    new.file
        .set_permissions(Permissions::from_mode(old.mode() & PERMISSIONS))?;
    Ok(true)
}

/// Has the disk keep which name a file has. Where the folder can't be synced, the name is kept when the system writes it.
pub fn sync_folder<R: Files>(rt: &R, name: &str) {
    let (folder, _) = folder_and_name(name);
    if let Ok(folder) = fs::open(rt, folder) {
        let _ = folder.sync_all();
    }
}
