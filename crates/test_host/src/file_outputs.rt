//! Outputs that are files with a mode, with more than one name, or with another file beside them.
use crate::fake::{Ended, Faults, NO_FAULTS, Start, Watch};
use crate::runs::Octets::Repeated;
use crate::runs::{EXPIRED, INDEFINITE, Program, enter, holds, leave, run, run_with_faults};
use std::alloc::AllocError;
use std::fs::{self, Permissions};
use std::os::unix::fs::{MetadataExt, PermissionsExt, symlink};
use std::test::Fail;

fn canonicalise<'n, P: Program>(rt: &HostRuntime, input: &'n [u8], output: &'n [u8]) -> Ended {
    let words: [&[u8]; 3] = [b"canonicalise", input, output];
    run::<P>(
        rt,
        Start {
            words: &words,
            input: b"",
            standard: None,
            faults: NO_FAULTS,
            terminal: None,
            watch: &Watch::new(),
        },
    )
}

/// Tells whether the normal form of B goes to the file of this name, without a word.
fn goes_to<P: Program>(rt: &HostRuntime, name: &str) -> Result<bool, Fail> {
    goes_directly_to::<P>(rt, name, "")
}

/// Tells whether the normal form of B goes to the file of this name, and this is printed of it on standard error.
fn goes_directly_to<P: Program>(rt: &HostRuntime, name: &str, errors: &str) -> Result<bool, Fail> {
    let ended = canonicalise::<P>(rt, b"B", name.as_bytes());
    let is_right = ended.status == 0
        && ended.output.is_empty()
        && ended.errors.as_slice() == errors.as_bytes();
    Ok(is_right && has_form(rt, name)?)
}

fn has_form(rt: &HostRuntime, name: &str) -> Result<bool, Fail> {
    holds(rt, name, Repeated(EXPIRED, 33))
}

/// Tells whether a file is replaced by a new one of its mode, and a file of the name that the new one would have at first is left.
fn is_replaced<P: Program>(rt: &HostRuntime) -> Result<bool, Fail> {
    fs::write(rt, "old", b"old")?;
    fs::write(rt, "old.part", b"another's")?;
    fs::set_permissions(rt, "old", Permissions::from_mode(0o640))?;
    let number = fs::metadata(rt, "old")?.ino();
    let is_written = goes_to::<P>(rt, "old")?;
    let found = fs::metadata(rt, "old")?;
    Ok(
        is_written
            && found.ino() != number
            && found.mode() & 0o7777 == 0o640
            && fs::read(rt, "old.part")?.as_slice() == b"another's".as_slice()
            && !fs::exists(rt, "old.part1")?,
    )
}

/// Tells whether a new file is for its owner alone until it has its mode, and is synced, and then the folder that has its name.
fn is_private_and_synced<P: Program>(rt: &HostRuntime) -> Result<bool, Fail> {
    fs::write(rt, "folder/kept", b"old")?;
    fs::set_permissions(rt, "folder/kept", Permissions::from_mode(0o640))?;
    let watch = Watch::new();
    let words: [&[u8]; 3] = [b"canonicalise", b"B", b"folder/kept"];
    let ended = run::<P>(
        rt,
        Start {
            words: &words,
            input: b"",
            standard: None,
            faults: NO_FAULTS,
            terminal: None,
            watch: &watch,
        },
    );
    Ok(
        ended.status == 0
            && has_form(rt, "folder/kept")?
            && watch.mode_before.get() == 0o600
            && watch.synced_files.get() == 1
            && watch.synced_folders.get() == 1,
    )
}

/// Tells whether a file of two names is written under both.
fn keeps_its_names<P: Program>(rt: &HostRuntime) -> Result<bool, Fail> {
    fs::write(rt, "one", b"old")?;
    fs::hard_link(rt, "one", "other")?;
    let line = "illcanon: one is written directly: it has several names\n";
    Ok(
        goes_directly_to::<P>(rt, "one", line)?
            && has_form(rt, "other")?
            && fs::metadata(rt, "one")?.nlink() == 2,
    )
}

/// Tells whether a file of two names is kept where it may be the file that standard input is read from, and where OUT of several files is.
fn keeps_what_may_be_read<P: Program>(rt: &HostRuntime) -> Result<bool, Fail> {
    fs::write(rt, "read", INDEFINITE)?;
    fs::hard_link(rt, "read", "read-too")?;
    let faults = Faults {
        nameless: true,
        ..NO_FAULTS
    };
    let line = b"illcanon: cannot replace read: it has several names\n".as_slice();
    let one = run_with_faults::<P>(rt, "canonicalise - read", faults)?;
    let several = run_with_faults::<P>(rt, "canonicalise -o read - A", faults)?;
    let are_kept = one.status == 3
        && several.status == 3
        && one.errors.as_slice() == line
        && several.errors.as_slice() == line;
    Ok(are_kept && fs::read(rt, "read")?.as_slice() == INDEFINITE)
}

/// Tells whether a link stays, and the file is made that it leads to, or written if it is there, each with a line.
fn keeps_the_link<P: Program>(rt: &HostRuntime) -> Result<bool, Fail> {
    symlink(rt, "target", "link")?;
    let line = "illcanon: link is written directly: it is a link\n";
    Ok(
        goes_directly_to::<P>(rt, "link", line)?
            && has_form(rt, "target")?
            && goes_directly_to::<P>(rt, "link", line)?
            && fs::symlink_metadata(rt, "link")?.is_symlink(),
    )
}

/// Tells whether a file that its owner may not write is left as it was. Nothing stops root.
fn keeps_what_may_not_be_written<P: Program>(rt: &HostRuntime) -> Result<bool, Fail> {
    fs::write(rt, "kept", b"kept")?;
    if fs::metadata(rt, "kept")?.uid() == 0 {
        return Ok(true);
    }
    fs::set_permissions(rt, "kept", Permissions::from_mode(0o440))?;
    let ended = canonicalise::<P>(rt, b"B", b"kept");
    Ok(
        ended.status == 3
            && ended.errors.as_slice() == b"illcanon: cannot open kept\n".as_slice()
            && fs::read(rt, "kept")?.as_slice() == b"kept".as_slice()
            && !fs::exists(rt, "kept.part")?,
    )
}

/// Tells whether nothing is written where all names of a new file are taken.
fn stops_where_no_name_is_free<P: Program>(rt: &HostRuntime) -> Result<bool, Fail> {
    fs::write(rt, "taken", b"taken")?;
    fs::write(rt, "taken.part", b"")?;
    for number in 1..100u32 {
        let name = format!(in rt.alloc(); "taken.part{number}")?;
        fs::write(rt, name.as_str(), b"")?;
    }
    let ended = canonicalise::<P>(rt, b"B", b"taken");
    let line =
        b"illcanon: cannot write taken: all names from taken.part to taken.part99 are taken\n";
    Ok(
        ended.status == 3
            && ended.errors.as_slice() == line.as_slice()
            && fs::read(rt, "taken")?.as_slice() == b"taken".as_slice(),
    )
}

/// A name of 255 letters, which no name with more at its end can be made of.
fn long_name(rt: &HostRuntime) -> Result<String, AllocError> {
    let mut name = String::new(rt.alloc());
    for _ in 0..255u32 {
        name.push('n')?;
    }
    Ok(name)
}

/// Tells whether a file is left as it was where another takes the name of its new one, and that name isn't removed.
fn keeps_what_another_took<P: Program>(rt: &HostRuntime) -> Result<bool, Fail> {
    fs::write(rt, "swapped", b"old")?;
    let words: [&[u8]; 3] = [b"canonicalise", b"B", b"swapped"];
    let faults = Faults {
        swapped: true,
        ..NO_FAULTS
    };
    let ended = run::<P>(
        rt,
        Start {
            words: &words,
            input: b"",
            standard: None,
            faults,
            terminal: None,
            watch: &Watch::new(),
        },
    );
    Ok(
        ended.status == 3
            && ended.errors.as_slice()
                == b"illcanon: cannot replace swapped: another file has the name of the new one\n".as_slice()
            && fs::read(rt, "swapped")?.as_slice() == b"old".as_slice()
            && fs::exists(rt, "swapped.part")?,
    )
}

fn is_written_under_a_long_name<P: Program>(rt: &HostRuntime) -> Result<bool, Fail> {
    let name = long_name(rt)?;
    let line = format!(in rt.alloc();
        "illcanon: {name} is written directly: no new file can be made beside it\n"
    )?;
    goes_directly_to::<P>(rt, name.as_str(), line.as_str())
}

/// Tells whether an output that is absent is made, and no other file.
fn is_made<P: Program>(rt: &HostRuntime) -> Result<bool, Fail> {
    Ok(goes_to::<P>(rt, "new")? && !fs::exists(rt, "new.part")?)
}

/// Tells whether a file is refused as its own output under each of its names, and is as it was.
fn is_refused_under_each_name<P: Program>(rt: &HostRuntime) -> Result<bool, Fail> {
    fs::hard_link(rt, "B", "hard")?;
    symlink(rt, "B", "soft")?;
    let is_refused = is_refused::<P>(rt, b"B", b"hard")
        && is_refused::<P>(rt, b"B", b"soft")
        && is_refused::<P>(rt, b"soft", b"B");
    Ok(is_refused && fs::read(rt, "B")?.as_slice() == INDEFINITE)
}

fn is_refused<'n, P: Program>(rt: &HostRuntime, input: &'n [u8], output: &'n [u8]) -> bool {
    let ended = canonicalise::<P>(rt, input, output);
    ended.status == 2
        && ended.output.is_empty()
        && ended.errors.as_slice() == b"illcanon: IN and OUT are the same file\n".as_slice()
}

/// The output that is not as it must be in the folder where this is.
fn first_wrong_here<P: Program>(rt: &HostRuntime) -> Result<Option<&'static str>, Fail> {
    Ok(if !is_made::<P>(rt)? {
        Some("an absent file")
    } else if !is_replaced::<P>(rt)? {
        Some("a file with a mode")
    } else if !is_private_and_synced::<P>(rt)? {
        Some("a file in a folder")
    } else if !keeps_its_names::<P>(rt)? {
        Some("a file of two names")
    } else if !keeps_what_may_be_read::<P>(rt)? {
        Some("a file that may be standard input")
    } else if !keeps_the_link::<P>(rt)? {
        Some("a link")
    } else if !is_written_under_a_long_name::<P>(rt)? {
        Some("a long name")
    } else if !keeps_what_another_took::<P>(rt)? {
        Some("a name that another took")
    } else if !keeps_what_may_not_be_written::<P>(rt)? {
        Some("a file that may not be written")
    } else if !stops_where_no_name_is_free::<P>(rt)? {
        Some("a file whose new names are taken")
    } else if !is_refused_under_each_name::<P>(rt)? {
        Some("the input under another name")
    } else {
        None
    })
}

/// The output that is not as it must be after a run of `canonicalise`.
pub fn first_wrong_output<P: Program>(rt: &HostRuntime) -> Result<Option<&'static str>, Fail> {
    let folder = enter(rt)?;
    let wrong = first_wrong_here::<P>(rt)?;
    leave(rt, folder.as_str())?;
    Ok(wrong)
}
