//! Folders for the files of a test.
use std::test::Fail;
use std::{fs, process};

/// A folder of the test's own.
pub fn folder(host: &HostRuntime) -> Result<String, Fail> {
    let id = process::id(host.process());
    for number in 0..1000u32 {
        let path = format!(in host.alloc(); "/tmp/illcanon-test-{id}-{number}")?;
        if fs::create_dir(host, path.as_str()).is_ok() {
            return Ok(path);
        }
    }
    Err(Fail::from("no folder"))
}
