//! Outputs that are files with a mode, with more than one name, or with another file beside them.
use super::program::Illcanon;
use std::test::Fail;
use test_host::{fail_with, first_wrong_output};

#[test]
fn outputs_keep_what_they_must_of_their_files(rt: HostRuntime) -> Result<(), Fail> {
    fail_with(first_wrong_output::<Illcanon>(&rt)?)
}
