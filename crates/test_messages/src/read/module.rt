//! Worked inputs of the module profile through the reader of normal forms: whole, and octet by octet.
use super::module_rows::ROWS;
use super::refusal_text;
use ber_core::Pieces;
use ill_read::{Failure, NormalForm, ReadFailure, decode_normal, read_normal};
use ill_schema::{Cause, Profile, Refusal};
use std::alloc::{AllocError, Global};
use std::test::Fail;
use test_support::octets_of;

/// A row: the profile, the octets, and the outcome.
#[derive(Drop)]
struct Worked {
    profile: Profile,
    octets: Vec<u8>,
    want: &'static str,
}

impl Worked {
    fn of(alloc: Global, row: &'static str) -> Result<Worked, Fail> {
        let Some((_, row)) = row.split_once('|') else {
            return Err(Fail::from("no name"));
        };
        let Some((profile, row)) = row.split_once('|') else {
            return Err(Fail::from("no profile"));
        };
        let Some((pieces, want)) = row.split_once('|') else {
            return Err(Fail::from("no outcome"));
        };
        let profile = if profile == "module" {
            Profile::Module
        } else {
            Profile::Two
        };
        Ok(Worked {
            profile,
            octets: octets_of(alloc, pieces)?,
            want,
        })
    }

    fn is_outcome(
        &self,
        alloc: Global,
        answer: Result<NormalForm, Failure>,
    ) -> Result<bool, AllocError> {
        match (answer, self.want.strip_prefix("normal ")) {
            (Ok(normal), Some(pieces)) => Ok(normal.octets == octets_of(alloc, pieces)?),
            (Err(Failure::Refused(refusal)), None) => {
                Ok(refusal_text(alloc, refusal)?.as_str() == self.want)
            }
            _ => Ok(false),
        }
    }

    fn whole(&self, alloc: Global) -> Result<bool, AllocError> {
        let answer = decode_normal(alloc, self.profile, &self.octets);
        self.is_outcome(alloc, answer)
    }

    fn octet_by_octet(&self, alloc: Global) -> Result<bool, AllocError> {
        let mut source = Pieces::new(&self.octets, 1, None);
        let answer = match read_normal(alloc, self.profile, &mut source) {
            Ok(Some(normal)) => Ok(normal),
            Ok(None) => Err(Failure::Refused(Refusal {
                at: 0,
                cause: Cause::Truncated,
            })),
            Err(ReadFailure::Refused(refusal)) => Err(Failure::Refused(refusal)),
            Err(_) => Err(Failure::OutOfMemory),
        };
        self.is_outcome(alloc, answer)
    }
}

#[test]
fn each_row_has_its_outcome(rt: HostRuntime) -> Result<(), Fail> {
    for row in ROWS.lines() {
        let worked = Worked::of(rt.alloc(), row)?;
        assert!(rt; worked.whole(rt.alloc())?, "{row}");
    }
    Ok(())
}

#[test]
fn each_row_has_its_outcome_octet_by_octet(rt: HostRuntime) -> Result<(), Fail> {
    for row in ROWS.lines() {
        let worked = Worked::of(rt.alloc(), row)?;
        assert!(rt; worked.octet_by_octet(rt.alloc())?, "{row}");
    }
    Ok(())
}
