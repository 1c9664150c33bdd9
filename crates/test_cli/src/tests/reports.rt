//! The lines that the program prints where a job fails, and its statuses.
use ill_commands::RunFault;
use ill_files::{ProgramError, RefusedCount, RunLine, print_error_of, status_of};
use ill_normal::{Cause, NodeId, PartId, Refusal, Side};
use std::alloc::{AllocError, Global};
use std::io::ErrorKind;
use std::test::Fail;
use test_host::{Fake, NO_FAULTS, Start, Watch};

/// Faults, their lines and their statuses.
static FAULTS: [(RunFault, &str, u8); 14] = [
    (
        RunFault::Refused {
            message: 1,
            refusal: Refusal {
                at: 7,
                cause: Cause::UnexpectedTag,
            },
        },
        "refused at 7 in message 1: UnexpectedTag",
        1,
    ),
    (
        RunFault::Refused {
            message: 1,
            refusal: Refusal {
                at: 7,
                cause: Cause::Missing(PartId {
                    node: NodeId::EXPIRED,
                    row: 1,
                }),
            },
        },
        "refused at 7 in message 1: Missing Expired.transaction-id",
        1,
    ),
    (
        RunFault::Refused {
            message: 3,
            refusal: Refusal {
                at: 33,
                cause: Cause::LeftOut(PartId {
                    node: NodeId::EXPIRED,
                    row: 5,
                }),
            },
        },
        "refused at 33 in message 3: LeftOut Expired.expired-extensions",
        1,
    ),
    // There is no such part.
    (
        RunFault::Refused {
            message: 1_000_000,
            refusal: Refusal {
                at: 1_048_575,
                cause: Cause::Missing(PartId {
                    node: NodeId::EXPIRED,
                    row: 6,
                }),
            },
        },
        "refused at 1048575 in message 1000000: Missing",
        1,
    ),
    (
        RunFault::RefusedSide(
            Side::First,
            Refusal {
                at: 7,
                cause: Cause::UnexpectedTag,
            },
        ),
        "refused at 7 in the first file: UnexpectedTag",
        1,
    ),
    (
        RunFault::RefusedSide(
            Side::Second,
            Refusal {
                at: 33,
                cause: Cause::TrailingBytes,
            },
        ),
        "refused at 33 in the second file: TrailingBytes",
        1,
    ),
    (RunFault::OddHex, "hex: odd number of digits", 1),
    (RunFault::BadHex(3), "hex: bad digit at 3", 1),
    (RunFault::HexTooLong, "hex: too long", 1),
    (RunFault::TooManyMessages, "more than 1000000 messages", 1),
    (RunFault::NotReported, "stopped after a refused message", 1),
    (RunFault::OutOfMemory, "out of memory", 3),
    (RunFault::ReadFault, "read fault", 3),
    (RunFault::WriteFault(10), "write fault after 10 octets", 3),
];

/// Tells whether a fault is printed as this line, and ends the program with this status.
fn is_reported(alloc: Global, fault: RunFault, line: &str, status: u8) -> Result<bool, AllocError> {
    let text = format!(in alloc; "{}", RunLine(fault))?;
    Ok(text.as_str() == line && status_of(&Err(ProgramError::from(fault))) == status)
}

#[test]
fn each_fault_is_one_line(rt: HostRuntime) -> Result<(), Fail> {
    for (fault, line, status) in &FAULTS {
        assert!(rt; is_reported(rt.alloc(), *fault, line, *status)?, "{line}");
    }
    Ok(())
}

/// Tells whether an error is printed as this line, and ends the program with this status.
fn is_printed(
    alloc: Global,
    error: ProgramError,
    line: &str,
    status: u8,
) -> Result<bool, AllocError> {
    let text = format!(in alloc; "{error}")?;
    Ok(text.as_str() == line && status_of(&Err(error)) == status)
}

#[test]
fn each_error_of_the_words_is_one_line(rt: HostRuntime) -> Result<(), Fail> {
    let alloc = rt.alloc();
    let hidden = "the words are no command line, and have hidden characters";
    assert!(rt; is_printed(alloc, ProgramError::HiddenCharacters, hidden, 2)?);
    let empty = "the list names no file";
    assert!(rt; is_printed(alloc, ProgramError::EmptyList, empty, 2)?);
    let one = ProgramError::RefusedEnough(RefusedCount::Messages(1));
    assert!(rt; is_printed(alloc, one, "stopped after 1 refused message", 1)?);
    let two = ProgramError::RefusedEnough(RefusedCount::Messages(2));
    assert!(rt; is_printed(alloc, two, "stopped after 2 refused messages", 1)?);
    let line = ProgramError::RefusedEnough(RefusedCount::Lines(1));
    assert!(rt; is_printed(alloc, line, "stopped after 1 refused line", 1)?);
    Ok(())
}

/// The line of a file among several that can't be opened for a reason that isn't known.
fn line_of_unknown(rt: &HostRuntime) -> Result<Vec<u8>, Fail> {
    let watch = Watch::new();
    let fake = Fake::new(
        rt,
        Start {
            words: &[],
            input: b"",
            standard: None,
            faults: NO_FAULTS,
            terminal: None,
            watch: &watch,
        },
    );
    let error = ProgramError::cannot_open(rt.alloc(), "A", ErrorKind::Other);
    let printed = print_error_of(&fake, b"A", &error);
    let ended = fake.ended(0);
    printed?;
    Ok(ended.errors)
}

#[test]
fn a_reason_that_is_not_known_is_not_named(rt: HostRuntime) -> Result<(), Fail> {
    let line = line_of_unknown(&rt)?;
    assert!(&rt; line.as_slice() == b"illcanon: cannot open A\n".as_slice());
    Ok(())
}
