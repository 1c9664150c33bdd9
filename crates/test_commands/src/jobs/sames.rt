//! Results of `run_same`, row by row.
use ber_core::{Pieces, ToWrite};
use ill_commands::{RunFault, Verdict, run_same};
use ill_normal::{Cause, Refusal, Side};
use std::alloc::{AllocError, Global};
use std::test::Fail;
use test_support::octets_of;

static ROWS: [(&str, &str, &str, Result<Verdict, RunFault>); 9] = [
    (
        "indefinite-same-as-definite",
        "74803080800102a180a1801b01470000a2801b015100000000a280a080800832303234303232390000000000000000",
        "741f301d800102a10aa1031b0147a2031b0151a20ca00a80083230323430323239",
        Ok(Verdict::Good),
    ),
    (
        "visible-differs-from-general",
        "741f301d800102a10aa1031a0147a2031b0151a20ca00a80083230323430323239",
        "741f301d800102a10aa1031b0147a2031b0151a20ca00a80083230323430323239",
        Ok(Verdict::NotGood),
    ),
    (
        "empty-sequence-differs-from-absent",
        "61363034800102a10aa1031b0147a2031b0151a20ca00a80083230323430323239a9030a0101ab0c800100810100820101830101af00b000",
        "61343032800102a10aa1031b0147a2031b0151a20ca00a80083230323430323239a9030a0101ab0c800100810100820101830101b000",
        Ok(Verdict::NotGood),
    ),
    (
        "leap-second-differs-from-end-of-day",
        "74273025800102a10aa1031b0147a2031b0151a214a012800832303234303232398106323335393630",
        "74273025800102a10aa1031b0147a2031b0151a214a012800832303234303232398106323430303030",
        Ok(Verdict::NotGood),
    ),
    (
        "end-of-day-differs-from-start-of-day",
        "74273025800102a10aa1031b0147a2031b0151a214a012800832303234303232398106323430303030",
        "74273025800102a10aa1031b0147a2031b0151a214a012800832303234303232398106303030303030",
        Ok(Verdict::NotGood),
    ),
    (
        "leap-second-differs-from-start-of-day",
        "74273025800102a10aa1031b0147a2031b0151a214a012800832303234303232398106323335393630",
        "74273025800102a10aa1031b0147a2031b0151a214a012800832303234303232398106303030303030",
        Ok(Verdict::NotGood),
    ),
    (
        "same-message-second-refused",
        "741f301d800102a10aa1031b0147a2031b0151a20ca00a80083230323430323239",
        "7421301f800102a10ca1053a031a0147a2031b0151a20ca00a80083230323430323239",
        Err(RunFault::RefusedSide(
            Side::Second,
            Refusal {
                at: 13,
                cause: Cause::UnexpectedTag,
            },
        )),
    ),
    (
        "same-with-empty-first",
        "",
        "741f301d800102a10aa1031b0147a2031b0151a20ca00a80083230323430323239",
        Err(RunFault::RefusedSide(
            Side::First,
            Refusal {
                at: 0,
                cause: Cause::Truncated,
            },
        )),
    ),
    (
        "same-with-trailing-second",
        "741f301d800102a10aa1031b0147a2031b0151a20ca00a80083230323430323239",
        "741f301d800102a10aa1031b0147a2031b0151a20ca00a80083230323430323239741f301d800102a10aa1031b0147a2031b0151a20ca00a80083230323430323239",
        Err(RunFault::RefusedSide(
            Side::Second,
            Refusal {
                at: 33,
                cause: Cause::TrailingBytes,
            },
        )),
    ),
];

fn line_of(answer: &Result<Verdict, RunFault>) -> &'static [u8] {
    match answer {
        Ok(Verdict::Good) => b"same\n",
        Ok(Verdict::NotGood) => b"different\n",
        Err(_) => b"",
    }
}

/// Tells whether a comparison has this result and writes its line.
fn is_compared(
    alloc: Global,
    hex: bool,
    (first, second): (&[u8], &[u8]),
    wanted: &Result<Verdict, RunFault>,
) -> bool {
    let mut first = Pieces::new(first, 5, None);
    let mut second = Pieces::new(second, 4096, None);
    let mut written = Vec::new(alloc);
    let mut sink = ToWrite::new(&mut written);
    let answer = run_same(alloc, hex, &mut first, &mut second, &mut sink);
    answer == *wanted && written.as_slice() == line_of(wanted)
}

fn comes_true(
    alloc: Global,
    one: &str,
    other: &str,
    wanted: &Result<Verdict, RunFault>,
) -> Result<bool, AllocError> {
    let first = octets_of(alloc, one)?;
    let second = octets_of(alloc, other)?;
    Ok(
        is_compared(alloc, false, (&first, &second), wanted)
            && is_compared(alloc, true, (one.as_bytes(), other.as_bytes()), wanted),
    )
}

/// As octets, and as hexadecimal text.
#[test]
fn each_comparison_has_its_answer(rt: HostRuntime) -> Result<(), Fail> {
    for (name, one, other, wanted) in &ROWS {
        assert!(rt; comes_true(rt.alloc(), one, other, wanted)?, "{name}");
    }
    Ok(())
}

#[test]
fn a_fault_of_the_second_text_comes_before_a_refusal_of_the_first(rt: HostRuntime) {
    let wanted = Err(RunFault::BadHex(1));
    assert!(rt; is_compared(rt.alloc(), true, (b"75", b"7 G"), &wanted));
}
