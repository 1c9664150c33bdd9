//! Dumps out of sources and into sinks that break, and without memory.

mod contracts;
mod skipping;

use ber_core::{Pieces, Room, Sink, Source, ToWrite};
use ill_commands::RunFault;
use ill_dump::{DumpFormat, DumpOptions, run_dump};
use ill_normal::{NoReports, OnRefusal};
use ill_schema::Profile;
use std::alloc::{AllocError, Global};
use std::test::Fail;
use test_support::{MemoryHog, octets_of};

/// An EXPIRED whose outermost length is not in the shortest form, whose SEQUENCE is indefinite, and whose date is in segments.
const SPELLED: &str =
    "7481253080800102a10aa1031b0147a2031b0151a210a00ea00c0404323032340404303232390000";

/// Its dump.
const NOTED: &str = "message 1: Expired, 40 octets, not normal, normal form 33 octets
      0  74 81 25  Expired  (length in 2 octets; 1 is enough)
      3    30 80  SEQUENCE  (indefinite)
      5      80 01  protocol-version-num = 2
      8      a1 0a  transaction-id
     10        a1 03  transaction-group-qualifier
     12          1b 01  GeneralString = \"G\"
     15        a2 03  transaction-qualifier
     17          1b 01  GeneralString = \"Q\"
     20      a2 10  service-date-time
     22        a0 0e  date-time-of-this-service
     24          a0 0c  date  (in segments)
     26            04 04  OCTET STRING = \"2024\"  (segment)
     32            04 04  OCTET STRING = \"0229\"  (segment)
     38    00 00  end mark
";

/// An EXPIRED in normal form, and then one whose second row is missing.
const REFUSED: &str =
    "741f301d800102a10aa1031b0147a2031b0151a20ca00a8008323032343032323974053003800102";

/// Its dump.
const LINES: &str = "message 1: Expired, 33 octets, normal
      0  74 1f  Expired
      2    30 1d  SEQUENCE
      4      80 01  protocol-version-num = 2
      7      a1 0a  transaction-id
      9        a1 03  transaction-group-qualifier
     11          1b 01  GeneralString = \"G\"
     14        a2 03  transaction-qualifier
     16          1b 01  GeneralString = \"Q\"
     19      a2 0c  service-date-time
     21        a0 0a  date-time-of-this-service
     23          80 08  date = 20240229
message 2: refused
      0  74 05  Expired
      2    30 03  SEQUENCE
      4      80 01  protocol-version-num = 2
refused at 7: Missing Expired.transaction-id
    the element ends before a mandatory part
    clause X.690, 8.9.3 and 8.14, with the types of ISO 10161-1
    path Expired
    found the end of the element
    due [1] transaction-id
";

const PLAIN: DumpOptions<'static> = DumpOptions {
    profile: Profile::Two,
    hex: false,
    name: "-",
    names_input: false,
    only: None,
    format: DumpFormat::Text,
    on_refusal: OnRefusal::EndWith,
};

/// The pieces in which octets come from a source, and go into a sink.
#[derive(Clone, Copy)]
struct Transfer {
    /// As many octets a call of the source, and of the sink.
    per_call: (usize, usize),
    source_breaks: Option<usize>,
    sink_breaks: Option<usize>,
}

/// In pieces of up to 64 octets, and nothing breaks.
const SOUND: Transfer = Transfer {
    per_call: (64, 2048),
    source_breaks: None,
    sink_breaks: None,
};

/// The number of messages that a dump went through, or the reason why it ended before.
fn result_of<R: Source, W: Sink>(
    alloc: Global,
    dump: DumpOptions<'_>,
    source: &mut R,
    sink: &mut W,
) -> Result<u32, RunFault> {
    let reports = &mut NoReports;
    let end = run_dump(alloc, dump, source, sink, reports);
    match end.fault {
        None => Ok(end.counts.messages),
        Some(fault) => Err(fault),
    }
}

/// The result of a dump, and how many octets the sink has, None where they are not the first of the text.
fn dumped(
    alloc: Global,
    dump: DumpOptions<'_>,
    octets: &[u8],
    text: &str,
    transfer: Transfer,
) -> (Result<u32, RunFault>, Option<usize>) {
    let mut source = Pieces::new(octets, transfer.per_call.0.max(1), transfer.source_breaks);
    let mut sink: Room<2048> = Room::new(transfer.per_call.1.max(1), transfer.sink_breaks);
    let result = result_of(alloc, dump, &mut source, &mut sink);
    let written = sink.octets();
    let count = text
        .as_bytes()
        .starts_with(written)
        .then_some(written.len());
    (result, count)
}

/// Tells whether the second message is refused at 7.
fn is_refused(done: &Result<u32, RunFault>) -> bool {
    match done {
        Err(RunFault::Refused { message, refusal }) => *message == 2 && refusal.at == 7,
        _ => false,
    }
}

#[test]
fn a_dump_is_the_same_in_pieces_of_any_size(rt: HostRuntime) -> Result<(), Fail> {
    let octets = octets_of(rt.alloc(), REFUSED)?;
    for size in [1, 2, 7, 64] {
        let transfer = Transfer {
            per_call: (size, 2048),
            ..SOUND
        };
        let (result, count) = dumped(rt.alloc(), PLAIN, &octets, LINES, transfer);
        assert!(rt; is_refused(&result) && count == Some(LINES.len()), "{size}");
    }
    Ok(())
}

/// A dump of hexadecimal text from a file whose name is printed.
const NAMED: DumpOptions<'static> = DumpOptions {
    profile: Profile::Two,
    hex: true,
    name: "a b",
    names_input: true,
    only: None,
    format: DumpFormat::Text,
    on_refusal: OnRefusal::EndWith,
};

#[test]
fn a_dump_of_a_named_file_names_it(rt: HostRuntime) {
    let mut source = Pieces::new(REFUSED.as_bytes(), 64, None);
    let mut sink: Room<2048> = Room::new(2048, None);
    let result = result_of(rt.alloc(), NAMED, &mut source, &mut sink);
    let head = b"a b: message 1: Expired, 33 octets, normal\n";
    assert!(rt; is_refused(&result) && sink.octets().starts_with(head));
}

#[test]
fn what_is_not_normal_is_noted(rt: HostRuntime) -> Result<(), Fail> {
    let octets = octets_of(rt.alloc(), SPELLED)?;
    let found = dumped(rt.alloc(), PLAIN, &octets, NOTED, SOUND);
    assert!(rt; found == (Ok(1), Some(NOTED.len())));
    Ok(())
}

#[test]
fn a_broken_sink_has_the_first_octets(rt: HostRuntime) -> Result<(), Fail> {
    let octets = octets_of(rt.alloc(), REFUSED)?;
    for n in [0, 1, 37, 38, 500, LINES.len() - 1] {
        let transfer = Transfer {
            per_call: (64, 64),
            sink_breaks: Some(n),
            ..SOUND
        };
        let fault = Err(RunFault::WriteFault(n as u128));
        assert!(rt;
            dumped(rt.alloc(), PLAIN, &octets, LINES, transfer) == (fault, Some(n)),
            "{n}"
        );
    }
    Ok(())
}

#[test]
fn a_broken_source_is_a_read_fault(rt: HostRuntime) -> Result<(), Fail> {
    let octets = octets_of(rt.alloc(), REFUSED)?;
    for n in [0, 1, 32, 33, 39] {
        let transfer = Transfer {
            source_breaks: Some(n),
            ..SOUND
        };
        let (result, _) = dumped(rt.alloc(), PLAIN, &octets, LINES, transfer);
        assert!(rt; result == Err(RunFault::ReadFault), "{n}");
    }
    Ok(())
}

#[test]
fn without_memory_nothing_is_written(rt: HostRuntime) -> Result<(), Fail> {
    let octets = octets_of(rt.alloc(), REFUSED)?;
    let hoard = MemoryHog::of_all(rt.alloc())?;
    let found = dumped(rt.alloc(), PLAIN, &octets, LINES, SOUND);
    drop(hoard);
    assert!(rt; found == (Err(RunFault::OutOfMemory), Some(0)));
    Ok(())
}

/// An EXPIRED with an extension in indefinite lengths, whose default is written.
const EXTENDED: &str =
    "74343032800102a10aa1031b0147a2031b0151a20ca00a80083230323430323239bf31123010800101810100a2803080050000000000";

/// Its dump in the module profile: an element of its foreign tree has the name of its tag.
const EXTENDED_LINES: &str = "message 1: Expired, 54 octets, not normal, normal form 47 octets
      0  74 34  Expired
      2    30 32  SEQUENCE
      4      80 01  protocol-version-num = 2
      7      a1 0a  transaction-id
      9        a1 03  transaction-group-qualifier
     11          1b 01  GeneralString = \"G\"
     14        a2 03  transaction-qualifier
     16          1b 01  GeneralString = \"Q\"
     19      a2 0c  service-date-time
     21        a0 0a  date-time-of-this-service
     23          80 08  date = 20240229
     33      bf 31 12  expired-extensions
     36        30 10  item[0]
     38          80 01  identifier = 1
     41          81 01  critical = FALSE  (default written)
     44          a2 80  item  (indefinite)
     46            30 80  [UNIVERSAL 16] SEQUENCE  (indefinite)
     48              05 00  [UNIVERSAL 5] NULL = \"\"
     50            00 00  end mark
     52          00 00  end mark
";

/// A RETURNED with an EXTERNAL: its reference, a descriptor in segments, and bits of which unused ones are not 0.
const EXTERNAL: &str =
    "6a493047800102a10aa1031b0147a2031b0151a20ca00a80083230323430323239b11d281b06072a8648ce13050a270c04054d4152433204031b0e41820203ff9f25083230323430323239";

/// The lines of the EXTERNAL.
const EXTERNAL_LINES: &str = "     33      b1 1d  supplemental-item-description
     35        28 1b  item[0]
     37          06 07  direct-reference = 1.2.840.10003.5.10
     46          27 0c  data-value-descriptor  (in segments)
     48            04 05  OCTET STRING = \"MARC2\"  (segment)
     55            04 03  OCTET STRING = \"\\x1b\\x0eA\"  (segment)
     60          82 02  encoding.arbitrary = bits 5 ff  (unused bits are not 0)
     64      9f 25 08  date-returned = 20240229
";

/// An ILL-REQUEST whose item has two EXTERNALs in explicit tags.
const ITEM: &str =
    "61423040800102a10aa1031b0147a2031b0151a20ca00a80083230323430323239a9030a0101ab0c800100810100820101830101b00eb1052803810141b4052803820100";

/// The lines of the item.
const ITEM_LINES: &str = "     52      b0 0e  item-id
     54        b1 05  national-bibliography-no
     56          28 03  EXTERNAL
     58            81 01  encoding.octet-aligned = \"A\"
     61        b4 05  system-no
     63          28 03  EXTERNAL
     65            82 01  encoding.arbitrary = bits 0
";

/// The lines of a dump in profile 2 for the extension, which it doesn't read, and whose elements are listed by their framing.
const HINT: &str = "refused at 33: LeftOut Expired.expired-extensions
    this part is not read
    clause limit of illcanon
    path Expired.expired-extensions
    found [49] constructed: bf 31
    --profile module reads this part
     33      bf 31 12  expired-extensions  (not judged)
     36        30 10  [UNIVERSAL 16] SEQUENCE  (not judged)
     38          80 01  [0] = 01  (not judged)
     41          81 01  [1] = 00  (not judged)
     44          a2 80  [2]  (not judged)
     46            30 80  [UNIVERSAL 16] SEQUENCE  (not judged)
     48              05 00  [UNIVERSAL 5] NULL = \"\"  (not judged)
     50            00 00  end mark  (not judged)
     52          00 00  end mark  (not judged)
";

/// A SHIPPED whose units per medium have the module's tags, and the end of its dump in profile 2.
const UNITS: &str =
    "63323030800102a10aa1031b0147a2031b0151a20ca00a800832303234303232399b0101bd0ea80c300aa0030a0101a103020101";

const UNITS_LINES: &str = "refused at 42: WrongForm
    its form, primitive or constructed, is not the one expected here
    clause X.690, 8.2.1, 8.3.1, 8.8.1, 8.9.1, 8.10.1, 8.14 and 8.19.1
    path Shipped.supply-details.no-of-units-per-medium.item[0].medium
    found [0] constructed: a0
    due [0] primitive: 80
    --profile module has other tags here
     42            a0 03  medium  (not judged)
     44              0a 01  [UNIVERSAL 10] ENUMERATED = 01  (not judged)
     47            a1 03  [1]  (not judged)
     49              02 01  [UNIVERSAL 2] INTEGER = 01  (not judged)
";

/// An ILL-ANSWER whose reason has the module's tag, and the end of its dump in profile 2.
const REASON: &str =
    "642f302d800102a10aa1031b0147a2031b0151a20ca00a800832303234303232399f1f0105bf2009a5073005a0030a0101";

const REASON_LINES: &str = "refused at 44: WrongForm
    its form, primitive or constructed, is not the one expected here
    clause X.690, 8.2.1, 8.3.1, 8.8.1, 8.9.1, 8.10.1, 8.14 and 8.19.1
    path ILL-Answer.results-explanation.will-supply-results.reason-will-supply
    found [0] constructed: a0
    due [0] primitive: 80
    --profile module has other tags here
     44            a0 03  reason-will-supply  (not judged)
     46              0a 01  [UNIVERSAL 10] ENUMERATED = 01  (not judged)
";

/// An ILL-ANSWER with conditions and a delivery service that only the module has there, and the end of its dump in profile 2.
const SERVICE: &str =
    "64353033800102a10aa1031b0147a2031b0151a20ca00a800832303234303232399f1f0101bf200fa10d300b800101a7061b04706f7374";

const SERVICE_LINES: &str = "refused at 47: UnexpectedTag
    this tag is not expected here
    clause X.690, 8.9.2, 8.10.2, 8.13 and 8.14, with the types of ISO 10161-1
    path ILL-Answer.results-explanation.conditional-results
    found [7] constructed: a7
    due [1] date-for-reply
    due [2] location-list
    due the end of the element
    --profile module has other tags here
     47            a7 06  [7]  (not judged)
     49              1b 04  [UNIVERSAL 27] GeneralString = \"post\"  (not judged)
";

/// The beginning of a RETURNED with an EXTERNAL, up to 70,000 octets of its encoding; and what comes after them.
const LONG: &str =
    "6a830111ac30830111a7800102a10aa1031b0147a2031b0151a20ca00a80083230323430323239b18301117a28830111758183011170";

const AFTER_LONG: &str = "9f25083230323430323239";

/// The end of its dump: the last octet of the encoding, and the line after it.
const LONG_LINES: &str = "A\"\n  70054      9f 25 08  date-returned = 20240229\n";

/// Tells whether the dump of a message in a profile ends with these lines.
fn ends_with(
    alloc: Global,
    profile: Profile,
    message: &str,
    lines: &str,
) -> Result<bool, AllocError> {
    let octets = octets_of(alloc, message)?;
    let mut source = Pieces::new(&octets, 64, None);
    let mut sink: Room<2048> = Room::new(2048, None);
    let dump = DumpOptions { profile, ..PLAIN };
    let _ = result_of(alloc, dump, &mut source, &mut sink);
    Ok(sink.octets().ends_with(lines.as_bytes()))
}

#[test]
fn elements_of_the_module_are_listed(rt: HostRuntime) -> Result<(), Fail> {
    for (message, lines) in [
        (EXTENDED, EXTENDED_LINES),
        (EXTERNAL, EXTERNAL_LINES),
        (ITEM, ITEM_LINES),
    ] {
        let found = ends_with(rt.alloc(), Profile::Module, message, lines)?;
        assert!(rt; found, "{lines}");
    }
    Ok(())
}

#[test]
fn a_part_that_is_not_read_has_a_hint(rt: HostRuntime) -> Result<(), Fail> {
    for (message, lines) in [
        (EXTENDED, HINT),
        (UNITS, UNITS_LINES),
        (REASON, REASON_LINES),
        (SERVICE, SERVICE_LINES),
    ] {
        let found = ends_with(rt.alloc(), Profile::Two, message, lines)?;
        assert!(rt; found, "{lines}");
    }
    Ok(())
}

/// The dump of the RETURNED with a long EXTERNAL, in the module profile.
fn dump_of_long(alloc: Global) -> Result<Vec<u8>, AllocError> {
    let mut octets = octets_of(alloc, LONG)?;
    octets.extend_from_slice(&vec![in alloc; b'A'; 70_000]?)?;
    octets.extend_from_slice(&octets_of(alloc, AFTER_LONG)?)?;
    let mut source = Pieces::new(&octets, 4096, None);
    let mut written = Vec::new(alloc);
    let mut sink = ToWrite::new(&mut written);
    let dump = DumpOptions {
        profile: Profile::Module,
        ..PLAIN
    };
    let _ = result_of(alloc, dump, &mut source, &mut sink);
    Ok(written)
}

#[test]
fn lines_follow_a_long_value(rt: HostRuntime) -> Result<(), Fail> {
    let text = dump_of_long(rt.alloc())?;
    let head = b"message 1: Returned, 70065 octets, normal\n";
    assert!(rt; text.starts_with(head) && text.ends_with(LONG_LINES.as_bytes()));
    Ok(())
}
