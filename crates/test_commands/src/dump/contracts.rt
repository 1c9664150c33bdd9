//! Contracts that leave one result: what the calls return is proved of their contracts alone. So a body that returns anything else
//! doesn't meet its contract.
ghost use Rattle.std.specs.Prelude.{◌≡◌, ℕ, List, [], length, false, Some, None};
ghost use Rattle.std.specs.Io.KnownBytes.{Appends};
ghost use Rattle.ill_schema.specs.Apdu.{Apdu, IsStream};
ghost use Rattle.ill_schema.specs.Profiles.{profile_of};
ghost use Rattle.ill_inputs.specs.Inputs.{IsResourceFault};
ghost use Rattle.ill_inputs.specs.declared.run_fault.RunFault.{RunFault};
ghost use Rattle.ill_normal.specs.declared.messages.OnRefusal.{OnRefusal as Mode};
ghost use Rattle.test_commands.specs.Heads.{AreHeaded};

use ber_core::{Pieces, Room, Sink, Source};
use ill_commands::RunFault;
use ill_dump::{DumpOptions, run_dump};
use ill_normal::{NoReports, StreamEnd};
use ill_schema::Refusal;
use std::alloc::Global;

/// Equal inputs end in one way: where one is dumped to its end, the other is too, unless memory, the source or the sink fails.
fn inputs_end_in_one_way(
    dump: DumpOptions<'_>,
    source: &mut Pieces,
    sink: &mut Room<64>,
    other: &mut Pieces,
    other_sink: &mut Room<64>,
    alloc: Global,
) -> (StreamEnd, StreamEnd)
    requires plain { dump.hex ≡ false }
    requires all { dump.only ≡ None }
    requires ends { dump.on_refusal ≡ Mode.EndWith }
    requires same { source.old.octets ≡ other.old.octets }
    ensures { (e : RunFault) → result.0.fault ≡ None → result.1.fault ≡ Some e → IsResourceFault e }
{
    (
        run_dump(alloc, dump, source, sink, &mut NoReports),
        run_dump(alloc, dump, other, other_sink, &mut NoReports),
    )
}

/// Each message of an input that is dumped to its end is counted and written, and each up to one that is refused, which is written, too. The lines
/// of each begin with its head.
fn each_message_is_dumped(
    dump: DumpOptions<'_>,
    source: &mut Pieces,
    sink: &mut Room<64>,
    alloc: Global,
) -> StreamEnd
    requires plain { dump.hex ≡ false }
    requires all { dump.only ≡ None }
    requires ends { dump.on_refusal ≡ Mode.EndWith }
    ensures whole { (as' : List Apdu)
        → IsStream (profile_of dump.entry.profile) source.old.octets as' [] → result.fault ≡ None
        → (result.counts.messages ≡ length as') × ((lines : List ℕ)
        × AreHeaded dump.entry 1 (length as') lines
        × Appends (Some sink.old.octets) (Some sink.new.octets) lines) }
    ensures refused { (i : ℕ) (refusal : Refusal)
        → result.fault ≡ Some (RunFault.Refused i refusal)
        → (result.counts.messages ≡ i) × ((lines : List ℕ) × AreHeaded dump.entry 1 i lines
        × Appends (Some sink.old.octets) (Some sink.new.octets) lines) }
{
    run_dump(alloc, dump, source, sink, &mut NoReports)
}

/// A read fault is of a source that is broken, and a write fault of a sink that is.
fn dumps_fail_where_something_is_broken(
    dump: DumpOptions<'_>,
    source: &mut Pieces,
    sink: &mut Room<64>,
    alloc: Global,
) {
    let end = run_dump(alloc, dump, source, sink, &mut NoReports);
    match end.fault {
        Some(RunFault::ReadFault) => {
            prove!(source.broken());
        }
        Some(RunFault::WriteFault(_)) => {
            prove!(sink.broken());
        }
        _ => {}
    }
}
