//! Contracts that leave one result: what two calls on the same arguments return is proved equal of their contracts alone. So a body
//! that returns anything else doesn't meet its contract. That memory was refused, and that a source or the sink broke, are the results
//! that may come besides.
ghost use Rattle.std.specs.Prelude.{◌≡◌, ◌≤◌, ◌+◌, ℕ, Bool, List, [], Ok, Err, true, false, IfOk, IfErr, length};
ghost use Rattle.ber_leaf.specs.Profile.{profile_two};
ghost use Rattle.ill_inputs.specs.Inputs.{IsResourceFault};
ghost use Rattle.ill_grammar.specs.Outline.{IsOutlineOf};
ghost use Rattle.ill_schema.specs.Apdu.{Apdu, SpellsApdu, choice_of};
ghost use Rattle.ill_schema.specs.Profiles.{profile_of};
ghost use Rattle.ill_schema.specs.Fits.{FitsApdu};
ghost use Rattle.ill_schema.specs.Message.{apdu_of};
ghost use Rattle.ill_normal.specs.declared.messages.OnRefusal.{OnRefusal as Mode};

use ber_core::{Pieces, Room, Sink, Source};
use ill_commands::{
    Job, JobOptions, LineJob, ReportRefusals, RunFault, StreamEnd, Verdict, run_as, run_job,
    run_lines_as, run_same_as, run_with,
};
use ill_json::{LineHead, json_line};
use ill_normal::{NoReports, Refusal, Side};
use ill_read::Outline;
use ill_schema::{Message, Profile};
use ill_text::{Text, show_text};
use std::alloc::{AllocError, Global};

/// Two messages of one APDU are shown by one text.
fn apdus_are_shown_in_one_way(
    number: u32,
    message: &Message,
    other: &Message,
    alloc: Global,
) -> Result<(Vec<u8>, Vec<u8>), AllocError>
    requires { apdu_of message.now ≡ apdu_of other.now }
    ensures { IfOk result (λ texts. texts.0.items ≡ texts.1.items) }
{
    Ok((
        show_text(alloc, number, message)?,
        show_text(alloc, number, other)?,
    ))
}

/// Two outlines of one APDU have one text in each profile.
fn outlines_have_one_text(
    profile: Profile,
    number: u32,
    outline: Outline,
    other: Outline,
    alloc: Global,
) -> Result<(Vec<u8>, Vec<u8>), AllocError>
    requires { (a : Apdu) × (octets : List ℕ) × SpellsApdu (profile_of profile) a octets
        × IsOutlineOf outline a × IsOutlineOf other a }
    ensures { IfOk result (λ texts. texts.0.items ≡ texts.1.items) }
{
    Ok((
        Text::new_as(profile, number, outline).octets(alloc)?,
        Text::new_as(profile, number, other).octets(alloc)?,
    ))
}

/// Two outlines of one APDU have one line of JSON in each profile.
fn outlines_have_one_line_of_json(
    profile: Profile,
    file: Option<&str>,
    head: LineHead,
    outline: &Outline,
    other: &Outline,
    alloc: Global,
) -> Result<(Vec<u8>, Vec<u8>), AllocError>
    ensures { (a : Apdu) → IsOutlineOf outline.now a → IsOutlineOf other.now a
        → IfOk result (λ lines. lines.0.items ≡ lines.1.items) }
{
    Ok((
        json_line(alloc, profile, Vec::new(alloc), file, head, outline)?,
        json_line(alloc, profile, Vec::new(alloc), file, head, other)?,
    ))
}

/// Two APDUs that fit the tables have one line of JSON only where they are one, whatever else it says of their messages.
fn lines_of_json_are_of_one_apdu(
    file: Option<&str>,
    head: LineHead,
    other_head: LineHead,
    outline: &Outline,
    other: &Outline,
    alloc: Global,
) -> Result<(Vec<u8>, Vec<u8>), AllocError>
    ensures { (a b : Apdu) → IsOutlineOf outline.now a → IsOutlineOf other.now b
        → FitsApdu profile_two a → FitsApdu profile_two b
        → IfOk result (λ lines. lines.0.items ≡ lines.1.items → choice_of a ≡ choice_of b) }
{
    Ok((
        json_line(alloc, Profile::Two, Vec::new(alloc), file, head, outline)?,
        json_line(
            alloc,
            Profile::Two,
            Vec::new(alloc),
            file,
            other_head,
            other,
        )?,
    ))
}

/// Equal inputs have one verdict in each profile. Where one has a verdict, the other is not refused.
fn inputs_have_one_verdict(
    profile: Profile,
    job: Job,
    hex: bool,
    source: &mut Pieces,
    sink: &mut Room<64>,
    other: &mut Pieces,
    other_sink: &mut Room<64>,
    alloc: Global,
) -> (Result<Verdict, RunFault>, Result<Verdict, RunFault>)
    requires { source.old.octets ≡ other.old.octets }
    ensures verdict { (v w : Verdict) → result.0 ≡ Ok v → result.1 ≡ Ok w → v ≡ w }
    ensures fault { (v : Verdict) (e : RunFault) → result.0 ≡ Ok v → result.1 ≡ Err e → IsResourceFault e }
{
    (
        run_as(alloc, profile, job, hex, source, sink),
        run_as(alloc, profile, job, hex, other, other_sink),
    )
}

/// Equal inputs with one result, whatever it is, have one output in each profile, unless memory, a source or a sink fails.
fn inputs_have_one_output(
    profile: Profile,
    job: Job,
    hex: bool,
    source: &mut Pieces,
    sink: &mut Room<64>,
    other: &mut Pieces,
    other_sink: &mut Room<64>,
    alloc: Global,
) -> (Result<Verdict, RunFault>, Result<Verdict, RunFault>)
    requires source { source.old.octets ≡ other.old.octets }
    requires sink { sink.old.octets ≡ other_sink.old.octets }
    ensures { result.0 ≡ result.1 → IfErr result.0 (λ e. IsResourceFault e → ⊥)
        → sink.new.octets ≡ other_sink.new.octets }
{
    (
        run_as(alloc, profile, job, hex, source, sink),
        run_as(alloc, profile, job, hex, other, other_sink),
    )
}

/// A read fault is of a source that is broken, and a write fault of a sink that is.
fn jobs_fail_where_something_is_broken(
    profile: Profile,
    job: Job,
    hex: bool,
    source: &mut Pieces,
    sink: &mut Room<64>,
    alloc: Global,
) {
    match run_as(alloc, profile, job, hex, source, sink) {
        Err(RunFault::ReadFault) => {
            prove!(source.broken());
        }
        Err(RunFault::WriteFault(_)) => {
            prove!(sink.broken());
        }
        _ => {}
    }
}

/// A job that goes on after a message that is refused has one result, too.
fn jobs_that_go_on_fail_where_something_is_broken<T: ReportRefusals>(
    work: JobOptions<'_>,
    source: &mut Pieces,
    sink: &mut Room<64>,
    reports: &mut T,
    alloc: Global,
) {
    let end = run_job(alloc, work, source, sink, reports);
    match end.fault {
        Some(RunFault::ReadFault) => {
            prove!(source.broken());
        }
        Some(RunFault::WriteFault(_)) => {
            prove!(sink.broken());
        }
        _ => {}
    }
}

/// A job on lines has one result, too.
fn lines_fail_where_something_is_broken(
    profile: Profile,
    job: LineJob,
    source: &mut Pieces,
    sink: &mut Room<64>,
    alloc: Global,
) {
    match run_lines_as(alloc, profile, job, source, sink) {
        Err(RunFault::ReadFault) => {
            prove!(source.broken());
        }
        Err(RunFault::WriteFault(_)) => {
            prove!(sink.broken());
        }
        _ => {}
    }
}

/// Equal inputs have one output of lines in each profile, and one result of whether all are good.
fn lines_have_one_output(
    profile: Profile,
    job: LineJob,
    source: &mut Pieces,
    sink: &mut Room<64>,
    other: &mut Pieces,
    other_sink: &mut Room<64>,
    alloc: Global,
) -> (Result<bool, RunFault>, Result<bool, RunFault>)
    requires source { source.old.octets ≡ other.old.octets }
    requires sink { sink.old.octets ≡ other_sink.old.octets }
    ensures good { (g h : Bool) → result.0 ≡ Ok g → result.1 ≡ Ok h → g ≡ h }
    ensures output { (g h : Bool) → result.0 ≡ Ok g → result.1 ≡ Ok h
        → sink.new.octets ≡ other_sink.new.octets }
{
    (
        run_lines_as(alloc, profile, job, source, sink),
        run_lines_as(alloc, profile, job, other, other_sink),
    )
}

/// A write fault of a job counts the octets that the sink took of the whole output.
fn write_faults_count_what_the_sink_took(
    work: JobOptions<'_>,
    source: &mut Pieces,
    sink: &mut Room<64>,
    alloc: Global,
) -> Result<Verdict, RunFault>
    requires plain { work.hex ≡ false }
    requires empty { sink.old.octets ≡ [] }
    ensures { (n : ℕ) → result ≡ Err (RunFault.WriteFault n) → length sink.new.octets ≡ n }
{
    run_with(alloc, work, source, sink)
}

/// Of a text at most 4,194,305 octets are taken, whatever the result.
fn texts_are_taken_to_their_bound(
    work: JobOptions<'_>,
    source: &mut Pieces,
    sink: &mut Room<64>,
    alloc: Global,
) -> Result<Verdict, RunFault>
    requires { work.hex ≡ true }
    ensures { length source.old.octets ≤ 4_194_305 + length source.new.octets }
{
    run_with(alloc, work, source, sink)
}

/// After 1,000,000 accepted messages at most one octet is taken, whatever the result.
fn inputs_are_taken_to_their_limit(
    work: JobOptions<'_>,
    source: &mut Pieces,
    sink: &mut Room<64>,
    alloc: Global,
) -> StreamEnd
    requires plain { work.hex ≡ false }
    requires stops { work.on_refusal ≡ Mode.Stop }
    ensures { result.counts.messages ≡ 1_000_000 + result.counts.refused
        → length source.old.octets ≤ result.counts.octets + 1 + length source.new.octets }
{
    let reports = &mut NoReports;
    run_job(alloc, work, source, sink, reports)
}

/// Equal pairs of inputs have one verdict in each profile, and one line is written. Where one pair has a verdict, the other is not refused.
fn pairs_have_one_verdict(
    profile: Profile,
    hex: bool,
    first: &mut Pieces,
    second: &mut Pieces,
    other_first: &mut Pieces,
    other_second: &mut Pieces,
    sink: &mut Room<64>,
    other_sink: &mut Room<64>,
    alloc: Global,
) -> (Result<Verdict, RunFault>, Result<Verdict, RunFault>)
    requires first { first.old.octets ≡ other_first.old.octets }
    requires second { second.old.octets ≡ other_second.old.octets }
    requires sink { sink.old.octets ≡ other_sink.old.octets }
    ensures verdict { (v w : Verdict) → result.0 ≡ Ok v → result.1 ≡ Ok w → v ≡ w }
    ensures line { (v w : Verdict) → result.0 ≡ Ok v → result.1 ≡ Ok w
        → sink.new.octets ≡ other_sink.new.octets }
    ensures fault { (v : Verdict) (e : RunFault) → result.0 ≡ Ok v → result.1 ≡ Err e → IsResourceFault e }
{
    (
        run_same_as(alloc, profile, hex, first, second, sink),
        run_same_as(alloc, profile, hex, other_first, other_second, other_sink),
    )
}

/// A read fault is of an input that is broken, and a write fault of a sink that is. Without a verdict or a write fault nothing is written.
fn pairs_fail_where_something_is_broken(
    profile: Profile,
    hex: bool,
    first: &mut Pieces,
    second: &mut Pieces,
    sink: &mut Room<64>,
    alloc: Global,
) {
    let before = sink.octets().len();
    match run_same_as(alloc, profile, hex, first, second, sink) {
        Ok(_) => {}
        Err(RunFault::WriteFault(_)) => {
            prove!(sink.broken());
        }
        Err(RunFault::ReadFault) => {
            prove!((first.broken() || second.broken()) && sink.octets().len() == before);
        }
        Err(_) => {
            prove!(sink.octets().len() == before);
        }
    }
}

/// Of equal pairs one side is refused, with one refusal in each profile. At most 1,048,577 octets are taken of the first.
fn pairs_are_refused_in_one_way(
    profile: Profile,
    first: &mut Pieces,
    second: &mut Pieces,
    other_first: &mut Pieces,
    other_second: &mut Pieces,
    sink: &mut Room<64>,
    other_sink: &mut Room<64>,
    alloc: Global,
) -> (Result<Verdict, RunFault>, Result<Verdict, RunFault>)
    requires first { first.old.octets ≡ other_first.old.octets }
    requires second { second.old.octets ≡ other_second.old.octets }
    ensures refusal { (s t : Side) (x y : Refusal) → result.0 ≡ Err (RunFault.RefusedSide s x)
        → result.1 ≡ Err (RunFault.RefusedSide t y) → (s ≡ t) × (x ≡ y) }
    ensures taken { length first.old.octets ≤ 1_048_577 + length first.new.octets }
{
    (
        run_same_as(alloc, profile, false, first, second, sink),
        run_same_as(alloc, profile, false, other_first, other_second, other_sink),
    )
}

/// Of two texts the first that is invalid is reported.
fn texts_are_refused_in_order(
    profile: Profile,
    first: &mut Pieces,
    second: &mut Pieces,
    other_first: &mut Pieces,
    other_second: &mut Pieces,
    sink: &mut Room<64>,
    other_sink: &mut Room<64>,
    alloc: Global,
) -> (Result<Verdict, RunFault>, Result<Verdict, RunFault>)
    requires first { first.old.octets ≡ other_first.old.octets }
    requires second { second.old.octets ≡ other_second.old.octets }
    ensures { (i : ℕ) → result.0 ≡ Err RunFault.OddHex → result.1 ≡ Err (RunFault.BadHex i) → ⊥ }
{
    (
        run_same_as(alloc, profile, true, first, second, sink),
        run_same_as(alloc, profile, true, other_first, other_second, other_sink),
    )
}
