//! Contracts that leave one result, for the writer: what the calls return is proved of their contracts alone. So a body that returns
//! or writes anything else doesn't meet its contract. That memory was refused is the one result that may always come.
ghost use Rattle.std.specs.Prelude.{◌≡◌, IfOk};
ghost use Rattle.ill_write.specs.Sizes.{contents_of};

use ber_core::{Room, Sink, put_all};
use ill_schema::Message;
use ill_write::{Sizes, WriteFailure, normal_bytes, write_normal};
use std::alloc::{AllocError, Global};

/// Messages of one APDU have one normal form.
fn apdus_have_one_normal_form(
    one: &Message,
    other: &Message,
    alloc: Global,
) -> Result<(), AllocError> {
    if one.same_apdu(other) {
        let octets = normal_bytes(alloc, one)?;
        let same = normal_bytes(alloc, other)?;
        prove!(octets == same);
    }
    Ok(())
}

/// The sizes of a message are measured in one way, and the total is the size of its normal form.
fn sizes_are_measured_in_one_way(
    message: &Message,
    alloc: Global,
) -> Result<(Sizes, Sizes), AllocError>
    ensures { IfOk result (λ sizes. contents_of sizes.0 ≡ contents_of sizes.1) }
{
    let sizes = Sizes::measure(alloc, message)?;
    let octets = normal_bytes(alloc, message)?;
    prove!(sizes.total() as usize == octets.len());
    Ok((sizes, Sizes::measure(alloc, message)?))
}

/// A sink gets the normal form, its first octets where the sink breaks, and nothing where memory runs out.
fn sinks_get_the_normal_form(
    message: &Message,
    breaks_at: Option<usize>,
    alloc: Global,
) -> Result<(), AllocError> {
    let octets = normal_bytes(alloc, message)?;
    let mut sink: Room<64> = Room::new(1, breaks_at);
    match write_normal(alloc, message, &mut sink) {
        Ok(n) => {
            prove!(n as usize == octets.len());
            prove!(sink.octets() == octets.as_slice());
        }
        Err(WriteFailure::WriteFault(n)) => {
            prove!((n as usize) < octets.len());
            prove!(sink.octets() == &octets[..n as usize]);
            prove!(sink.broken());
        }
        Err(WriteFailure::OutOfMemory) => {
            prove!(sink.octets().is_empty());
        }
    }
    Ok(())
}

/// A sink takes all the octets, or it breaks and it is reported how many it took.
fn sinks_take_all_or_tell_how_many(octets: &[u8], breaks_at: Option<usize>) {
    let mut sink: Room<64> = Room::new(1, breaks_at);
    match put_all(&mut sink, octets) {
        Ok(()) => {
            prove!(sink.octets() == octets);
        }
        Err(n) => {
            prove!(n < octets.len());
            prove!(sink.octets() == &octets[..n]);
            prove!(sink.broken());
        }
    }
}
