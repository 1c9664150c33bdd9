//! The end of an element, by its identifiers and lengths alone.
ghost use Rattle.ill_c.specs.Calls.{Frames};
ghost use Rattle.ill_c.specs.Memory.{change};
ghost use Rattle.ill_c.specs.Status.{ReturnsStatus};

use crate::status::Status;
use ber_framing::{Framer, Framing};

/// Finds how many octets the framed element has that the octets begin with, whatever they mean.
#[unsafe(no_mangle)]
pub extern "C" fn illcanon_frame(octets: &[u8], size: &mut usize) -> u32
    ensures { ReturnsStatus result (Frames octets.now (change size.old size.new)) }
{
    frame(octets, size).number()
}

fn frame(octets: &[u8], size: &mut usize) -> Status
    ensures { Frames octets.now (change size.old size.new) result }
{
    let mut framer = Framer::new();
    let count = framer.feed(octets);
    match framer.framing() {
        Framing::Whole => {
            *size = count;
            Status::Done
        }
        Framing::Part => Status::NeedsMore,
        Framing::Unframed => Status::Refused,
    }
}
