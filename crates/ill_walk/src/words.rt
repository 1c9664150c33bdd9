//! The place of a refusal in words, for lines of JSON.
use crate::lines::LineBuffer;
use crate::markup::DumpFormat;
use crate::refused_place::RefusedPlace;
use crate::walk::{ElementWalk, Steps};
use ill_inputs::RefusalPlace;
use ill_schema::{Cause, Profile, Refusal, apdu_begun};
use std::alloc::{AllocError, Global};

/// The place of a refusal of the octets in the profile, in the words of a dump: the names round it, what was found there,
/// and what was due. Of a message that is only too long in normal form it has no words, and where no message begins only what was found.
///
/// # Errors
///
/// Memory ran out.
///
/// # Examples
///
/// ```
/// // path "Expired", found "the end of the element", due "[UNIVERSAL 16] SEQUENCE" and "[0] protocol-version-num"
/// let refusal = Refusal { at: 2, cause: Cause::Missing(part) };
/// let place = place_of_refusal(alloc, Profile::Two, &[0x74, 0x00], refusal)?;
/// ```
pub fn place_of_refusal(
    alloc: Global,
    profile: Profile,
    octets: &[u8],
    refusal: Refusal,
) -> Result<RefusalPlace, AllocError> {
    if refusal.cause == Cause::NormalTooLong {
        return Ok(RefusalPlace {
            path: String::new(alloc),
            found: String::new(alloc),
            due: Vec::new(alloc),
        });
    }
    let mut lines = LineBuffer::new(alloc, DumpFormat::Text);
    let mut walk = ElementWalk::new(alloc, profile, refusal.at as usize);
    walk_all(&mut walk, octets, &mut lines)?;
    let place = RefusedPlace::new(&walk, octets, refusal);
    place.put_found(&mut lines)?;
    let found = take_text(alloc, &mut lines)?;
    let mut due = Vec::new(alloc);
    if apdu_begun(octets).is_none() {
        return Ok(RefusalPlace {
            path: String::new(alloc),
            found,
            due,
        });
    }
    let _ = place.put_path(&mut lines)?;
    let path = take_text(alloc, &mut lines)?;
    for one in place.due(alloc)? {
        one.put(&mut lines)?;
        due.push(take_text(alloc, &mut lines)?)?;
    }
    if refusal.cause == Cause::WrongForm {
        place.put_other_form(&mut lines)?;
        due.push(take_text(alloc, &mut lines)?)?;
    }
    Ok(RefusalPlace { path, found, due })
}

/// Walks through the elements, and forgets their lines.
fn walk_all(
    walk: &mut ElementWalk,
    octets: &[u8],
    lines: &mut LineBuffer,
) -> Result<(), AllocError> {
    for _ in 0..=octets.len() {
        let is_there = walk.step(octets, lines)?;
        lines.octets.clear();
        if !is_there {
            return Ok(());
        }
    }
    Ok(())
}

/// The text that was made, which is forgotten.
fn take_text(alloc: Global, lines: &mut LineBuffer) -> Result<String, AllocError> {
    let text = String::from_utf8_lossy(alloc, &lines.octets)?;
    lines.octets.clear();
    Ok(text)
}
