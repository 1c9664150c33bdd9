//! Messages as their normal forms.
ghost use Rattle.std.specs.Prelude.{◌≡◌, ◌≤◌, ℕ, List, ◌++◌, IfOk, IsTrue, length};
ghost use Rattle.std.specs.Io.KnownBytes.{Appends};
ghost use Rattle.ill_schema.specs.Profiles.{profile_of};
ghost use Rattle.ill_read.specs.Answers.{IsNormalIn, NormalAnswersIn, ReadsNextIn};
ghost use Rattle.ill_read.specs.code.Usual.{IsNormalFormOf};

use crate::failure::{Failure, ReadFailure};
use crate::normal_form_draft::NormalFormDraft;
use crate::read::read_draft;
use crate::reader::Reader;
use crate::recorder::{NoRecorder, Recorder};
use crate::usual::{usual_form, usual_front};
use ber_core::{Broken, Source};
use ill_schema::{Cause, Profile};
use std::alloc::{AllocError, Global};

/// The normal form of a message, in DER (X.690, 8 to 11). Two messages are of one APDU if and only if their normal forms are equal.
#[derive(Drop)]
pub struct NormalForm {
    /// Its octets.
    pub octets: Vec<u8>,
    /// The number of octets that the message had in the input.
    pub input_len: u32,
}

/// The number of octets at hand in which the first usual message is looked for.
const FIRST_WINDOW_LEN: usize = 2000;

/// The same, at most.
const MAX_WINDOW_LEN: usize = 65_536;

/// A reader of normal forms, one message after another. The elements that are open stand in it, so a stream of messages is best read by one
/// reader that stays where it is.
///
/// ```text
/// let mut reader = NormalReader::new(alloc);
/// while let Some(normal) = reader.read(Profile::Two, source, buffer)? {
///     archive.put(&normal.octets)?;
///     buffer = normal.octets;
/// }
/// ```
#[derive(Drop)]
pub struct NormalReader {
    alloc: Global,
    reader: Reader<NormalFormDraft>,
    /// The memory that usual messages are written to.
    scratch: Vec<u8>,
    /// The number of octets at hand in which a usual message is looked for. It grows, so that a reader of one message clears little memory.
    window_len: usize,
}

impl NormalReader {
    ghost use Rattle.ill_read.specs.OpenElements.{open_count};

    /// A reader that has read nothing. That takes no memory.
    #[inline(always)]
    pub fn new(alloc: Global) -> NormalReader {
        NormalReader {
            alloc,
            reader: Reader::new(
                alloc,
                Profile::Two,
                NormalFormDraft::new(alloc, Vec::new(alloc)),
            ),
            scratch: Vec::new(alloc),
            window_len: FIRST_WINDOW_LEN,
        }
    }

    /// Reads the normal form of the message in the profile at the front of what is left, as [`read_message`](crate::read_message) reads the
    /// message, and writes it in the memory of `buffer`, whose octets are forgotten. What was read before makes no difference.
    ///
    /// # Errors
    ///
    /// Those of [`read_message`](crate::read_message), in the profile.
    #[inline(always)]
    pub fn read<R: Source>(
        &mut self,
        profile: Profile,
        source: &mut R,
        buffer: Vec<u8>,
    ) -> Result<Option<NormalForm>, ReadFailure>
        ensures next { ReadsNextIn (profile_of profile) (R.left source.old) (R.left source.new)
            (R.is_broken source.old) (R.is_broken source.new)
            (IsNormalIn (profile_of profile)) result }
        ensures few { open_count self.new.reader ≤ 32 }
    {
        self.read_recording(profile, source, buffer, &mut NoRecorder)
    }

    /// Reads a normal form as [`NormalReader::read`] does, and appends the octets that the message had to `recorded`.
    ///
    /// # Errors
    ///
    /// Those of [`read_message`](crate::read_message), in the profile; some octets may have been recorded then.
    #[inline(always)]
    pub fn read_recording<R: Source, K: Recorder>(
        &mut self,
        profile: Profile,
        source: &mut R,
        buffer: Vec<u8>,
        recorded: &mut K,
    ) -> Result<Option<NormalForm>, ReadFailure>
        ensures next { ReadsNextIn (profile_of profile) (R.left source.old) (R.left source.new)
            (R.is_broken source.old) (R.is_broken source.new)
            (λ n octets. IsNormalIn (profile_of profile) n octets
            × Appends (K.recorded recorded.old) (K.recorded recorded.new) octets) result }
        ensures few { open_count self.new.reader ≤ 32 }
    {
        let mut buffer = buffer;
        let hand = source.buffered();
        let window = &hand[..hand.len().min(self.window_len)];
        let Ok(found) = usual_front(profile, window, &mut self.scratch, &mut buffer) else {
            return Err(ReadFailure::OutOfMemory);
        };
        if let Some(taken) = found {
            if let Err(_) = recorded.append(&window[..taken]) {
                return Err(ReadFailure::OutOfMemory);
            }
            return match source.consume(taken) {
                Ok(()) => Ok(Some(NormalForm {
                    octets: buffer,
                    input_len: taken as u32,
                })),
                Err(Broken) => Err(ReadFailure::ReadFault),
            };
        }
        // It may be a usual one that is longer than the window.
        if window.len() < hand.len() {
            self.window_len = self.window_len.saturating_mul(8).min(MAX_WINDOW_LEN);
        }
        self.read_any(profile, source, buffer, recorded)
    }

    /// Does the same for any message, element by element.
    #[inline(always)]
    fn read_any<R: Source, K: Recorder>(
        &mut self,
        profile: Profile,
        source: &mut R,
        buffer: Vec<u8>,
        recorded: &mut K,
    ) -> Result<Option<NormalForm>, ReadFailure>
        ensures next { ReadsNextIn (profile_of profile) (R.left source.old) (R.left source.new)
            (R.is_broken source.old) (R.is_broken source.new)
            (λ n octets. IsNormalIn (profile_of profile) n octets
            × Appends (K.recorded recorded.old) (K.recorded recorded.new) octets) result }
        ensures few { open_count self.new.reader ≤ 32 }
    {
        self.reader
            .restart(profile, NormalFormDraft::new(self.alloc, buffer));
        match read_draft(&mut self.reader, source, recorded) {
            Ok(Some(read)) => Ok(Some(self.normal(read))),
            Ok(None) => Ok(None),
            Err(failure) => Err(failure),
        }
    }

    /// Reads the normal form of the message in the profile that the whole slice is, as [`decode_normal`] does, in the memory of `buffer`.
    ///
    /// # Errors
    ///
    /// Those of [`decode`](crate::decode), in the profile.
    #[inline(always)]
    pub fn decode(
        &mut self,
        profile: Profile,
        octets: &[u8],
        buffer: Vec<u8>,
    ) -> Result<NormalForm, Failure>
        ensures answers { NormalAnswersIn (profile_of profile) octets.now result }
        ensures few { open_count self.new.reader ≤ 32 }
    {
        let mut buffer = buffer;
        if is_usual(profile, octets, &mut buffer)? {
            return Ok(NormalForm {
                octets: buffer,
                input_len: octets.len() as u32,
            });
        }
        self.decode_any(profile, octets, buffer)
    }

    /// Does the same for any message, element by element.
    #[inline(always)]
    fn decode_any(
        &mut self,
        profile: Profile,
        octets: &[u8],
        buffer: Vec<u8>,
    ) -> Result<NormalForm, Failure>
        ensures answers { NormalAnswersIn (profile_of profile) octets.now result }
        ensures few { open_count self.new.reader ≤ 32 }
    {
        self.reader
            .restart(profile, NormalFormDraft::new(self.alloc, buffer));
        let _ = self.reader.read_elements(octets);
        if !self.reader.outcome()? {
            return Err(Failure::refused(octets.len() as u32, Cause::Truncated));
        }
        let input_len = self.reader.offset();
        if input_len as usize != octets.len() {
            return Err(Failure::refused(input_len, Cause::TrailingBytes));
        }
        Ok(self.normal(input_len))
    }

    /// The normal form that was written, of a message that had this number of octets.
    #[inline(always)]
    fn normal(&mut self, input_len: u32) -> NormalForm
        ensures octets { result.octets.items ≡ self.old.reader.path.draft.octets }
        ensures input_len { result.input_len ≡ input_len }
    {
        let blank = NormalFormDraft::new(self.alloc, Vec::new(self.alloc));
        NormalForm {
            octets: self.reader.exchange_draft(blank).into_octets(),
            input_len,
        }
    }
}

/// Tells whether the whole slice is a usual message, and puts its normal form into the buffer then. False says nothing.
#[inline(always)]
fn is_usual(profile: Profile, octets: &[u8], buffer: &mut Vec<u8>) -> Result<bool, AllocError>
    ensures { IfOk result (λ it. IsTrue it
        → IsNormalFormOf (profile_of profile) buffer.new.items octets.now) }
{
    Ok(usual_form(profile, octets, buffer)? == Some(octets.len()))
}

/// Reads the normal form of the message in the profile at the front of what is left, as [`read_message`](crate::read_message) reads the
/// message. The normal form is written while the message is read; of the message no value is made, but of a leaf whose row has a default.
///
/// ```text
/// let normal = read_normal(alloc, Profile::Module, source)?;
/// ```
///
/// # Errors
///
/// Those of [`read_message`](crate::read_message), in the profile.
pub fn read_normal<R: Source>(
    alloc: Global,
    profile: Profile,
    source: &mut R,
) -> Result<Option<NormalForm>, ReadFailure>
    ensures { ReadsNextIn (profile_of profile) (R.left source.old) (R.left source.new)
        (R.is_broken source.old) (R.is_broken source.new)
        (IsNormalIn (profile_of profile)) result }
{
    let mut buffer = Vec::new(alloc);
    let hand = source.buffered();
    let window = &hand[..hand.len().min(FIRST_WINDOW_LEN)];
    let Ok(found) = usual_form(profile, window, &mut buffer) else {
        return Err(ReadFailure::OutOfMemory);
    };
    let Some(taken) = found else {
        return read_any_normal(alloc, profile, source, buffer);
    };
    match source.consume(taken) {
        Ok(()) => Ok(Some(NormalForm {
            octets: buffer,
            input_len: taken as u32,
        })),
        Err(Broken) => Err(ReadFailure::ReadFault),
    }
}

/// Reads the normal form of any message by a reader of its own, which takes longer to make than most messages to read.
#[inline(never)]
fn read_any_normal<R: Source>(
    alloc: Global,
    profile: Profile,
    source: &mut R,
    buffer: Vec<u8>,
) -> Result<Option<NormalForm>, ReadFailure>
    ensures { ReadsNextIn (profile_of profile) (R.left source.old) (R.left source.new)
        (R.is_broken source.old) (R.is_broken source.new)
        (IsNormalIn (profile_of profile)) result }
{
    NormalReader::new(alloc).read_any(profile, source, buffer, &mut NoRecorder)
}

/// The normal form of the message in the profile that the whole slice is.
///
/// ```text
/// let normal = decode_normal(alloc, Profile::Two, octets)?;
/// archive.put(&normal.octets)?;
/// ```
///
/// # Errors
///
/// Those of [`decode`](crate::decode), in the profile.
pub fn decode_normal(alloc: Global, profile: Profile, octets: &[u8]) -> Result<NormalForm, Failure>
    ensures { NormalAnswersIn (profile_of profile) octets.now result }
{
    let mut buffer = Vec::new(alloc);
    if is_usual(profile, octets, &mut buffer)? {
        return Ok(NormalForm {
            octets: buffer,
            input_len: octets.len() as u32,
        });
    }
    decode_any_normal(alloc, profile, octets, buffer)
}

/// The normal form of any message that the whole slice is, by a reader of its own.
#[inline(never)]
fn decode_any_normal(
    alloc: Global,
    profile: Profile,
    octets: &[u8],
    buffer: Vec<u8>,
) -> Result<NormalForm, Failure>
    ensures { NormalAnswersIn (profile_of profile) octets.now result }
{
    NormalReader::new(alloc).decode_any(profile, octets, buffer)
}
