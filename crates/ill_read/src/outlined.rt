//! Messages as their outlines, beside their normal forms.
ghost use Rattle.std.specs.Prelude.{◌≡◌, ◌≤◌, ◌++◌};
ghost use Rattle.std.specs.Io.KnownBytes.{Appends};
ghost use Rattle.ill_schema.specs.Profiles.{profile_of};
ghost use Rattle.ill_read.specs.Answers.{ReadsNextIn};
ghost use Rattle.ill_read.specs.Outlined.{IsOutlinedIn};

use crate::failure::ReadFailure;
use crate::outline_draft::OutlineDraft;
use crate::read::read_draft;
use crate::reader::Reader;
use crate::recorder::{NoRecorder, Recorder};
use ber_core::Source;
use ill_grammar::Outline;
use ill_schema::Profile;
use std::alloc::Global;

/// A message that was read: its outline and its normal form.
#[derive(Drop)]
pub struct OutlinedMessage {
    /// Its value, as marks.
    pub outline: Outline,
    /// Its normal form.
    pub normal: Vec<u8>,
    /// The number of octets that the message had in the input.
    pub input_len: u32,
}

/// A reader of outlines, one message after another. The elements that are open stand in it, so a stream of messages is best read by one
/// reader that stays where it is.
///
/// ```text
/// let mut reader = OutlineReader::new(alloc);
/// while let Some(read) = reader.read_recording(Profile::Two, source, memory, &mut octets)? {
///     show(read.outline.marks())?;
///     memory = read;
/// }
/// ```
#[derive(Drop)]
pub struct OutlineReader {
    alloc: Global,
    reader: Reader<OutlineDraft>,
}

impl OutlinedMessage {
    /// No message, which takes no memory.
    pub fn empty(alloc: Global) -> OutlinedMessage {
        OutlinedMessage {
            outline: Outline::new(alloc),
            normal: Vec::new(alloc),
            input_len: 0,
        }
    }
}

impl OutlineReader {
    ghost use Rattle.ill_read.specs.OpenElements.{open_count};

    /// A reader that has read nothing. That takes no memory.
    #[inline(always)]
    pub fn new(alloc: Global) -> OutlineReader {
        OutlineReader {
            alloc,
            reader: Reader::new(
                alloc,
                Profile::Two,
                OutlineDraft::new(alloc, Outline::new(alloc), Vec::new(alloc)),
            ),
        }
    }

    /// Reads the outline of the message in the profile at the front of what is left, in the memory of another message, which is forgotten. What
    /// was read before makes no difference. An outline takes two to four octets of memory for each octet of most messages.
    /// The octets that the message had are appended to `recorded`.
    ///
    /// # Errors
    ///
    /// Those of [`read_message`](crate::read_message), in the profile; some octets may have been recorded then.
    #[inline(always)]
    pub fn read_recording<R: Source, K: Recorder>(
        &mut self,
        profile: Profile,
        source: &mut R,
        memory: OutlinedMessage,
        recorded: &mut K,
    ) -> Result<Option<OutlinedMessage>, ReadFailure>
        ensures next { ReadsNextIn (profile_of profile) (R.left source.old) (R.left source.new)
            (R.is_broken source.old) (R.is_broken source.new)
            (λ o octets. IsOutlinedIn (profile_of profile) o octets
            × Appends (K.recorded recorded.old) (K.recorded recorded.new) octets) result }
        ensures few { open_count self.new.reader ≤ 32 }
    {
        let OutlinedMessage {
            outline,
            normal,
            ..
        } = memory;
        self.reader
            .restart(profile, OutlineDraft::new(self.alloc, outline, normal));
        match read_draft(&mut self.reader, source, recorded) {
            Ok(Some(read)) => Ok(Some(self.outlined(read))),
            Ok(None) => Ok(None),
            Err(failure) => Err(failure),
        }
    }

    /// The outline that was made, of a message that had this number of octets.
    #[inline(always)]
    fn outlined(&mut self, input_len: u32) -> OutlinedMessage
        ensures outline { result.outline.marks.items ≡ self.old.reader.path.draft.marks.items }
        ensures input_len { result.input_len ≡ input_len }
        ensures normal { result.normal.items ≡ self.old.reader.path.draft.octets.octets }
    {
        let blank = OutlineDraft::new(self.alloc, Outline::new(self.alloc), Vec::new(self.alloc));
        let (marks, normal) = self.reader.exchange_draft(blank).into_parts();
        OutlinedMessage {
            outline: Outline::of_marks(marks),
            normal,
            input_len,
        }
    }
}

/// Reads the outline of the message in the profile at the front of what is left, as [`read_message`](crate::read_message) reads the message.
///
/// ```text
/// let outlined = read_outline(alloc, Profile::Module, source)?;
/// ```
///
/// # Errors
///
/// Those of [`read_message`](crate::read_message), in the profile.
pub fn read_outline<R: Source>(
    alloc: Global,
    profile: Profile,
    source: &mut R,
) -> Result<Option<OutlinedMessage>, ReadFailure>
    ensures { ReadsNextIn (profile_of profile) (R.left source.old) (R.left source.new)
        (R.is_broken source.old) (R.is_broken source.new)
        (IsOutlinedIn (profile_of profile)) result }
{
    let memory = OutlinedMessage::empty(alloc);
    OutlineReader::new(alloc).read_recording(profile, source, memory, &mut NoRecorder)
}
