//! Messages that are read one after another, with what is wanted of each.
ghost use Rattle.std.specs.Prelude.{◌≡◌, length};
ghost use Rattle.ill_schema.specs.Profiles.{profile_of};
ghost use Rattle.ill_read.specs.Answers.{ReadsNextIn};
ghost use Rattle.ill_normal.specs.ReadMessages.{IsMessage};

use ber_core::Source;
use ill_read::{
    NoRecorder, NormalForm, NormalReader, Outline, OutlineReader, OutlinedMessage, ReadFailure,
};
use ill_schema::Profile;
use std::alloc::Global;
use std::mem;

/// What is kept of a message while it is read, beside its normal form.
#[derive(Clone, Copy, Debug, PartialEq, Eq)]
pub struct Wants {
    /// True if the octets that spell it are kept.
    pub spelled: bool,
    /// True if its outline is made.
    pub outline: bool,
}

/// A message that was read.
#[derive(Drop)]
pub struct ReadMessage {
    /// The number of octets that it has in the input.
    pub len: u32,
    /// Its normal form.
    pub normal: Vec<u8>,
    /// The octets that spell it, if they are wanted.
    pub spelled: Vec<u8>,
    /// Its outline, if that is wanted.
    pub outline: Outline,
}

impl ReadMessage {
    /// No message, which takes no memory.
    fn empty(alloc: Global) -> ReadMessage {
        ReadMessage {
            len: 0,
            normal: Vec::new(alloc),
            spelled: Vec::new(alloc),
            outline: Outline::new(alloc),
        }
    }
}

/// A reader of one message after another, which uses memory again.
///
/// ```
/// let mut reader = MessageReader::new(alloc);
/// while let Some(_) = reader.read(Profile::Two, wants, source)? {
///     archive.put(&reader.message.normal)?;
/// }
/// ```
#[derive(Drop)]
pub struct MessageReader {
    alloc: Global,
    normal: NormalReader,
    outline: OutlineReader,
    /// The message that was read last. Its memory is used again for the next one.
    pub message: ReadMessage,
}

impl MessageReader {
    /// A reader that has read nothing. That takes no memory.
    pub fn new(alloc: Global) -> MessageReader {
        MessageReader {
            alloc,
            normal: NormalReader::new(alloc),
            outline: OutlineReader::new(alloc),
            message: ReadMessage::empty(alloc),
        }
    }

    /// Reads the message in the profile that the source begins with, once, as [`read_message`](crate::read_message) does, and returns the
    /// number of octets that it has. What was read before makes no difference.
    ///
    /// ```
    /// let count = reader.read(Profile::Module, wants, source)?;
    /// ```
    ///
    /// # Errors
    ///
    /// Those of [`read_message`](crate::read_message), in the profile.
    #[inline(always)]
    pub fn read<R: Source>(
        &mut self,
        profile: Profile,
        wants: Wants,
        source: &mut R,
    ) -> Result<Option<u32>, ReadFailure>
        ensures { ReadsNextIn (profile_of profile) (R.left source.old) (R.left source.new)
            (R.is_broken source.old) (R.is_broken source.new)
            (λ count octets. (count ≡ length octets)
            × IsMessage (profile_of profile) wants self.new.message octets) result }
    {
        if wants.outline {
            return self.read_outlined(profile, wants, source);
        }
        let ReadMessage {
            normal,
            spelled,
            ..
        } = &mut self.message;
        let memory = mem::replace(normal, Vec::new(self.alloc));
        spelled.clear();
        let reader = &mut self.normal;
        if wants.spelled {
            return match reader.read_recording(profile, source, memory, spelled) {
                Ok(Some(read)) => Ok(Some(self.keep(read))),
                Ok(None) => Ok(None),
                Err(failure) => Err(failure),
            };
        }
        match reader.read_recording(profile, source, memory, &mut NoRecorder) {
            Ok(Some(read)) => Ok(Some(self.keep(read))),
            Ok(None) => Ok(None),
            Err(failure) => Err(failure),
        }
    }

    /// Reads a message, and makes its outline.
    fn read_outlined<R: Source>(
        &mut self,
        profile: Profile,
        wants: Wants,
        source: &mut R,
    ) -> Result<Option<u32>, ReadFailure>
        ensures { ReadsNextIn (profile_of profile) (R.left source.old) (R.left source.new)
            (R.is_broken source.old) (R.is_broken source.new)
            (λ count octets. (count ≡ length octets)
            × IsMessage (profile_of profile) wants self.new.message octets) result }
    {
        let memory = OutlinedMessage {
            outline: mem::replace(&mut self.message.outline, Outline::new(self.alloc)),
            normal: mem::replace(&mut self.message.normal, Vec::new(self.alloc)),
            input_len: 0,
        };
        let spelled = &mut self.message.spelled;
        spelled.clear();
        let reader = &mut self.outline;
        if wants.spelled {
            return match reader.read_recording(profile, source, memory, spelled) {
                Ok(Some(read)) => Ok(Some(self.keep_outlined(read))),
                Ok(None) => Ok(None),
                Err(failure) => Err(failure),
            };
        }
        match reader.read_recording(profile, source, memory, &mut NoRecorder) {
            Ok(Some(read)) => Ok(Some(self.keep_outlined(read))),
            Ok(None) => Ok(None),
            Err(failure) => Err(failure),
        }
    }

    /// Keeps what was read, and returns the number of octets that it has in the input.
    #[inline(always)]
    fn keep(&mut self, read: NormalForm) -> u32
        ensures len { (result ≡ read.input_len) × (self.new.message.len ≡ read.input_len) }
        ensures normal { self.new.message.normal ≡ read.octets }
        ensures spelled { self.new.message.spelled ≡ self.old.message.spelled }
    {
        let message = &mut self.message;
        message.normal = read.octets;
        message.len = read.input_len;
        message.len
    }

    /// Keeps an outline that was read, too.
    #[inline(always)]
    fn keep_outlined(&mut self, read: OutlinedMessage) -> u32
        ensures len { (result ≡ read.input_len) × (self.new.message.len ≡ read.input_len) }
        ensures normal { self.new.message.normal ≡ read.normal }
        ensures spelled { self.new.message.spelled ≡ self.old.message.spelled }
        ensures outline { self.new.message.outline ≡ read.outline }
    {
        let message = &mut self.message;
        message.normal = read.normal;
        message.outline = read.outline;
        message.len = read.input_len;
        message.len
    }
}
