//! Jobs on lines.
use ill_schema::Profile;

/// The result for the message of a line.
#[derive(Clone, Copy, Debug, PartialEq, Eq)]
pub enum LineJob {
    /// A line that says whether it is its normal form.
    Check,
    /// Its digest: SHA-256 of its normal form.
    Digest,
    /// Its normal form, in hexadecimal.
    Canonicalise,
}

/// The options of a job on lines: the job itself, and the profile that messages are read in.
#[derive(Clone, Copy, Debug, PartialEq, Eq)]
pub struct LineOptions {
    pub profile: Profile,
    pub job: LineJob,
}
