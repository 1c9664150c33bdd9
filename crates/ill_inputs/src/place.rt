//! The place of a refusal in words.

/// The place of a refusal in words.
#[derive(Drop)]
pub struct RefusalPlace {
    /// The names of the elements round the place, the outermost one first.
    pub path: String,
    /// The octets or the end that is there.
    pub found: String,
    /// The elements that were due there, a text for each.
    pub due: Vec<String>,
}
