use crate::element::apdu_row;
use crate::measure::measure_row;
use ill_schema::Message;
use std::alloc::{AllocError, Global};

/// The sizes of a message's normal form, in octets: of the whole, and of the contents of each
/// constructed element in it.
#[derive(Debug, Drop)]
pub struct Sizes {
    pub(crate) contents: Vec<u32>,
    pub(crate) total: u32,
}

impl Sizes {
    ghost use Rattle.std.specs.Prelude.{◌≡◌, IfOk, length};
    ghost use Rattle.ill_schema.specs.Apdu.{normal_form};
    ghost use Rattle.ill_schema.specs.Message.{apdu_of};
    ghost use Rattle.ill_write.specs.ContentSizes.{content_sizes, tree_of};
    ghost use Rattle.ill_write.specs.Sizes.{contents_of, total_of};

    /// Measures the normal form of a message: what its headers say as lengths of constructed
    /// contents (X.690, 8.1.3), in the order of the headers, and the size of the whole.
    ///
    /// # Errors
    ///
    /// [`AllocError`], where memory is refused.
    pub fn measure(alloc: Global, message: &Message) -> Result<Sizes, AllocError>
        ensures contents { IfOk result (λ s. contents_of s ≡ content_sizes (tree_of message.now)) }
        ensures total { IfOk result (λ s. total_of s ≡ length (normal_form (apdu_of message.now))) }
    {
        let mut contents = Vec::new(alloc);
        let total = measure_row(apdu_row(message), message.body(), &mut contents)?;
        Ok(Sizes { contents, total })
    }

    /// The size of the normal form, in octets.
    pub fn total(&self) -> u32
        ensures { result ≡ total_of self.now }
    {
        self.total
    }
}
