//! The header of an element, as it is in the octets.
use ber_core::{Header, HeaderState, Id};

/// The octets of a header, as far as they reach.
#[derive(Clone, Copy)]
pub struct ElementStart {
    /// The identifier, once it is whole, and how many octets it has.
    pub id: Option<(Id, usize)>,
    /// The header, once it is whole.
    pub header: Option<Header>,
    /// The number of octets that were read: those of the header, or up to where it is invalid.
    pub size: usize,
}

/// Reads the header that the octets begin with.
pub fn read_start(octets: &[u8]) -> ElementStart {
    let mut state = HeaderState::new();
    let mut begun = ElementStart {
        id: None,
        header: None,
        size: 0,
    };
    for (index, octet) in octets.iter().enumerate() {
        let pushed = state.push(*octet);
        begun.size = index.saturating_add(1);
        if begun.id.is_none() {
            begun.id = state.id().map(|id| (id, begun.size));
        }
        if !matches!(pushed, Ok(None)) {
            begun.header = pushed.unwrap_or(None);
            return begun;
        }
    }
    begun
}
